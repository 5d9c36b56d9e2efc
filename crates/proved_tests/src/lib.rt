//! Proved facts about commands and laws: examples of their doc comments, callers of the laws, and
//! properties of runs of commands. `proved_parts` and `proved_lists` have those of the crates
//! below, `proved_scripts` those of `wenc`.
#![tactic(auto)]

pub mod applied;
pub mod built;
pub mod encoders;
pub mod examples;
pub mod finished;
pub mod importing;
pub mod lights;
pub mod listed;
pub mod rebuilt;
pub mod runs;
