//! Proved facts about scripts: the example of `wenc`, and its caller.
#![tactic(auto)]

pub mod callers;
pub mod examples;
