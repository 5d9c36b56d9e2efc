//! Proved facts about reading and lists, up to `wenc_list`: examples of their doc comments, and
//! callers of the laws.
#![tactic(auto)]

pub mod cut;
pub mod equality;
pub mod examples;
pub mod expected;
pub mod read;
pub mod taken;
