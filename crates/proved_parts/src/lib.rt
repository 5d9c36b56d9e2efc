//! Proved facts about the crates up to `wenc_builder`: examples of their doc comments, worked
//! encodings, equality of values, and types that another crate defines.
#![tactic(auto)]

pub mod by_hand;
pub mod callers;
pub mod concrete;
pub mod declared;
pub mod examples;
pub mod holders;
pub mod strangers;
pub mod values;
pub mod wrapping;
