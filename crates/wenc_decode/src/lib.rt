//! Owned values of what is read in place.
//!
//! `TreeOf` copies a borrowed value of `wenc_view`, with its strings and its lists, and fails only
//! if an allocation does.
#![tactic(auto)]

pub mod trees;

pub use trees::{TreeOf, room_for};
