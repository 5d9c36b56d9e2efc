//! Builds a component call by call: `ComponentBuilder` collects adjacent items of one kind in one
//! section, and returns the index of each item.
#![tactic(auto)]

mod builder;

pub use builder::ComponentBuilder;
pub use wenc_sections::Space;
