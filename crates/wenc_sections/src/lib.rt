//! The sections of a component.
//!
//! Numbers, indices, counts and sizes are from 0 to 4294967295.
//!
//! # Errors
//!
//! A call fails with `TooMany` if there would be more items, arguments or exports than that, with
//! `TooLarge` if there would be more bytes, and with `Memory` if an allocation fails. The receiver
//! is then unchanged.
#![tactic(auto)]

pub mod aliases;
pub mod canon_tree;
pub mod components;
pub mod counted;
pub mod exports;
pub mod imports;
pub mod instance_trees;
pub mod instances;
pub mod modules;
pub mod names;
pub mod space;
pub mod start;
pub mod types;

pub use aliases::ComponentAliasSection;
pub use canon_tree::{CanonOf, CanonTree};
pub use components::NestedComponentSection;
pub use counted::{Counted, EncoderKind};
pub use exports::ComponentExportSection;
pub use imports::ComponentImportSection;
pub use instance_trees::{CoreInstanceTree, InstanceTree};
pub use instances::{ComponentInstanceSection, InstanceSection};
pub use modules::ModuleSection;
pub use names::{ComponentNameSection, NamesOf};
pub use space::Space;
pub use start::ComponentStartSection;
pub use types::{ComponentTypeSection, CoreTypeSection};
pub use wenc_parts::Component;
