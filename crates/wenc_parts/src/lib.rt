//! The parts of a component's items: names, aliases, kinds, type references and value types.
//!
//! Each index is from 0 to 4294967295, and each string has at most 4294967295 bytes: encoding a
//! longer one fails with `Fault::TooLarge`.
#![tactic(auto)]

pub mod aliases;
pub mod component;
pub mod exports;
pub mod imports;
pub mod instances;
pub mod types;

pub use aliases::{Alias, AliasTree, ComponentOuterAliasKind};
pub use component::{Component, ComponentSection, ComponentSectionId};
pub use exports::ComponentExportKind;
pub use imports::{ComponentExternName, ComponentTypeRef, NameOptions, NameTree, TypeBounds};
pub use instances::ModuleArg;
pub use types::{ComponentValType, PrimitiveValType, ResultList};
