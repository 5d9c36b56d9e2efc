//! Reads the forms of items from the beginning of bytes, in place.
//!
//! Each type that is read implements `View`; types of components and instances, which nest, are
//! read by `type_at`. A value borrows its strings from the bytes, and its lists are iterators,
//! which read their members when they are asked for. Nothing is allocated.
#![tactic(auto)]

pub mod aliases;
pub mod canonicals;
pub mod composites;
pub mod core_imports;
pub mod core_type_views;
pub mod core_types;
pub mod defined_types;
pub mod entities;
pub mod exports;
pub mod extern_names;
pub mod imports;
pub mod instances;
pub mod laws;
pub mod list_of;
mod pairs;
pub mod type_views;
pub mod value_types;
pub mod view;

pub use canonicals::CanonView;
pub use core_type_views::CoreTypeView;
pub use defined_types::{CaseView, DefinedView};
pub use extern_names::NameView;
pub use instances::{CoreInstanceView, InstanceView};
pub use list_of::ListOf;
pub use type_views::{
    ComponentDeclView, ComponentDecls, InstanceDeclView, InstanceDecls, TypeView, type_at,
};
pub use view::{View, text_of};
