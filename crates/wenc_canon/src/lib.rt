//! Canonical functions, and the section that defines them.
//!
//! A section has at most 4294967295 functions, each with at most that many options, and at most
//! that many bytes after its size. Indices are from 0 to 4294967295, and are not checked.
#![tactic(auto)]

pub mod adds_builtin;
pub mod canonicals;
pub mod fields;
pub mod rows;

pub use adds_builtin::{AddsBuiltin, AddsRow, AddsSlot, AddsSlotRow};
pub use canonicals::{CanonicalFunctionSection, CanonicalOption};
pub use fields::{Fields, NotCancellable};
