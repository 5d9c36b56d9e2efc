//! Uses from another crate: its own types and sections, and types that a builder begins and
//! encoders end. The must-fail edits write another byte, end a type without an encoder, or end it
//! by an encoder of another kind.

pub mod endings;
pub mod own;
