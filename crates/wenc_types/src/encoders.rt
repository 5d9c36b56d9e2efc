//! The encoders of types, each of which writes a type into its parent.

pub mod core_type;
pub mod defined_type;
pub mod func_type;
pub mod ty;
