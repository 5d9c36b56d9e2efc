//! The examples of the doc comments: each function's body is one of them, word for word, followed
//! by what the function returns.

pub mod base;
pub mod builder;
pub mod canon;
pub mod parts;
pub mod sections;
pub mod trees;
pub mod types;
