//! The examples of the doc comments: each function's body is one of them, word for word, followed
//! by what the function returns.

pub mod commands;
