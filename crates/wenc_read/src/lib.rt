//! Reads numbers and flags from the beginning of bytes.
//!
//! Each function returns the value that it read and the bytes after it, or an error if it read
//! none. Every spelling of the format is read, padded numbers among them: where several spell one
//! value, the writer writes the shortest.
#![tactic(auto)]

pub mod expected;
pub mod flag;
pub mod laws;
pub mod number;
pub mod refusal;

pub use expected::Expected;
pub use flag::flag_of;
pub use number::{byte, index_of, u32_of, u64_of};
pub use refusal::{NestedRefusal, Refusal};
