//! Facts about values: worked encodings and components of literals; derived equality compares by
//! value, and hashes agree with it.

pub mod canonicals;
pub mod components;
pub mod equality;
pub mod hashes;
pub mod numbers;
pub mod parts;
pub mod types;
