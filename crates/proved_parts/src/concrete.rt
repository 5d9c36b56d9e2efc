//! Generic calls at concrete types. Each is proved from its bounds alone, and so are its callers
//! here: they show that the bounds, and what the calls require of iterators, can be met.

pub mod encoders;
pub mod functions;
pub mod items;
pub mod values;
