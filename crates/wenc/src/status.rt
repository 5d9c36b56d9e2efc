//! The exit statuses.

/// Every command was accepted, or a component was listed.
pub const DONE: u8 = 0;

/// The arguments are unknown, or a line is bad.
pub const MALFORMED: u8 = 1;

/// A command was refused, or memory ran out for a script.
pub const REFUSED: u8 = 2;

/// A component can't be listed, or memory ran out for that.
pub const UNLISTED: u8 = 3;

/// A read or a write failed.
pub const TRANSFER_FAILED: u8 = 4;
