//! Limits of tables and memories.
ghost use Rattle.std.specs.Prelude.{◌≡◌, ◌≤◌, if◌then◌else◌};
ghost use Rattle.wenc_base.specs.Prelude.{limit_flags, limits};

use crate::encode::{Encode, Prefix};
use crate::fault::Fault;
use std::alloc::Allocator;

/// The size range of a table or a memory (WebAssembly 3.0, binary format, "Limits"). The threads
/// proposal, not that standard, defines shared ones.
#[derive(Clone, Copy)]
pub struct Limits {
    /// The initial size, from 0 to 2^64 - 1.
    pub minimum: u64,
    /// The maximum size, from 0 to 2^64 - 1, if there is one.
    pub maximum: Option<u64>,
    /// Whether it is shared between threads.
    pub is_shared: bool,
    /// Whether its addresses are 64-bit.
    pub is_long: bool,
}

impl Encode for Limits {
    ghost piece = { λ l. limits l.is_shared l.is_long l.minimum l.maximum };

    fn encode<A: Allocator>(&self, sink: &mut Vec<u8, A>) -> Result<(), Fault> {
        match self.maximum {
            None => {
                let flags = flags(false, self.is_shared, self.is_long);
                Prefix(flags, &self.minimum).encode(sink)
            }
            Some(maximum) => {
                let flags = flags(true, self.is_shared, self.is_long);
                Prefix(flags, &(self.minimum, maximum)).encode(sink)
            }
        }
    }
}

/// Returns the flags byte: whether a maximum follows, and whether sizes are shared and 64-bit.
fn flags(is_bounded: bool, is_shared: bool, is_long: bool) -> u8
    ensures { result ≡ limit_flags is_bounded is_shared is_long }
{
    bit(1, is_bounded) + (bit(2, is_shared) + bit(4, is_long))
}

/// Returns `number` if the bit is set, else 0.
fn bit(number: u8, is_set: bool) -> u8
    ensures is { result ≡ (if is_set then number else 0) }
    ensures most { result ≤ number }
{
    if is_set { number } else { 0 }
}
