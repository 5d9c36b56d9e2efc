//! Types of memories.
ghost use Rattle.wenc_base.specs.Prelude.{itself, memory_type, memory_type_lawful, as_itself};
ghost use Rattle.wenc_base.specs.Prelude.{serves_itself};

use crate::delimited::{Delimited, DelimitedEq};
use crate::encode::Encode;
use crate::fault::Fault;
use crate::limits::Limits;
use std::alloc::Allocator;

/// The type of a memory (WebAssembly 3.0, binary format, "Memory Types"). Shared memories aren't in
/// that standard.
#[derive(Clone, Copy, PartialEq, Eq)]
pub struct MemoryType {
    /// The initial size in pages, from 0 to 18446744073709551615.
    pub minimum: u64,
    /// The maximum size in pages, from 0 to 18446744073709551615, if there is one.
    pub maximum: Option<u64>,
    /// Whether its addresses are 64-bit.
    pub memory64: bool,
    /// Whether it is shared between threads.
    pub shared: bool,
}

impl Encode for MemoryType {
    ghost piece = { λ m. memory_type m };

    fn encode<A: Allocator>(&self, sink: &mut Vec<u8, A>) -> Result<(), Fault> {
        let limits = Limits {
            minimum: self.minimum,
            maximum: self.maximum,
            is_shared: self.shared,
            is_long: self.memory64,
        };
        limits.encode(sink)
    }
}

impl Delimited for MemoryType {
    ghost reads_back = { as_itself memory_type_lawful };

    ghost written = { λ _. serves_itself };
}

impl DelimitedEq for MemoryType {
    ghost alike = { itself _ };
}
