//! Types of exception tags.
ghost use Rattle.wenc_base.specs.Prelude.{itself, tag_type, tag_type_lawful, as_itself};
ghost use Rattle.wenc_base.specs.Prelude.{serves_itself};

use crate::delimited::{Delimited, DelimitedEq};
use crate::encode::{Encode, Prefix};
use crate::fault::Fault;
use std::alloc::Allocator;

/// The type of an exception tag (WebAssembly 3.0, binary format, "Tag Types").
#[derive(Clone, Copy, PartialEq, Eq)]
pub struct TagType {
    /// The index of the function type that is the exception's signature: its parameters are what
    /// an exception carries.
    pub func_type_idx: u32,
}

impl Encode for TagType {
    ghost piece = { λ t. tag_type t };

    fn encode<A: Allocator>(&self, sink: &mut Vec<u8, A>) -> Result<(), Fault> {
        Prefix(0x00, &self.func_type_idx).encode(sink)
    }
}

impl Delimited for TagType {
    ghost reads_back = { as_itself tag_type_lawful };

    ghost written = { λ _. serves_itself };
}

impl DelimitedEq for TagType {
    ghost alike = { itself _ };
}
