//! Types of global variables.
ghost use Rattle.wenc_base.specs.Prelude.{itself, global_type, global_type_lawful, as_itself};
ghost use Rattle.wenc_base.specs.Prelude.{serves_itself};

use crate::delimited::{Delimited, DelimitedEq};
use crate::encode::Encode;
use crate::fault::Fault;
use crate::types::ValType;
use std::alloc::Allocator;

/// The type of a global variable (WebAssembly 3.0, binary format, "Global Types").
#[derive(Clone, Copy, PartialEq, Eq)]
pub struct GlobalType {
    /// The type of its value.
    pub val_type: ValType,
    /// Whether it is mutable.
    pub mutable: bool,
}

impl Encode for GlobalType {
    ghost piece = { λ g. global_type g };

    fn encode<A: Allocator>(&self, sink: &mut Vec<u8, A>) -> Result<(), Fault> {
        (self.val_type, self.mutable).encode(sink)
    }
}

impl Delimited for GlobalType {
    ghost reads_back = { as_itself global_type_lawful };

    ghost written = { λ _. serves_itself };
}

impl DelimitedEq for GlobalType {
    ghost alike = { itself _ };
}
