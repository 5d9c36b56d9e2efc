//! Types of tables.
ghost use Rattle.wenc_base.specs.Prelude.{itself, table_type, table_type_lawful, as_itself};
ghost use Rattle.wenc_base.specs.Prelude.{serves_itself};

use crate::delimited::{Delimited, DelimitedEq};
use crate::encode::Encode;
use crate::fault::Fault;
use crate::limits::Limits;
use crate::types::RefType;
use std::alloc::Allocator;

/// The type of a table (WebAssembly 3.0, binary format, "Table Types").
#[derive(Clone, Copy, PartialEq, Eq)]
pub struct TableType {
    /// The type of its elements.
    pub element_type: RefType,
    /// Whether its indices are 64-bit.
    pub table64: bool,
    /// The initial number of elements, from 0 to 18446744073709551615.
    pub minimum: u64,
    /// The maximum number of elements, from 0 to 18446744073709551615, if there is one.
    pub maximum: Option<u64>,
}

impl Encode for TableType {
    ghost piece = { λ t. table_type t };

    fn encode<A: Allocator>(&self, sink: &mut Vec<u8, A>) -> Result<(), Fault> {
        let limits = Limits {
            minimum: self.minimum,
            maximum: self.maximum,
            is_shared: false,
            is_long: self.table64,
        };
        (self.element_type, limits).encode(sink)
    }
}

impl Delimited for TableType {
    ghost reads_back = { as_itself table_type_lawful };

    ghost written = { λ _. serves_itself };
}

impl DelimitedEq for TableType {
    ghost alike = { itself _ };
}
