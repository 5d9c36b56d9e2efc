//! Kinds of the exports and imports of core modules.
ghost use Rattle.std.specs.Prelude.{◌≡◌};
ghost use Rattle.wenc_base.specs.Prelude.{export_kind_byte, itself, core_export_kind};
ghost use Rattle.wenc_base.specs.Prelude.{core_export_kind_lawful, as_itself, serves_itself};

use crate::delimited::{Delimited, DelimitedEq};
use crate::encode::{Encode, encode_byte};
use crate::fault::Fault;
use std::alloc::Allocator;

/// The kind of an export or import of a core module (WebAssembly 3.0, binary format, "Export
/// Section").
#[derive(Clone, Copy, Debug, PartialEq, Eq)]
pub enum ExportKind {
    /// A function.
    Func,
    /// A table.
    Table,
    /// A memory.
    Memory,
    /// A global variable.
    Global,
    /// An exception tag.
    Tag,
}

/// Returns the byte of a kind.
fn kind_byte(kind: ExportKind) -> u8
    ensures { result ≡ export_kind_byte kind }
{
    match kind {
        ExportKind::Func => 0x00,
        ExportKind::Table => 0x01,
        ExportKind::Memory => 0x02,
        ExportKind::Global => 0x03,
        ExportKind::Tag => 0x04,
    }
}

impl Encode for ExportKind {
    ghost piece = { λ kind. core_export_kind kind };

    fn encode<A: Allocator>(&self, sink: &mut Vec<u8, A>) -> Result<(), Fault> {
        encode_byte(kind_byte(*self), sink)
    }
}

impl Delimited for ExportKind {
    ghost reads_back = { as_itself core_export_kind_lawful };

    ghost written = { λ _. serves_itself };
}

impl DelimitedEq for ExportKind {
    ghost alike = { itself _ };
}
