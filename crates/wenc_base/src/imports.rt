//! Types of the imports and exports of core modules.
ghost use Rattle.wenc_base.specs.Prelude.{itself, entity_type, entity_type_lawful, as_itself};
ghost use Rattle.wenc_base.specs.Prelude.{serves_itself};

use crate::delimited::{Delimited, DelimitedEq};
use crate::encode::{Encode, Prefix};
use crate::fault::Fault;
use crate::globals::GlobalType;
use crate::memories::MemoryType;
use crate::tables::TableType;
use crate::tags::TagType;
use std::alloc::Allocator;

/// The type of an import or export of a core module (WebAssembly 3.0, binary format, "External
/// Types").
#[derive(Clone, Copy, PartialEq, Eq)]
pub enum EntityType {
    /// A function, by the index of its type.
    Function(u32),
    /// A table.
    Table(TableType),
    /// A memory.
    Memory(MemoryType),
    /// A global variable.
    Global(GlobalType),
    /// An exception tag.
    Tag(TagType),
}

impl Encode for EntityType {
    ghost piece = { λ e. entity_type e };

    fn encode<A: Allocator>(&self, sink: &mut Vec<u8, A>) -> Result<(), Fault> {
        match self {
            EntityType::Function(index) => Prefix(0x00, index).encode(sink),
            EntityType::Table(ty) => Prefix(0x01, ty).encode(sink),
            EntityType::Memory(ty) => Prefix(0x02, ty).encode(sink),
            EntityType::Global(ty) => Prefix(0x03, ty).encode(sink),
            EntityType::Tag(ty) => Prefix(0x04, ty).encode(sink),
        }
    }
}

impl Delimited for EntityType {
    ghost reads_back = { as_itself entity_type_lawful };

    ghost written = { λ _. serves_itself };
}

impl DelimitedEq for EntityType {
    ghost alike = { itself _ };
}
