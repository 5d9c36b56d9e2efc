//! Storage types of structure fields and array elements.
ghost use Rattle.wenc_base.specs.Prelude.{itself, storage_type, storage_type_lawful, field_type};
ghost use Rattle.wenc_base.specs.Prelude.{field_type_lawful, as_itself, serves_itself};

use super::ValType;
use crate::delimited::{Delimited, DelimitedEq};
use crate::encode::{Encode, encode_byte};
use crate::fault::Fault;
use std::alloc::Allocator;

/// The storage type of a structure field or an array element (WebAssembly 3.0, binary format,
/// "Composite Types").
#[derive(Clone, Copy, PartialEq, Eq)]
pub enum StorageType {
    /// An 8-bit integer.
    I8,
    /// A 16-bit integer.
    I16,
    /// A value of this type.
    Val(ValType),
}

impl Encode for StorageType {
    ghost piece = { λ t. storage_type t };

    fn encode<A: Allocator>(&self, sink: &mut Vec<u8, A>) -> Result<(), Fault> {
        let byte = match self {
            StorageType::I8 => 0x78,
            StorageType::I16 => 0x77,
            StorageType::Val(ty) => return ty.encode(sink),
        };
        encode_byte(byte, sink)
    }
}

impl Delimited for StorageType {
    ghost reads_back = { as_itself storage_type_lawful };

    ghost written = { λ _. serves_itself };
}

impl DelimitedEq for StorageType {
    ghost alike = { itself _ };
}

/// The type of a structure field or of the elements of an array (WebAssembly 3.0, binary format,
/// "Composite Types").
#[derive(Clone, Copy, PartialEq, Eq)]
pub struct FieldType {
    /// The storage type.
    pub element_type: StorageType,
    /// Whether it is mutable.
    pub mutable: bool,
}

impl Encode for FieldType {
    ghost piece = { λ f. field_type f };

    fn encode<A: Allocator>(&self, sink: &mut Vec<u8, A>) -> Result<(), Fault> {
        (self.element_type, self.mutable).encode(sink)
    }
}

impl Delimited for FieldType {
    ghost reads_back = { as_itself field_type_lawful };

    ghost written = { λ _. serves_itself };
}

impl DelimitedEq for FieldType {
    ghost alike = { itself _ };
}
