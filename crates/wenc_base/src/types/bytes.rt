//! Lists of value types that take one byte each.
ghost use Rattle.std.specs.Prelude.{◌≡◌, ◌∷◌, ◌++◌, [], length, nat_lt, ◌&&◌, if◌then◌else◌};
ghost use Rattle.std.specs.Prelude.{slice_get};
ghost use Rattle.wenc_base.specs.Prelude.{list, val_type, is_byte_type, of_byte};

use super::{AbstractHeapType, HeapType, RefType, ValType};
use crate::encode::Encode;
use crate::fault::Fault;
use crate::short::Short;
use std::alloc::Allocator;
use std::marker::Model;

/// Up to 11 value types on the stack, as their encodings of one byte each: number types, vector
/// types and nullable references to `func` and `extern` (WebAssembly 3.0, binary format, "Value
/// Types").
#[derive(Drop)]
pub struct ByteTypes {
    bytes: Short,
}

impl Model for ByteTypes {
    ghost use Rattle.std.specs.List.{AllByRecursion};
    ghost use Rattle.std.specs.Prelude.{List, map};
    ghost use Rattle.wenc_base.specs.Prelude.{ValType as Type', of_byte, IsByteType};

    ghost Value = { List Type' };

    ghost view = { λ t. map of_byte t.bytes };

    ghost invariant = { λ t. AllByRecursion IsByteType t.bytes };
}

impl ByteTypes {
    /// Creates an empty list.
    #[inline(always)]
    pub fn new() -> ByteTypes
        ensures { result ≡ [] }
    {
        ByteTypes {
            bytes: Short::new(),
        }
    }

    /// Appends a type and returns true, or returns false if its encoding is longer than one byte or
    /// if there are 11 types.
    #[inline(always)]
    pub fn push(&mut self, ty: ValType) -> bool
        ensures has_room { result ≡ (is_byte_type ty && nat_lt (length self.old) 11) }
        ensures pushed { self.new ≡ (if result then self.old ++ ty ∷ [] else self.old) }
    {
        let Ok(byte) = ty.byte_or_reference() else {
            return false;
        };
        if self.bytes.as_slice().len() == 11 {
            return false;
        }
        self.bytes.push(byte);
        true
    }

    /// Returns the type at an index.
    pub fn get(&self, index: usize) -> Option<ValType>
        ensures { result ≡ slice_get self.now index }
    {
        match self.bytes.as_slice().get(index) {
            Some(byte) => Some(type_of(*byte)),
            None => None,
        }
    }
}

/// Returns the type with this encoding of one byte.
fn type_of(byte: u8) -> ValType
    ensures { result ≡ of_byte byte }
{
    match byte {
        0x7f => ValType::I32,
        0x7e => ValType::I64,
        0x7d => ValType::F32,
        0x7c => ValType::F64,
        0x7b => ValType::V128,
        byte => ValType::Ref(RefType {
            nullable: true,
            heap_type: HeapType::Abstract(match byte {
                0x70 => AbstractHeapType::Func,
                _ => AbstractHeapType::Extern,
            }),
        }),
    }
}

/// Encodes the number of types, then each. Fails only if an allocation fails.
impl Encode for ByteTypes {
    ghost piece = { λ ts. list val_type ts };

    fn encode<A: Allocator>(&self, sink: &mut Vec<u8, A>) -> Result<(), Fault> {
        self.bytes.as_slice().encode(sink)
    }
}
