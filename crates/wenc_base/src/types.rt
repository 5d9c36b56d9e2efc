//! Core types: value types, reference types and heap types. The submodules have the types that core
//! modules define.
ghost use Rattle.std.specs.Prelude.{◌≡◌, IfOk, IfErr, is_ok};
ghost use Rattle.wenc_base.specs.Prelude.{itself, val_type, val_type_lawful, reference};
ghost use Rattle.wenc_base.specs.Prelude.{reference_lawful, heap_type_lawful, abstract_byte};
ghost use Rattle.wenc_base.specs.Prelude.{abstract_type, abstract_type_lawful, is_byte_type};
ghost use Rattle.wenc_base.specs.Prelude.{of_byte, IsByteType, as_itself, serves_itself};
ghost use Rattle.wenc_base.specs.declared.types.ValType.TheVariants.{Ref};

pub mod bytes;
pub mod composite;
pub mod encoder;
pub mod groups;
pub mod guard;
pub mod storage;
pub mod sub;

use crate::delimited::{Delimited, DelimitedEq};
use crate::encode::{Encode, Prefix, encode_byte};
use crate::fault::Fault;
pub use bytes::ByteTypes;
pub use composite::{ArrayType, CompositeType, FuncType, StructType};
pub use encoder::CoreTypeEncoder;
pub use groups::GroupTree;
pub use guard::Guarded;
use std::alloc::Allocator;
pub use storage::{FieldType, StorageType};
pub use sub::SubType;

/// A value type of a core module (WebAssembly 3.0, binary format, "Value Types").
#[derive(Clone, Copy, PartialEq, Eq)]
pub enum ValType {
    /// A 32-bit integer.
    I32,
    /// A 64-bit integer.
    I64,
    /// A 32-bit floating point number.
    F32,
    /// A 64-bit floating point number.
    F64,
    /// A vector of 128 bits.
    V128,
    /// A reference.
    Ref(RefType),
}

impl ValType {
    /// Returns the encoding of a type that is one byte, or the reference type that it is.
    #[inline(always)]
    fn byte_or_reference(&self) -> Result<u8, &RefType>
        ensures byte { IfOk result (λ b. (self.now ≡ of_byte b) × IsByteType b) }
        ensures one { is_byte_type self.now ≡ is_ok result }
        ensures reference { IfErr result (λ r. self.now ≡ Ref r.now) }
    {
        match self {
            ValType::I32 => Ok(0x7f),
            ValType::I64 => Ok(0x7e),
            ValType::F32 => Ok(0x7d),
            ValType::F64 => Ok(0x7c),
            ValType::V128 => Ok(0x7b),
            ValType::Ref(ty) => match ty.heap_type {
                HeapType::Abstract(AbstractHeapType::Func) if ty.nullable => Ok(0x70),
                HeapType::Abstract(AbstractHeapType::Extern) if ty.nullable => Ok(0x6f),
                _ => Err(ty),
            },
        }
    }
}

impl Encode for ValType {
    ghost piece = { λ t. val_type t };

    fn encode<A: Allocator>(&self, sink: &mut Vec<u8, A>) -> Result<(), Fault> {
        match self.byte_or_reference() {
            Ok(byte) => encode_byte(byte, sink),
            Err(ty) => ty.encode(sink),
        }
    }
}

impl Delimited for ValType {
    ghost reads_back = { as_itself val_type_lawful };

    ghost written = { λ _. serves_itself };
}

impl DelimitedEq for ValType {
    ghost alike = { itself _ };
}

/// The type of a reference (WebAssembly 3.0, binary format, "Reference Types").
#[derive(Clone, Copy, PartialEq, Eq)]
pub struct RefType {
    /// Whether it is nullable.
    pub nullable: bool,
    /// The heap type that it refers to.
    pub heap_type: HeapType,
}

impl Encode for RefType {
    ghost piece = { λ r. reference r };

    fn encode<A: Allocator>(&self, sink: &mut Vec<u8, A>) -> Result<(), Fault> {
        if !self.nullable {
            return Prefix(0x64, &self.heap_type).encode(sink);
        }
        match self.heap_type {
            HeapType::Abstract(AbstractHeapType::Func | AbstractHeapType::Extern) => {
                self.heap_type.encode(sink)
            }
            _ => Prefix(0x63, &self.heap_type).encode(sink),
        }
    }
}

impl Delimited for RefType {
    ghost reads_back = { as_itself reference_lawful };

    ghost written = { λ _. serves_itself };
}

impl DelimitedEq for RefType {
    ghost alike = { itself _ };
}

/// The type of a reference's referent (WebAssembly 3.0, binary format, "Heap Types").
#[derive(Clone, Copy, PartialEq, Eq)]
pub enum HeapType {
    /// An abstract heap type.
    Abstract(AbstractHeapType),
    /// The type with this index.
    Concrete(u32),
}

impl Encode for HeapType {
    ghost use Rattle.wenc_base.specs.Prelude.{heap_type};

    ghost piece = { λ h. heap_type h };

    fn encode<A: Allocator>(&self, sink: &mut Vec<u8, A>) -> Result<(), Fault> {
        match self {
            HeapType::Abstract(ty) => ty.encode(sink),
            HeapType::Concrete(index) => i64::from(*index).encode(sink),
        }
    }
}

impl Delimited for HeapType {
    ghost reads_back = { as_itself heap_type_lawful };

    ghost written = { λ _. serves_itself };
}

impl DelimitedEq for HeapType {
    ghost alike = { itself _ };
}

/// An abstract heap type (WebAssembly 3.0, binary format, "Heap Types").
#[derive(Clone, Copy, Debug, PartialEq, Eq)]
pub enum AbstractHeapType {
    /// All functions.
    Func,
    /// External host references.
    Extern,
    /// Top of the `any` hierarchy: internal references, other than to functions and exceptions.
    Any,
    /// Bottom of the `any` hierarchy.
    None,
    /// Bottom of the `extern` hierarchy.
    NoExtern,
    /// Bottom of the `func` hierarchy.
    NoFunc,
    /// All references that can be compared: to structures, arrays and 31-bit integers.
    Eq,
    /// All structures.
    Struct,
    /// All arrays.
    Array,
    /// Unboxed 31-bit integers.
    I31,
    /// Exceptions.
    Exn,
    /// Bottom of the `exn` hierarchy.
    NoExn,
}

impl AbstractHeapType {
    fn byte(self) -> u8
        ensures { result ≡ abstract_byte self }
    {
        match self {
            AbstractHeapType::Func => 0x70,
            AbstractHeapType::Extern => 0x6f,
            AbstractHeapType::Any => 0x6e,
            AbstractHeapType::None => 0x71,
            AbstractHeapType::NoExtern => 0x72,
            AbstractHeapType::NoFunc => 0x73,
            AbstractHeapType::Eq => 0x6d,
            AbstractHeapType::Struct => 0x6b,
            AbstractHeapType::Array => 0x6a,
            AbstractHeapType::I31 => 0x6c,
            AbstractHeapType::Exn => 0x69,
            AbstractHeapType::NoExn => 0x74,
        }
    }
}

impl Encode for AbstractHeapType {
    ghost piece = { λ t. abstract_type t };

    fn encode<A: Allocator>(&self, sink: &mut Vec<u8, A>) -> Result<(), Fault> {
        encode_byte(self.byte(), sink)
    }
}

impl Delimited for AbstractHeapType {
    ghost reads_back = { as_itself abstract_type_lawful };

    ghost written = { λ _. serves_itself };
}

impl DelimitedEq for AbstractHeapType {
    ghost alike = { itself _ };
}
