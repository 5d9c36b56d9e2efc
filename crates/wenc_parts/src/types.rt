//! Value types of components, and the results of functions.
ghost use Rattle.std.specs.Prelude.{◌≡◌};
ghost use Rattle.wenc_base.specs.Prelude.{itself, as_itself, as_seen, serves_itself};
ghost use Rattle.wenc_parts.specs.Prelude.{primitive_byte, primitive, primitive_lawful, value_type};
ghost use Rattle.wenc_parts.specs.Prelude.{value_type_lawful, result_list, result_list_lawful};
ghost use Rattle.wenc_parts.specs.Prelude.{same_result_list};

use std::alloc::Allocator;
use wenc_base::{Delimited, DelimitedEq, Encode, Fault, Prefix, encode_byte};

/// A primitive value type of a component (component model, binary format, `primvaltype`).
#[derive(Clone, Copy, Debug, PartialEq, Eq, Hash)]
pub enum PrimitiveValType {
    /// A boolean.
    Bool,
    /// A signed 8-bit integer.
    S8,
    /// An unsigned 8-bit integer.
    U8,
    /// A signed 16-bit integer.
    S16,
    /// An unsigned 16-bit integer.
    U16,
    /// A signed 32-bit integer.
    S32,
    /// An unsigned 32-bit integer.
    U32,
    /// A signed 64-bit integer.
    S64,
    /// An unsigned 64-bit integer.
    U64,
    /// A 32-bit floating point number with one NaN.
    F32,
    /// A 64-bit floating point number with one NaN.
    F64,
    /// A Unicode scalar value.
    Char,
    /// A string.
    String,
    /// An `error-context`.
    ErrorContext,
}

impl PrimitiveValType {
    fn byte(self) -> u8
        ensures { result ≡ primitive_byte self }
    {
        match self {
            PrimitiveValType::Bool => 0x7f,
            PrimitiveValType::S8 => 0x7e,
            PrimitiveValType::U8 => 0x7d,
            PrimitiveValType::S16 => 0x7c,
            PrimitiveValType::U16 => 0x7b,
            PrimitiveValType::S32 => 0x7a,
            PrimitiveValType::U32 => 0x79,
            PrimitiveValType::S64 => 0x78,
            PrimitiveValType::U64 => 0x77,
            PrimitiveValType::F32 => 0x76,
            PrimitiveValType::F64 => 0x75,
            PrimitiveValType::Char => 0x74,
            PrimitiveValType::String => 0x73,
            PrimitiveValType::ErrorContext => 0x64,
        }
    }
}

impl Encode for PrimitiveValType {
    ghost piece = { λ p. primitive p };

    fn encode<A: Allocator>(&self, sink: &mut Vec<u8, A>) -> Result<(), Fault> {
        encode_byte(self.byte(), sink)
    }
}

impl Delimited for PrimitiveValType {
    ghost reads_back = { as_itself primitive_lawful };

    ghost written = { λ _. serves_itself };
}

impl DelimitedEq for PrimitiveValType {
    ghost alike = { itself _ };
}

/// A value type of a component (component model, binary format, `valtype`).
#[derive(Clone, Copy, PartialEq, Eq, Hash)]
pub enum ComponentValType {
    /// A primitive type.
    Primitive(PrimitiveValType),
    /// The defined type with this index.
    Type(u32),
}

impl Encode for ComponentValType {
    ghost piece = { λ t. value_type t };

    #[inline(always)]
    fn encode<A: Allocator>(&self, sink: &mut Vec<u8, A>) -> Result<(), Fault> {
        match self {
            ComponentValType::Primitive(ty) => ty.encode(sink),
            ComponentValType::Type(index) => i64::from(*index).encode(sink),
        }
    }
}

impl Delimited for ComponentValType {
    ghost reads_back = { as_itself value_type_lawful };

    ghost written = { λ _. serves_itself };
}

impl DelimitedEq for ComponentValType {
    ghost alike = { itself _ };
}

/// The result of a function: a value of this type, or none (component model, binary format,
/// `resultlist`).
#[derive(Clone, Copy, PartialEq, Eq)]
pub struct ResultList(pub Option<ComponentValType>);

impl Encode for ResultList {
    ghost piece = { λ r. result_list r.0 };

    fn encode<A: Allocator>(&self, sink: &mut Vec<u8, A>) -> Result<(), Fault> {
        match self.0 {
            Some(ty) => Prefix(0x00, &ty).encode(sink),
            None => Prefix(0x01, &Prefix(0x00, &())).encode(sink),
        }
    }
}

impl Delimited for ResultList {
    ghost reads_back = { as_seen (λ r. r.0) result_list_lawful };

    ghost written = { λ _. serves_itself };
}

impl DelimitedEq for ResultList {
    ghost alike = { λ laws a b same. itself _ laws a b (same_result_list a b same) };
}

impl From<PrimitiveValType> for ComponentValType {
    ghost use Rattle.wenc_parts.specs.declared.types.ComponentValType.TheVariants.{Primitive};

    ghost from_gives = { λ p t. t ≡ Primitive p };

    fn from(ty: PrimitiveValType) -> ComponentValType {
        ComponentValType::Primitive(ty)
    }
}
