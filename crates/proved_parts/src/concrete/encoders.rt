//! Encoders of types with lists.

use std::alloc::Allocator;
use wenc_base::{CoreTypeEncoder, Fault, FieldType, StorageType, SubType};
use wenc_parts::{ComponentValType, PrimitiveValType};
use wenc_sections::{ComponentTypeSection, CoreTypeSection};
use wenc_types::ComponentDefinedTypeEncoder;

const STRING: ComponentValType = ComponentValType::Primitive(PrimitiveValType::String);

/// Writes a variant with a case that has a payload and one that has none.
pub fn variant<A: Allocator>(
    encoder: ComponentDefinedTypeEncoder<'_, ComponentTypeSection<A>>,
) -> Result<(), Fault> {
    encoder.variant([("a", None), ("b", Some(STRING))].into_iter())
}

/// Writes a tuple of two strings.
pub fn tuple<A: Allocator>(
    encoder: ComponentDefinedTypeEncoder<'_, ComponentTypeSection<A>>,
) -> Result<(), Fault> {
    encoder.tuple([STRING, STRING].into_iter())
}

/// Writes two flags.
pub fn flags<A: Allocator>(
    encoder: ComponentDefinedTypeEncoder<'_, ComponentTypeSection<A>>,
) -> Result<(), Fault> {
    encoder.flags(["a", "bc"].into_iter())
}

/// Writes an enum of two cases.
pub fn enum_type<A: Allocator>(
    encoder: ComponentDefinedTypeEncoder<'_, ComponentTypeSection<A>>,
) -> Result<(), Fault> {
    encoder.enum_type(["a", "bc"].into_iter())
}

/// Writes a structure of one byte.
pub fn structure<A: Allocator>(
    encoder: CoreTypeEncoder<'_, CoreTypeSection<A>>,
) -> Result<(), Fault> {
    let field = FieldType {
        element_type: StorageType::I8,
        mutable: true,
    };
    encoder.struct_([field].into_iter())
}

/// Writes a recursion group of one type.
pub fn group<A: Allocator, B: Allocator>(
    encoder: CoreTypeEncoder<'_, CoreTypeSection<A>>,
    ty: &SubType<B>,
) -> Result<(), Fault> {
    encoder.rec([ty].into_iter())
}
