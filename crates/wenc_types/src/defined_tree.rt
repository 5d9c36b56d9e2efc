//! Defined types, as trees.
ghost use Rattle.std.specs.Prelude.{refl};
ghost use Rattle.wenc_base.specs.Prelude.{as_seen, serves_itself};
ghost use Rattle.wenc_types.specs.Prelude.{def_val_type, defined_view, defined_type_lawful};
ghost use Rattle.wenc_types.specs.Prelude.{labelled_type_view, case_view, alike_by, each_sees};
ghost use Rattle.wenc_types.specs.Prelude.{named_sees, case_sees, defined_sees, case, case_lawful};

use std::alloc::{Allocator, Global};
use wenc_base::{Delimited, DelimitedEq, Encode, Fault, Prefix};
use wenc_parts::{ComponentValType, PrimitiveValType};

/// A type of values that a component defines, as a tree (component model, binary format, "Type
/// Definitions").
///
/// More than 4294967295 fields, cases, elements or names can't be encoded, nor can a string of more
/// than 4294967295 bytes.
///
/// ```
/// let read = String::from_str(alloc, "read")?;
/// let write = String::from_str(alloc, "write")?;
/// let tree = DefinedTree::Flags(vec![in alloc; read, write]?);
/// ```
#[derive(Drop)]
#[derive_where(PartialEq, Eq)]
pub enum DefinedTree<A: Allocator = Global> {
    /// A primitive type.
    Primitive(PrimitiveValType),
    /// A record, by its fields in order: the name and the type of each.
    Record(Vec<(String<A>, ComponentValType), A>),
    /// A variant, by its cases in order.
    Variant(Vec<CaseTree<A>, A>),
    /// A list, by its element type.
    List(ComponentValType),
    /// A map.
    Map {
        /// The type of the keys.
        key: ComponentValType,
        /// The type of the values.
        value: ComponentValType,
    },
    /// A list of fixed length.
    FixedLengthList {
        /// The element type.
        element: ComponentValType,
        /// The number of elements.
        length: u32,
    },
    /// A tuple, by the types of its elements in order.
    Tuple(Vec<ComponentValType, A>),
    /// Flags, by their names in order.
    Flags(Vec<String<A>, A>),
    /// An `enum`, by the names of its cases in order.
    Enum(Vec<String<A>, A>),
    /// An option of a value of this type.
    Option(ComponentValType),
    /// A `result`: success or failure, each with an optional payload.
    Result {
        /// The payload type of success.
        ok: Option<ComponentValType>,
        /// The payload type of failure.
        err: Option<ComponentValType>,
    },
    /// An owned handle to a resource, by the index of the resource type.
    Own(u32),
    /// A borrowed handle to a resource, by the index of the resource type.
    Borrow(u32),
    /// A future, optionally with a payload type.
    Future(Option<ComponentValType>),
    /// A stream, optionally with a payload type.
    Stream(Option<ComponentValType>),
}

impl<A: Allocator> Encode for DefinedTree<A> {
    ghost piece = { λ t. def_val_type (defined_view t) };

    fn encode<B: Allocator>(&self, sink: &mut Vec<u8, B>) -> Result<(), Fault> {
        match self {
            DefinedTree::Primitive(ty) => ty.encode(sink),
            DefinedTree::Record(fields) => Prefix(0x72, &fields.as_slice()).encode(sink),
            DefinedTree::Variant(cases) => Prefix(0x71, &cases.as_slice()).encode(sink),
            DefinedTree::List(element) => Prefix(0x70, element).encode(sink),
            DefinedTree::Map { key, value } => Prefix(0x63, &(*key, *value)).encode(sink),
            DefinedTree::FixedLengthList { element, length } => {
                Prefix(0x67, &(*element, *length)).encode(sink)
            }
            DefinedTree::Tuple(elements) => Prefix(0x6f, &elements.as_slice()).encode(sink),
            DefinedTree::Flags(names) => Prefix(0x6e, &names.as_slice()).encode(sink),
            DefinedTree::Enum(names) => Prefix(0x6d, &names.as_slice()).encode(sink),
            DefinedTree::Option(ty) => Prefix(0x6b, ty).encode(sink),
            DefinedTree::Result { ok, err } => Prefix(0x6a, &(*ok, *err)).encode(sink),
            DefinedTree::Own(index) => Prefix(0x69, index).encode(sink),
            DefinedTree::Borrow(index) => Prefix(0x68, index).encode(sink),
            DefinedTree::Future(ty) => Prefix(0x65, ty).encode(sink),
            DefinedTree::Stream(ty) => Prefix(0x66, ty).encode(sink),
        }
    }
}

impl<A: Allocator> Delimited for DefinedTree<A> {
    ghost reads_back = { as_seen defined_view defined_type_lawful };

    ghost written = { λ _. serves_itself };
}

impl<A: Allocator> DelimitedEq for DefinedTree<A> {
    ghost use Rattle.std.specs.String.{string_bytes};

    ghost alike = { alike_by _ _ (defined_sees _
        (λ v w. each_sees _ labelled_type_view (named_sees _ (λ m n t e. rw e refl)) v.items
        w.items)
        (λ v w. each_sees _ case_view (case_sees _ (λ m n t e. rw e refl)) v.items w.items)
        (λ v w e. rw e refl)
        (λ v w. each_sees _ string_bytes (λ m n e. rw e refl) v.items w.items)
        (λ v w. each_sees _ string_bytes (λ m n e. rw e refl) v.items w.items)) };
}

/// A case of a variant (component model, binary format, "Type Definitions"). A string of more than
/// 4294967295 bytes can't be encoded.
#[derive(Drop)]
#[derive_where(PartialEq, Eq)]
pub struct CaseTree<A: Allocator = Global> {
    /// The name of the case.
    pub name: String<A>,
    /// The type of its payload, if it has one.
    pub ty: Option<ComponentValType>,
}

impl<A: Allocator> Encode for CaseTree<A> {
    ghost piece = { λ c. case (case_view c) };

    fn encode<B: Allocator>(&self, sink: &mut Vec<u8, B>) -> Result<(), Fault> {
        // The last byte says that the case refines no other.
        (self.name.as_str(), self.ty, Prefix(0x00, &())).encode(sink)
    }
}

impl<A: Allocator> Delimited for CaseTree<A> {
    ghost reads_back = { as_seen case_view case_lawful };

    ghost written = { λ _. serves_itself };
}

impl<A: Allocator> DelimitedEq for CaseTree<A> {
    ghost alike = { alike_by _ _ (case_sees _ (λ m n t e. rw e refl)) };
}
