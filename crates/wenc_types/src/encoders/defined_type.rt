//! The encoder of defined types.
ghost use Rattle.std.specs.Iterator.{IsFinite};
ghost use Rattle.std.specs.Prelude.{◌≡◌, true, false, map};
ghost use Rattle.wenc_base.specs.Prelude.{Ends, EndsListed, MakesWhole};
ghost use Rattle.wenc_types.specs.Prelude.{DefValType, Primitive, Record, Variant, ListOf, MapOf};
ghost use Rattle.wenc_types.specs.Prelude.{FixedLengthList, Tuple, Flags, Enumeration, OptionOf};
ghost use Rattle.wenc_types.specs.Prelude.{ResultOf, Own, Borrow, Future, Stream, def_val_type};
ghost use Rattle.wenc_types.specs.Prelude.{borrowed_labelled_type, borrowed_case, defined_view};
ghost use Rattle.wenc_types.specs.Prelude.{case};

use crate::defined_tree::DefinedTree;
use std::alloc::Allocator;
use wenc_base::{Encode, Fault, Parent, Prefix};
use wenc_parts::{ComponentValType, PrimitiveValType};

/// Writes one defined type, a type of values, into its parent (component model, binary format,
/// "Type Definitions").
///
/// Each of its calls ends the type. If the call fails, or the encoder is dropped, the parent stays
/// unfinished until its `discard_unfinished` discards the type.
///
/// ```
/// let string = ComponentValType::Primitive(PrimitiveValType::String);
/// let mut types = ComponentTypeSection::new(alloc);
/// let fields = [("name", string), ("street", string)];
/// types.defined_type()?.record(fields.into_iter())?;
/// types.defined_type()?.option(string)?;
/// ```
///
/// # Errors
///
/// Each call fails with `TooMany` if a list has more than 4294967295 values, and with `TooLarge` if
/// the bytes of a name or the size of the parent would exceed 4294967295.
#[derive(Drop)]
pub struct ComponentDefinedTypeEncoder<'a, L: Parent> {
    parent: &'a mut L,
    ghost unfinished: { L.finished parent.now ≡ false },
    ghost whole: { (t : DefValType)
        → MakesWhole L.is_whole L.appended parent.now (def_val_type t) },
}

impl<'a, L: Parent> ComponentDefinedTypeEncoder<'a, L> {
    /// Creates an encoder for the member that `parent` has just opened. Each defined type has to be
    /// a complete member.
    pub fn new(parent: &'a mut L) -> Self
        requires opened { L.opened parent.old ≡ true }
        requires whole { (t : DefValType)
            → MakesWhole L.is_whole L.appended parent.old (def_val_type t) }
        ensures same_reference { result.parent.ghost_name ≡ parent.entry.ghost_name }
        ensures now { result.parent.now ≡ parent.old }
    {
        ComponentDefinedTypeEncoder { parent }
    }

    /// Defines the type of this tree.
    pub fn tree<A: Allocator>(self, ty: &DefinedTree<A>) -> Result<(), Fault>
        ensures { Ends L.appended L.ended L.refuses self.entry.parent.now self.exit.0.now result
            (def_val_type (defined_view ty.now)) }
    {
        self.parent.end_with(ty)
    }

    /// Defines a primitive type.
    pub fn primitive(self, ty: PrimitiveValType) -> Result<(), Fault>
        ensures { Ends L.appended L.ended L.refuses self.entry.parent.now self.exit.0.now result
            (def_val_type (Primitive ty)) }
    {
        self.parent.end_with(&ty)
    }

    /// Defines a record with these fields, each a name and a type.
    pub fn record<'b, F>(self, fields: F) -> Result<(), Fault>
    where
        F: Iterator<Item = (&'b str, ComponentValType)> + Drop,
        requires can { F.can_next fields }
        requires ends { IsFinite (F.remaining fields) }
        ensures { EndsListed L.appended L.ended L.refuses F.next_gives fields
            self.entry.parent.now self.exit.0.now result
            (λ fs. def_val_type (Record (map borrowed_labelled_type fs))) }
    {
        self.parent.end_with_list(&[0x72], fields)
    }

    /// Defines a variant with these cases, each a name and optionally a payload type.
    pub fn variant<'b, C>(self, cases: C) -> Result<(), Fault>
    where
        C: Iterator<Item = (&'b str, Option<ComponentValType>)> + Drop,
        requires can { C.can_next cases }
        requires ends { IsFinite (C.remaining cases) }
        ensures { EndsListed L.appended L.ended L.refuses C.next_gives cases
            self.entry.parent.now self.exit.0.now result
            (λ cs. def_val_type (Variant (map borrowed_case cs))) }
    {
        self.parent.end_with_list(&[0x71], cases.map(case_of))
    }

    /// Defines a list of any length.
    pub fn list(self, ty: ComponentValType) -> Result<(), Fault>
        ensures { Ends L.appended L.ended L.refuses self.entry.parent.now self.exit.0.now result
            (def_val_type (ListOf ty)) }
    {
        self.parent.end_with(&Prefix(0x70, &ty))
    }

    /// Defines a map from keys to values of these types.
    pub fn map(self, key: ComponentValType, value: ComponentValType) -> Result<(), Fault>
        ensures { Ends L.appended L.ended L.refuses self.entry.parent.now self.exit.0.now result
            (def_val_type (MapOf key value)) }
    {
        self.parent.end_with(&Prefix(0x63, &(key, value)))
    }

    /// Defines a list of this length.
    pub fn fixed_length_list(self, ty: ComponentValType, length: u32) -> Result<(), Fault>
        ensures { Ends L.appended L.ended L.refuses self.entry.parent.now self.exit.0.now result
            (def_val_type (FixedLengthList ty length)) }
    {
        self.parent.end_with(&Prefix(0x67, &(ty, length)))
    }

    /// Defines a tuple with elements of these types.
    pub fn tuple<T>(self, types: T) -> Result<(), Fault>
    where
        T: Iterator<Item = ComponentValType> + Drop,
        requires can { T.can_next types }
        requires ends { IsFinite (T.remaining types) }
        ensures { EndsListed L.appended L.ended L.refuses T.next_gives types
            self.entry.parent.now self.exit.0.now result
            (λ ts. def_val_type (Tuple ts)) }
    {
        self.parent.end_with_list(&[0x6f], types)
    }

    /// Defines flags with these names.
    pub fn flags<'b, F: Iterator<Item = &'b str> + Drop>(self, names: F) -> Result<(), Fault>
        requires can { F.can_next names }
        requires ends { IsFinite (F.remaining names) }
        ensures { EndsListed L.appended L.ended L.refuses F.next_gives names
            self.entry.parent.now self.exit.0.now result
            (λ ns. def_val_type (Flags (map (λ n. n.now) ns))) }
    {
        self.parent.end_with_list(&[0x6e], names)
    }

    /// Defines an `enum` with these cases.
    pub fn enum_type<'b, C: Iterator<Item = &'b str> + Drop>(self, cases: C) -> Result<(), Fault>
        requires can { C.can_next cases }
        requires ends { IsFinite (C.remaining cases) }
        ensures { EndsListed L.appended L.ended L.refuses C.next_gives cases
            self.entry.parent.now self.exit.0.now result
            (λ ns. def_val_type (Enumeration (map (λ n. n.now) ns))) }
    {
        self.parent.end_with_list(&[0x6d], cases)
    }

    /// Defines an option of a value of this type.
    pub fn option(self, ty: ComponentValType) -> Result<(), Fault>
        ensures { Ends L.appended L.ended L.refuses self.entry.parent.now self.exit.0.now result
            (def_val_type (OptionOf ty)) }
    {
        self.parent.end_with(&Prefix(0x6b, &ty))
    }

    /// Defines a `result`: success or failure, each optionally with a payload type.
    pub fn result(
        self,
        ok: Option<ComponentValType>,
        err: Option<ComponentValType>,
    ) -> Result<(), Fault>
        ensures { Ends L.appended L.ended L.refuses self.entry.parent.now self.exit.0.now result
            (def_val_type (ResultOf ok err)) }
    {
        self.parent.end_with(&Prefix(0x6a, &(ok, err)))
    }

    /// Defines an owned handle to a resource, whose type has this index.
    pub fn own(self, index: u32) -> Result<(), Fault>
        ensures { Ends L.appended L.ended L.refuses self.entry.parent.now self.exit.0.now result
            (def_val_type (Own index)) }
    {
        self.parent.end_with(&Prefix(0x69, &index))
    }

    /// Defines a borrowed handle to a resource, whose type has this index.
    pub fn borrow(self, index: u32) -> Result<(), Fault>
        ensures { Ends L.appended L.ended L.refuses self.entry.parent.now self.exit.0.now result
            (def_val_type (Borrow index)) }
    {
        self.parent.end_with(&Prefix(0x68, &index))
    }

    /// Defines a future, optionally with a payload type.
    pub fn future(self, payload: Option<ComponentValType>) -> Result<(), Fault>
        ensures { Ends L.appended L.ended L.refuses self.entry.parent.now self.exit.0.now result
            (def_val_type (Future payload)) }
    {
        self.parent.end_with(&Prefix(0x65, &payload))
    }

    /// Defines a stream, optionally with a payload type.
    pub fn stream(self, payload: Option<ComponentValType>) -> Result<(), Fault>
        ensures { Ends L.appended L.ended L.refuses self.entry.parent.now self.exit.0.now result
            (def_val_type (Stream payload)) }
    {
        self.parent.end_with(&Prefix(0x66, &payload))
    }
}

/// Returns the case with this name and type.
#[inline]
fn case_of<'a>(named: (&'a str, Option<ComponentValType>)) -> Case<'a>
    ensures { result ≡ record { name = named.entry.0; ty = named.entry.1 } }
{
    let (name, ty) = named;
    Case { name, ty }
}

/// A case of a variant.
#[derive(Clone, Copy)]
struct Case<'a> {
    name: &'a str,
    ty: Option<ComponentValType>,
}

impl<'a> Encode for Case<'a> {
    ghost piece = { λ c. case (record { name = c.name.now; ty = c.ty }) };

    /// The last byte says that the case refines no other.
    #[inline(always)]
    fn encode<A: Allocator>(&self, sink: &mut Vec<u8, A>) -> Result<(), Fault> {
        (self.name, (self.ty, Prefix(0x00, &()))).encode(sink)
    }
}
