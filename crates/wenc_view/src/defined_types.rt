//! Defined value types, in place.
ghost use Rattle.std.specs.Prelude.{◌∷◌, IfOk};
ghost use Rattle.wenc_base.specs.Prelude.{pick, nowhere};
ghost use Rattle.wenc_read.specs.Prelude.{Gives, IsWithin, read_by};
ghost use Rattle.wenc_types.specs.Prelude.{LabelledType, named_sound, labelled_type_lawful, Case};
ghost use Rattle.wenc_types.specs.Prelude.{case_sound, case_lawful, DefValType};
ghost use Rattle.wenc_types.specs.Prelude.{defined_type_lawful};
ghost use Rattle.wenc_view.specs.Prelude.{labelled_seen, case_seen, defined_seen, read_defined_row};
ghost use Rattle.wenc_view.specs.Prelude.{handle_rows, defined_sound, defined_lists};
ghost use Rattle.wenc_view.specs.Prelude.{AreCounted};

use crate::list_of::ListOf;
use crate::value_types::primitive_of;
use crate::view::View;
use wenc_parts::{ComponentValType, PrimitiveValType};
use wenc_read::{Expected, Refusal, byte};

/// A case of a variant.
#[derive(Clone, Copy)]
pub struct CaseView<'a> {
    /// Its name.
    pub name: &'a str,
    /// The type of its payload, if it has one.
    pub ty: Option<ComponentValType>,
}

/// A type of values that a component defines, in place.
#[derive(Clone, Copy)]
pub enum DefinedView<'a> {
    /// A primitive type.
    Primitive(PrimitiveValType),
    /// A record, by its fields in order: the name and the type of each.
    Record(ListOf<'a, (&'a str, ComponentValType)>),
    /// A variant, by its cases in order.
    Variant(ListOf<'a, CaseView<'a>>),
    /// A list, by its element type.
    List(ComponentValType),
    /// A map.
    Map {
        /// The type of the keys.
        key: ComponentValType,
        /// The type of the values.
        value: ComponentValType,
    },
    /// A list of fixed length.
    FixedLengthList {
        /// The element type.
        element: ComponentValType,
        /// The number of elements.
        length: u32,
    },
    /// A tuple, by the types of its elements in order.
    Tuple(ListOf<'a, ComponentValType>),
    /// Flags, by their names in order.
    Flags(ListOf<'a, &'a str>),
    /// An `enum`, by the names of its cases in order.
    Enum(ListOf<'a, &'a str>),
    /// An option of a value of this type.
    Option(ComponentValType),
    /// A `result`: success or failure, each with an optional payload.
    Result {
        /// The payload type of success.
        ok: Option<ComponentValType>,
        /// The payload type of failure.
        err: Option<ComponentValType>,
    },
    /// An owned handle to a resource, by the index of the resource type.
    Own(u32),
    /// A borrowed handle to a resource, by the index of the resource type.
    Borrow(u32),
    /// A future, optionally with a payload type.
    Future(Option<ComponentValType>),
    /// A stream, optionally with a payload type.
    Stream(Option<ComponentValType>),
}

/// A field or a parameter.
impl<'a> View<'a> for (&'a str, ComponentValType) {
    ghost Value = { LabelledType };

    ghost view = { labelled_seen };

    ghost reading = { read_by named_sound labelled_type_lawful };

    #[inline(always)]
    fn view_of(bytes: &'a [u8]) -> Result<((&'a str, ComponentValType), &'a [u8]), Refusal> {
        let (name, rest) = <&'a str>::view_of(bytes)?;
        let (ty, rest) = ComponentValType::view_of(rest)?;
        Ok(((name, ty), rest))
    }
}

impl<'a> View<'a> for CaseView<'a> {
    ghost Value = { Case };

    ghost view = { case_seen };

    ghost reading = { read_by case_sound case_lawful };

    #[tactic(auto, unfolding(wenc_base::specs::Readers::choose))]
    fn view_of(bytes: &'a [u8]) -> Result<(CaseView<'a>, &'a [u8]), Refusal> {
        let (name, rest) = <&'a str>::view_of(bytes)?;
        let (ty, rest) = Option::view_of(rest)?;
        match byte(rest)? {
            (0x00, rest) => Ok((CaseView { name, ty }, rest)),
            _ => Err(Refusal::at(rest, Expected::From(0, 0))),
        }
    }
}

/// Reads a defined value type that isn't primitive, after its first byte.
#[inline(always)]
fn defined(first: u8, bytes: &[u8]) -> Result<(DefinedView<'_>, &[u8]), Refusal>
    ensures found { Gives (λ x. (defined_seen x.0, x.1.now)) result
        (read_defined_row first bytes.now) }
    ensures place { IsWithin (λ x. x.1.now) (first ∷ bytes.now) result }
    ensures counted { IfOk result (λ x. AreCounted bytes.now (defined_lists x.0) x.1.now) }
{
    match first {
        0x72 => {
            let (fields, rest) = ListOf::view_of(bytes)?;
            Ok((DefinedView::Record(fields), rest))
        }
        0x71 => {
            let (cases, rest) = ListOf::view_of(bytes)?;
            Ok((DefinedView::Variant(cases), rest))
        }
        0x70 => {
            let (element, rest) = ComponentValType::view_of(bytes)?;
            Ok((DefinedView::List(element), rest))
        }
        0x6f => {
            let (elements, rest) = ListOf::view_of(bytes)?;
            Ok((DefinedView::Tuple(elements), rest))
        }
        0x6e => {
            let (names, rest) = ListOf::view_of(bytes)?;
            Ok((DefinedView::Flags(names), rest))
        }
        0x6d => {
            let (names, rest) = ListOf::view_of(bytes)?;
            Ok((DefinedView::Enum(names), rest))
        }
        0x6b => {
            let (ty, rest) = ComponentValType::view_of(bytes)?;
            Ok((DefinedView::Option(ty), rest))
        }
        0x6a => {
            let (ok, rest) = Option::view_of(bytes)?;
            let (err, rest) = Option::view_of(rest)?;
            Ok((DefinedView::Result { ok, err }, rest))
        }
        _ => other_defined(first, bytes),
    }
}

/// Reads a handle, fixed-length list, stream, future or map type, after its first byte.
#[inline(always)]
fn other_defined(first: u8, bytes: &[u8]) -> Result<(DefinedView<'_>, &[u8]), Refusal>
    ensures found { Gives (λ x. (defined_seen x.0, x.1.now)) result
        (pick handle_rows nowhere first bytes.now) }
    ensures place { IsWithin (λ x. x.1.now) (first ∷ bytes.now) result }
    ensures counted { IfOk result (λ x. AreCounted bytes.now (defined_lists x.0) x.1.now) }
{
    match first {
        0x69 => {
            let (ty, rest) = u32::view_of(bytes)?;
            Ok((DefinedView::Own(ty), rest))
        }
        0x68 => {
            let (ty, rest) = u32::view_of(bytes)?;
            Ok((DefinedView::Borrow(ty), rest))
        }
        0x67 => {
            let (element, rest) = ComponentValType::view_of(bytes)?;
            let (length, rest) = u32::view_of(rest)?;
            Ok((DefinedView::FixedLengthList { element, length }, rest))
        }
        0x66 => {
            let (ty, rest) = Option::view_of(bytes)?;
            Ok((DefinedView::Stream(ty), rest))
        }
        0x65 => {
            let (ty, rest) = Option::view_of(bytes)?;
            Ok((DefinedView::Future(ty), rest))
        }
        0x63 => {
            let (key, rest) = ComponentValType::view_of(bytes)?;
            let (value, rest) = ComponentValType::view_of(rest)?;
            Ok((DefinedView::Map { key, value }, rest))
        }
        _ => Err(Refusal::before(bytes, Expected::Type)),
    }
}

impl<'a> View<'a> for DefinedView<'a> {
    ghost Value = { DefValType };

    ghost view = { defined_seen };

    ghost reading = { read_by defined_sound defined_type_lawful };

    ghost lists = { defined_lists };

    fn view_of(bytes: &'a [u8]) -> Result<(DefinedView<'a>, &'a [u8]), Refusal> {
        let (first, rest) = byte(bytes)?;
        match primitive_of(first) {
            Some(ty) => Ok((DefinedView::Primitive(ty), rest)),
            None => defined(first, rest),
        }
    }
}
