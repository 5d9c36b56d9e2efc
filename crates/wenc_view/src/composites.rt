//! The types that core modules define, alone and in recursion groups.
ghost use Rattle.std.specs.Prelude.{Some, false, true, IfOk};
ghost use Rattle.wenc_view.specs.Prelude.{composite_seen, sub_seen, rec_type_seen};
ghost use Rattle.wenc_view.specs.Prelude.{composite_lists, group_lists, AreCounted};
ghost use Rattle.wenc_base.specs.Prelude.{read_closed, read_extension, sub_of, storage_type_sound};
ghost use Rattle.wenc_base.specs.Prelude.{storage_type_lawful, field_type_sound, field_type_lawful};
ghost use Rattle.wenc_base.specs.Prelude.{Composite, composite_type_sound, composite_type_lawful};
ghost use Rattle.wenc_base.specs.Prelude.{sub_type_sound, sub_type_lawful, RecType, group_sound};
ghost use Rattle.wenc_base.specs.Prelude.{group_lawful};
ghost use Rattle.wenc_read.specs.Prelude.{Gives, IsWithin, read_by};

use crate::list_of::ListOf;
use crate::view::View;
use wenc_base::{FieldType, StorageType, ValType};
use wenc_read::{Expected, Refusal, byte};

/// A function, array or structure type, in place.
#[derive(Clone, Copy)]
pub enum CompositeView<'a> {
    /// A function type.
    Func {
        /// The types of its parameters.
        params: ListOf<'a, ValType>,
        /// The types of its results.
        results: ListOf<'a, ValType>,
    },
    /// An array type, by its element.
    Array(FieldType),
    /// A structure type, by its fields.
    Struct(ListOf<'a, FieldType>),
}

/// A core type, in place.
#[derive(Clone, Copy)]
pub struct SubView<'a> {
    /// Whether no other type can extend it.
    pub is_final: bool,
    /// The index of its supertype.
    pub supertype_idx: Option<u32>,
    /// What it is.
    pub composite_type: CompositeView<'a>,
}

/// A core type, or a recursion group, in place.
#[derive(Clone, Copy)]
pub enum GroupView<'a> {
    /// A single type.
    Sub(SubView<'a>),
    /// Types that may refer to each other.
    Rec(ListOf<'a, SubView<'a>>),
}

impl<'a> View<'a> for StorageType {
    ghost use Rattle.wenc_view.specs.Prelude.{StorageType as Value'};

    ghost Value = { Value' };

    ghost view = { λ t. t };

    ghost reading = { read_by storage_type_sound storage_type_lawful };

    #[tactic(auto, unfolding(wenc_base::specs::Readers::choose))]
    fn view_of(bytes: &'a [u8]) -> Result<(StorageType, &'a [u8]), Refusal> {
        match byte(bytes)? {
            (0x78, rest) => Ok((StorageType::I8, rest)),
            (0x77, rest) => Ok((StorageType::I16, rest)),
            _ => match ValType::view_of(bytes) {
                Ok((ty, rest)) => Ok((StorageType::Val(ty), rest)),
                Err(refusal) => Err(refusal.or(bytes, Expected::StorageType)),
            },
        }
    }
}

impl<'a> View<'a> for FieldType {
    ghost use Rattle.wenc_view.specs.Prelude.{FieldType as Value'};

    ghost Value = { Value' };

    ghost view = { λ f. f };

    ghost reading = { read_by field_type_sound field_type_lawful };

    fn view_of(bytes: &'a [u8]) -> Result<(FieldType, &'a [u8]), Refusal> {
        let (element_type, rest) = StorageType::view_of(bytes)?;
        let (mutable, rest) = bool::view_of(rest)?;
        let field = FieldType {
            element_type,
            mutable,
        };
        Ok((field, rest))
    }
}

impl<'a> View<'a> for CompositeView<'a> {
    ghost Value = { Composite };

    ghost view = { composite_seen };

    ghost reading = { read_by composite_type_sound composite_type_lawful };

    ghost lists = { composite_lists };

    #[tactic(auto, unfolding(wenc_base::specs::Readers::choose))]
    fn view_of(bytes: &'a [u8]) -> Result<(CompositeView<'a>, &'a [u8]), Refusal> {
        match byte(bytes)? {
            (0x60, rest) => {
                let (params, rest) = ListOf::view_of(rest)?;
                let (results, rest) = ListOf::view_of(rest)?;
                Ok((CompositeView::Func { params, results }, rest))
            }
            (0x5e, rest) => {
                let (element, rest) = FieldType::view_of(rest)?;
                Ok((CompositeView::Array(element), rest))
            }
            (0x5f, rest) => {
                let (fields, rest) = ListOf::view_of(rest)?;
                Ok((CompositeView::Struct(fields), rest))
            }
            _ => Err(Refusal::at(bytes, Expected::From(0x5e, 0x60))),
        }
    }
}

impl<'a> View<'a> for SubView<'a> {
    ghost use Rattle.wenc_base.specs.Prelude.{Sub};

    ghost Value = { Sub };

    ghost view = { sub_seen };

    ghost reading = { read_by sub_type_sound sub_type_lawful };

    ghost lists = { λ s. composite_lists s.composite_type };

    #[tactic(auto, unfolding(wenc_base::specs::Readers::choose))]
    fn view_of(bytes: &'a [u8]) -> Result<(SubView<'a>, &'a [u8]), Refusal> {
        match byte(bytes)? {
            (0x50, rest) => open(rest),
            (0x4f, rest) => closed(rest),
            _ => match CompositeView::view_of(bytes) {
                Ok((composite_type, rest)) => {
                    let ty = SubView {
                        is_final: true,
                        supertype_idx: None,
                        composite_type,
                    };
                    Ok((ty, rest))
                }
                Err(refusal) => Err(refusal.or(bytes, Expected::SubType)),
            },
        }
    }
}

/// Reads a type that isn't final, after its first byte.
pub(crate) fn open(bytes: &[u8]) -> Result<(SubView<'_>, &[u8]), Refusal>
    ensures found { Gives (λ x. (sub_seen x.0, x.1.now)) result
        (read_extension (λ n c. sub_of false n c) bytes.now) }
    ensures place { IsWithin (λ x. x.1.now) bytes.now result }
    ensures counted { IfOk result
        (λ x. AreCounted bytes.now (composite_lists x.0.composite_type) x.1.now) }
{
    let (supertype_idx, rest) = Option::view_of(bytes)?;
    let (composite_type, rest) = CompositeView::view_of(rest)?;
    let ty = SubView {
        is_final: false,
        supertype_idx,
        composite_type,
    };
    Ok((ty, rest))
}

/// Reads a final type with a supertype, after its first byte.
#[tactic(auto, unfolding(wenc_base::specs::Readers::choose))]
fn closed(bytes: &[u8]) -> Result<(SubView<'_>, &[u8]), Refusal>
    ensures found { Gives (λ x. (sub_seen x.0, x.1.now)) result
        (read_closed (λ n c. sub_of true (Some n) c) bytes.now) }
    ensures place { IsWithin (λ x. x.1.now) bytes.now result }
    ensures counted { IfOk result
        (λ x. AreCounted bytes.now (composite_lists x.0.composite_type) x.1.now) }
{
    match byte(bytes)? {
        (0x01, rest) => {
            let (supertype, rest) = u32::view_of(rest)?;
            let (composite_type, rest) = CompositeView::view_of(rest)?;
            let ty = SubView {
                is_final: true,
                supertype_idx: Some(supertype),
                composite_type,
            };
            Ok((ty, rest))
        }
        _ => Err(Refusal::at(bytes, Expected::From(1, 1))),
    }
}

impl<'a> View<'a> for GroupView<'a> {
    ghost Value = { RecType };

    ghost view = { rec_type_seen };

    ghost reading = { read_by group_sound group_lawful };

    ghost lists = { group_lists };

    #[tactic(auto, unfolding(wenc_base::specs::Readers::choose))]
    fn view_of(bytes: &'a [u8]) -> Result<(GroupView<'a>, &'a [u8]), Refusal> {
        match byte(bytes)? {
            (0x4e, rest) => {
                let (types, rest) = ListOf::view_of(rest)?;
                Ok((GroupView::Rec(types), rest))
            }
            _ => match SubView::view_of(bytes) {
                Ok((ty, rest)) => Ok((GroupView::Sub(ty), rest)),
                Err(refusal) => Err(refusal.or(bytes, Expected::Group)),
            },
        }
    }
}
