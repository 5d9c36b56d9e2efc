//! Value types of components.
ghost use Rattle.wenc_view.specs.Prelude.{ComponentValType as Value'};
ghost use Rattle.wenc_view.specs.Prelude.{ComponentValType as ValueType, find, primitive_types};
ghost use Rattle.wenc_parts.specs.Prelude.{value_type_sound, value_type_lawful, result_list_sound};
ghost use Rattle.wenc_parts.specs.Prelude.{result_list_lawful, primitive_byte};
ghost use Rattle.wenc_read.specs.Prelude.{read_by};
ghost use Rattle.std.specs.Prelude.{◌≡◌};

use crate::view::View;
use wenc_parts::{ComponentValType, PrimitiveValType, ResultList};
use wenc_read::{Expected, Refusal, byte, index_of};

/// Returns the primitive type of this byte, if there is one.
pub(crate) fn primitive_of(byte: u8) -> Option<PrimitiveValType>
    ensures { result ≡ find primitive_byte primitive_types byte }
{
    match byte {
        0x7f => Some(PrimitiveValType::Bool),
        0x7e => Some(PrimitiveValType::S8),
        0x7d => Some(PrimitiveValType::U8),
        0x7c => Some(PrimitiveValType::S16),
        0x7b => Some(PrimitiveValType::U16),
        0x7a => Some(PrimitiveValType::S32),
        0x79 => Some(PrimitiveValType::U32),
        0x78 => Some(PrimitiveValType::S64),
        0x77 => Some(PrimitiveValType::U64),
        0x76 => Some(PrimitiveValType::F32),
        0x75 => Some(PrimitiveValType::F64),
        0x74 => Some(PrimitiveValType::Char),
        0x73 => Some(PrimitiveValType::String),
        0x64 => Some(PrimitiveValType::ErrorContext),
        _ => None,
    }
}

impl<'a> View<'a> for ComponentValType {
    ghost Value = { Value' };

    ghost view = { λ t. t };

    ghost reading = { read_by value_type_sound value_type_lawful };

    #[tactic(auto, unfolding(wenc_base::specs::Readers::choose))]
    #[inline(always)]
    fn view_of(bytes: &'a [u8]) -> Result<(ComponentValType, &'a [u8]), Refusal> {
        let (first, rest) = byte(bytes)?;
        match primitive_of(first) {
            Some(ty) => Ok((ComponentValType::Primitive(ty), rest)),
            None => match index_of(bytes) {
                Ok((index, rest)) => Ok((ComponentValType::Type(index), rest)),
                Err(refusal) => Err(refusal.or(bytes, Expected::ComponentValType)),
            },
        }
    }
}

impl<'a> View<'a> for ResultList {
    ghost use Rattle.std.specs.Prelude.{Option as OptionOf};

    ghost Value = { OptionOf ValueType };

    ghost view = { λ r. r.0 };

    ghost reading = { read_by result_list_sound result_list_lawful };

    #[tactic(auto, unfolding(wenc_base::specs::Readers::choose))]
    #[inline(always)]
    fn view_of(bytes: &'a [u8]) -> Result<(ResultList, &'a [u8]), Refusal> {
        match byte(bytes)? {
            (0x00, rest) => {
                let (ty, rest) = ComponentValType::view_of(rest)?;
                Ok((ResultList(Some(ty)), rest))
            }
            (0x01, rest) => match byte(rest)? {
                (0x00, rest) => Ok((ResultList(None), rest)),
                _ => Err(Refusal::at(rest, Expected::From(0, 0))),
            },
            _ => Err(Refusal::at(bytes, Expected::From(0, 1))),
        }
    }
}
