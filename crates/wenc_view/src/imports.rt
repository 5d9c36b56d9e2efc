//! The `externdesc` of imports and exports.
ghost use Rattle.wenc_parts.specs.Prelude.{type_bounds_sound, type_bounds_lawful};
ghost use Rattle.wenc_parts.specs.Prelude.{type_reference_sound, type_reference_lawful};
ghost use Rattle.wenc_read.specs.Prelude.{read_by};

use crate::view::View;
use wenc_parts::{ComponentTypeRef, ComponentValType, TypeBounds};
use wenc_read::{Expected, Refusal, byte};

impl<'a> View<'a> for TypeBounds {
    ghost use Rattle.wenc_view.specs.Prelude.{TypeBounds as Value'};

    ghost Value = { Value' };

    ghost view = { λ b. b };

    ghost reading = { read_by type_bounds_sound type_bounds_lawful };

    #[tactic(auto, unfolding(wenc_base::specs::Readers::choose))]
    #[inline(always)]
    fn view_of(bytes: &'a [u8]) -> Result<(TypeBounds, &'a [u8]), Refusal> {
        match byte(bytes)? {
            (0x00, rest) => {
                let (index, rest) = u32::view_of(rest)?;
                Ok((TypeBounds::Eq(index), rest))
            }
            (0x01, rest) => Ok((TypeBounds::SubResource, rest)),
            _ => Err(Refusal::at(bytes, Expected::From(0, 1))),
        }
    }
}

impl<'a> View<'a> for ComponentTypeRef {
    ghost use Rattle.wenc_view.specs.Prelude.{ComponentTypeRef as Value'};

    ghost Value = { Value' };

    ghost view = { λ r. r };

    ghost reading = { read_by type_reference_sound type_reference_lawful };

    #[tactic(auto, unfolding(wenc_base::specs::Readers::choose))]
    #[inline(always)]
    fn view_of(bytes: &'a [u8]) -> Result<(ComponentTypeRef, &'a [u8]), Refusal> {
        match byte(bytes)? {
            (0x00, rest) => match byte(rest)? {
                (0x11, rest) => {
                    let (index, rest) = u32::view_of(rest)?;
                    Ok((ComponentTypeRef::Module(index), rest))
                }
                _ => Err(Refusal::at(rest, Expected::From(0x11, 0x11))),
            },
            (0x01, rest) => {
                let (index, rest) = u32::view_of(rest)?;
                Ok((ComponentTypeRef::Func(index), rest))
            }
            (0x02, rest) => {
                let (ty, rest) = ComponentValType::view_of(rest)?;
                Ok((ComponentTypeRef::Value(ty), rest))
            }
            (0x03, rest) => {
                let (bounds, rest) = TypeBounds::view_of(rest)?;
                Ok((ComponentTypeRef::Type(bounds), rest))
            }
            (0x05, rest) => {
                let (index, rest) = u32::view_of(rest)?;
                Ok((ComponentTypeRef::Instance(index), rest))
            }
            (0x04, rest) => {
                let (index, rest) = u32::view_of(rest)?;
                Ok((ComponentTypeRef::Component(index), rest))
            }
            _ => Err(Refusal::at(bytes, Expected::From(0, 5))),
        }
    }
}
