//! Value types of core modules.
ghost use Rattle.std.specs.Prelude.{◌≡◌};
ghost use Rattle.wenc_base.specs.Prelude.{abstract_byte, abstract_types, to as reference_to};
ghost use Rattle.wenc_base.specs.Prelude.{heap_type_sound, heap_type_lawful, reference_sound};
ghost use Rattle.wenc_base.specs.Prelude.{reference_lawful, val_type_sound, val_type_lawful};
ghost use Rattle.wenc_view.specs.Prelude.{read_referred, find};
ghost use Rattle.wenc_read.specs.Prelude.{Gives, IsWithin, read_by};

use crate::view::View;
use wenc_base::{AbstractHeapType, HeapType, RefType, ValType};
use wenc_read::{Expected, Refusal, byte, index_of};

/// Returns the abstract heap type of this byte, if there is one.
fn abstract_of(byte: u8) -> Option<AbstractHeapType>
    ensures { result ≡ find abstract_byte abstract_types byte }
{
    match byte {
        0x74 => Some(AbstractHeapType::NoExn),
        0x73 => Some(AbstractHeapType::NoFunc),
        0x72 => Some(AbstractHeapType::NoExtern),
        0x71 => Some(AbstractHeapType::None),
        0x70 => Some(AbstractHeapType::Func),
        0x6f => Some(AbstractHeapType::Extern),
        0x6e => Some(AbstractHeapType::Any),
        0x6d => Some(AbstractHeapType::Eq),
        0x6c => Some(AbstractHeapType::I31),
        0x6b => Some(AbstractHeapType::Struct),
        0x6a => Some(AbstractHeapType::Array),
        0x69 => Some(AbstractHeapType::Exn),
        _ => None,
    }
}

impl<'a> View<'a> for HeapType {
    ghost use Rattle.wenc_view.specs.Prelude.{HeapType as Value'};

    ghost Value = { Value' };

    ghost view = { λ h. h };

    ghost reading = { read_by heap_type_sound heap_type_lawful };

    fn view_of(bytes: &'a [u8]) -> Result<(HeapType, &'a [u8]), Refusal> {
        let (first, rest) = byte(bytes)?;
        match abstract_of(first) {
            Some(ty) => Ok((HeapType::Abstract(ty), rest)),
            None => match index_of(bytes) {
                Ok((index, rest)) => Ok((HeapType::Concrete(index), rest)),
                Err(refusal) => Err(refusal.or(bytes, Expected::HeapType)),
            },
        }
    }
}

impl<'a> View<'a> for RefType {
    ghost use Rattle.wenc_base.specs.Prelude.{reference};
    ghost use Rattle.wenc_view.specs.Prelude.{RefType as Value'};

    ghost Value = { Value' };

    ghost view = { λ r. r };

    ghost reading = { read_by reference_sound reference_lawful };

    #[tactic(auto, unfolding(wenc_base::specs::Readers::choose))]
    fn view_of(bytes: &'a [u8]) -> Result<(RefType, &'a [u8]), Refusal> {
        match byte(bytes)? {
            (0x63, rest) => reference(true, rest),
            (0x64, rest) => reference(false, rest),
            (first, rest) => match abstract_of(first) {
                Some(ty) => Ok((to(true, HeapType::Abstract(ty)), rest)),
                None => Err(Refusal::at(bytes, Expected::RefType)),
            },
        }
    }
}

fn to(nullable: bool, heap_type: HeapType) -> RefType
    ensures { result ≡ reference_to nullable heap_type }
{
    RefType {
        nullable,
        heap_type,
    }
}

/// Reads a reference to the heap type that follows.
fn reference(nullable: bool, bytes: &[u8]) -> Result<(RefType, &[u8]), Refusal>
    ensures found { Gives (λ x. (x.0, x.1.now)) result (read_referred nullable bytes.now) }
    ensures place { IsWithin (λ x. x.1.now) bytes.now result }
{
    let (heap_type, rest) = HeapType::view_of(bytes)?;
    Ok((to(nullable, heap_type), rest))
}

impl<'a> View<'a> for ValType {
    ghost use Rattle.wenc_view.specs.Prelude.{ValType as Value'};

    ghost Value = { Value' };

    ghost view = { λ t. t };

    ghost reading = { read_by val_type_sound val_type_lawful };

    #[tactic(auto, unfolding(wenc_base::specs::Readers::choose))]
    fn view_of(bytes: &'a [u8]) -> Result<(ValType, &'a [u8]), Refusal> {
        match byte(bytes)? {
            (0x7f, rest) => Ok((ValType::I32, rest)),
            (0x7e, rest) => Ok((ValType::I64, rest)),
            (0x7d, rest) => Ok((ValType::F32, rest)),
            (0x7c, rest) => Ok((ValType::F64, rest)),
            (0x7b, rest) => Ok((ValType::V128, rest)),
            _ => match RefType::view_of(bytes) {
                Ok((ty, rest)) => Ok((ValType::Ref(ty), rest)),
                Err(refusal) => Err(refusal.or(bytes, Expected::ValType)),
            },
        }
    }
}
