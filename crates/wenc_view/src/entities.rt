//! Types of the imports and exports of core modules.
ghost use Rattle.wenc_base.specs.Prelude.{memory_type_sound, memory_type_lawful, table_type_sound};
ghost use Rattle.wenc_base.specs.Prelude.{table_type_lawful, global_type_sound, global_type_lawful};
ghost use Rattle.wenc_base.specs.Prelude.{tag_type_sound, tag_type_lawful, entity_type_sound};
ghost use Rattle.wenc_base.specs.Prelude.{entity_type_lawful, core_export_kind_sound};
ghost use Rattle.wenc_base.specs.Prelude.{core_export_kind_lawful};
ghost use Rattle.wenc_view.specs.Prelude.{read_maximum, read_bounds, memory_so, table_so};
ghost use Rattle.wenc_read.specs.Prelude.{Gives, IsWithin, read_by};

use crate::view::View;
use wenc_base::{
    EntityType, ExportKind, GlobalType, MemoryType, RefType, TableType, TagType, ValType,
};
use wenc_read::{Expected, Refusal, byte, u64_of};

/// Reads the maximum, if there is one.
fn maximum(has_maximum: bool, bytes: &[u8]) -> Result<(Option<u64>, &[u8]), Refusal>
    ensures found { Gives (λ x. (x.0, x.1.now)) result (read_maximum has_maximum bytes.now) }
    ensures place { IsWithin (λ x. x.1.now) bytes.now result }
{
    if !has_maximum {
        return Ok((None, bytes));
    }
    let (maximum, rest) = u64_of(bytes)?;
    Ok((Some(maximum), rest))
}

/// Reads a memory type, after the first byte of its limits.
fn memory(
    shared: bool,
    memory64: bool,
    has_maximum: bool,
    bytes: &[u8],
) -> Result<(MemoryType, &[u8]), Refusal>
    ensures found { Gives (λ x. (x.0, x.1.now)) result
        (read_bounds has_maximum (memory_so shared memory64) bytes.now) }
    ensures place { IsWithin (λ x. x.1.now) bytes.now result }
{
    let (minimum, rest) = u64_of(bytes)?;
    let (maximum, rest) = maximum(has_maximum, rest)?;
    let ty = MemoryType {
        minimum,
        maximum,
        memory64,
        shared,
    };
    Ok((ty, rest))
}

impl<'a> View<'a> for MemoryType {
    ghost use Rattle.wenc_view.specs.Prelude.{MemoryType as Value'};

    ghost Value = { Value' };

    ghost view = { λ m. m };

    ghost reading = { read_by memory_type_sound memory_type_lawful };

    #[tactic(auto, unfolding(wenc_base::specs::Readers::choose))]
    fn view_of(bytes: &'a [u8]) -> Result<(MemoryType, &'a [u8]), Refusal> {
        match byte(bytes)? {
            (0x00, rest) => memory(false, false, false, rest),
            (0x01, rest) => memory(false, false, true, rest),
            (0x02, rest) => memory(true, false, false, rest),
            (0x03, rest) => memory(true, false, true, rest),
            (0x04, rest) => memory(false, true, false, rest),
            (0x05, rest) => memory(false, true, true, rest),
            (0x06, rest) => memory(true, true, false, rest),
            (0x07, rest) => memory(true, true, true, rest),
            _ => Err(Refusal::at(bytes, Expected::From(0, 7))),
        }
    }
}

/// Reads a table type with this element type, after the first byte of its limits.
fn table(
    element_type: RefType,
    table64: bool,
    has_maximum: bool,
    bytes: &[u8],
) -> Result<(TableType, &[u8]), Refusal>
    ensures found { Gives (λ x. (x.0, x.1.now)) result
        (read_bounds has_maximum (table_so element_type table64) bytes.now) }
    ensures place { IsWithin (λ x. x.1.now) bytes.now result }
{
    let (minimum, rest) = u64_of(bytes)?;
    let (maximum, rest) = maximum(has_maximum, rest)?;
    let ty = TableType {
        element_type,
        table64,
        minimum,
        maximum,
    };
    Ok((ty, rest))
}

impl<'a> View<'a> for TableType {
    ghost use Rattle.wenc_view.specs.Prelude.{TableType as Value'};

    ghost Value = { Value' };

    ghost view = { λ t. t };

    ghost reading = { read_by table_type_sound table_type_lawful };

    #[tactic(auto, unfolding(wenc_base::specs::Readers::choose))]
    fn view_of(bytes: &'a [u8]) -> Result<(TableType, &'a [u8]), Refusal> {
        let (element_type, rest) = RefType::view_of(bytes)?;
        match byte(rest)? {
            (0x00, rest) => table(element_type, false, false, rest),
            (0x01, rest) => table(element_type, false, true, rest),
            (0x04, rest) => table(element_type, true, false, rest),
            (0x05, rest) => table(element_type, true, true, rest),
            _ => Err(Refusal::at(rest, Expected::TableLimits)),
        }
    }
}

impl<'a> View<'a> for GlobalType {
    ghost use Rattle.wenc_view.specs.Prelude.{GlobalType as Value'};

    ghost Value = { Value' };

    ghost view = { λ g. g };

    ghost reading = { read_by global_type_sound global_type_lawful };

    fn view_of(bytes: &'a [u8]) -> Result<(GlobalType, &'a [u8]), Refusal> {
        let (val_type, rest) = ValType::view_of(bytes)?;
        let (mutable, rest) = bool::view_of(rest)?;
        Ok((GlobalType { val_type, mutable }, rest))
    }
}

impl<'a> View<'a> for TagType {
    ghost use Rattle.wenc_view.specs.Prelude.{TagType as Value'};

    ghost Value = { Value' };

    ghost view = { λ t. t };

    ghost reading = { read_by tag_type_sound tag_type_lawful };

    #[tactic(auto, unfolding(wenc_base::specs::Readers::choose))]
    fn view_of(bytes: &'a [u8]) -> Result<(TagType, &'a [u8]), Refusal> {
        match byte(bytes)? {
            (0x00, rest) => {
                let (func_type_idx, rest) = u32::view_of(rest)?;
                Ok((TagType { func_type_idx }, rest))
            }
            _ => Err(Refusal::at(bytes, Expected::From(0, 0))),
        }
    }
}

impl<'a> View<'a> for EntityType {
    ghost use Rattle.wenc_view.specs.Prelude.{EntityType as Value'};

    ghost Value = { Value' };

    ghost view = { λ e. e };

    ghost reading = { read_by entity_type_sound entity_type_lawful };

    #[tactic(auto, unfolding(wenc_base::specs::Readers::choose))]
    fn view_of(bytes: &'a [u8]) -> Result<(EntityType, &'a [u8]), Refusal> {
        match byte(bytes)? {
            (0x00, rest) => {
                let (ty, rest) = u32::view_of(rest)?;
                Ok((EntityType::Function(ty), rest))
            }
            (0x01, rest) => {
                let (ty, rest) = TableType::view_of(rest)?;
                Ok((EntityType::Table(ty), rest))
            }
            (0x02, rest) => {
                let (ty, rest) = MemoryType::view_of(rest)?;
                Ok((EntityType::Memory(ty), rest))
            }
            (0x03, rest) => {
                let (ty, rest) = GlobalType::view_of(rest)?;
                Ok((EntityType::Global(ty), rest))
            }
            (0x04, rest) => {
                let (ty, rest) = TagType::view_of(rest)?;
                Ok((EntityType::Tag(ty), rest))
            }
            _ => Err(Refusal::at(bytes, Expected::From(0, 4))),
        }
    }
}

impl<'a> View<'a> for ExportKind {
    ghost use Rattle.wenc_view.specs.Prelude.{ExportKind as Value'};

    ghost Value = { Value' };

    ghost view = { λ k. k };

    ghost reading = { read_by core_export_kind_sound core_export_kind_lawful };

    #[tactic(auto, unfolding(wenc_base::specs::Readers::choose))]
    fn view_of(bytes: &'a [u8]) -> Result<(ExportKind, &'a [u8]), Refusal> {
        match byte(bytes)? {
            (0x00, rest) => Ok((ExportKind::Func, rest)),
            (0x01, rest) => Ok((ExportKind::Table, rest)),
            (0x02, rest) => Ok((ExportKind::Memory, rest)),
            (0x03, rest) => Ok((ExportKind::Global, rest)),
            (0x04, rest) => Ok((ExportKind::Tag, rest)),
            _ => Err(Refusal::at(bytes, Expected::From(0, 4))),
        }
    }
}
