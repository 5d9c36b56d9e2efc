//! Aliases. Each begins with a sort, and refers to an instance's export or an outer item.
ghost use Rattle.wenc_parts.specs.Prelude.{alias_view, read_export, read_core_export, read_outer};
ghost use Rattle.wenc_parts.specs.Prelude.{read_export_or_outer, read_exported_alias};
ghost use Rattle.wenc_parts.specs.Prelude.{read_core_alias, AliasOf, alias_sound, alias_lawful};
ghost use Rattle.wenc_read.specs.Prelude.{Gives, IsWithin, read_by};

use crate::view::View;
use wenc_base::ExportKind;
use wenc_parts::{Alias, ComponentExportKind, ComponentOuterAliasKind};
use wenc_read::{Expected, Refusal, byte};

/// Reads an alias of an instance's export, after the byte `00`.
#[inline(always)]
fn export(kind: ComponentExportKind, bytes: &[u8]) -> Result<(Alias<'_>, &[u8]), Refusal>
    ensures found { Gives (λ x. (alias_view x.0, x.1.now)) result (read_export kind bytes.now) }
    ensures place { IsWithin (λ x. x.1.now) bytes.now result }
{
    let (instance, rest) = u32::view_of(bytes)?;
    let (name, rest) = <&str>::view_of(rest)?;
    let alias = Alias::InstanceExport {
        instance,
        kind,
        name,
    };
    Ok((alias, rest))
}

/// Reads an alias of an outer item, after the byte `02`.
fn outer(kind: ComponentOuterAliasKind, bytes: &[u8]) -> Result<(Alias<'_>, &[u8]), Refusal>
    ensures found { Gives (λ x. (alias_view x.0, x.1.now)) result (read_outer kind bytes.now) }
    ensures place { IsWithin (λ x. x.1.now) bytes.now result }
{
    let (count, rest) = u32::view_of(bytes)?;
    let (index, rest) = u32::view_of(rest)?;
    Ok((Alias::Outer { kind, count, index }, rest))
}

/// Reads an alias of a core instance's export, after the sort.
#[tactic(auto, unfolding(wenc_base::specs::Readers::choose))]
fn core_export(kind: ExportKind, bytes: &[u8]) -> Result<(Alias<'_>, &[u8]), Refusal>
    ensures found { Gives (λ x. (alias_view x.0, x.1.now)) result
        (read_core_export kind bytes.now) }
    ensures place { IsWithin (λ x. x.1.now) bytes.now result }
{
    match byte(bytes)? {
        (0x01, rest) => {
            let (instance, rest) = u32::view_of(rest)?;
            let (name, rest) = <&str>::view_of(rest)?;
            let alias = Alias::CoreInstanceExport {
                instance,
                kind,
                name,
            };
            Ok((alias, rest))
        }
        _ => Err(Refusal::at(bytes, Expected::From(1, 1))),
    }
}

/// Reads an alias of an instance's export, after a sort that no outer alias has.
#[tactic(auto, unfolding(wenc_base::specs::Readers::choose))]
#[inline(always)]
fn export_alone(kind: ComponentExportKind, bytes: &[u8]) -> Result<(Alias<'_>, &[u8]), Refusal>
    ensures found { Gives (λ x. (alias_view x.0, x.1.now)) result
        (read_exported_alias kind bytes.now) }
    ensures place { IsWithin (λ x. x.1.now) bytes.now result }
{
    match byte(bytes)? {
        (0x00, rest) => export(kind, rest),
        _ => Err(Refusal::at(bytes, Expected::From(0, 0))),
    }
}

/// Reads an alias of an instance's export or of an outer item, after the sort.
#[tactic(auto, unfolding(wenc_base::specs::Readers::choose))]
fn export_or_outer(
    kind: ComponentExportKind,
    outer_kind: ComponentOuterAliasKind,
    bytes: &[u8],
) -> Result<(Alias<'_>, &[u8]), Refusal>
    ensures found { Gives (λ x. (alias_view x.0, x.1.now)) result
        (read_export_or_outer kind outer_kind bytes.now) }
    ensures place { IsWithin (λ x. x.1.now) bytes.now result }
{
    match byte(bytes)? {
        (0x00, rest) => export(kind, rest),
        (0x02, rest) => outer(outer_kind, rest),
        _ => Err(Refusal::at(bytes, Expected::ExportOrOuter)),
    }
}

/// Reads an alias of a core sort, after the sort's first byte.
#[tactic(auto, unfolding(wenc_base::specs::Readers::choose))]
fn core(bytes: &[u8]) -> Result<(Alias<'_>, &[u8]), Refusal>
    ensures found { Gives (λ x. (alias_view x.0, x.1.now)) result (read_core_alias bytes.now) }
    ensures place { IsWithin (λ x. x.1.now) bytes.now result }
{
    match byte(bytes)? {
        (0x00, rest) => core_export(ExportKind::Func, rest),
        (0x01, rest) => core_export(ExportKind::Table, rest),
        (0x02, rest) => core_export(ExportKind::Memory, rest),
        (0x03, rest) => core_export(ExportKind::Global, rest),
        (0x04, rest) => core_export(ExportKind::Tag, rest),
        (0x10, rest) => match byte(rest)? {
            (0x02, rest) => outer(ComponentOuterAliasKind::CoreType, rest),
            _ => Err(Refusal::at(rest, Expected::From(2, 2))),
        },
        (0x11, rest) => export_or_outer(
            ComponentExportKind::Module,
            ComponentOuterAliasKind::CoreModule,
            rest,
        ),
        _ => Err(Refusal::at(bytes, Expected::CoreSort)),
    }
}

impl<'a> View<'a> for Alias<'a> {
    ghost Value = { AliasOf };

    ghost view = { alias_view };

    ghost reading = { read_by alias_sound alias_lawful };

    #[tactic(auto, unfolding(wenc_base::specs::Readers::choose))]
    #[inline(always)]
    fn view_of(bytes: &'a [u8]) -> Result<(Alias<'a>, &'a [u8]), Refusal> {
        match byte(bytes)? {
            (0x00, rest) => core(rest),
            (0x01, rest) => export_alone(ComponentExportKind::Func, rest),
            (0x02, rest) => export_alone(ComponentExportKind::Value, rest),
            (0x03, rest) => export_or_outer(
                ComponentExportKind::Type,
                ComponentOuterAliasKind::Type,
                rest,
            ),
            (0x04, rest) => export_or_outer(
                ComponentExportKind::Component,
                ComponentOuterAliasKind::Component,
                rest,
            ),
            (0x05, rest) => export_alone(ComponentExportKind::Instance, rest),
            _ => Err(Refusal::at(bytes, Expected::From(0, 5))),
        }
    }
}
