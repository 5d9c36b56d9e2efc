//! Reads an item of a section.
ghost use Rattle.std.specs.Prelude.{◌≡◌, ◌⊎◌, Ok, IfOk};
ghost use Rattle.wenc_base.specs.Prelude.{read_raw};
ghost use Rattle.wenc_list.specs.Prelude.{read_core_instance_item, read_core_type_item};
ghost use Rattle.wenc_list.specs.Prelude.{read_instance_item, read_alias_item, read_type_item};
ghost use Rattle.wenc_list.specs.Prelude.{read_canonical_item, read_import_item, read_export_item};
ghost use Rattle.wenc_list.specs.Prelude.{read_item_in, item_seen, item_lists};
ghost use Rattle.wenc_read.specs.Prelude.{Gives, IsWithin, IsWithinNested};
ghost use Rattle.wenc_view.specs.Prelude.{GivesNested, AreCounted};

use crate::item_view::ItemView;
use crate::sections::are_bytes;
use wenc_parts::{Alias, ComponentExportKind, ComponentTypeRef};
use wenc_read::{Expected, NestedRefusal, Refusal, u32_of};
use wenc_view::{
    CanonView, CoreInstanceView, CoreTypeView, InstanceView, ListOf, NameView, View, text_of,
    type_at,
};

/// The maximum nesting depth of component types and instance types.
const DEPTH: u32 = 100;

/// Reads a core instance.
#[inline(always)]
fn core_instance(bytes: &[u8]) -> Result<(ItemView<'_>, &[u8]), Refusal>
    ensures found { Gives (λ x. (item_seen x.0, x.1.now)) result
        (read_core_instance_item bytes.now) }
    ensures place { IsWithin (λ x. x.1.now) bytes.now result }
    ensures counted { IfOk result (λ x. AreCounted bytes.now (item_lists x.0) x.1.now) }
{
    let (instance, rest) = CoreInstanceView::view_of(bytes)?;
    Ok((ItemView::CoreInstance(instance), rest))
}

/// Reads a core type.
#[inline(always)]
fn core_type(bytes: &[u8]) -> Result<(ItemView<'_>, &[u8]), Refusal>
    ensures found { Gives (λ x. (item_seen x.0, x.1.now)) result
        (read_core_type_item bytes.now) }
    ensures place { IsWithin (λ x. x.1.now) bytes.now result }
    ensures counted { IfOk result (λ x. AreCounted bytes.now (item_lists x.0) x.1.now) }
{
    let (ty, rest) = CoreTypeView::view_of(bytes)?;
    Ok((ItemView::CoreType(ty), rest))
}

/// Reads an instance.
#[inline(always)]
fn instance(bytes: &[u8]) -> Result<(ItemView<'_>, &[u8]), Refusal>
    ensures found { Gives (λ x. (item_seen x.0, x.1.now)) result
        (read_instance_item bytes.now) }
    ensures place { IsWithin (λ x. x.1.now) bytes.now result }
    ensures counted { IfOk result (λ x. AreCounted bytes.now (item_lists x.0) x.1.now) }
{
    let (instance, rest) = InstanceView::view_of(bytes)?;
    Ok((ItemView::Instance(instance), rest))
}

/// Reads an alias.
#[inline(always)]
fn alias(bytes: &[u8]) -> Result<(ItemView<'_>, &[u8]), Refusal>
    ensures found { Gives (λ x. (item_seen x.0, x.1.now)) result (read_alias_item bytes.now) }
    ensures place { IsWithin (λ x. x.1.now) bytes.now result }
    ensures counted { IfOk result (λ x. AreCounted bytes.now (item_lists x.0) x.1.now) }
{
    let (alias, rest) = Alias::view_of(bytes)?;
    Ok((ItemView::Alias(alias), rest))
}

/// Reads a type.
#[inline(always)]
fn ty(bytes: &[u8]) -> Result<(ItemView<'_>, &[u8]), NestedRefusal>
    ensures found { GivesNested (λ x. (item_seen x.0, x.1.now)) result
        (read_type_item 100 bytes.now) }
    ensures place { IsWithinNested (λ x. x.1.now) bytes.now result }
    ensures counted { IfOk result (λ x. AreCounted bytes.now (item_lists x.0) x.1.now) }
{
    let (ty, rest) = type_at(DEPTH, bytes)?;
    Ok((ItemView::Type(ty), rest))
}

/// Reads a canonical function.
#[inline(always)]
fn canon(bytes: &[u8]) -> Result<(ItemView<'_>, &[u8]), Refusal>
    ensures found { Gives (λ x. (item_seen x.0, x.1.now)) result
        (read_canonical_item bytes.now) }
    ensures place { IsWithin (λ x. x.1.now) bytes.now result }
    ensures counted { IfOk result (λ x. AreCounted bytes.now (item_lists x.0) x.1.now) }
{
    let (canon, rest) = CanonView::view_of(bytes)?;
    Ok((ItemView::Canon(canon), rest))
}

/// Reads an import.
#[inline(always)]
fn import(bytes: &[u8]) -> Result<(ItemView<'_>, &[u8]), Refusal>
    ensures found { Gives (λ x. (item_seen x.0, x.1.now)) result
        (read_import_item bytes.now) }
    ensures place { IsWithin (λ x. x.1.now) bytes.now result }
    ensures counted { IfOk result (λ x. AreCounted bytes.now (item_lists x.0) x.1.now) }
{
    let (name, rest) = NameView::view_of(bytes)?;
    let (ty, rest) = ComponentTypeRef::view_of(rest)?;
    Ok((ItemView::Import { name, ty }, rest))
}

/// Reads an export.
#[inline(always)]
fn export(bytes: &[u8]) -> Result<(ItemView<'_>, &[u8]), Refusal>
    ensures found { Gives (λ x. (item_seen x.0, x.1.now)) result
        (read_export_item bytes.now) }
    ensures place { IsWithin (λ x. x.1.now) bytes.now result }
    ensures counted { IfOk result (λ x. AreCounted bytes.now (item_lists x.0) x.1.now) }
{
    let (name, rest) = NameView::view_of(bytes)?;
    let (kind, rest) = ComponentExportKind::view_of(rest)?;
    let (index, rest) = u32_of(rest)?;
    let (ty, rest) = Option::view_of(rest)?;
    let item = ItemView::Export {
        name,
        kind,
        index,
        ty,
    };
    Ok((item, rest))
}

/// Returns the bytes.
fn raw(bytes: &[u8]) -> &[u8]
    ensures { read_raw bytes.now ≡ Ok result.now }
{
    are_bytes(bytes);
    bytes
}

/// Reads a custom section, which takes all bytes.
fn custom(content: &[u8]) -> Result<(ItemView<'_>, &[u8]), Refusal>
    ensures found { Gives (λ x. (item_seen x.0, x.1.now)) result
        (read_item_in 100 0 content.now) }
    ensures place { IsWithin (λ x. x.1.now) content.now result }
    ensures counted { IfOk result (λ x. AreCounted content.now (item_lists x.0) x.1.now) }
{
    let (name, rest) = text_of(content)?;
    let data = raw(rest);
    Ok((ItemView::Custom { name, data }, &[]))
}

/// Reads a core module, which takes all bytes.
fn module(content: &[u8]) -> Result<(ItemView<'_>, &[u8]), Refusal>
    ensures found { Gives (λ x. (item_seen x.0, x.1.now)) result
        (read_item_in 100 1 content.now) }
    ensures place { IsWithin (λ x. x.1.now) content.now result }
    ensures counted { IfOk result (λ x. AreCounted content.now (item_lists x.0) x.1.now) }
{
    Ok((ItemView::Module(raw(content)), &[]))
}

/// Reads a nested component, which takes all bytes.
fn component(content: &[u8]) -> Result<(ItemView<'_>, &[u8]), Refusal>
    ensures found { Gives (λ x. (item_seen x.0, x.1.now)) result
        (read_item_in 100 4 content.now) }
    ensures place { IsWithin (λ x. x.1.now) content.now result }
    ensures counted { IfOk result (λ x. AreCounted content.now (item_lists x.0) x.1.now) }
{
    Ok((ItemView::Component(raw(content)), &[]))
}

/// Reads a start function.
fn start(bytes: &[u8]) -> Result<(ItemView<'_>, &[u8]), Refusal>
    ensures found { Gives (λ x. (item_seen x.0, x.1.now)) result
        (read_item_in 100 9 bytes.now) }
    ensures place { IsWithin (λ x. x.1.now) bytes.now result }
    ensures counted { IfOk result (λ x. AreCounted bytes.now (item_lists x.0) x.1.now) }
{
    let (function, rest) = u32_of(bytes)?;
    let (args, rest) = ListOf::view_of(rest)?;
    let (results, rest) = u32_of(rest)?;
    let item = ItemView::Start {
        function,
        args,
        results,
    };
    Ok((item, rest))
}

/// Reads the item of a section that has only one. Not inlined, since the room for its value would
/// be cleared for every item.
#[inline(never)]
fn alone(id: u8, content: &[u8]) -> Result<(ItemView<'_>, &[u8]), Refusal>
    requires { (id ≡ 0) ⊎ ((id ≡ 1) ⊎ ((id ≡ 4) ⊎ (id ≡ 9))) }
    ensures found { Gives (λ x. (item_seen x.0, x.1.now)) result
        (read_item_in 100 id content.now) }
    ensures place { IsWithin (λ x. x.1.now) content.now result }
    ensures counted { IfOk result (λ x. AreCounted content.now (item_lists x.0) x.1.now) }
{
    match id {
        0 => custom(content),
        1 => module(content),
        4 => component(content),
        _ => start(content),
    }
}

/// Reads the item that begins the remaining bytes of a section with this id. Returns it and the
/// bytes after it.
#[inline(always)]
pub(crate) fn item_in(id: u8, bytes: &[u8]) -> Result<(ItemView<'_>, &[u8]), NestedRefusal>
    ensures found { GivesNested (λ x. (item_seen x.0, x.1.now)) result
        (read_item_in 100 id bytes.now) }
    ensures place { IsWithinNested (λ x. x.1.now) bytes.now result }
    ensures counted { IfOk result (λ x. AreCounted bytes.now (item_lists x.0) x.1.now) }
{
    match id {
        0 | 1 | 4 | 9 => Ok(alone(id, bytes)?),
        2 => Ok(core_instance(bytes)?),
        3 => Ok(core_type(bytes)?),
        5 => Ok(instance(bytes)?),
        6 => Ok(alias(bytes)?),
        7 => ty(bytes),
        8 => Ok(canon(bytes)?),
        10 => Ok(import(bytes)?),
        11 => Ok(export(bytes)?),
        _ => Err(NestedRefusal::Flat(Refusal::at(bytes, Expected::End))),
    }
}
