//! A component that is written section by section.
ghost use Rattle.std.specs.Prelude.{◌≡◌, ◌++◌, ◌∷◌, [], IfOk, None, codes};
ghost use Rattle.proved_parts.specs.Prelude.{ComponentOuterAliasKind, ComponentExportKind};
ghost use Rattle.proved_parts.specs.Prelude.{ComponentTypeRef, TypeBounds};
ghost use Rattle.wenc_base.specs.Prelude.{no_members, with_member, section_text};
ghost use Rattle.wenc_parts.specs.Prelude.{Outer, alias, plain_name, preamble};
ghost use Rattle.wenc_sections.specs.Prelude.{import_item, export_item};

use std::alloc::Allocator;
use wenc_base::Fault;
use wenc_parts::{
    Alias, Component, ComponentExportKind, ComponentOuterAliasKind, ComponentTypeRef, TypeBounds,
};
use wenc_sections::{ComponentAliasSection, ComponentExportSection, ComponentImportSection};

/// Returns a section that imports a resource type.
fn imported<A: Allocator>(alloc: A) -> Result<ComponentImportSection<A>, Fault>
    ensures { IfOk result (λ imports. imports
        ≡ with_member no_members (import_item (record {
          name = plain_name (codes "i");
          ty = ComponentTypeRef.«Type» TypeBounds.SubResource;
        })).text) }
{
    let mut imports = ComponentImportSection::new(alloc);
    imports.import("i".into(), ComponentTypeRef::Type(TypeBounds::SubResource))?;
    Ok(imports)
}

/// Returns a section with an alias of that type.
fn aliased<A: Allocator>(alloc: A) -> Result<ComponentAliasSection<A>, Fault>
    ensures { IfOk result (λ aliases. aliases
        ≡ with_member no_members
        (alias (Outer ComponentOuterAliasKind.«Type» 0 0)).text) }
{
    let mut aliases = ComponentAliasSection::new(alloc);
    aliases.alias(Alias::Outer {
        kind: ComponentOuterAliasKind::Type,
        count: 0,
        index: 0,
    })?;
    Ok(aliases)
}

/// Returns a section that exports that alias.
fn exported<A: Allocator>(alloc: A) -> Result<ComponentExportSection<A>, Fault>
    ensures { IfOk result (λ exports. exports
        ≡ with_member no_members (export_item (record {
          name = plain_name (codes "g");
          kind = ComponentExportKind.«Type»;
          index = 1;
          ty = None;
        })).text) }
{
    let mut exports = ComponentExportSection::new(alloc);
    exports.export("g".into(), ComponentExportKind::Type, 1, None)?;
    Ok(exports)
}

/// Returns the component of these sections.
fn joined<A: Allocator>(
    alloc: A,
    imports: &ComponentImportSection<A>,
    aliases: &ComponentAliasSection<A>,
    exports: &ComponentExportSection<A>,
) -> Result<Vec<u8, A>, Fault>
    ensures { IfOk result (λ bytes. bytes.items ≡ preamble.text
        ++ (10 ∷ section_text imports.now) ++ (6 ∷ section_text aliases.now)
        ++ (11 ∷ section_text exports.now)) }
{
    let mut component = Component::new(alloc)?;
    component.section(imports)?;
    component.section(aliases)?;
    component.section(exports)?;
    Ok(component.finish())
}

/// Returns a component that imports a resource type and exports it by an alias, written section by
/// section. Its bytes follow from the contracts of these calls alone.
pub fn by_hand<A: Allocator + Copy>(alloc: A) -> Result<Vec<u8, A>, Fault>
    ensures { IfOk result (λ bytes. bytes.items ≡ preamble.text
        ++ (10 ∷ section_text (with_member no_members (import_item
        (record {
          name = plain_name (codes "i");
          ty = ComponentTypeRef.«Type» TypeBounds.SubResource;
        })).text))
        ++ (6 ∷ section_text (with_member no_members (alias
        (Outer ComponentOuterAliasKind.«Type» 0 0)).text))
        ++ (11 ∷ section_text (with_member no_members (export_item
        (record {
          name = plain_name (codes "g");
          kind = ComponentExportKind.«Type»;
          index = 1;
          ty = None;
        })).text))) }
{
    let imports = imported(alloc)?;
    let aliases = aliased(alloc)?;
    let exports = exported(alloc)?;
    joined(alloc, &imports, &aliases, &exports)
}
