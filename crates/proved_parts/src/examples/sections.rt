//! Examples of `wenc_sections`: components that are written section by section.
ghost use Rattle.std.specs.Prelude.{◌≡◌, ◌++◌, ◌∷◌, [], IfOk, OnOk, None, codes};
ghost use Rattle.proved_parts.specs.Prelude.{ComponentOuterAliasKind, ComponentExportKind};
ghost use Rattle.proved_parts.specs.Prelude.{ComponentTypeRef, TypeBounds};
ghost use Rattle.wenc_base.specs.Prelude.{custom, byte_list, counted, module_preamble};
ghost use Rattle.wenc_parts.specs.Prelude.{alias as alias_form, alias_view, Outer, plain_name};
ghost use Rattle.wenc_parts.specs.Prelude.{preamble};
ghost use Rattle.wenc_sections.specs.Prelude.{export_item, import_item, started};
ghost use Rattle.wenc_sections.specs.Prelude.{start as start_form};

use std::alloc::Allocator;
use wenc_base::{CustomSection, ExportKind, Fault, Holder, Module, NameMap, ValType};
use wenc_canon::{AddsBuiltin, CanonicalFunctionSection};
use wenc_parts::{
    Alias, Component, ComponentExportKind, ComponentExternName, ComponentOuterAliasKind,
    ComponentTypeRef, ComponentValType, ModuleArg, PrimitiveValType, TypeBounds,
};
use wenc_sections::{
    ComponentAliasSection, ComponentExportSection, ComponentImportSection,
    ComponentInstanceSection, ComponentNameSection, ComponentStartSection, ComponentTypeSection,
    CoreTypeSection, InstanceSection, ModuleSection, NestedComponentSection,
};

/// `Component`.
#[tactic(auto, using(wenc_base::specs::laws::Holders::section_text_of))]
pub fn component<A: Allocator + Copy>(alloc: A) -> Result<Vec<u8, A>, Fault>
    ensures { IfOk result (λ bytes. bytes.items
        ≡ preamble.text ++ 0x0a ∷ (counted import_item (record {
          name = plain_name (codes "file");
          ty = ComponentTypeRef.«Type» TypeBounds.SubResource;
        } ∷ [])).text) }
{
    let mut imports = ComponentImportSection::new(alloc);
    imports.import(
        "file".into(),
        ComponentTypeRef::Type(TypeBounds::SubResource),
    )?;

    let mut component = Component::new(alloc)?;
    component.section(&imports)?;
    let bytes = component.finish();
    Ok(bytes)
}

/// `Counted`: the number of items, and a copy.
pub fn counted<A: Allocator + Copy>(alloc: A) -> Result<(u32, ComponentExportSection<A>), Fault> {
    let mut exports = ComponentExportSection::new(alloc);
    exports.export("log".into(), ComponentExportKind::Func, 0, None)?;
    let count = exports.len();
    let copy = exports.clone()?;
    Ok((count, copy))
}

/// `Counted::from_holder`.
#[tactic(auto, using(crate::proofs::Kept::kept_whole))]
pub fn behind<A: Allocator>(bytes: Vec<u8, A>, alias: Alias<'_>) -> Result<(Vec<u8, A>, u32), Fault>
    ensures { IfOk result
        (λ x. x.0.items ≡ bytes.items ++ (alias_form (alias_view alias.entry)).text) }
{
    let kept = bytes.len();
    let mut aliases = ComponentAliasSection::from_holder(Holder::over(bytes, kept, 0));
    aliases.alias(alias)?;
    let (bytes, _, count, _) = aliases.into_holder().into_parts();
    Ok((bytes, count))
}

/// `ComponentAliasSection`.
#[tactic(auto, using(wenc_base::specs::laws::Holders::section_text_of))]
pub fn aliases<A: Allocator + Copy>(alloc: A) -> Result<Vec<u8, A>, Fault>
    ensures { IfOk result (λ bytes. bytes.items
        ≡ preamble.text ++ 0x0a ∷ (counted import_item (record {
          name = plain_name (codes "file");
          ty = ComponentTypeRef.«Type» TypeBounds.SubResource;
        } ∷ [])).text ++ 0x06 ∷ (counted alias_form
        (Outer ComponentOuterAliasKind.«Type» 0 0 ∷ [])).text) }
{
    let mut component = Component::new(alloc)?;
    let mut imports = ComponentImportSection::new(alloc);
    imports.import(
        "file".into(),
        ComponentTypeRef::Type(TypeBounds::SubResource),
    )?;
    component.section(&imports)?;
    let mut aliases = ComponentAliasSection::new(alloc);
    aliases.alias(Alias::Outer {
        kind: ComponentOuterAliasKind::Type,
        count: 0,
        index: 0,
    })?;
    component.section(&aliases)?;
    let bytes = component.finish();
    Ok(bytes)
}

/// `ComponentExportSection`.
#[tactic(auto, using(wenc_base::specs::laws::Holders::section_text_of))]
pub fn exports<A: Allocator + Copy>(alloc: A) -> Result<Vec<u8, A>, Fault>
    ensures { IfOk result (λ bytes. bytes.items
        ≡ preamble.text ++ 0x0a ∷ (counted import_item (record {
          name = plain_name (codes "file");
          ty = ComponentTypeRef.«Type» TypeBounds.SubResource;
        } ∷ [])).text ++ 0x0b ∷ (counted export_item (record {
          name = plain_name (codes "handle");
          kind = ComponentExportKind.«Type»;
          index = 0;
          ty = None;
        } ∷ [])).text) }
{
    let mut component = Component::new(alloc)?;
    let mut imports = ComponentImportSection::new(alloc);
    imports.import(
        "file".into(),
        ComponentTypeRef::Type(TypeBounds::SubResource),
    )?;
    component.section(&imports)?;
    let mut exports = ComponentExportSection::new(alloc);
    exports.export("handle".into(), ComponentExportKind::Type, 0, None)?;
    component.section(&exports)?;
    let bytes = component.finish();
    Ok(bytes)
}

/// `ComponentImportSection`.
#[tactic(auto, using(wenc_base::specs::laws::Holders::section_text_of))]
pub fn imports<A: Allocator + Copy>(alloc: A) -> Result<Vec<u8, A>, Fault>
    ensures { IfOk result (λ bytes. bytes.items
        ≡ preamble.text ++ 0x0a ∷ (counted import_item (record {
          name = plain_name (codes "file");
          ty = ComponentTypeRef.«Type» TypeBounds.SubResource;
        } ∷ record {
          name = plain_name (codes "log");
          ty = ComponentTypeRef.«Type» (TypeBounds.Eq 0);
        } ∷ [])).text) }
{
    let mut imports = ComponentImportSection::new(alloc);
    imports.import(
        "file".into(),
        ComponentTypeRef::Type(TypeBounds::SubResource),
    )?;
    imports.import("log".into(), ComponentTypeRef::Type(TypeBounds::Eq(0)))?;

    let mut component = Component::new(alloc)?;
    component.section(&imports)?;
    let bytes = component.finish();
    Ok(bytes)
}

/// `InstanceSection`.
pub fn core_instances<A: Allocator + Copy>(alloc: A) -> Result<Vec<u8, A>, Fault> {
    let mut component = Component::new(alloc)?;
    component.section(&ModuleSection(&Module::new(alloc)?))?;
    let mut functions = CanonicalFunctionSection::new(alloc);
    functions.task_cancel()?;
    component.section(&functions)?;
    let mut instances = InstanceSection::new(alloc);
    instances.export_items([("cancel", ExportKind::Func, 0)].into_iter())?;
    instances.instantiate(0, [("env", ModuleArg::Instance(0))].into_iter())?;
    component.section(&instances)?;
    let bytes = component.finish();
    Ok(bytes)
}

/// `ComponentInstanceSection`.
pub fn instances<A: Allocator + Copy>(alloc: A) -> Result<Vec<u8, A>, Fault> {
    let mut component = Component::new(alloc)?;
    let mut imports = ComponentImportSection::new(alloc);
    imports.import(
        "file".into(),
        ComponentTypeRef::Type(TypeBounds::SubResource),
    )?;
    component.section(&imports)?;
    component.section(&NestedComponentSection(&Component::new(alloc)?))?;
    let mut instances = ComponentInstanceSection::new(alloc);
    let name: ComponentExternName = "file".into();
    instances.export_items([(name, ComponentExportKind::Type, 0)].into_iter())?;
    let files = ("files", ComponentExportKind::Instance, 0);
    instances.instantiate(0, [files].into_iter())?;
    component.section(&instances)?;
    let bytes = component.finish();
    Ok(bytes)
}

/// `ModuleSection`.
pub fn module<A: Allocator + Copy>(alloc: A) -> Result<Vec<u8, A>, Fault>
    ensures { IfOk result (λ bytes. bytes.items
        ≡ preamble.text ++ 0x01 ∷ (byte_list (module_preamble.text
        ++ 0x00 ∷ (custom (record { label = codes "x"; bytes = [] })).text)).text) }
{
    let mut module = Module::new(alloc)?;
    module.section(&CustomSection {
        name: "x",
        data: &[],
    })?;

    let mut component = Component::new(alloc)?;
    component.section(&ModuleSection(&module))?;
    let bytes = component.finish();
    Ok(bytes)
}

/// `NestedComponentSection`.
pub fn nested<A: Allocator + Copy>(alloc: A) -> Result<Vec<u8, A>, Fault>
    ensures { IfOk result (λ bytes. bytes.items
        ≡ preamble.text ++ 0x04 ∷ (byte_list (preamble.text
        ++ 0x00 ∷ (custom (record { label = codes "x"; bytes = [] })).text)).text) }
{
    let mut inner = Component::new(alloc)?;
    inner.section(&CustomSection {
        name: "x",
        data: &[],
    })?;

    let mut outer = Component::new(alloc)?;
    outer.section(&NestedComponentSection(&inner))?;
    let bytes = outer.finish();
    Ok(bytes)
}

/// `ComponentStartSection`, in a component that has the function and the value.
pub fn start<A: Allocator>(component: &mut Component<A>) -> Result<(), Fault>
    ensures { OnOk result (component.new
        ≡ component.old ++ 0x09 ∷ (start_form (started 0 (0 ∷ []) 0)).text) }
{
    // the component has function 0 and value 0, which it is called with; it returns nothing
    let start = ComponentStartSection {
        function_index: 0,
        args: [0],
        results: 0,
    };
    component.section(&start)?;
    Ok(())
}

/// `CoreTypeSection`.
pub fn core_types<A: Allocator + Copy>(alloc: A) -> Result<Vec<u8, A>, Fault> {
    let mut types = CoreTypeSection::new(alloc);
    let encoder = types.ty()?.core();
    encoder.function([ValType::I64].into_iter(), [].into_iter())?;

    let mut component = Component::new(alloc)?;
    component.section(&types)?;
    let bytes = component.finish();
    Ok(bytes)
}

/// `ComponentTypeSection`.
pub fn types<A: Allocator + Copy>(alloc: A) -> Result<Vec<u8, A>, Fault> {
    let string = ComponentValType::Primitive(PrimitiveValType::String);
    let mut types = ComponentTypeSection::new(alloc);
    types
        .defined_type()?
        .record([("name", string)].into_iter())?;
    types.resource(ValType::I32, None)?;

    let mut component = Component::new(alloc)?;
    component.section(&types)?;
    let bytes = component.finish();
    Ok(bytes)
}

/// `ComponentNameSection`.
pub fn names<A: Allocator + Copy>(alloc: A) -> Result<Vec<u8, A>, Fault> {
    let mut funcs = NameMap::new(alloc);
    funcs.append(0, "now")?;
    let mut names = ComponentNameSection::new(alloc);
    names.component("clock")?;
    names.funcs(&funcs)?;

    let mut component = Component::new(alloc)?;
    component.section(&names)?;
    let bytes = component.finish();
    Ok(bytes)
}
