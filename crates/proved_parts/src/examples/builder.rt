//! Examples of `wenc_builder`.
ghost use Rattle.std.specs.Prelude.{◌≡◌, ◌∷◌, [], IfOk, None, codes};
ghost use Rattle.proved_parts.specs.Prelude.{ComponentExportKind, ComponentTypeRef, TypeBounds};
ghost use Rattle.wenc_builder.specs.Prelude.{import_entry, export_entry, items, whole};
ghost use Rattle.wenc_parts.specs.Prelude.{plain_name};

use std::alloc::Allocator;
use wenc_base::Fault;
use wenc_builder::ComponentBuilder;
use wenc_parts::{
    ComponentExportKind, ComponentTypeRef, ComponentValType, PrimitiveValType, TypeBounds,
};

/// `ComponentBuilder`.
pub fn builder<A: Allocator + Copy>(alloc: A) -> Result<Vec<u8, A>, Fault>
    ensures { IfOk result (λ bytes. bytes.items ≡ whole (items (
        import_entry (plain_name (codes "f")) (ComponentTypeRef.«Type» TypeBounds.SubResource)
        ∷ export_entry (plain_name (codes "g")) ComponentExportKind.«Type» 0 None ∷ []))) }
{
    let mut builder = ComponentBuilder::new(alloc)?;
    let index = builder.import("f".into(), ComponentTypeRef::Type(TypeBounds::SubResource))?;
    builder.export("g".into(), ComponentExportKind::Type, index, None)?;
    let bytes = builder.finish()?;
    Ok(bytes)
}

/// The builder's types.
pub fn types<A: Allocator + Copy>(alloc: A) -> Result<Vec<u8, A>, Fault> {
    let mut builder = ComponentBuilder::new(alloc)?;
    let string = ComponentValType::Primitive(PrimitiveValType::String);
    let (index, ty) = builder.type_defined(None)?;
    ty.option(string)?;
    builder.export("name".into(), ComponentExportKind::Type, index, None)?;
    let bytes = builder.finish()?;
    Ok(bytes)
}
