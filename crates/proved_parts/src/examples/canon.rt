//! Examples of `wenc_canon`.
ghost use Rattle.std.specs.Prelude.{◌≡◌, ◌++◌, IfOk};
ghost use Rattle.wenc_canon.specs.Prelude.{canonical, OfBuiltin, ResourceDrop};

use std::alloc::Allocator;
use wenc_base::{Fault, Holder};
use wenc_canon::{AddsBuiltin, CanonicalFunctionSection, CanonicalOption};
use wenc_parts::{Component, ComponentTypeRef, TypeBounds};
use wenc_sections::ComponentImportSection;

/// `CanonicalFunctionSection`.
pub fn functions<A: Allocator + Copy>(alloc: A) -> Result<Vec<u8, A>, Fault> {
    let mut component = Component::new(alloc)?;
    let mut imports = ComponentImportSection::new(alloc);
    imports.import(
        "file".into(),
        ComponentTypeRef::Type(TypeBounds::SubResource),
    )?;
    component.section(&imports)?;
    let mut functions = CanonicalFunctionSection::new(alloc);
    functions.resource_drop(0)?;
    functions.task_return(None, [CanonicalOption::UTF16].into_iter())?;
    component.section(&functions)?;
    let bytes = component.finish();
    Ok(bytes)
}

/// `CanonicalFunctionSection::from_holder`.
#[tactic(auto, using(crate::proofs::Kept::kept_whole))]
pub fn behind<A: Allocator>(bytes: Vec<u8, A>) -> Result<(Vec<u8, A>, u32), Fault>
    ensures { IfOk result (λ x. x.0.items
        ≡ bytes.items ++ (canonical (OfBuiltin ResourceDrop 2)).text) }
{
    let kept = bytes.len();
    let mut functions = CanonicalFunctionSection::from_holder(Holder::over(bytes, kept, 0));
    functions.resource_drop(2)?;
    let (bytes, _, count, _) = functions.into_holder().into_parts();
    Ok((bytes, count))
}
