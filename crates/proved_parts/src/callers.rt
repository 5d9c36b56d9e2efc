//! The callers that the pages CALLING.md of `wenc_base`, `wenc_parts` and `wenc_canon` show.
ghost use Rattle.std.specs.Prelude.{◌≡◌, ◌++◌, [], IfOk};
ghost use Rattle.wenc_base.specs.Prelude.{no_members, with_member};
ghost use Rattle.wenc_canon.specs.Prelude.{canonical, OfBuiltin, ResourceDrop};
ghost use Rattle.wenc_parts.specs.Prelude.{extern_name, extern_name_view, type_reference};

use std::alloc::Allocator;
use wenc_base::{Encode, Fault};
use wenc_canon::{AddsBuiltin, CanonicalFunctionSection};
use wenc_parts::{ComponentExternName, ComponentTypeRef};

/// Returns the encoding of a value in a new vector.
pub fn encoded<T: Encode, A: Allocator>(alloc: A, value: &T) -> Result<Vec<u8, A>, Fault>
    ensures { IfOk result (λ bytes. bytes.items ≡ (T.piece value.now).text) }
{
    let mut bytes = Vec::new(alloc);
    value.encode(&mut bytes)?;
    Ok(bytes)
}

/// The bytes of an import: its name, then what it refers to.
pub fn import_bytes<A: Allocator>(
    alloc: A,
    name: ComponentExternName<'_>,
    ty: ComponentTypeRef,
) -> Result<Vec<u8, A>, Fault>
    ensures { IfOk result (λ bytes. bytes.items
        ≡ (extern_name (extern_name_view name.entry)).text ++ (type_reference ty).text) }
{
    let mut bytes = Vec::new(alloc);
    (name, ty).encode(&mut bytes)?;
    Ok(bytes)
}

/// A section that drops handles of a resource.
pub fn dropping<A: Allocator>(alloc: A, ty: u32) -> Result<CanonicalFunctionSection<A>, Fault>
    ensures { IfOk result (λ s.
        s ≡ with_member no_members (canonical (OfBuiltin ResourceDrop ty)).text) }
{
    let mut section = CanonicalFunctionSection::new(alloc);
    section.resource_drop(ty)?;
    Ok(section)
}
