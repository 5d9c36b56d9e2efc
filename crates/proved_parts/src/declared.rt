//! Aliases and exports that types of components and instances declare, proved from the public
//! contracts.
ghost use Rattle.std.specs.Prelude.{◌≡◌, ◌+◌, ◌++◌, ◌∷◌, [], List, IfOk, OnOk};
ghost use Rattle.proved_parts.specs.Prelude.{ComponentExportKind, ComponentOuterAliasKind};
ghost use Rattle.proved_parts.specs.Prelude.{ComponentTypeRef as Reference};
ghost use Rattle.wenc_parts.specs.Prelude.{alias_view, InstanceExport, Outer, extern_name_view};
ghost use Rattle.wenc_types.specs.Prelude.{ComponentDeclares, InstanceDeclares, Aliased, Exported};
ghost use Rattle.wenc_types.specs.Prelude.{ComponentDeclaration, InstanceDeclaration, Declared};

use std::alloc::Allocator;
use wenc_base::Fault;
use wenc_parts::{Alias, ComponentExternName, ComponentTypeRef, TypeBounds};
use wenc_types::{ComponentType, InstanceType};

/// Declares aliases in a component type, by each call for one. Returns their indices.
pub fn aliased<A: Allocator>(
    types: &mut ComponentType<A>,
    instance: u32,
    name: &str,
    count: u32,
    outer: u32,
) -> Result<(u32, u32, u32, u32), Fault>
    ensures declared { OnOk result ((ds : List ComponentDeclaration)
        → ComponentDeclares types.old ds → ComponentDeclares types.new (ds
        ++ Declared (Aliased (InstanceExport instance ComponentExportKind.«Type» name.now))
        ∷ Declared (Aliased (InstanceExport instance ComponentExportKind.Instance name.now))
        ∷ Declared (Aliased (Outer ComponentOuterAliasKind.«Type» count outer))
        ∷ Declared (Aliased (Outer ComponentOuterAliasKind.CoreType count outer)) ∷ [])) }
    ensures indices { IfOk result (λ i. (i.0 ≡ types.old.counts.types)
        × (i.1 ≡ types.old.counts.instances) × (i.2 ≡ types.old.counts.types + 1)
        × (i.3 ≡ types.old.counts.core_types)) }
{
    let ty = types.alias_export_type(instance, name)?;
    let other = types.alias_export_instance(instance, name)?;
    let outer_type = types.alias_outer_type(count, outer)?;
    let core_type = types.alias_core_type(count, outer)?;
    Ok((ty, other, outer_type, core_type))
}

/// Declares exports and an alias in an instance type, by each call for one. Returns the indices of
/// a type and of an instance.
pub fn exported<A: Allocator, B: Allocator>(
    types: &mut InstanceType<A>,
    type_name: ComponentExternName<'_, B>,
    bounds: TypeBounds,
    instance_name: ComponentExternName<'_, B>,
    instance: u32,
    name: ComponentExternName<'_, B>,
    ty: ComponentTypeRef,
    alias: Alias<'_>,
) -> Result<(u32, u32), Fault>
    ensures declared { OnOk result ((ds : List InstanceDeclaration)
        → InstanceDeclares types.old ds → InstanceDeclares types.new (ds
        ++ Exported (extern_name_view type_name.entry) (Reference.«Type» bounds)
        ∷ Exported (extern_name_view instance_name.entry) (Reference.Instance instance)
        ∷ Exported (extern_name_view name.entry) ty ∷ Aliased (alias_view alias.entry) ∷ [])) }
    ensures indices { IfOk result (λ i. (i.0 ≡ types.old.counts.types)
        × (i.1 ≡ types.old.counts.instances)) }
{
    let of_type = types.export_type(type_name, bounds)?;
    let of_instance = types.export_instance(instance_name, instance)?;
    types.export(name, ty)?;
    types.alias(alias)?;
    Ok((of_type, of_instance))
}
