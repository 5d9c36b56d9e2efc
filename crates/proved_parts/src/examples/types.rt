//! Examples of `wenc_types`: types written by calls and encoders.
ghost use Rattle.std.specs.Prelude.{◌∷◌, [], None, IfOk};
ghost use Rattle.proved_parts.specs.Prelude.{ValType};
ghost use Rattle.wenc_base.specs.Prelude.{Contains};
ghost use Rattle.wenc_types.specs.Prelude.{ResourceType, DefinedType, def_type, Own};

use std::alloc::Allocator;
use wenc_base::{EntityType, Fault, ValType};
use wenc_parts::{ComponentTypeRef, ComponentValType, PrimitiveValType, TypeBounds};
use wenc_sections::{ComponentTypeSection, CoreTypeSection};
use wenc_types::{ComponentType, InstanceType, ModuleType};

/// `Declarations`: an instance type, and a copy.
pub fn declarations<A: Allocator + Copy>(alloc: A) -> Result<InstanceType<A>, Fault> {
    let mut ty = InstanceType::new(alloc);
    ty.core_type()?
        .core()
        .function([].into_iter(), [].into_iter())?;
    let copy = ty.clone()?;
    Ok(copy)
}

/// `ModuleType`.
pub fn module_type<A: Allocator>(alloc: A) -> Result<ModuleType<A>, Fault> {
    let mut ty = ModuleType::new(alloc);
    ty.ty()?
        .function([].into_iter(), [ValType::I32].into_iter())?;
    ty.export("answer", EntityType::Function(0))?;
    Ok(ty)
}

/// `ComponentType`: an import of a list of bytes.
pub fn component_type<A: Allocator + Copy>(alloc: A) -> Result<ComponentTypeSection<A>, Fault> {
    let byte = ComponentValType::Primitive(PrimitiveValType::U8);
    let mut ty = ComponentType::new(alloc);
    ty.ty()?.defined_type().list(byte)?;
    ty.import("bytes".into(), ComponentTypeRef::Type(TypeBounds::Eq(0)))?;

    let mut types = ComponentTypeSection::new(alloc);
    types.component(&ty)?;
    Ok(types)
}

/// `InstanceType`: an export of an option.
pub fn instance_type<A: Allocator + Copy>(alloc: A) -> Result<ComponentTypeSection<A>, Fault> {
    let string = ComponentValType::Primitive(PrimitiveValType::String);
    let mut ty = InstanceType::new(alloc);
    ty.ty()?.defined_type().option(string)?;
    ty.export("name".into(), ComponentTypeRef::Type(TypeBounds::Eq(0)))?;

    let mut types = ComponentTypeSection::new(alloc);
    types.instance(&ty)?;
    Ok(types)
}

/// `ComponentCoreTypeEncoder`.
pub fn core_types<A: Allocator + Copy>(alloc: A) -> Result<CoreTypeSection<A>, Fault> {
    let mut module_type = ModuleType::new(alloc);
    module_type.alias_outer_core_type(1, 0)?;

    let mut types = CoreTypeSection::new(alloc);
    types
        .ty()?
        .core()
        .function([].into_iter(), [ValType::F64].into_iter())?;
    types.ty()?.module(&module_type)?;
    Ok(types)
}

/// `ComponentTypeEncoder`: a resource, and a handle that owns one.
#[tactic(auto, using(wenc_base::specs::laws::Holders::contains_opened))]
pub fn types<A: Allocator>(alloc: A) -> Result<ComponentTypeSection<A>, Fault>
    ensures { IfOk result (λ types. Contains def_type types
        (ResourceType ValType.I32 None ∷ DefinedType (Own 0) ∷ [])) }
{
    let mut types = ComponentTypeSection::new(alloc);
    types.ty()?.resource(ValType::I32, None)?;
    types.ty()?.defined_type().own(0)?;
    Ok(types)
}

/// `ComponentDefinedTypeEncoder`.
pub fn defined_types<A: Allocator>(alloc: A) -> Result<ComponentTypeSection<A>, Fault> {
    let string = ComponentValType::Primitive(PrimitiveValType::String);
    let mut types = ComponentTypeSection::new(alloc);
    let fields = [("name", string), ("street", string)];
    types.defined_type()?.record(fields.into_iter())?;
    types.defined_type()?.option(string)?;
    Ok(types)
}

/// `ComponentFuncTypeEncoder`: a function that takes a string and returns nothing.
pub fn func_type<A: Allocator>(alloc: A) -> Result<ComponentTypeSection<A>, Fault> {
    let string = ComponentValType::Primitive(PrimitiveValType::String);
    let mut types = ComponentTypeSection::new(alloc);
    let mut function = types.function()?;
    function.params([("line", string)].into_iter())?;
    function.result(None)?;
    Ok(types)
}
