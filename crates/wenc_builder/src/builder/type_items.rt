//! Methods that add types.
ghost use Rattle.std.specs.Borrow.{sem};
ghost use Rattle.std.specs.Option.{option_copied};
ghost use Rattle.std.specs.Prelude.{◌≡◌, [], List, false, Err, IfOk, OnErr};
ghost use Rattle.wenc_base.specs.Prelude.{is_finished, held_members, ◌▸◌};
ghost use Rattle.wenc_base.specs.declared.fault.Fault.TheVariants.{Unfinished};
ghost use Rattle.wenc_builder.specs.Prelude.{new_item_in, BeginsItem, Enters, AddsWholeItem};
ghost use Rattle.wenc_builder.specs.Prelude.{type_entry};
ghost use Rattle.wenc_parts.specs.declared.component.ComponentSectionId.TheVariants as ids;
ghost use Rattle.wenc_types.specs.Prelude.{InstanceDeclaration, ComponentDeclaration, InstanceType};
ghost use Rattle.wenc_types.specs.Prelude.{ComponentType as ComponentTypeSpec, ResourceType};
ghost use Rattle.wenc_types.specs.Prelude.{instances_of, components_of, InstanceDeclares};
ghost use Rattle.wenc_types.specs.Prelude.{ComponentDeclares, unchanged_on_err};
ghost use Rattle.wenc_types.specs.declared.encoders.func_type.FuncStage.TheVariants as stages;

use super::ComponentBuilder;
use super::kind::Kind;
use std::alloc::Allocator;
use wenc_base::{Fault, Prefix, ValType};
use wenc_sections::Space;
use wenc_types::{
    ComponentCoreTypeEncoder, ComponentDefinedTypeEncoder, ComponentFuncTypeEncoder, ComponentType,
    ComponentTypeEncoder, InstanceType,
};

/// Types: each method adds one with an optional debug name, and returns its index (component model,
/// binary format, "Core Definitions" and "Type Definitions"). A method that also returns an encoder
/// begins the type: it has its index and its name, and the builder is unfinished until the
/// encoder's last call. Each fails as documented on `ComponentBuilder`.
///
/// ```
/// let mut builder = ComponentBuilder::new(alloc)?;
/// let string = ComponentValType::Primitive(PrimitiveValType::String);
/// let (index, ty) = builder.type_defined(None)?;
/// ty.option(string)?;
/// builder.export("name".into(), ComponentExportKind::Type, index, None)?;
/// let bytes = builder.finish()?;
/// ```
impl<A: Allocator> ComponentBuilder<A> {
    ghost use Rattle.wenc_builder.specs.contracts.builder.ComponentBuilder.{the_row};

    /// Begins a core type, which the returned encoder writes.
    pub fn core_type(
        &mut self,
        debug_name: Option<&str>,
    ) -> Result<(u32, ComponentCoreTypeEncoder<'_, ComponentBuilder<A>>), Fault>
        ensures* refused { sem 𝓛 (unchanged_on_err (the_row A.row A.Allocator)
            self.entry (λ e. e.1.parent) result) }
        ensures same_reference { IfOk result (λ e. e.1.parent.ghost_name ≡ self.entry.ghost_name) }
        ensures begun { BeginsItem (λ e. e.0) (λ e. e.1.parent.now) self.old result
            (new_item_in ids.CoreType Space.CoreTypes (option_copied debug_name.entry) []) }
    {
        let index = self.open(Kind::CoreType, Space::CoreTypes, debug_name)?;
        Ok((index, ComponentCoreTypeEncoder::new(self)))
    }

    /// Begins a type, which the returned encoder writes.
    pub fn ty(
        &mut self,
        debug_name: Option<&str>,
    ) -> Result<(u32, ComponentTypeEncoder<'_, ComponentBuilder<A>>), Fault>
        ensures* refused { sem 𝓛 (unchanged_on_err (the_row A.row A.Allocator)
            self.entry (λ e. e.1.parent) result) }
        ensures same_reference { IfOk result (λ e. e.1.parent.ghost_name ≡ self.entry.ghost_name) }
        ensures begun { BeginsItem (λ e. e.0) (λ e. e.1.parent.now) self.old result
            (new_item_in ids.«Type» Space.Types (option_copied debug_name.entry) []) }
    {
        let index = self.open(Kind::Type, Space::Types, debug_name)?;
        Ok((index, ComponentTypeEncoder::new(self)))
    }

    /// Adds an instance type. Fails with `Unfinished` if it or the builder is unfinished.
    pub fn type_instance<B: Allocator>(
        &mut self,
        debug_name: Option<&str>,
        ty: &InstanceType<B>,
    ) -> Result<u32, Fault>
        ensures entered { (ds : List InstanceDeclaration) → InstanceDeclares ty.now ds
            → Enters self.old self.new result
            (type_entry (option_copied debug_name.entry) (InstanceType (instances_of ds))) }
        ensures taken { AddsWholeItem self.old self.new result
            (new_item_in ids.«Type» Space.Types (option_copied debug_name.entry))
            (0x42 ▸ held_members ty.now.held) }
        ensures unfinished { is_finished ty.now.held ≡ false → result ≡ Err Unfinished }
        ensures err { OnErr result (self.new ≡ self.old) }
    {
        if !ty.is_finished() {
            return Err(Fault::Unfinished);
        }
        self.add(Kind::Type, Space::Types, debug_name, ty)
    }

    /// Adds a component type. Fails with `Unfinished` if it or the builder is unfinished.
    pub fn type_component<B: Allocator>(
        &mut self,
        debug_name: Option<&str>,
        ty: &ComponentType<B>,
    ) -> Result<u32, Fault>
        ensures entered { (ds : List ComponentDeclaration) → ComponentDeclares ty.now ds
            → Enters self.old self.new result
            (type_entry (option_copied debug_name.entry) (ComponentTypeSpec (components_of ds))) }
        ensures taken { AddsWholeItem self.old self.new result
            (new_item_in ids.«Type» Space.Types (option_copied debug_name.entry))
            (0x41 ▸ held_members ty.now.held) }
        ensures unfinished { is_finished ty.now.held ≡ false → result ≡ Err Unfinished }
        ensures err { OnErr result (self.new ≡ self.old) }
    {
        if !ty.is_finished() {
            return Err(Fault::Unfinished);
        }
        self.add(Kind::Type, Space::Types, debug_name, ty)
    }

    /// Begins a defined value type, which the returned encoder writes.
    pub fn type_defined(
        &mut self,
        debug_name: Option<&str>,
    ) -> Result<(u32, ComponentDefinedTypeEncoder<'_, ComponentBuilder<A>>), Fault>
        ensures* refused { sem 𝓛 (unchanged_on_err (the_row A.row A.Allocator)
            self.entry (λ e. e.1.parent) result) }
        ensures same_reference { IfOk result (λ e. e.1.parent.ghost_name ≡ self.entry.ghost_name) }
        ensures begun { BeginsItem (λ e. e.0) (λ e. e.1.parent.now) self.old result
            (new_item_in ids.«Type» Space.Types (option_copied debug_name.entry) []) }
    {
        let index = self.open(Kind::Type, Space::Types, debug_name)?;
        Ok((index, ComponentDefinedTypeEncoder::new(self)))
    }

    /// Begins a function type, which the returned encoder writes.
    pub fn type_function(
        &mut self,
        debug_name: Option<&str>,
    ) -> Result<(u32, ComponentFuncTypeEncoder<'_, ComponentBuilder<A>>), Fault>
        ensures* refused { sem 𝓛 (unchanged_on_err (the_row A.row A.Allocator)
            self.entry (λ e. e.1.parent) result) }
        ensures same_reference { IfOk result (λ e. e.1.parent.ghost_name ≡ self.entry.ghost_name) }
        ensures begun { BeginsItem (λ e. e.0) (λ e. e.1.parent.now) self.old result
            (new_item_in ids.«Type» Space.Types (option_copied debug_name.entry) []) }
        ensures stage { IfOk result (λ e. e.1.stage ≡ stages.Start) }
    {
        let index = self.open(Kind::Type, Space::Types, debug_name)?;
        Ok((index, ComponentFuncTypeEncoder::new(self)))
    }

    /// Adds a resource type with this representation, and optionally the index of its destructor,
    /// the core function that is called when a resource is dropped.
    pub fn type_resource(
        &mut self,
        debug_name: Option<&str>,
        rep: ValType,
        dtor: Option<u32>,
    ) -> Result<u32, Fault>
        ensures { Enters self.old self.new result
            (type_entry (option_copied debug_name.entry) (ResourceType rep dtor)) }
    {
        let parts = (rep, dtor);
        let resource = Prefix(0x3f, &parts);
        self.add(Kind::Type, Space::Types, debug_name, &resource)
    }
}
