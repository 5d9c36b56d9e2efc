//! The sections of core types and of types.
ghost use Rattle.std.specs.Borrow.{sem};
ghost use Rattle.std.specs.Prelude.{◌≡◌, [], List, false, IfOk, IfErr, Err};
ghost use Rattle.wenc_base.specs.Prelude.{is_finished, held_members, AddCause, AddsMember};
ghost use Rattle.wenc_base.specs.Prelude.{EncodeCause, Borrows, member_begun, ◌▸◌, refused_for};
ghost use Rattle.wenc_base.specs.Prelude.{HasForm};
ghost use Rattle.wenc_base.specs.declared.fault.Fault.TheVariants.{Unfinished};
ghost use Rattle.wenc_types.specs.Prelude.{InstanceDeclaration, ComponentDeclaration};
ghost use Rattle.wenc_types.specs.Prelude.{ComponentType as ComponentTypeSpec};
ghost use Rattle.wenc_types.specs.Prelude.{InstanceType as InstanceTypeSpec, ResourceType};
ghost use Rattle.wenc_types.specs.Prelude.{components_of, instances_of, def_type};
ghost use Rattle.wenc_types.specs.Prelude.{ComponentDeclares, InstanceDeclares, unchanged_on_err};
ghost use Rattle.wenc_types.specs.Prelude.{core_type};
ghost use Rattle.wenc_types.specs.declared.encoders.func_type.FuncStage.TheVariants as stages;

use crate::counted::{Counted, CountedKind, EncoderKind};
use std::alloc::{Allocator, Global};
use wenc_base::{Fault, Prefix, ValType};
use wenc_parts::ComponentSectionId;
use wenc_types::{
    ComponentCoreTypeEncoder, ComponentDefinedTypeEncoder, ComponentFuncTypeEncoder, ComponentType,
    ComponentTypeEncoder, InstanceType,
};

/// The kind of core type sections.
pub struct CoreTypes;

impl CountedKind for CoreTypes {
    ghost use Rattle.wenc_sections.specs.Prelude.{ComponentSectionId};

    ghost ID = { ComponentSectionId.CoreType };

    const ID: ComponentSectionId = ComponentSectionId::CoreType;

    ghost is_item = { HasForm core_type };
}

impl EncoderKind for CoreTypes {}

/// The section of core types (component model, binary format, "Core Definitions").
///
/// ```
/// let mut types = CoreTypeSection::new(alloc);
/// let encoder = types.ty()?.core();
/// encoder.function([ValType::I64].into_iter(), [].into_iter())?;
///
/// let mut component = Component::new(alloc)?;
/// component.section(&types)?;
/// let bytes = component.finish();
/// ```
pub type CoreTypeSection<A = Global> = Counted<CoreTypes, A>;

impl<A: Allocator> Counted<CoreTypes, A> {
    ghost use Rattle.wenc_sections.specs.contracts.counted.Counted.{the_row};
    ghost use Rattle.wenc_sections.specs.contracts.types.CoreTypes.{the_row as kind};

    /// Begins a core type, and returns its encoder. Does not allocate.
    ///
    /// # Errors
    ///
    /// Fails with `Unfinished` while a type is being written, with `TooMany` if the number of types
    /// would exceed 4294967295, and with `TooLarge` if the size of the section would.
    pub fn ty(&mut self) -> Result<ComponentCoreTypeEncoder<'_, CoreTypeSection<A>>, Fault>
        ensures* refused { sem 𝓛 (unchanged_on_err
            (the_row kind A.row ⟦<CoreTypes as CountedKind>⟧ A.Allocator) self.entry
            (λ e. e.parent) result) }
        ensures same_reference { IfOk result (λ e. e.parent.ghost_name ≡ self.entry.ghost_name) }
        ensures borrowed { Borrows (λ e. e.parent.now) (member_begun self.old [])
            (is_finished self.old) result (AddCause self.old [] (λ _. ⊥)) }
        ensures no_memory { IfErr result (AddCause self.old [] (λ _. ⊥)) }
    {
        self.items.open(&[])?;
        Ok(ComponentCoreTypeEncoder::new(self))
    }
}

/// The kind of type sections.
pub struct ComponentTypes;

impl CountedKind for ComponentTypes {
    ghost use Rattle.wenc_sections.specs.Prelude.{ComponentSectionId};

    ghost ID = { ComponentSectionId.«Type» };

    const ID: ComponentSectionId = ComponentSectionId::Type;

    ghost is_item = { HasForm def_type };
}

impl EncoderKind for ComponentTypes {}

/// The section of types (component model, binary format, "Type Definitions").
///
/// ```
/// let string = ComponentValType::Primitive(PrimitiveValType::String);
/// let mut types = ComponentTypeSection::new(alloc);
/// types
///     .defined_type()?
///     .record([("name", string)].into_iter())?;
/// types.resource(ValType::I32, None)?;
///
/// let mut component = Component::new(alloc)?;
/// component.section(&types)?;
/// let bytes = component.finish();
/// ```
pub type ComponentTypeSection<A = Global> = Counted<ComponentTypes, A>;

impl<A: Allocator> Counted<ComponentTypes, A> {
    ghost use Rattle.wenc_sections.specs.contracts.counted.Counted.{the_row};
    ghost use Rattle.wenc_sections.specs.contracts.types.ComponentTypes.{the_row as kind};

    /// Begins a type, and returns its encoder. Does not allocate.
    ///
    /// # Errors
    ///
    /// Fails with `Unfinished` while a type is being written, with `TooMany` if the number of types
    /// would exceed 4294967295, and with `TooLarge` if the size of the section would.
    pub fn ty(&mut self) -> Result<ComponentTypeEncoder<'_, ComponentTypeSection<A>>, Fault>
        ensures* refused { sem 𝓛 (unchanged_on_err
            (the_row kind A.row ⟦<ComponentTypes as CountedKind>⟧ A.Allocator) self.entry
            (λ e. e.parent) result) }
        ensures same_reference { IfOk result (λ e. e.parent.ghost_name ≡ self.entry.ghost_name) }
        ensures borrowed { Borrows (λ e. e.parent.now) (member_begun self.old [])
            (is_finished self.old) result (AddCause self.old [] (λ _. ⊥)) }
        ensures no_memory { IfErr result (AddCause self.old [] (λ _. ⊥)) }
    {
        self.items.open(&[])?;
        Ok(ComponentTypeEncoder::new(self))
    }

    /// Begins a function type, and returns its encoder. Does not allocate.
    ///
    /// # Errors
    ///
    /// Fails as `ty` does.
    pub fn function(
        &mut self,
    ) -> Result<ComponentFuncTypeEncoder<'_, ComponentTypeSection<A>>, Fault>
        ensures* refused { sem 𝓛 (unchanged_on_err
            (the_row kind A.row ⟦<ComponentTypes as CountedKind>⟧ A.Allocator) self.entry
            (λ e. e.parent) result) }
        ensures same_reference { IfOk result (λ e. e.parent.ghost_name ≡ self.entry.ghost_name) }
        ensures borrowed { Borrows (λ e. e.parent.now) (member_begun self.old [])
            (is_finished self.old) result (AddCause self.old [] (λ _. ⊥)) }
        ensures no_memory { IfErr result (AddCause self.old [] (λ _. ⊥)) }
        ensures stage { IfOk result (λ e. e.stage ≡ stages.Start) }
    {
        self.items.open(&[])?;
        Ok(ComponentFuncTypeEncoder::new(self))
    }

    /// Begins a defined type, a type of values, and returns its encoder. Does not allocate.
    ///
    /// # Errors
    ///
    /// Fails as `ty` does.
    pub fn defined_type(
        &mut self,
    ) -> Result<ComponentDefinedTypeEncoder<'_, ComponentTypeSection<A>>, Fault>
        ensures* refused { sem 𝓛 (unchanged_on_err
            (the_row kind A.row ⟦<ComponentTypes as CountedKind>⟧ A.Allocator) self.entry
            (λ e. e.parent) result) }
        ensures same_reference { IfOk result (λ e. e.parent.ghost_name ≡ self.entry.ghost_name) }
        ensures borrowed { Borrows (λ e. e.parent.now) (member_begun self.old [])
            (is_finished self.old) result (AddCause self.old [] (λ _. ⊥)) }
        ensures no_memory { IfErr result (AddCause self.old [] (λ _. ⊥)) }
    {
        self.items.open(&[])?;
        Ok(ComponentDefinedTypeEncoder::new(self))
    }

    /// Adds this component type.
    ///
    /// # Errors
    ///
    /// Fails with `Unfinished` if `ty` or the section is unfinished, with `TooMany` if the number
    /// of types would exceed 4294967295, and with `TooLarge` if the bytes of the section would.
    pub fn component<B: Allocator>(&mut self, ty: &ComponentType<B>) -> Result<(), Fault>
        ensures added { AddsMember (0x41 ▸ held_members ty.now.held) self.old self.new result }
        ensures declared { (ds : List ComponentDeclaration) → ComponentDeclares ty.now ds
            → AddsMember (refused_for (EncodeCause ty.now.held)
            (def_type (ComponentTypeSpec (components_of ds)))) self.old self.new result }
        ensures unfinished { is_finished ty.now.held ≡ false → result ≡ Err Unfinished }
    {
        if !ty.is_finished() {
            return Err(Fault::Unfinished);
        }
        self.items.add_encoded(ty)
    }

    /// Adds this instance type.
    ///
    /// # Errors
    ///
    /// Fails as `component` does.
    pub fn instance<B: Allocator>(&mut self, ty: &InstanceType<B>) -> Result<(), Fault>
        ensures added { AddsMember (0x42 ▸ held_members ty.now.held) self.old self.new result }
        ensures declared { (ds : List InstanceDeclaration) → InstanceDeclares ty.now ds
            → AddsMember (refused_for (EncodeCause ty.now.held)
            (def_type (InstanceTypeSpec (instances_of ds)))) self.old self.new result }
        ensures unfinished { is_finished ty.now.held ≡ false → result ≡ Err Unfinished }
    {
        if !ty.is_finished() {
            return Err(Fault::Unfinished);
        }
        self.items.add_encoded(ty)
    }

    /// Adds a resource type: its representation, and the index of its destructor, a core function,
    /// if it has one.
    ///
    /// # Errors
    ///
    /// Fails with `Unfinished` while a type is being written, with `TooMany` if the number of types
    /// would exceed 4294967295, and with `TooLarge` if the bytes of the section would.
    pub fn resource(&mut self, rep: ValType, dtor: Option<u32>) -> Result<(), Fault>
        ensures { AddsMember (def_type (ResourceType rep dtor)) self.old self.new result }
    {
        self.items.add_encoded(&Prefix(0x3f, &(rep, dtor)))
    }
}
