//! The encoder of a component's types.
ghost use Rattle.std.specs.Prelude.{◌≡◌, List, true, false, Err};
ghost use Rattle.wenc_base.specs.Prelude.{is_finished, held_members, EncodeCause, Ends, MakesWhole};
ghost use Rattle.wenc_base.specs.Prelude.{◌▸◌, refused_for};
ghost use Rattle.wenc_base.specs.declared.fault.Fault.TheVariants.{Unfinished};
ghost use Rattle.wenc_types.specs.Prelude.{DefType, InstanceDeclaration, ComponentDeclaration};
ghost use Rattle.wenc_types.specs.Prelude.{ComponentType as ComponentTypeSpec};
ghost use Rattle.wenc_types.specs.Prelude.{InstanceType as InstanceTypeSpec, ResourceType};
ghost use Rattle.wenc_types.specs.Prelude.{components_of, instances_of, def_type};
ghost use Rattle.wenc_types.specs.Prelude.{ComponentDeclares, InstanceDeclares, type_view};
ghost use Rattle.wenc_types.specs.declared.encoders.func_type.FuncStage.TheVariants as stages;

use crate::component_type::ComponentType;
use crate::encoders::defined_type::ComponentDefinedTypeEncoder;
use crate::encoders::func_type::ComponentFuncTypeEncoder;
use crate::instance_type::InstanceType;
use crate::type_tree::TypeTree;
use std::alloc::Allocator;
use wenc_base::{Fault, Parent, Prefix, ValType};

/// Writes one type into its parent: a holder, or a type, a section or a builder that contains one
/// (component model, binary format, "Type Definitions").
///
/// If its last call fails, or the encoder is dropped, the parent stays unfinished until its
/// `discard_unfinished` discards the type.
///
/// ```
/// let mut types = ComponentTypeSection::new(alloc);
/// types.ty()?.resource(ValType::I32, None)?;
/// types.ty()?.defined_type().own(0)?;
/// ```
#[derive(Drop)]
pub struct ComponentTypeEncoder<'a, L: Parent> {
    parent: &'a mut L,
    ghost opened: { L.opened parent.now ≡ true },
    ghost whole: { (t : DefType) → MakesWhole L.is_whole L.appended parent.now (def_type t) },
}

impl<'a, L: Parent> ComponentTypeEncoder<'a, L> {
    /// Creates an encoder for the member that `parent` has just opened. Each type has to be a
    /// complete member.
    pub fn new(parent: &'a mut L) -> Self
        requires opened { L.opened parent.old ≡ true }
        requires whole { (t : DefType)
            → MakesWhole L.is_whole L.appended parent.old (def_type t) }
        ensures same_reference { result.parent.ghost_name ≡ parent.entry.ghost_name }
        ensures now { result.parent.now ≡ parent.old }
    {
        ComponentTypeEncoder { parent }
    }

    /// Writes this component type, which ends the type.
    ///
    /// # Errors
    ///
    /// Fails with `Unfinished` if the component type is unfinished, and with `TooLarge` if the size
    /// of the parent would exceed 4294967295.
    pub fn component<A: Allocator>(self, ty: &ComponentType<A>) -> Result<(), Fault>
        ensures ended { Ends L.appended L.ended L.refuses
            self.entry.parent.now self.exit.0.now result
            (0x41 ▸ held_members ty.now.held) }
        ensures declared { (ds : List ComponentDeclaration) → ComponentDeclares ty.now ds
            → Ends L.appended L.ended L.refuses self.entry.parent.now self.exit.0.now result
            (refused_for (EncodeCause ty.now.held)
            (def_type (ComponentTypeSpec (components_of ds)))) }
        ensures unfinished { is_finished ty.now.held ≡ false → result ≡ Err Unfinished }
    {
        if !ty.is_finished() {
            return Err(Fault::Unfinished);
        }
        self.parent.end_with(ty)
    }

    /// Writes this instance type, which ends the type.
    ///
    /// # Errors
    ///
    /// Fails as `component` does.
    pub fn instance<A: Allocator>(self, ty: &InstanceType<A>) -> Result<(), Fault>
        ensures ended { Ends L.appended L.ended L.refuses
            self.entry.parent.now self.exit.0.now result
            (0x42 ▸ held_members ty.now.held) }
        ensures declared { (ds : List InstanceDeclaration) → InstanceDeclares ty.now ds
            → Ends L.appended L.ended L.refuses self.entry.parent.now self.exit.0.now result
            (refused_for (EncodeCause ty.now.held)
            (def_type (InstanceTypeSpec (instances_of ds)))) }
        ensures unfinished { is_finished ty.now.held ≡ false → result ≡ Err Unfinished }
    {
        if !ty.is_finished() {
            return Err(Fault::Unfinished);
        }
        self.parent.end_with(ty)
    }

    /// Writes the type of this tree, which ends the type.
    ///
    /// # Errors
    ///
    /// Fails with `TooMany` if a list in the tree has more than 4294967295 values, and with
    /// `TooLarge` if the bytes of a string in it or the size of the parent would exceed 4294967295.
    pub fn tree<A: Allocator>(self, ty: &TypeTree<A>) -> Result<(), Fault>
        ensures { Ends L.appended L.ended L.refuses self.entry.parent.now self.exit.0.now result
            (def_type (type_view ty.now)) }
    {
        self.parent.end_with(ty)
    }

    /// Returns the encoder of a function type.
    pub fn function(self) -> ComponentFuncTypeEncoder<'a, L>
        ensures same_reference { result.parent.ghost_name ≡ self.entry.parent.ghost_name }
        ensures now { result.parent.now ≡ self.entry.parent.now }
        ensures stage { result.stage ≡ stages.Start }
    {
        let ComponentTypeEncoder { parent } = self;
        ComponentFuncTypeEncoder::new(parent)
    }

    /// Returns the encoder of a defined type, a type of values.
    pub fn defined_type(self) -> ComponentDefinedTypeEncoder<'a, L>
        ensures same_reference { result.parent.ghost_name ≡ self.entry.parent.ghost_name }
        ensures now { result.parent.now ≡ self.entry.parent.now }
    {
        let ComponentTypeEncoder { parent } = self;
        ComponentDefinedTypeEncoder::new(parent)
    }

    /// Writes a resource type: its representation, and the index of its destructor, a core
    /// function, if it has one. This ends the type.
    ///
    /// # Errors
    ///
    /// Fails with `TooLarge` if the size of the parent would exceed 4294967295.
    pub fn resource(self, rep: ValType, dtor: Option<u32>) -> Result<(), Fault>
        ensures { Ends L.appended L.ended L.refuses self.entry.parent.now self.exit.0.now result
            (def_type (ResourceType rep dtor)) }
    {
        self.parent.end_with(&Prefix(0x3f, &(rep, dtor)))
    }
}
