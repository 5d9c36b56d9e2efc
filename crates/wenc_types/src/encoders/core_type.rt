//! The encoder of a component's core types.
ghost use Rattle.std.specs.Prelude.{◌≡◌, List, true, false, Err};
ghost use Rattle.wenc_base.specs.Prelude.{is_finished, held_members, EncodeCause, Ends, MakesWhole};
ghost use Rattle.wenc_base.specs.Prelude.{◌▸◌, refused_for};
ghost use Rattle.wenc_base.specs.declared.fault.Fault.TheVariants.{Unfinished};
ghost use Rattle.wenc_types.specs.Prelude.{CoreType, ModuleDeclaration, Module, core_type};
ghost use Rattle.wenc_types.specs.Prelude.{core_type_view, ModuleDeclares};

use crate::core_type_tree::CoreTypeTree;
use crate::module_type::ModuleType;
use std::alloc::Allocator;
use wenc_base::{CoreTypeEncoder, Fault, Parent};

/// Writes one core type of a component into its parent: a holder, or a type, a section or a builder
/// that contains one (component model, binary format, "Core Definitions").
///
/// If its last call fails, or the encoder is dropped, the parent stays unfinished until its
/// `discard_unfinished` discards the type.
///
/// ```
/// let mut module_type = ModuleType::new(alloc);
/// module_type.alias_outer_core_type(1, 0)?;
///
/// let mut types = CoreTypeSection::new(alloc);
/// types
///     .ty()?
///     .core()
///     .function([].into_iter(), [ValType::F64].into_iter())?;
/// types.ty()?.module(&module_type)?;
/// ```
#[derive(Drop)]
pub struct ComponentCoreTypeEncoder<'a, L: Parent> {
    parent: &'a mut L,
    ghost opened: { L.opened parent.now ≡ true },
    ghost whole: { (t : CoreType)
        → MakesWhole L.is_whole L.appended parent.now (core_type t) },
}

impl<'a, L: Parent> ComponentCoreTypeEncoder<'a, L> {
    /// Creates an encoder for the member that `parent` has just opened. Each core type of a
    /// component has to be a complete member.
    pub fn new(parent: &'a mut L) -> Self
        requires opened { L.opened parent.old ≡ true }
        requires whole { (t : CoreType)
            → MakesWhole L.is_whole L.appended parent.old (core_type t) }
        ensures same_reference { result.parent.ghost_name ≡ parent.entry.ghost_name }
        ensures now { result.parent.now ≡ parent.old }
    {
        ComponentCoreTypeEncoder { parent }
    }

    /// Writes this module type, which ends the type.
    ///
    /// # Errors
    ///
    /// Fails with `Unfinished` if the module type is unfinished, and with `TooLarge` if the size of
    /// the parent would exceed 4294967295.
    pub fn module<A: Allocator>(self, ty: &ModuleType<A>) -> Result<(), Fault>
        ensures ended { Ends L.appended L.ended L.refuses
            self.entry.parent.now self.exit.0.now result
            (0x50 ▸ held_members ty.now.held) }
        ensures declared { (ds : List ModuleDeclaration) → ModuleDeclares ty.now ds
            → Ends L.appended L.ended L.refuses self.entry.parent.now self.exit.0.now result
            (refused_for (EncodeCause ty.now.held) (core_type (Module ds))) }
        ensures unfinished { is_finished ty.now.held ≡ false → result ≡ Err Unfinished }
    {
        if !ty.is_finished() {
            return Err(Fault::Unfinished);
        }
        self.parent.end_with(ty)
    }

    /// Writes the type of this tree, which ends the type.
    ///
    /// # Errors
    ///
    /// Fails with `TooMany` if a list in the tree has more than 4294967295 values, and with
    /// `TooLarge` if the bytes of a string in it or the size of the parent would exceed 4294967295.
    pub fn tree<A: Allocator>(self, ty: &CoreTypeTree<A>) -> Result<(), Fault>
        ensures { Ends L.appended L.ended L.refuses self.entry.parent.now self.exit.0.now result
            (core_type (core_type_view ty.now)) }
    {
        self.parent.end_with(ty)
    }

    /// Returns the encoder of a core type that isn't a module type. It writes guards: in a
    /// component, a type that isn't final is preceded by a byte `00`.
    pub fn core(self) -> CoreTypeEncoder<'a, L>
        ensures same_reference { result.parent.ghost_name ≡ self.entry.parent.ghost_name }
        ensures now { result.parent.now ≡ self.entry.parent.now }
        ensures guarded { result.guard ≡ true }
    {
        let ComponentCoreTypeEncoder { parent } = self;
        CoreTypeEncoder::new(parent, true)
    }
}
