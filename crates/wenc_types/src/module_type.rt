//! Types of core modules.
ghost use Rattle.std.specs.Borrow.{sem};
ghost use Rattle.std.specs.Prelude.{◌≡◌, false, OnOk, IfOk, None};
ghost use Rattle.wenc_base.specs.Prelude.{is_finished, AddCause, Borrows};
ghost use Rattle.wenc_types.specs.Prelude.{ModuleImport, ModuleOuter, ModuleExport, AddsToModule};
ghost use Rattle.wenc_types.specs.Prelude.{NoneBegun, indexed_outcome, lead_of, type_begun};
ghost use Rattle.wenc_types.specs.Prelude.{unchanged_on_err, ModuleDeclaration, module_declaration};
ghost use Rattle.wenc_types.specs.Prelude.{module_space};
ghost use Rattle.wenc_types.specs.declared.counts.IndexSpace.TheVariants as spaces;

use crate::counts::IndexSpace;
use crate::declarations::{Declarations, DeclaredKind};
use std::alloc::{Allocator, Global};
use wenc_base::{CoreTypeEncoder, EntityType, Fault, Prefix, Verbatim};

/// The kind of module types.
pub struct ModuleTypes;

impl DeclaredKind for ModuleTypes {
    ghost LEAD = { 0x50 };

    const LEAD: u8 = 0x50;

    ghost Declaration = { ModuleDeclaration };

    ghost form = { module_declaration };

    ghost space = { module_space };

    ghost declared = { λ _. None };
}

/// The type of a core module: its imports and exports, and the types that these refer to (component
/// model, binary format, "Core Definitions").
///
/// ```
/// let mut ty = ModuleType::new(alloc);
/// ty.ty()?
///     .function([].into_iter(), [ValType::I32].into_iter())?;
/// ty.export("answer", EntityType::Function(0))?;
/// ```
pub type ModuleType<A = Global> = Declarations<ModuleTypes, A>;

impl<A: Allocator> Declarations<ModuleTypes, A> {
    ghost use Rattle.wenc_types.specs.contracts.declarations.Declarations.{the_row};
    ghost use Rattle.wenc_types.specs.contracts.module_type.ModuleTypes.{the_row as kind};

    /// Declares an import of the module.
    ///
    /// # Errors
    ///
    /// Fails with `Unfinished` while a type is being written, with `TooMany` if the number of
    /// declarations would exceed 4294967295, and with `TooLarge` if their bytes or those of one of
    /// the names would.
    pub fn import(&mut self, module: &str, name: &str, ty: EntityType) -> Result<(), Fault>
        ensures { AddsToModule self.old self.new result (ModuleImport «module».now name.now ty) }
    {
        self.add(&Prefix(0x00, &(module, name, ty)), None)
    }

    /// Declares an alias of the core type with this index in the scope that is `count` scopes
    /// outwards, where 0 is this type.
    ///
    /// # Errors
    ///
    /// Fails as `import` does.
    pub fn alias_outer_core_type(&mut self, count: u32, index: u32) -> Result<(), Fault>
        ensures { AddsToModule self.old self.new result (ModuleOuter count index) }
    {
        let sort_and_kind = Verbatim(&[0x10, 0x01]);
        self.add(
            &Prefix(0x02, &(sort_and_kind, count, index)),
            Some(IndexSpace::Type),
        )
    }

    /// Declares an alias of the core type with the index `outer` in the scope that is `count`
    /// scopes outwards, as `alias_outer_core_type` does. Returns the alias's index in this type's
    /// index space of core types.
    ///
    /// # Errors
    ///
    /// Fails as `import` does.
    pub fn alias_core_type(&mut self, count: u32, outer: u32) -> Result<u32, Fault>
        ensures added { AddsToModule self.old self.new (indexed_outcome result)
            (ModuleOuter count outer) }
        ensures index { IfOk result (λ index. index ≡ self.old.counts.types) }
    {
        let index = self.type_count();
        self.alias_outer_core_type(count, outer)?;
        Ok(index)
    }

    /// Declares an export of the module.
    ///
    /// # Errors
    ///
    /// Fails as `import` does.
    pub fn export(&mut self, name: &str, ty: EntityType) -> Result<(), Fault>
        ensures { AddsToModule self.old self.new result (ModuleExport name.now ty) }
    {
        self.add(&Prefix(0x03, &(name, ty)), None)
    }

    /// Begins a core type, and returns its encoder.
    ///
    /// # Errors
    ///
    /// Fails as `import` does.
    pub fn ty(&mut self) -> Result<CoreTypeEncoder<'_, ModuleType<A>>, Fault>
        ensures* refused { sem 𝓛 (unchanged_on_err
            (the_row kind A.row ⟦<ModuleTypes as DeclaredKind>⟧ A.Allocator) self.entry
            (λ e. e.parent) result) }
        ensures same_reference { IfOk result (λ e. e.parent.ghost_name ≡ self.entry.ghost_name) }
        ensures borrowed { Borrows (λ e. e.parent.now) (type_begun spaces.«Type» self.old)
            (is_finished self.old.held) result
            (AddCause self.old.held (lead_of spaces.«Type») (λ _. ⊥)) }
        ensures settled { OnOk result (NoneBegun self.old) }
        ensures unguarded { IfOk result (λ e. e.guard ≡ false) }
    {
        self.begin(0x01, IndexSpace::Type)?;
        Ok(CoreTypeEncoder::new(self, false))
    }
}
