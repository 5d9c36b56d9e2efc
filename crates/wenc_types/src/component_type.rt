//! Types of components.
ghost use Rattle.std.specs.Prelude.{◌≡◌, IfOk, Some};
ghost use Rattle.wenc_parts.specs.Prelude.{extern_name_view};
ghost use Rattle.wenc_parts.specs.declared.imports.ComponentTypeRef.TheVariants as references;
ghost use Rattle.wenc_types.specs.Prelude.{Imported, Declared, AddsToComponent, indexed_outcome};
ghost use Rattle.wenc_types.specs.Prelude.{ComponentDeclaration, component_declaration};
ghost use Rattle.wenc_types.specs.Prelude.{component_space};

use crate::counts::space_of_kind;
use crate::declarations::{Declarations, DeclaredKind, DeclaringKind};
use std::alloc::{Allocator, Global};
use wenc_base::{Fault, Prefix};
use wenc_parts::{ComponentExternName, ComponentTypeRef, TypeBounds};

/// The kind of component types.
pub struct ComponentTypes;

impl DeclaredKind for ComponentTypes {
    ghost LEAD = { 0x41 };

    const LEAD: u8 = 0x41;

    ghost Declaration = { ComponentDeclaration };

    ghost form = { component_declaration };

    ghost space = { component_space };

    ghost declared = { λ d. Some (Declared d) };
}

impl DeclaringKind for ComponentTypes {
    ghost use Rattle.std.proofs.Common.{refl};
    ghost use Rattle.wenc_base.specs.Prelude.{serves_itself};

    ghost declares = { λ _. (serves_itself, refl) };
}

/// The type of a component: its imports and exports, and the types that these refer to (component
/// model, binary format, "Type Definitions").
///
/// ```
/// let byte = ComponentValType::Primitive(PrimitiveValType::U8);
/// let mut ty = ComponentType::new(alloc);
/// ty.ty()?.defined_type().list(byte)?;
/// ty.import("bytes".into(), ComponentTypeRef::Type(TypeBounds::Eq(0)))?;
///
/// let mut types = ComponentTypeSection::new(alloc);
/// types.component(&ty)?;
/// ```
pub type ComponentType<A = Global> = Declarations<ComponentTypes, A>;

impl<A: Allocator> Declarations<ComponentTypes, A> {
    /// Declares an import with this name.
    ///
    /// # Errors
    ///
    /// Fails with `Unfinished` while a type is being written, with `TooMany` if the number of
    /// declarations would exceed 4294967295, and with `TooLarge` if their bytes or those of the
    /// name would.
    pub fn import<B: Allocator>(
        &mut self,
        name: ComponentExternName<'_, B>,
        ty: ComponentTypeRef,
    ) -> Result<(), Fault>
        ensures { AddsToComponent self.old self.new result
            (Imported (extern_name_view name.entry) ty) }
    {
        self.add(&Prefix(0x03, &(name, ty)), space_of_kind(ty.kind()))
    }

    /// Declares an import of a type with this name. Returns its index in the index space of types.
    ///
    /// # Errors
    ///
    /// Fails as `import` does.
    pub fn import_type<B: Allocator>(
        &mut self,
        name: ComponentExternName<'_, B>,
        bounds: TypeBounds,
    ) -> Result<u32, Fault>
        ensures added { AddsToComponent self.old self.new (indexed_outcome result)
            (Imported (extern_name_view name.entry) (references.«Type» bounds)) }
        ensures index { IfOk result (λ index. index ≡ self.old.counts.types) }
    {
        let index = self.type_count();
        self.import(name, ComponentTypeRef::Type(bounds))?;
        Ok(index)
    }

    /// Declares an import, with this name, of an instance whose type has the index `ty`. Returns
    /// its index in the index space of instances.
    ///
    /// # Errors
    ///
    /// Fails as `import` does.
    pub fn import_instance<B: Allocator>(
        &mut self,
        name: ComponentExternName<'_, B>,
        ty: u32,
    ) -> Result<u32, Fault>
        ensures added { AddsToComponent self.old self.new (indexed_outcome result)
            (Imported (extern_name_view name.entry) (references.Instance ty)) }
        ensures index { IfOk result (λ index. index ≡ self.old.counts.instances) }
    {
        let index = self.instance_count();
        self.import(name, ComponentTypeRef::Instance(ty))?;
        Ok(index)
    }
}
