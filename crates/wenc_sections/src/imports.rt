//! The section of imports.
ghost use Rattle.wenc_base.specs.Prelude.{AddsMember, HasForm};
ghost use Rattle.wenc_parts.specs.Prelude.{extern_name_view};
ghost use Rattle.wenc_sections.specs.Prelude.{import_item};

use crate::counted::{Counted, CountedKind};
use std::alloc::{Allocator, Global};
use wenc_base::Fault;
use wenc_parts::{ComponentExternName, ComponentSectionId, ComponentTypeRef};

/// The kind of import sections.
pub struct Imports;

impl CountedKind for Imports {
    ghost use Rattle.wenc_sections.specs.Prelude.{ComponentSectionId};

    ghost ID = { ComponentSectionId.Import };

    const ID: ComponentSectionId = ComponentSectionId::Import;

    ghost is_item = { HasForm import_item };
}

/// The section of imports (component model, binary format, "Import and Export Definitions").
///
/// ```
/// let mut imports = ComponentImportSection::new(alloc);
/// imports.import("file".into(), ComponentTypeRef::Type(TypeBounds::SubResource))?;
/// imports.import("log".into(), ComponentTypeRef::Type(TypeBounds::Eq(0)))?;
///
/// let mut component = Component::new(alloc)?;
/// component.section(&imports)?;
/// let bytes = component.finish();
/// ```
pub type ComponentImportSection<A = Global> = Counted<Imports, A>;

impl<A: Allocator> Counted<Imports, A> {
    /// Adds an import with this name and type.
    ///
    /// # Errors
    ///
    /// Fails with `TooMany` if the number of imports would exceed 4294967295, and with `TooLarge`
    /// if the bytes of the section or of a string of the name would.
    pub fn import<B: Allocator>(
        &mut self,
        name: ComponentExternName<'_, B>,
        ty: ComponentTypeRef,
    ) -> Result<(), Fault>
        ensures { AddsMember (import_item (record {
          name = extern_name_view name.entry;
          ty = ty;
        })) self.old self.new result }
    {
        self.items.add_encoded(&(name, ty))
    }
}
