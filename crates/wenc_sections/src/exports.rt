//! The section of exports.
ghost use Rattle.wenc_base.specs.Prelude.{AddsMember, HasForm};
ghost use Rattle.wenc_parts.specs.Prelude.{extern_name_view};
ghost use Rattle.wenc_sections.specs.Prelude.{export_item};

use crate::counted::{Counted, CountedKind};
use std::alloc::{Allocator, Global};
use wenc_base::Fault;
use wenc_parts::{ComponentExportKind, ComponentExternName, ComponentSectionId, ComponentTypeRef};

/// The kind of export sections.
pub struct Exports;

impl CountedKind for Exports {
    ghost use Rattle.wenc_sections.specs.Prelude.{ComponentSectionId};

    ghost ID = { ComponentSectionId.Export };

    const ID: ComponentSectionId = ComponentSectionId::Export;

    ghost is_item = { HasForm export_item };
}

/// The section of exports (component model, binary format, "Import and Export Definitions").
///
/// ```
/// let mut component = Component::new(alloc)?;
/// let mut imports = ComponentImportSection::new(alloc);
/// imports.import("file".into(), ComponentTypeRef::Type(TypeBounds::SubResource))?;
/// component.section(&imports)?;
/// let mut exports = ComponentExportSection::new(alloc);
/// exports.export("handle".into(), ComponentExportKind::Type, 0, None)?;
/// component.section(&exports)?;
/// let bytes = component.finish();
/// ```
pub type ComponentExportSection<A = Global> = Counted<Exports, A>;

impl<A: Allocator> Counted<Exports, A> {
    /// Adds an export, with this name, of the item with this kind and index, optionally ascribing a
    /// type.
    ///
    /// # Errors
    ///
    /// Fails with `TooMany` if the number of exports would exceed 4294967295, and with `TooLarge`
    /// if the bytes of the section or of a string of the name would.
    pub fn export<B: Allocator>(
        &mut self,
        name: ComponentExternName<'_, B>,
        kind: ComponentExportKind,
        index: u32,
        ty: Option<ComponentTypeRef>,
    ) -> Result<(), Fault>
        ensures { AddsMember (export_item (record {
          name = extern_name_view name.entry;
          kind = kind;
          index = index;
          ty = ty;
        })) self.old self.new result }
    {
        self.items.add_encoded(&(name, (kind, (index, ty))))
    }
}
