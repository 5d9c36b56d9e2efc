//! The section of aliases.
ghost use Rattle.wenc_base.specs.Prelude.{AddsMember, HasForm};
ghost use Rattle.wenc_parts.specs.Prelude.{alias as alias_form, alias_view};

use crate::counted::{Counted, CountedKind};
use std::alloc::{Allocator, Global};
use wenc_base::Fault;
use wenc_parts::{Alias, ComponentSectionId};

/// The kind of alias sections.
pub struct Aliases;

impl CountedKind for Aliases {
    ghost use Rattle.wenc_parts.specs.Prelude.{alias};
    ghost use Rattle.wenc_sections.specs.Prelude.{ComponentSectionId};

    ghost ID = { ComponentSectionId.Alias };

    const ID: ComponentSectionId = ComponentSectionId::Alias;

    ghost is_item = { HasForm alias };
}

/// The section of aliases (component model, binary format, "Alias Definitions").
///
/// ```
/// let mut component = Component::new(alloc)?;
/// let mut imports = ComponentImportSection::new(alloc);
/// imports.import("file".into(), ComponentTypeRef::Type(TypeBounds::SubResource))?;
/// component.section(&imports)?;
/// let mut aliases = ComponentAliasSection::new(alloc);
/// aliases.alias(Alias::Outer {
///     kind: ComponentOuterAliasKind::Type,
///     count: 0,
///     index: 0,
/// })?;
/// component.section(&aliases)?;
/// let bytes = component.finish();
/// ```
pub type ComponentAliasSection<A = Global> = Counted<Aliases, A>;

impl<A: Allocator> Counted<Aliases, A> {
    /// Adds an alias.
    ///
    /// # Errors
    ///
    /// Fails with `TooMany` if the number of aliases would exceed 4294967295, and with `TooLarge`
    /// if the bytes of the section or of the alias's name would.
    pub fn alias(&mut self, alias: Alias<'_>) -> Result<(), Fault>
        ensures { AddsMember (alias_form (alias_view alias.entry)) self.old self.new result }
    {
        self.items.add_encoded(&alias)
    }
}
