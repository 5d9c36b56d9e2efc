//! The number of declarations by index space: core types, types and instances.
ghost use Rattle.std.specs.Prelude.{◌≡◌, ◌<◌};
ghost use Rattle.wenc_parts.specs.Prelude.{alias_view};
ghost use Rattle.wenc_types.specs.Prelude.{space_of_kind, space_of_alias, one_more, one_less};
ghost use Rattle.wenc_types.specs.Prelude.{no_counts, total};

use wenc_parts::{Alias, ComponentExportKind, ComponentOuterAliasKind};

/// The index space of a declaration (component model, explainer, "Index Spaces").
#[derive(Clone, Copy)]
pub enum IndexSpace {
    /// A core type.
    CoreType,
    /// A type.
    Type,
    /// An instance.
    Instance,
}

/// Returns the index space of items of this kind, if they take an index.
pub fn space_of_kind(kind: ComponentExportKind) -> Option<IndexSpace>
    ensures { result ≡ space_of_kind kind }
{
    match kind {
        ComponentExportKind::Type => Some(IndexSpace::Type),
        ComponentExportKind::Instance => Some(IndexSpace::Instance),
        _ => None,
    }
}

/// Returns the index space of the item that an alias defines, if it takes an index.
pub fn space_of_alias(alias: &Alias<'_>) -> Option<IndexSpace>
    ensures { result ≡ space_of_alias (alias_view alias.now) }
{
    match alias {
        Alias::InstanceExport { kind, .. } => space_of_kind(*kind),
        Alias::Outer {
            kind: ComponentOuterAliasKind::Type,
            ..
        } => Some(IndexSpace::Type),
        Alias::Outer {
            kind: ComponentOuterAliasKind::CoreType,
            ..
        } => Some(IndexSpace::CoreType),
        _ => None,
    }
}

/// The size of each index space (component model, explainer, "Index Spaces").
#[derive(Clone, Copy)]
pub struct Counts {
    /// The number of core types.
    pub core_types: u32,
    /// The number of types.
    pub types: u32,
    /// The number of instances.
    pub instances: u32,
}

impl Counts {
    /// Returns the sizes of empty index spaces.
    pub fn none() -> Counts
        ensures { result ≡ no_counts }
    {
        Counts {
            core_types: 0,
            types: 0,
            instances: 0,
        }
    }

    /// Returns the counts with one more in this space, when there are `declarations` in all, which
    /// have to exceed the sum of the earlier counts.
    pub fn counted(self, space: Option<IndexSpace>, declarations: u32) -> Counts
        requires { total self < declarations }
        ensures { result ≡ one_more space self }
    {
        let mut counts = self;
        match space {
            Some(IndexSpace::CoreType) => counts.core_types += 1,
            Some(IndexSpace::Type) => counts.types += 1,
            Some(IndexSpace::Instance) => counts.instances += 1,
            None => {}
        }
        counts
    }

    /// Returns the counts with one less in this space.
    pub fn uncounted(self, space: Option<IndexSpace>) -> Counts
        ensures { result ≡ one_less space self }
    {
        let mut counts = self;
        match space {
            Some(IndexSpace::CoreType) => counts.core_types = counts.core_types.saturating_sub(1),
            Some(IndexSpace::Type) => counts.types = counts.types.saturating_sub(1),
            Some(IndexSpace::Instance) => counts.instances = counts.instances.saturating_sub(1),
            None => {}
        }
        counts
    }
}
