//! The index spaces, by name and number.
ghost use Rattle.wenc_parts.specs.Prelude.{alias_view};
ghost use Rattle.wenc_sections.specs.Prelude.{space_number, alias_space, kind_space};
ghost use Rattle.wenc_sections.specs.Prelude.{core_kind_space, outer_kind_space};

use wenc_base::ExportKind;
use wenc_parts::{Alias, ComponentExportKind, ComponentOuterAliasKind};

/// An index space, whose definitions are numbered from 0 (component model, explainer, "Index
/// Spaces").
#[derive(Clone, Copy, Debug, PartialEq, Eq)]
pub enum Space {
    /// Core modules.
    CoreModules,
    /// Core functions.
    CoreFuncs,
    /// Core types.
    CoreTypes,
    /// Core memories.
    CoreMemories,
    /// Core tables.
    CoreTables,
    /// Core instances.
    CoreInstances,
    /// Core tags.
    CoreTags,
    /// Core globals.
    CoreGlobals,
    /// Component functions.
    Funcs,
    /// Component instances.
    Instances,
    /// Values.
    Values,
    /// Components.
    Components,
    /// Component types.
    Types,
}

impl Space {
    ghost use Rattle.std.specs.Prelude.{◌≡◌, ◌<◌};

    /// Returns the space in which an alias defines an item.
    pub fn of_alias(alias: &Alias<'_>) -> Space
        ensures { result ≡ alias_space (alias_view alias.now) }
    {
        match alias {
            Alias::InstanceExport { kind, .. } => Space::from(*kind),
            Alias::CoreInstanceExport { kind, .. } => Space::from(*kind),
            Alias::Outer { kind, .. } => Space::from(*kind),
        }
    }

    /// Returns the number of this space, from 0 to 12, in the order of the builder's methods for
    /// counts.
    pub fn number(self) -> usize
        ensures is { result ≡ space_number self }
        ensures within { space_number self < 13 }
    {
        match self {
            Space::CoreModules => 0,
            Space::CoreFuncs => 1,
            Space::CoreTypes => 2,
            Space::CoreMemories => 3,
            Space::CoreTables => 4,
            Space::CoreInstances => 5,
            Space::CoreTags => 6,
            Space::CoreGlobals => 7,
            Space::Funcs => 8,
            Space::Instances => 9,
            Space::Values => 10,
            Space::Components => 11,
            Space::Types => 12,
        }
    }
}

impl From<ComponentExportKind> for Space {
    ghost use Rattle.std.specs.Prelude.{◌≡◌};

    ghost from_gives = { λ k s. s ≡ kind_space k };

    fn from(kind: ComponentExportKind) -> Space {
        match kind {
            ComponentExportKind::Module => Space::CoreModules,
            ComponentExportKind::Func => Space::Funcs,
            ComponentExportKind::Value => Space::Values,
            ComponentExportKind::Type => Space::Types,
            ComponentExportKind::Instance => Space::Instances,
            ComponentExportKind::Component => Space::Components,
        }
    }
}

impl From<ExportKind> for Space {
    ghost use Rattle.std.specs.Prelude.{◌≡◌};

    ghost from_gives = { λ k s. s ≡ core_kind_space k };

    fn from(kind: ExportKind) -> Space {
        match kind {
            ExportKind::Func => Space::CoreFuncs,
            ExportKind::Table => Space::CoreTables,
            ExportKind::Memory => Space::CoreMemories,
            ExportKind::Global => Space::CoreGlobals,
            ExportKind::Tag => Space::CoreTags,
        }
    }
}

impl From<ComponentOuterAliasKind> for Space {
    ghost use Rattle.std.specs.Prelude.{◌≡◌};

    ghost from_gives = { λ k s. s ≡ outer_kind_space k };

    fn from(kind: ComponentOuterAliasKind) -> Space {
        match kind {
            ComponentOuterAliasKind::CoreModule => Space::CoreModules,
            ComponentOuterAliasKind::CoreType => Space::CoreTypes,
            ComponentOuterAliasKind::Type => Space::Types,
            ComponentOuterAliasKind::Component => Space::Components,
        }
    }
}
