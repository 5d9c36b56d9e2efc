//! Aliases of the exports of instances, and of the items of enclosing components.
ghost use Rattle.std.specs.Prelude.{◌≡◌};
ghost use Rattle.wenc_base.specs.Prelude.{itself, as_itself, as_seen, serves_itself};
ghost use Rattle.wenc_parts.specs.Prelude.{outer_kind, outer_kind_lawful, alias, alias_view};
ghost use Rattle.wenc_parts.specs.Prelude.{alias_lawful, alias_tree_view};

use crate::component::{COMPONENT_SORT, CORE_MODULE_SORT, CORE_SORT, CORE_TYPE_SORT, TYPE_SORT};
use crate::exports::ComponentExportKind;
use std::alloc::{Allocator, Global};
use wenc_base::{Delimited, DelimitedEq, Encode, ExportKind, Fault, Prefix};

/// The kind of an item of an enclosing component that an alias can name (component model, binary
/// format, `sort`).
#[derive(Clone, Copy, Debug, PartialEq, Eq)]
pub enum ComponentOuterAliasKind {
    /// A core module.
    CoreModule,
    /// A core type.
    CoreType,
    /// A type.
    Type,
    /// A component.
    Component,
}

impl Encode for ComponentOuterAliasKind {
    ghost piece = { λ k. outer_kind k };

    fn encode<A: Allocator>(&self, sink: &mut Vec<u8, A>) -> Result<(), Fault> {
        let kind: &[u8] = match self {
            ComponentOuterAliasKind::CoreModule => &[CORE_SORT, CORE_MODULE_SORT],
            ComponentOuterAliasKind::CoreType => &[CORE_SORT, CORE_TYPE_SORT],
            ComponentOuterAliasKind::Type => &[TYPE_SORT],
            ComponentOuterAliasKind::Component => &[COMPONENT_SORT],
        };
        sink.extend_from_slice(kind)?;
        Ok(())
    }
}

impl Delimited for ComponentOuterAliasKind {
    ghost reads_back = { as_itself outer_kind_lawful };

    ghost written = { λ _. serves_itself };
}

impl DelimitedEq for ComponentOuterAliasKind {
    ghost alike = { itself _ };
}

/// What an alias refers to (component model, binary format, `alias`).
///
/// ```
/// let alias = Alias::Outer {
///     kind: ComponentOuterAliasKind::Type,
///     count: 1,
///     index: 2,
/// };
/// ```
#[derive(Clone, Copy)]
pub enum Alias<'a> {
    /// An export of a component instance.
    InstanceExport {
        /// The index of the instance.
        instance: u32,
        /// The kind of the export.
        kind: ComponentExportKind,
        /// The name of the export.
        name: &'a str,
    },
    /// An export of a core instance.
    CoreInstanceExport {
        /// The index of the core instance.
        instance: u32,
        /// The kind of the export.
        kind: ExportKind,
        /// The name of the export.
        name: &'a str,
    },
    /// An item of an enclosing component.
    Outer {
        /// The kind of the item.
        kind: ComponentOuterAliasKind,
        /// The number of scopes outwards: 0 is the component or type that contains the alias.
        count: u32,
        /// The index of the item in that scope.
        index: u32,
    },
}

impl<'a> Encode for Alias<'a> {
    ghost piece = { λ a. alias (alias_view a) };

    fn encode<A: Allocator>(&self, sink: &mut Vec<u8, A>) -> Result<(), Fault> {
        match self {
            Alias::InstanceExport {
                instance,
                kind,
                name,
            } => (*kind, Prefix(0x00, &(*instance, *name))).encode(sink),
            Alias::CoreInstanceExport {
                instance,
                kind,
                name,
            } => Prefix(CORE_SORT, &(*kind, Prefix(0x01, &(*instance, *name)))).encode(sink),
            Alias::Outer { kind, count, index } => {
                (*kind, Prefix(0x02, &(*count, *index))).encode(sink)
            }
        }
    }
}

impl<'a> Delimited for Alias<'a> {
    ghost reads_back = { as_seen alias_view alias_lawful };

    ghost written = { λ _. serves_itself };
}

/// An owned `Alias`, for commands.
#[derive(Drop)]
pub enum AliasTree<A: Allocator = Global> {
    /// An export of a component instance.
    InstanceExport {
        /// The index of the instance.
        instance: u32,
        /// The kind of the export.
        kind: ComponentExportKind,
        /// The name of the export.
        name: String<A>,
    },
    /// An export of a core instance.
    CoreInstanceExport {
        /// The index of the core instance.
        instance: u32,
        /// The kind of the export.
        kind: ExportKind,
        /// The name of the export.
        name: String<A>,
    },
    /// An item of an enclosing component.
    Outer {
        /// The kind of the item.
        kind: ComponentOuterAliasKind,
        /// The number of scopes outwards: 0 is the component or type that contains the alias.
        count: u32,
        /// The index of the item in that scope.
        index: u32,
    },
}

impl<A: Allocator> AliasTree<A> {
    /// Borrows the alias. Does not allocate.
    pub fn as_alias(&self) -> Alias<'_>
        ensures { alias_view result ≡ alias_tree_view self.now }
    {
        match self {
            AliasTree::InstanceExport {
                instance,
                kind,
                name,
            } => Alias::InstanceExport {
                instance: *instance,
                kind: *kind,
                name: name.as_str(),
            },
            AliasTree::CoreInstanceExport {
                instance,
                kind,
                name,
            } => Alias::CoreInstanceExport {
                instance: *instance,
                kind: *kind,
                name: name.as_str(),
            },
            AliasTree::Outer { kind, count, index } => Alias::Outer {
                kind: *kind,
                count: *count,
                index: *index,
            },
        }
    }
}
