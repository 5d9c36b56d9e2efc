//! Instances with owned names, for commands.
ghost use Rattle.std.specs.Prelude.{◌≡◌, ◌++◌, ℕ, List, OnOk, OnErr, IfErr};
ghost use Rattle.wenc_base.specs.Prelude.{Appends, list_in_order, Written, IsWarranted};
ghost use Rattle.wenc_base.specs.Prelude.{member_cause, as_seen, serves_itself};
ghost use Rattle.wenc_sections.specs.Prelude.{inline_export_tree, core_instance_tree_view};
ghost use Rattle.wenc_sections.specs.Prelude.{core_instance, core_instance_lawful};
ghost use Rattle.wenc_sections.specs.Prelude.{instance_tree_view, instance, instance_lawful};

use crate::instances::{CORE_EXPORTS, CORE_INSTANTIATE, EXPORTS, INSTANTIATE};
use std::alloc::{Allocator, Global};
use wenc_base::{Delimited, Encode, ExportKind, Fault, Prefix};
use wenc_parts::{ComponentExportKind, ModuleArg, NameTree};

/// An instance of a core module, with owned names, for commands (component model, binary format,
/// `core:instanceexpr`).
///
/// More than 4294967295 arguments or exports can't be encoded, nor can a name of more than
/// 4294967295 bytes.
///
/// ```
/// let name = String::from_str(alloc, "env")?;
/// let args = vec![in alloc; (name, ModuleArg::Instance(0))]?;
/// let tree = CoreInstanceTree::Instantiate { module: 1, args };
/// ```
#[derive(Drop)]
pub enum CoreInstanceTree<A: Allocator = Global> {
    /// Instantiates a core module with these arguments, each with its name.
    Instantiate {
        /// The index of the module.
        module: u32,
        /// The arguments, in order.
        args: Vec<(String<A>, ModuleArg), A>,
    },
    /// Groups core items, which the instance exports: the name of each, its kind, and its index.
    Exports(Vec<(String<A>, ExportKind, u32), A>),
}

impl<A: Allocator> Encode for CoreInstanceTree<A> {
    ghost piece = { λ t. core_instance (core_instance_tree_view t) };

    fn encode<B: Allocator>(&self, sink: &mut Vec<u8, B>) -> Result<(), Fault> {
        match self {
            CoreInstanceTree::Instantiate { module, args } => {
                Prefix(CORE_INSTANTIATE, &(*module, args.as_slice())).encode(sink)
            }
            CoreInstanceTree::Exports(exports) => {
                Prefix(CORE_EXPORTS, &exports.as_slice()).encode(sink)
            }
        }
    }
}

impl<A: Allocator> Delimited for CoreInstanceTree<A> {
    ghost reads_back = { as_seen core_instance_tree_view core_instance_lawful };

    ghost written = { λ _. serves_itself };
}

/// An instance of a component, with owned names, for commands (component model, binary format,
/// `instanceexpr`).
///
/// More than 4294967295 arguments or exports can't be encoded, nor can a string of more than
/// 4294967295 bytes.
///
/// ```
/// let name = NameTree::from(String::from_str(alloc, "now")?);
/// let exports = vec![in alloc; (name, ComponentExportKind::Func, 0)]?;
/// let tree = InstanceTree::Exports(exports);
/// ```
#[derive(Drop)]
pub enum InstanceTree<A: Allocator = Global> {
    /// Instantiates a component with these arguments.
    Instantiate {
        /// The index of the component.
        component: u32,
        /// The arguments, in order: the name of each, its kind, and its index.
        args: Vec<(String<A>, ComponentExportKind, u32), A>,
    },
    /// Groups items, which the instance exports: the name of each, its kind, and its index.
    Exports(Vec<(NameTree<A>, ComponentExportKind, u32), A>),
}

impl<A: Allocator> Encode for InstanceTree<A> {
    ghost piece = { λ t. instance (instance_tree_view t) };

    fn encode<B: Allocator>(&self, sink: &mut Vec<u8, B>) -> Result<(), Fault> {
        match self {
            InstanceTree::Instantiate { component, args } => {
                Prefix(INSTANTIATE, &(*component, args.as_slice())).encode(sink)
            }
            InstanceTree::Exports(exports) => {
                Prefix(EXPORTS, &ExportList(exports.as_slice())).encode(sink)
            }
        }
    }
}

impl<A: Allocator> Delimited for InstanceTree<A> {
    ghost reads_back = { as_seen instance_tree_view instance_lawful };

    ghost written = { λ _. serves_itself };
}

/// Encodes the number of exports, then each. Fails with the first error met.
#[derive(Drop)]
struct ExportList<'a, A: Allocator>(&'a [(NameTree<A>, ComponentExportKind, u32)]);

impl<'a, A: Allocator> Encode for ExportList<'a, A> {
    ghost piece = { λ l. list_in_order inline_export_tree l.0.now };

    fn encode<B: Allocator>(&self, sink: &mut Vec<u8, B>) -> Result<(), Fault> {
        let start = sink.len();
        self.0.len().encode(sink)?;
        match encode_exports(self.0, sink) {
            Ok(()) => Ok(()),
            Err(fault) => {
                sink.truncate(start);
                Err(fault)
            }
        }
    }
}

/// Appends the encoding of each export, and stops at the first error.
fn encode_exports<A: Allocator, B: Allocator>(
    exports: &[(NameTree<A>, ComponentExportKind, u32)],
    sink: &mut Vec<u8, B>,
) -> Result<(), Fault>
    ensures ok { OnOk result
        (Written inline_export_tree sink.old.items exports.now sink.new.items) }
    ensures err { OnErr result ((more : List ℕ) × (sink.new.items ≡ sink.old.items ++ more)) }
    ensures warranted { IfErr result
        (IsWarranted (member_cause (λ e. (inline_export_tree e).Cause) exports.now)) }
{
    for export in exports {
        encode_export(export, sink)?;
    }
    Ok(())
}

/// Appends the encoding of an export. If it fails, `sink` is unchanged.
fn encode_export<A: Allocator, B: Allocator>(
    export: &(NameTree<A>, ComponentExportKind, u32),
    sink: &mut Vec<u8, B>,
) -> Result<(), Fault>
    ensures appended { Appends (inline_export_tree export.now).text
        (inline_export_tree export.now).Cause ⊥ sink.old.items sink.new.items result }
    ensures fits { OnOk result (inline_export_tree export.now).Fits }
{
    (export.0.as_name(), export.1, export.2).encode(sink)
}
