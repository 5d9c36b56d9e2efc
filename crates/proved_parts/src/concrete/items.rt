//! Instances of a builder, and its start function.

use std::alloc::Allocator;
use wenc_base::{ExportKind, Fault};
use wenc_builder::ComponentBuilder;
use wenc_parts::{ComponentExportKind, ComponentExternName};

/// Adds a core instance of inline exports.
pub fn core_instance<A: Allocator>(builder: &mut ComponentBuilder<A>) -> Result<u32, Fault> {
    builder.core_instantiate_exports(None, [("foo", ExportKind::Func, 0)].into_iter())
}

/// Adds an instance of a component, with an argument.
pub fn instance<A: Allocator>(builder: &mut ComponentBuilder<A>) -> Result<u32, Fault> {
    let arg = ("foo", ComponentExportKind::Instance, 0);
    builder.instantiate(None, 1, [arg].into_iter())
}

/// Adds an instance of inline exports.
pub fn exports<A: Allocator>(builder: &mut ComponentBuilder<A>) -> Result<u32, Fault> {
    let name: ComponentExternName = "foo".into();
    builder.instantiate_exports(None, [(name, ComponentExportKind::Func, 0)].into_iter())
}

/// Adds a start function with two arguments.
pub fn start<A: Allocator>(builder: &mut ComponentBuilder<A>) -> Result<u32, Fault> {
    builder.start(7, [0u32, 1], 1)
}
