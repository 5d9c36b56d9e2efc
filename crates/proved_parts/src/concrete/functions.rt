//! Canonical functions with options.

use std::alloc::Allocator;
use wenc_base::Fault;
use wenc_builder::ComponentBuilder;
use wenc_canon::{AddsBuiltin, CanonicalFunctionSection, CanonicalOption};

const OPTIONS: [CanonicalOption; 2] = [CanonicalOption::UTF8, CanonicalOption::Memory(0)];

/// Adds a lifted and a lowered function to a section.
pub fn lifted<A: Allocator>(functions: &mut CanonicalFunctionSection<A>) -> Result<(), Fault> {
    functions.lift(1, 2, OPTIONS.into_iter())?;
    functions.lower(3, OPTIONS.into_iter())
}

/// Adds builtins of streams and futures to a section.
pub fn streams<A: Allocator>(functions: &mut CanonicalFunctionSection<A>) -> Result<(), Fault> {
    functions.stream_read(128, OPTIONS.into_iter())?;
    functions.stream_write(128, OPTIONS.into_iter())?;
    functions.future_read(128, OPTIONS.into_iter())?;
    functions.future_write(128, OPTIONS.into_iter())
}

/// Adds builtins of error contexts to a section.
pub fn errors<A: Allocator>(functions: &mut CanonicalFunctionSection<A>) -> Result<(), Fault> {
    functions.error_context_new(OPTIONS.into_iter())?;
    functions.error_context_debug_message(OPTIONS.into_iter())
}

/// Lowers a function in a builder.
pub fn lowered<A: Allocator>(builder: &mut ComponentBuilder<A>) -> Result<u32, Fault> {
    builder.lower_func(None, 3, OPTIONS.into_iter())
}

/// Adds a builtin with options to a builder.
pub fn read<A: Allocator>(builder: &mut ComponentBuilder<A>) -> Result<u32, Fault> {
    builder.stream_read(128, OPTIONS.into_iter())
}
