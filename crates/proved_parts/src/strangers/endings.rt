//! Types that a builder begins, and encoders end.

use std::alloc::Allocator;
use wenc_base::Fault;
use wenc_builder::ComponentBuilder;
use wenc_parts::{ComponentValType, PrimitiveValType};

const STRING: ComponentValType = ComponentValType::Primitive(PrimitiveValType::String);

/// Returns a component with a defined value type.
pub fn with_a_type<A: Allocator + Copy>(alloc: A) -> Result<Vec<u8, A>, Fault> {
    let mut builder = ComponentBuilder::new(alloc)?;
    match builder.type_defined(None) {
        Ok((_, encoder)) => encoder.option(STRING)?,
        Err(fault) => return Err(fault),
    }
    builder.finish()
}

/// Returns a component with a core type.
pub fn with_a_core_type<A: Allocator + Copy>(alloc: A) -> Result<Vec<u8, A>, Fault> {
    let mut core_builder = ComponentBuilder::new(alloc)?;
    match core_builder.core_type(None) {
        Ok((_, encoder)) => encoder.core().function([].into_iter(), [].into_iter())?,
        Err(fault) => return Err(fault),
    }
    core_builder.finish()
}
