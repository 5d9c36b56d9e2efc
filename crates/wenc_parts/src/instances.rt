//! Arguments for the imports of core modules.
ghost use Rattle.wenc_base.specs.Prelude.{itself, as_itself, serves_itself};
ghost use Rattle.wenc_parts.specs.Prelude.{module_argument, module_argument_lawful};

use crate::component::CORE_INSTANCE_SORT;
use std::alloc::Allocator;
use wenc_base::{Delimited, DelimitedEq, Encode, Fault, Prefix};

/// An argument for a name that a core module imports (component model, binary format,
/// `core:instantiatearg`).
#[derive(Clone, Copy, Debug, PartialEq, Eq)]
pub enum ModuleArg {
    /// The core instance with this index.
    Instance(u32),
}

impl Encode for ModuleArg {
    ghost piece = { λ a. module_argument a };

    #[inline(always)]
    fn encode<A: Allocator>(&self, sink: &mut Vec<u8, A>) -> Result<(), Fault> {
        match self {
            ModuleArg::Instance(index) => Prefix(CORE_INSTANCE_SORT, index).encode(sink),
        }
    }
}

impl Delimited for ModuleArg {
    ghost reads_back = { as_itself module_argument_lawful };

    ghost written = { λ _. serves_itself };
}

impl DelimitedEq for ModuleArg {
    ghost alike = { itself _ };
}
