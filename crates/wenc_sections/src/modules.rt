//! The section of a core module.
ghost use Rattle.wenc_base.specs.Prelude.{byte_list, byte_list_lawful, as_seen, serves_itself};
ghost use Rattle.wenc_parts.specs.Prelude.{section_number};

use std::alloc::{Allocator, Global};
use wenc_base::{Delimited, Encode, Fault, Module};
use wenc_parts::{ComponentSection, ComponentSectionId};

/// A section that is a core module (component model, binary format, "Component Definitions").
///
/// Encoding fails with `TooLarge` if the module has more than 4294967295 bytes.
///
/// ```
/// let mut module = Module::new(alloc)?;
/// module.section(&CustomSection {
///     name: "x",
///     data: &[],
/// })?;
///
/// let mut component = Component::new(alloc)?;
/// component.section(&ModuleSection(&module))?;
/// let bytes = component.finish();
/// ```
#[derive(Clone, Copy)]
pub struct ModuleSection<'a, A: Allocator = Global>(pub &'a Module<A>);

impl<'a, A: Allocator> Encode for ModuleSection<'a, A> {
    ghost piece = { λ s. byte_list s.0.now };

    fn encode<B: Allocator>(&self, sink: &mut Vec<u8, B>) -> Result<(), Fault> {
        self.0.as_slice().encode(sink)
    }
}

impl<'a, A: Allocator> Delimited for ModuleSection<'a, A> {
    ghost reads_back = { as_seen (λ s. s.0.now) byte_list_lawful };

    ghost written = { λ _. serves_itself };
}

impl<'a, A: Allocator> ComponentSection for ModuleSection<'a, A> {
    ghost use Rattle.wenc_sections.specs.Prelude.{ComponentSectionId};

    ghost section_id = { λ _. section_number ComponentSectionId.CoreModule };

    fn id(&self) -> u8 {
        u8::from(ComponentSectionId::CoreModule)
    }
}
