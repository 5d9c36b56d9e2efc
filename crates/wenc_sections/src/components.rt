//! The section of a nested component.
ghost use Rattle.wenc_base.specs.Prelude.{byte_list, byte_list_lawful, as_seen, serves_itself};
ghost use Rattle.wenc_parts.specs.Prelude.{section_number};

use std::alloc::{Allocator, Global};
use wenc_base::{Delimited, Encode, Fault};
use wenc_parts::{Component, ComponentSection, ComponentSectionId};

/// A section that is a nested component (component model, binary format, "Component Definitions").
///
/// Encoding fails with `TooLarge` if the component has more than 4294967295 bytes.
///
/// ```
/// let mut inner = Component::new(alloc)?;
/// inner.section(&CustomSection {
///     name: "x",
///     data: &[],
/// })?;
///
/// let mut outer = Component::new(alloc)?;
/// outer.section(&NestedComponentSection(&inner))?;
/// let bytes = outer.finish();
/// ```
#[derive(Clone, Copy)]
pub struct NestedComponentSection<'a, A: Allocator = Global>(pub &'a Component<A>);

impl<'a, A: Allocator> Encode for NestedComponentSection<'a, A> {
    ghost piece = { λ s. byte_list s.0.now };

    fn encode<B: Allocator>(&self, sink: &mut Vec<u8, B>) -> Result<(), Fault> {
        self.0.as_slice().encode(sink)
    }
}

impl<'a, A: Allocator> Delimited for NestedComponentSection<'a, A> {
    ghost reads_back = { as_seen (λ s. s.0.now) byte_list_lawful };

    ghost written = { λ _. serves_itself };
}

impl<'a, A: Allocator> ComponentSection for NestedComponentSection<'a, A> {
    ghost use Rattle.wenc_sections.specs.Prelude.{ComponentSectionId};

    ghost section_id = { λ _. section_number ComponentSectionId.Component };

    fn id(&self) -> u8 {
        u8::from(ComponentSectionId::Component)
    }
}
