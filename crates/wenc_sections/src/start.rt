//! The start section: the function that is called when the component is instantiated.
ghost use Rattle.wenc_base.specs.Prelude.{as_seen, serves_itself};
ghost use Rattle.wenc_parts.specs.Prelude.{section_number};
ghost use Rattle.wenc_sections.specs.Prelude.{started, start, start_lawful};

use std::alloc::Allocator;
use std::convert::AsSlice;
use wenc_base::{Delimited, Encode, Fault, WithSize};
use wenc_parts::{ComponentSection, ComponentSectionId};

/// The start section, whose function is called when the component is instantiated (component model,
/// binary format, "Start Definitions").
///
/// Encoding fails with `TooMany` if there are more than 4294967295 arguments, and with `TooLarge`
/// if more than 4294967295 bytes follow the section's size.
///
/// ```
/// // the component has function 0 and value 0, which it is called with; it returns nothing
/// let start = ComponentStartSection {
///     function_index: 0,
///     args: [0],
///     results: 0,
/// };
/// component.section(&start)?;
/// ```
#[derive(Clone, Copy)]
pub struct ComponentStartSection<A> {
    /// The index of the function.
    pub function_index: u32,
    /// The indices of the values that are its arguments.
    pub args: A,
    /// The number of values that it returns.
    pub results: u32,
}

impl<A: AsSlice<u32>> Encode for ComponentStartSection<A> {
    ghost piece = { λ s. start (started s.function_index (A.items s.args) s.results) };

    fn encode<B: Allocator>(&self, sink: &mut Vec<u8, B>) -> Result<(), Fault> {
        let content = (self.function_index, (self.args.as_slice(), self.results));
        WithSize(&content).encode(sink)
    }
}

impl<A: AsSlice<u32>> Delimited for ComponentStartSection<A> {
    ghost reads_back = { as_seen (λ s. started s.function_index (A.items s.args) s.results) start_lawful };

    ghost written = { λ _. serves_itself };
}

impl<A: AsSlice<u32>> ComponentSection for ComponentStartSection<A> {
    ghost use Rattle.wenc_sections.specs.Prelude.{ComponentSectionId};

    ghost section_id = { λ _. section_number ComponentSectionId.Start };

    fn id(&self) -> u8 {
        u8::from(ComponentSectionId::Start)
    }
}
