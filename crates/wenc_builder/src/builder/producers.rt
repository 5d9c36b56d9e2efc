//! The method that adds a producers section.
ghost use Rattle.std.specs.Prelude.{◌≡◌, List, OnErr, Err, true, false};
ghost use Rattle.wenc_base.specs.Prelude.{Contains, held_text, is_finished, Producers};
ghost use Rattle.wenc_base.specs.Prelude.{producers_field, producers_label};
ghost use Rattle.wenc_base.specs.declared.fault.Fault.TheVariants.{Unfinished};
ghost use Rattle.wenc_builder.specs.Prelude.{EntersWithoutIndex, custom_entry, producers_entry};

use super::ComponentBuilder;
use super::section_body::SectionBody;
use std::alloc::Allocator;
use wenc_base::{Fault, ProducersSection, Tagged};
use wenc_parts::ComponentSectionId;

/// The tools that produced the component.
impl<A: Allocator> ComponentBuilder<A> {
    /// Adds a producers section, the custom section named `producers` (tool conventions, "Producers
    /// Section"). Fails as documented on `ComponentBuilder`, and with `Unfinished` if `producers`
    /// is unfinished.
    pub fn producers_section<B: Allocator>(
        &mut self,
        producers: &ProducersSection<B>,
    ) -> Result<(), Fault>
        ensures entered { (fields : List Producers) → Contains producers_field producers.now fields
            → EntersWithoutIndex self.old self.new result (producers_entry fields) }
        ensures bytes { is_finished producers.now ≡ true
            → EntersWithoutIndex self.old self.new result
            (custom_entry producers_label (held_text producers.now)) }
        ensures unfinished { is_finished producers.now ≡ false → result ≡ Err Unfinished }
        ensures err { OnErr result (self.new ≡ self.old) }
    {
        if !self.buffer.is_finished() {
            return Err(Fault::Unfinished);
        }
        let section = Tagged(ComponentSectionId::CoreCustom.into(), producers);
        self.buffer.add_section(&section, &SectionBody::whole(&[]))
    }
}
