//! The producers section: which tools made a module or a component.
ghost use Rattle.std.specs.Prelude.{◌≡◌, ◌<◌, ◌+◌, ◌++◌, ◌^◌, List, false, length, IfOk, IfErr};
ghost use Rattle.std.specs.Prelude.{OnOk};
ghost use Rattle.wenc_base.specs.Prelude.{Appends, IsMemory, list, no_members, is_finished};
ghost use Rattle.wenc_base.specs.Prelude.{held_members, Contains, AddsMember, EncodeCause};
ghost use Rattle.wenc_base.specs.Prelude.{held_text, refused_for, Producer, Producers, producer};
ghost use Rattle.wenc_base.specs.Prelude.{producers_field, producers_held, FieldCause, held_field};
ghost use Rattle.wenc_base.specs.declared.fault.Fault.TheVariants.{Unfinished};

use crate::encode::{ByRef, Encode};
use crate::fault::Fault;
use crate::holder::{Holder, section_size};
use crate::section::{Section, SectionId};
use std::alloc::{Allocator, Global};
use std::marker::Model;

/// The size of the section's name, its length included.
const LABEL_SIZE: u64 = 10;

/// The values of one field, such as `processed-by`: tools, each with its version (tool conventions,
/// "Producers Section").
#[derive(Drop)]
pub struct ProducersField<A: Allocator = Global> {
    values: Holder<A>,
}

impl<A: Allocator> Model for ProducersField<A> {
    ghost use Rattle.wenc_base.specs.Prelude.{HolderState};

    ghost Value = { HolderState };

    ghost view = { λ f. f.values };
}

impl<A: Allocator> ProducersField<A> {
    /// Creates a field without tools. Does not allocate.
    pub fn new(alloc: A) -> Self
        ensures { result ≡ no_members }
    {
        ProducersField {
            values: Holder::new(alloc),
        }
    }

    /// Adds a tool and its version.
    ///
    /// # Errors
    ///
    /// Fails with `TooMany` if the number of tools would exceed 4294967295, and with `TooLarge` if
    /// the bytes of a string or of the field would. The field is then unchanged.
    #[tactic(auto, using(crate::specs::laws::Holders::adds_as))]
    pub fn value(&mut self, name: &str, version: &str) -> Result<(), Fault>
        ensures { let tool : Producer = record { tool = name.now; version = version.now } in
            AddsMember (producer tool) self.old self.new result }
    {
        self.values.add_encoded(&(name, version))
    }

    /// Returns a copy of the field.
    ///
    /// # Errors
    ///
    /// Fails only if an allocation fails.
    pub fn clone(&self) -> Result<Self, Fault>
    where
        A: Clone,
        ensures same { IfOk result (λ f. f ≡ self.now) }
        ensures refused { IfErr result IsMemory }
    {
        let values = self.values.clone()?;
        Ok(ProducersField { values })
    }
}

/// Encodes the number of tools, then each. A finished field fails only if an allocation fails.
impl<A: Allocator> Encode for ProducersField<A> {
    ghost piece = { held_members };

    ghost unfinished = { λ f. is_finished f ≡ false };

    fn encode<B: Allocator>(&self, sink: &mut Vec<u8, B>) -> Result<(), Fault> {
        self.values.encode(sink)
    }
}

/// The tools that produced a module or a component, by field: a custom section (tool conventions,
/// "Producers Section").
///
/// ```
/// let mut languages = ProducersField::new(alloc);
/// languages.value("Rust", "2024")?;
/// let mut producers = ProducersSection::new(alloc);
/// producers.field("language", &languages)?;
///
/// let mut component = Component::new(alloc)?;
/// component.section(&producers)?;
/// let bytes = component.finish();
/// ```
#[derive(Drop)]
pub struct ProducersSection<A: Allocator = Global> {
    fields: Holder<A>,
}

impl<A: Allocator> Model for ProducersSection<A> {
    ghost use Rattle.std.specs.Prelude.{◌<◌, ◌+◌, ◌^◌, length};
    ghost use Rattle.wenc_base.specs.Prelude.{HolderState, content_size};

    ghost Value = { HolderState };

    ghost view = { λ s. s.fields };

    ghost invariant = { λ s. 10 + content_size s.fields.count (length s.fields.body) < 2 ^ 32 };
}

impl<A: Allocator> ProducersSection<A> {
    /// Creates a section without fields. Does not allocate.
    #[tactic(auto, using(crate::proofs::Groups::size_1))]
    pub fn new(alloc: A) -> Self
        ensures { result ≡ no_members }
    {
        ProducersSection {
            fields: Holder::new(alloc),
        }
    }

    /// Adds a field with this name and these tools.
    ///
    /// # Errors
    ///
    /// Fails with `Unfinished` if the field is unfinished, with `TooMany` if the number of fields
    /// would exceed 4294967295, and with `TooLarge` if the bytes of the name or of the section
    /// would. The section is then unchanged.
    pub fn field<B: Allocator>(
        &mut self,
        name: &str,
        field: &ProducersField<B>,
    ) -> Result<(), Fault>
        ensures added { (tools : List Producer) → Contains producer field.now tools
            → AddsMember (refused_for (FieldCause self.old name.now field.now)
            (producers_field (record { field = name.now; tools = tools })))
            self.old self.new result }
        ensures bytes { AddsMember (refused_for (FieldCause self.old name.now field.now)
            (held_field name.now field.now)) self.old self.new result }
        ensures unfinished_field { is_finished field.now ≡ false → result ≡ Err Unfinished }
    {
        self.add_field(name, field)
    }

    fn add_field<B: Allocator>(
        &mut self,
        name: &str,
        field: &ProducersField<B>,
    ) -> Result<(), Fault>
        ensures added { AddsMember (refused_for (FieldCause self.old name.now field.now)
            (held_field name.now field.now)) self.old self.new result }
        ensures unfinished_field { is_finished field.now ≡ false → result ≡ Err Unfinished }
    {
        if !field.values.is_finished() {
            return Err(Fault::Unfinished);
        }
        let count = self.fields.len();
        let body = self.fields.as_slice().len();
        self.fields.add_encoded(&(name, ByRef(field)))?;
        let longer = self.fields.as_slice().len() as u64 + LABEL_SIZE;
        if let Err(fault) = section_size(self.fields.len(), longer) {
            self.fields.cut_back(count, body);
            return Err(fault);
        }
        Ok(())
    }

    /// Appends the contents of the custom section: the number of fields, then each.
    ///
    /// # Errors
    ///
    /// Fails with `Unfinished` if the section is unfinished, else only if an allocation fails.
    #[tactic(auto, using(crate::proofs::Produced::data_of_fields))]
    pub fn encode_data<B: Allocator>(&self, sink: &mut Vec<u8, B>) -> Result<(), Fault>
        ensures appended { Appends (held_text self.now) (EncodeCause self.now)
            (is_finished self.now ≡ false) sink.old.items sink.new.items result }
        ensures fields { (fields : List Producers) → Contains producers_field self.now fields
            → OnOk result
            (sink.new.items ≡ sink.old.items ++ (list producers_field fields).text) }
    {
        self.fields.encode(sink)
    }

    /// Returns a copy of the section.
    ///
    /// # Errors
    ///
    /// Fails only if an allocation fails.
    pub fn clone(&self) -> Result<Self, Fault>
    where
        A: Clone,
        ensures same { IfOk result (λ s. s ≡ self.now) }
        ensures refused { IfErr result IsMemory }
    {
        let fields = self.fields.clone()?;
        Ok(ProducersSection { fields })
    }
}

/// A finished section fails to encode only if an allocation fails.
impl<A: Allocator> Encode for ProducersSection<A> {
    ghost piece = { producers_held };

    ghost unfinished = { λ s. is_finished s ≡ false };

    fn encode<B: Allocator>(&self, sink: &mut Vec<u8, B>) -> Result<(), Fault> {
        if !self.fields.is_finished() {
            return Err(Fault::Unfinished);
        }
        let longer = self.fields.as_slice().len() as u64 + LABEL_SIZE;
        let size = section_size(self.fields.len(), longer)?;
        (size, "producers", ByRef(&self.fields)).encode(sink)
    }
}

impl<A: Allocator> Section for ProducersSection<A> {
    ghost section_id = { λ _. 0 };

    fn id(&self) -> u8 {
        u8::from(SectionId::Custom)
    }
}
