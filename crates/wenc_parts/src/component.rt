//! `Component`, the trait `ComponentSection` of its sections, section ids, and the bytes of kinds.
ghost use Rattle.std.specs.Prelude.{◌≡◌, ℕ, IfOk, IfErr, OnOk};
ghost use Rattle.wenc_base.specs.Prelude.{itself, Appends, IsMemory, ◌▸◌, as_itself, serves_itself};
ghost use Rattle.wenc_parts.specs.Prelude.{preamble, section_number, section_lawful};
ghost use Rattle.wenc_parts.specs.declared.component.ComponentSectionId.TheVariants.{CoreCustom};

use std::alloc::{Allocator, Global};
use std::marker::Model;
use wenc_base::{
    CustomSection, Delimited, DelimitedEq, Encode, Fault, ProducersSection, RawCustomSection,
    RawSection, Tagged, encode_byte,
};

// The bytes of kinds of items (component model, binary format, `sort` and `core:sort`).
/// The first byte of the kind of a core item. The byte of the core kind follows.
pub const CORE_SORT: u8 = 0x00;

/// The core kind of core types, after `CORE_SORT`.
pub const CORE_TYPE_SORT: u8 = 0x10;

/// The core kind of core modules, after `CORE_SORT`.
pub const CORE_MODULE_SORT: u8 = 0x11;

/// The core kind of core instances, after `CORE_SORT`.
pub const CORE_INSTANCE_SORT: u8 = 0x12;

/// The kind of functions.
pub const FUNCTION_SORT: u8 = 0x01;

/// The kind of values.
pub const VALUE_SORT: u8 = 0x02;

/// The kind of types.
pub const TYPE_SORT: u8 = 0x03;

/// The kind of components.
pub const COMPONENT_SORT: u8 = 0x04;

/// The kind of instances.
pub const INSTANCE_SORT: u8 = 0x05;

/// A section of a component (component model, binary format, "Component Definitions"). You may
/// implement this trait for types of your own.
pub trait ComponentSection: Encode {
    /// What `id` returns.
    ghost section_id: { Self → ℕ };

    /// Returns the section's id, from 0 to 255.
    fn id(&self) -> u8
        ensures { result ≡ section_id self.now };

    /// Appends the section's id and its encoding.
    ///
    /// # Errors
    ///
    /// Fails as `encode` does; `sink` is then unchanged.
    fn append_to_component<A: Allocator>(&self, sink: &mut Vec<u8, A>) -> Result<(), Fault>
    where
        Self: Sized,
        ensures appended { Appends (section_id self.now ▸ Self.piece self.now).text
            (Self.piece self.now).Cause (Self.unfinished self.now)
            sink.old.items sink.new.items result }
        ensures fits { OnOk result (Self.piece self.now).Fits }
    {
        Tagged(self.id(), self).encode(sink)
    }
}

impl<'a> ComponentSection for CustomSection<'a> {
    ghost section_id = { λ _. section_number CoreCustom };

    fn id(&self) -> u8 {
        u8::from(ComponentSectionId::CoreCustom)
    }
}

impl<'a> ComponentSection for RawCustomSection<'a> {
    ghost section_id = { λ _. section_number CoreCustom };

    fn id(&self) -> u8 {
        u8::from(ComponentSectionId::CoreCustom)
    }
}

impl<A: Allocator> ComponentSection for ProducersSection<A> {
    ghost section_id = { λ _. section_number CoreCustom };

    fn id(&self) -> u8 {
        u8::from(ComponentSectionId::CoreCustom)
    }
}

impl<'a> ComponentSection for RawSection<'a> {
    ghost section_id = { λ s. s.id };

    fn id(&self) -> u8 {
        self.id
    }
}

/// The ids of a component's sections (component model, binary format, "Component Definitions").
/// They are ordered by their numbers.
#[derive(Clone, Copy, Debug, PartialEq, Eq, PartialOrd, Ord)]
#[repr(u8)]
pub enum ComponentSectionId {
    /// A core custom section.
    CoreCustom = 0,
    /// A core module.
    CoreModule = 1,
    /// Core instances.
    CoreInstance = 2,
    /// Core types.
    CoreType = 3,
    /// A nested component.
    Component = 4,
    /// Component instances.
    Instance = 5,
    /// Aliases.
    Alias = 6,
    /// Types.
    Type = 7,
    /// Canonical functions.
    CanonicalFunction = 8,
    /// A start function.
    Start = 9,
    /// Imports.
    Import = 10,
    /// Exports.
    Export = 11,
}

impl From<ComponentSectionId> for u8 {
    ghost from_gives = { λ id n. n ≡ section_number id };

    fn from(id: ComponentSectionId) -> u8 {
        id as u8
    }
}

impl Encode for ComponentSectionId {
    ghost use Rattle.wenc_parts.specs.Prelude.{section_id};

    ghost piece = { λ id. section_id id };

    fn encode<A: Allocator>(&self, sink: &mut Vec<u8, A>) -> Result<(), Fault> {
        encode_byte(u8::from(*self), sink)
    }
}

impl Delimited for ComponentSectionId {
    ghost reads_back = { as_itself section_lawful };

    ghost written = { λ _. serves_itself };
}

impl DelimitedEq for ComponentSectionId {
    ghost alike = { itself _ };
}

/// The bytes of a component: its header, and the sections appended so far, in any order (component
/// model, binary format, "Component Definitions").
///
/// ```
/// let mut imports = ComponentImportSection::new(alloc);
/// imports.import("file".into(), ComponentTypeRef::Type(TypeBounds::SubResource))?;
///
/// let mut component = Component::new(alloc)?;
/// component.section(&imports)?;
/// let bytes = component.finish();
/// ```
#[derive(Drop)]
pub struct Component<A: Allocator = Global> {
    bytes: Vec<u8, A>,
}

impl<A: Allocator> Model for Component<A> {
    ghost use Rattle.std.specs.Prelude.{List, ℕ};

    ghost Value = { List ℕ };

    ghost view = { λ c. c.bytes.items };
}

impl Component {
    /// The header of each component (component model, binary format, `preamble`).
    pub const HEADER: [u8; 8] = [0x00, 0x61, 0x73, 0x6d, 0x0d, 0x00, 0x01, 0x00];
}

impl<A: Allocator> Component<A> {
    /// Creates a component without sections.
    ///
    /// # Errors
    ///
    /// Fails only if an allocation fails.
    pub fn new(alloc: A) -> Result<Self, Fault>
        ensures ok { IfOk result (λ c. c ≡ preamble.text) }
        ensures refused { IfErr result IsMemory }
    {
        let mut bytes = Vec::new(alloc);
        bytes.extend_from_slice(&<Component>::HEADER)?;
        Ok(Component { bytes })
    }

    /// Appends a section.
    ///
    /// # Errors
    ///
    /// Fails as the section's `encode` does; the component is then unchanged.
    pub fn section<S: ComponentSection>(&mut self, section: &S) -> Result<(), Fault>
        ensures appended { Appends (S.section_id section.now ▸ S.piece section.now).text
            (S.piece section.now).Cause (S.unfinished section.now) self.old self.new result }
        ensures fits { OnOk result (S.piece section.now).Fits }
    {
        section.append_to_component(&mut self.bytes)
    }

    /// Returns the bytes written so far.
    pub fn as_slice(&self) -> &[u8]
        ensures { result.now ≡ self.now }
    {
        self.bytes.as_slice()
    }

    /// Returns the bytes of the component. Does not allocate.
    pub fn finish(self) -> Vec<u8, A>
        ensures { result.items ≡ self }
    {
        let Component { bytes } = self;
        bytes
    }

    /// Returns a copy of the component.
    ///
    /// # Errors
    ///
    /// Fails only if an allocation fails.
    pub fn clone(&self) -> Result<Self, Fault>
    where
        A: Clone,
        ensures same { IfOk result (λ c. c ≡ self.now) }
        ensures refused { IfErr result IsMemory }
    {
        let mut bytes = Vec::new(self.bytes.allocator().clone()?);
        bytes.extend_from_slice(self.bytes.as_slice())?;
        Ok(Component { bytes })
    }
}
