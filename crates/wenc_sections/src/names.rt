//! The name section and its subsections.
ghost use Rattle.std.specs.Prelude.{◌≡◌, ◌==◌, ◌+◌, ◌<◌, ◌^◌, [], length, IfOk, IfErr};
ghost use Rattle.wenc_base.specs.Prelude.{IsMemory, as_itself, serves_itself};
ghost use Rattle.wenc_parts.specs.Prelude.{section_number};
ghost use Rattle.wenc_sections.specs.Prelude.{Fault as FaultSpec, item_sort, ComponentName};
ghost use Rattle.wenc_sections.specs.Prelude.{RawNames, subsection, names_label, RoomCause};
ghost use Rattle.wenc_sections.specs.Prelude.{AppendsSubsection, AppendsNames, held_subsection};
ghost use Rattle.wenc_sections.specs.Prelude.{names_section, names_section_lawful};

use crate::space::Space;
use std::alloc::{Allocator, Global};
use std::marker::Model;
use wenc_base::{
    ByRef, CustomSection, Delimited, Encode, Fault, NameMap, Prefix, Tagged, Verbatim, WithSize,
};
use wenc_parts::component::{
    COMPONENT_SORT, CORE_INSTANCE_SORT, CORE_MODULE_SORT, CORE_SORT, CORE_TYPE_SORT, FUNCTION_SORT,
    INSTANCE_SORT, TYPE_SORT, VALUE_SORT,
};
use wenc_parts::{ComponentSection, ComponentSectionId};

/// The id of the subsection that names the component itself.
const COMPONENT_NAME: u8 = 0x00;

/// The id of a subsection that names items.
const ITEM_NAMES: u8 = 0x01;

/// The name of the custom section that contains names.
pub const NAMES_LABEL: &str = "component-name";

/// The largest number of bytes in all subsections: the section's name and its length have 15 more.
const LIMIT: usize = 4294967280;

/// Returns the encoding of the kind of the items in a space.
fn kind_bytes(space: Space) -> &'static [u8]
    ensures { result.now ≡ (item_sort space).text }
{
    match space {
        Space::CoreFuncs => &[CORE_SORT, 0x00],
        Space::CoreTables => &[CORE_SORT, 0x01],
        Space::CoreMemories => &[CORE_SORT, 0x02],
        Space::CoreGlobals => &[CORE_SORT, 0x03],
        Space::CoreTags => &[CORE_SORT, 0x04],
        Space::CoreTypes => &[CORE_SORT, CORE_TYPE_SORT],
        Space::CoreModules => &[CORE_SORT, CORE_MODULE_SORT],
        Space::CoreInstances => &[CORE_SORT, CORE_INSTANCE_SORT],
        Space::Funcs => &[FUNCTION_SORT],
        Space::Values => &[VALUE_SORT],
        Space::Types => &[TYPE_SORT],
        Space::Components => &[COMPONENT_SORT],
        Space::Instances => &[INSTANCE_SORT],
    }
}

/// A subsection with the names of items in one index space (component model, binary format, "Name
/// Section").
///
/// Encoding fails with `TooLarge` if more than 4294967295 bytes follow its size.
#[derive(Clone, Copy)]
pub struct NamesOf<'a, A: Allocator = Global>(pub Space, pub &'a NameMap<A>);

impl<'a, A: Allocator> Encode for NamesOf<'a, A> {
    ghost piece = { λ n. held_subsection n.0 n.1.now };

    fn encode<B: Allocator>(&self, sink: &mut Vec<u8, B>) -> Result<(), Fault> {
        let kind = kind_bytes(self.0);
        // 32 bits: a map has less than 2^31 bytes of names, and `kind` has two.
        let Ok(size) = u32::try_from(kind.len() + self.1.size()) else {
            return Err(Fault::TooLarge);
        };
        Prefix(ITEM_NAMES, &(size, Verbatim(kind), ByRef(self.1))).encode(sink)
    }
}

/// Names of a component and of its items: a custom section (component model, binary format, "Name
/// Section").
///
/// Each call appends a subsection, in any order. A call that fails leaves the section unchanged.
///
/// ```
/// let mut funcs = NameMap::new(alloc);
/// funcs.append(0, "now")?;
/// let mut names = ComponentNameSection::new(alloc);
/// names.component("clock")?;
/// names.funcs(&funcs)?;
///
/// let mut component = Component::new(alloc)?;
/// component.section(&names)?;
/// let bytes = component.finish();
/// ```
///
/// # Errors
///
/// Each call that appends a subsection fails with `TooLarge` if the bytes of the section would
/// exceed 4294967295.
#[derive(Drop)]
pub struct ComponentNameSection<A: Allocator = Global> {
    /// The subsections, concatenated.
    bytes: Vec<u8, A>,
}

impl<A: Allocator> Model for ComponentNameSection<A> {
    ghost use Rattle.std.specs.Prelude.{List, ℕ, ◌<◌, ◌+◌, ◌^◌, length};

    ghost Value = { List ℕ };

    ghost view = { λ s. s.bytes.items };

    ghost invariant = { λ s. 15 + length s.bytes.items < 2 ^ 32 };
}

impl<A: Allocator> ComponentNameSection<A> {
    /// Creates a section without names. Does not allocate.
    pub fn new(alloc: A) -> Self
        ensures { result ≡ [] }
    {
        ComponentNameSection {
            bytes: Vec::new(alloc),
        }
    }

    /// Names the component itself.
    pub fn component(&mut self, name: &str) -> Result<(), Fault>
        ensures { AppendsSubsection (subsection (ComponentName name.now)) self.old self.new result }
    {
        self.append(&Prefix(COMPONENT_NAME, &WithSize(&name)))
    }

    /// Names core functions.
    pub fn core_funcs<B: Allocator>(&mut self, names: &NameMap<B>) -> Result<(), Fault>
        ensures { AppendsNames Space.CoreFuncs names.now self.old self.new result }
    {
        self.append_names(Space::CoreFuncs, names)
    }

    /// Names core tables.
    pub fn core_tables<B: Allocator>(&mut self, names: &NameMap<B>) -> Result<(), Fault>
        ensures { AppendsNames Space.CoreTables names.now self.old self.new result }
    {
        self.append_names(Space::CoreTables, names)
    }

    /// Names core memories.
    pub fn core_memories<B: Allocator>(&mut self, names: &NameMap<B>) -> Result<(), Fault>
        ensures { AppendsNames Space.CoreMemories names.now self.old self.new result }
    {
        self.append_names(Space::CoreMemories, names)
    }

    /// Names core globals.
    pub fn core_globals<B: Allocator>(&mut self, names: &NameMap<B>) -> Result<(), Fault>
        ensures { AppendsNames Space.CoreGlobals names.now self.old self.new result }
    {
        self.append_names(Space::CoreGlobals, names)
    }

    /// Names core tags.
    pub fn core_tags<B: Allocator>(&mut self, names: &NameMap<B>) -> Result<(), Fault>
        ensures { AppendsNames Space.CoreTags names.now self.old self.new result }
    {
        self.append_names(Space::CoreTags, names)
    }

    /// Names core types.
    pub fn core_types<B: Allocator>(&mut self, names: &NameMap<B>) -> Result<(), Fault>
        ensures { AppendsNames Space.CoreTypes names.now self.old self.new result }
    {
        self.append_names(Space::CoreTypes, names)
    }

    /// Names core modules.
    pub fn core_modules<B: Allocator>(&mut self, names: &NameMap<B>) -> Result<(), Fault>
        ensures { AppendsNames Space.CoreModules names.now self.old self.new result }
    {
        self.append_names(Space::CoreModules, names)
    }

    /// Names core instances.
    pub fn core_instances<B: Allocator>(&mut self, names: &NameMap<B>) -> Result<(), Fault>
        ensures { AppendsNames Space.CoreInstances names.now self.old self.new result }
    {
        self.append_names(Space::CoreInstances, names)
    }

    /// Names functions.
    pub fn funcs<B: Allocator>(&mut self, names: &NameMap<B>) -> Result<(), Fault>
        ensures { AppendsNames Space.Funcs names.now self.old self.new result }
    {
        self.append_names(Space::Funcs, names)
    }

    /// Names values.
    pub fn values<B: Allocator>(&mut self, names: &NameMap<B>) -> Result<(), Fault>
        ensures { AppendsNames Space.Values names.now self.old self.new result }
    {
        self.append_names(Space::Values, names)
    }

    /// Names types.
    pub fn types<B: Allocator>(&mut self, names: &NameMap<B>) -> Result<(), Fault>
        ensures { AppendsNames Space.Types names.now self.old self.new result }
    {
        self.append_names(Space::Types, names)
    }

    /// Names components.
    pub fn components<B: Allocator>(&mut self, names: &NameMap<B>) -> Result<(), Fault>
        ensures { AppendsNames Space.Components names.now self.old self.new result }
    {
        self.append_names(Space::Components, names)
    }

    /// Names instances.
    pub fn instances<B: Allocator>(&mut self, names: &NameMap<B>) -> Result<(), Fault>
        ensures { AppendsNames Space.Instances names.now self.old self.new result }
    {
        self.append_names(Space::Instances, names)
    }

    /// Appends a subsection with this id and these contents, unchanged.
    #[tactic(auto, using(crate::proofs::Appended::no_room))]
    pub fn raw(&mut self, id: u8, data: &[u8]) -> Result<(), Fault>
        ensures { AppendsSubsection (subsection (RawNames id «data».now)) self.old self.new result }
    {
        self.append(&Tagged(id, &data))
    }

    /// Appends a subsection with the names of items in this index space.
    #[tactic(auto, using(crate::proofs::Appended::no_room, crate::proofs::Appended::names_appended))]
    fn append_names<B: Allocator>(&mut self, space: Space, names: &NameMap<B>) -> Result<(), Fault>
        ensures { AppendsNames space names.now self.old self.new result }
    {
        self.append(&NamesOf(space, names))
    }

    /// Appends a subsection. If the section would be too large, removes it and fails.
    #[tactic(auto, using(wenc_base::specs::laws::Serves::still_warranted))]
    fn append<E: Encode>(&mut self, subsection: &E) -> Result<(), Fault>
        requires { (fault : FaultSpec) → (E.piece subsection.now).Cause fault
            → RoomCause self.old (E.piece subsection.now).text fault }
        ensures { AppendsSubsection (E.piece subsection.now) self.old self.new result }
    {
        let start = self.bytes.len();
        subsection.encode(&mut self.bytes)?;
        if self.bytes.len() > LIMIT {
            self.bytes.truncate(start);
            return Err(Fault::TooLarge);
        }
        Ok(())
    }

    /// Returns whether there are no subsections.
    pub fn is_empty(&self) -> bool
        ensures { result ≡ (length self.now == 0) }
    {
        self.bytes.is_empty()
    }

    /// Returns the section as the custom section that a component contains. Does not allocate.
    pub fn as_custom(&self) -> CustomSection<'_>
        ensures name { result.name.now ≡ names_label }
        ensures bytes { result.«data».now ≡ self.now }
        ensures fits { 15 + length self.now < 2 ^ 32 }
    {
        CustomSection {
            name: NAMES_LABEL,
            data: self.bytes.as_slice(),
        }
    }

    /// Returns a copy of the section.
    ///
    /// # Errors
    ///
    /// Fails only if an allocation fails.
    pub fn clone(&self) -> Result<Self, Fault>
    where
        A: Clone,
        ensures same { IfOk result (λ s. s ≡ self.now) }
        ensures refused { IfErr result IsMemory }
    {
        let mut bytes = Vec::new(self.bytes.allocator().clone()?);
        bytes.extend_from_slice(self.bytes.as_slice())?;
        Ok(ComponentNameSection { bytes })
    }
}

/// Encoding fails only if an allocation fails.
impl<A: Allocator> Encode for ComponentNameSection<A> {
    ghost piece = { λ s. names_section s };

    fn encode<B: Allocator>(&self, sink: &mut Vec<u8, B>) -> Result<(), Fault> {
        self.as_custom().encode(sink)
    }
}

impl<A: Allocator> Delimited for ComponentNameSection<A> {
    ghost reads_back = { as_itself names_section_lawful };

    ghost written = { λ _. serves_itself };
}

impl<A: Allocator> ComponentSection for ComponentNameSection<A> {
    ghost use Rattle.wenc_sections.specs.Prelude.{ComponentSectionId};

    ghost section_id = { λ _. section_number ComponentSectionId.CoreCustom };

    fn id(&self) -> u8 {
        u8::from(ComponentSectionId::CoreCustom)
    }
}
