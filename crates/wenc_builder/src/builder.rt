//! The component builder: its methods for modules, components, aliases, imports and exports.
ghost use Rattle.std.specs.Prelude.{◌≡◌, ◌↔◌, [], ◌∷◌, ◌++◌, List, IfOk, IfErr, OnErr, IsOk};
ghost use Rattle.std.specs.Prelude.{IsTrue, Some, None, Err, true, false, OnOk, is_none, length};
ghost use Rattle.std.specs.Iterator.{IsFinite};
ghost use Rattle.std.specs.List.{AllByRecursion};
ghost use Rattle.std.specs.Option.{option_copied};
ghost use Rattle.wenc_base.specs.Prelude.{IsMemory, listed, nothing, Spelling, GivesUp};
ghost use Rattle.wenc_base.specs.Prelude.{IsWarranted, NoCause};
ghost use Rattle.wenc_base.specs.declared.fault.Fault.TheVariants.{Unfinished};
ghost use Rattle.wenc_builder.specs.Prelude.{Section, runs, Reading, whole, Entry, items};
ghost use Rattle.wenc_builder.specs.Prelude.{module_entry, component_entry, canonical_entry};
ghost use Rattle.wenc_builder.specs.Prelude.{start_entry, custom_entry, raw_entry, StartIsNameless};
ghost use Rattle.wenc_builder.specs.Prelude.{import_entry, export_entry, alias_entry};
ghost use Rattle.wenc_builder.specs.Prelude.{alias_export_entry, core_alias_export_entry};
ghost use Rattle.wenc_builder.specs.Prelude.{builder_is_finished, sections_text, count_in};
ghost use Rattle.wenc_builder.specs.Prelude.{item_begun, item_ended, item_given_up, Holds, Enters};
ghost use Rattle.wenc_builder.specs.Prelude.{EntersWithoutIndex, AddsItem, AddsWholeItem};
ghost use Rattle.wenc_builder.specs.Prelude.{AddsSection, AddsUnindexedSection, namespace_at};
ghost use Rattle.wenc_builder.specs.Prelude.{spaces_with, namespace_with, SpaceCause};
ghost use Rattle.wenc_builder.specs.Prelude.{buffer_ended, buffer_given_up};
ghost use Rattle.wenc_builder.specs.Prelude.{AddsListedItem, IsItemPiece, indices_in, some_in};
ghost use Rattle.wenc_builder.specs.Prelude.{canonical_space, is_whole, HasNoRaw, with_bytes};
ghost use Rattle.wenc_builder.specs.Prelude.{new_item_of, kind_id, AddsNames, item_appended};
ghost use Rattle.wenc_builder.specs.Prelude.{builder_is_opened, no_room_in_section};
ghost use Rattle.wenc_builder.specs.Prelude.{opened_is_begun, still_begun, item_appended_twice};
ghost use Rattle.wenc_parts.specs.Prelude.{extern_name_view, alias_view};
ghost use Rattle.wenc_sections.specs.Prelude.{canon_view};
ghost use Rattle.wenc_sections.specs.declared.space.Space.TheVariants as spaces;

mod buffer;
mod canonicals;
mod debug_names;
mod earlier;
mod flush;
mod functions;
mod instances;
mod kind;
mod namespace;
mod producers;
mod section_body;
mod spaces;
mod trees;
mod type_items;

use buffer::Buffer;
use kind::Kind;
use section_body::{CustomLead, SectionBody, Size};
use spaces::{Spaces, Undo};
use std::alloc::{Allocator, Global};
use std::convert::AsSlice;
use std::marker::Model;
use wenc_base::{CustomSection, Encode, ExportKind, Fault, Module, Parent, Tagged, WithSize};
use wenc_canon::CanonicalOption;
use wenc_parts::{
    Alias, ComponentExportKind, ComponentExternName, ComponentSectionId, ComponentTypeRef,
};
use wenc_sections::names::NAMES_LABEL;
use wenc_sections::{CanonTree, ComponentStartSection, Space};

/// Builds a component call by call.
///
/// Adjacent items of one kind are collected in one section, and each call returns the index of its
/// item. A call that fails changes nothing.
///
/// # Errors
///
/// A method fails
///
/// - with `TooMany` where an index space, a section, a list or the debug names of a space would
///   have more than 4294967295 members,
/// - with `TooLarge` where a string, a module, a component, a section or the debug names of a space
///   would have more than 4294967295 bytes,
/// - with `Memory` if an allocation fails,
/// - with `Unfinished` while an item is being written.
///
/// ```
/// let mut builder = ComponentBuilder::new(alloc)?;
/// let index = builder.import("f".into(), ComponentTypeRef::Type(TypeBounds::SubResource))?;
/// builder.export("g".into(), ComponentExportKind::Type, index, None)?;
/// let bytes = builder.finish()?;
/// ```
#[derive(Drop)]
pub struct ComponentBuilder<A: Allocator = Global> {
    buffer: Buffer<A>,
    spaces: Spaces<A>,
    /// The earlier state of its space, while an encoder writes an item.
    undo: Option<Undo>,
}

impl<A: Allocator> Model for ComponentBuilder<A> {
    ghost use Rattle.wenc_builder.specs.Prelude.{State, IsBuilder, builder_view, spaced, CanUndo};

    ghost Value = { State };

    ghost view = { λ b. builder_view b.buffer (spaced b.spaces b.undo) };

    ghost invariant = { λ b. IsBuilder b.buffer (spaced b.spaces b.undo)
        × CanUndo b.spaces b.undo };
}

impl<A: Allocator> ComponentBuilder<A> {
    /// Creates a component without items. Fails only if an allocation fails (`Memory`).
    pub fn new(alloc: A) -> Result<Self, Fault>
    where
        A: Copy,
        ensures held { IfOk result (λ b. Holds b []) }
        ensures refused { IfErr result IsMemory }
    {
        Ok(ComponentBuilder {
            buffer: Buffer::new(alloc)?,
            spaces: Spaces::new(alloc)?,
            undo: None,
        })
    }

    /// Returns the number of core modules so far.
    pub fn core_module_count(&self) -> u32
        ensures { result ≡ count_in self.now Space.CoreModules }
    {
        self.count(Space::CoreModules)
    }

    /// Returns the number of core functions so far.
    pub fn core_func_count(&self) -> u32
        ensures { result ≡ count_in self.now Space.CoreFuncs }
    {
        self.count(Space::CoreFuncs)
    }

    /// Returns the number of core types so far.
    pub fn core_type_count(&self) -> u32
        ensures { result ≡ count_in self.now Space.CoreTypes }
    {
        self.count(Space::CoreTypes)
    }

    /// Returns the number of core memories so far.
    pub fn core_memory_count(&self) -> u32
        ensures { result ≡ count_in self.now Space.CoreMemories }
    {
        self.count(Space::CoreMemories)
    }

    /// Returns the number of core tables so far.
    pub fn core_table_count(&self) -> u32
        ensures { result ≡ count_in self.now Space.CoreTables }
    {
        self.count(Space::CoreTables)
    }

    /// Returns the number of core instances so far.
    pub fn core_instance_count(&self) -> u32
        ensures { result ≡ count_in self.now Space.CoreInstances }
    {
        self.count(Space::CoreInstances)
    }

    /// Returns the number of core tags so far.
    pub fn core_tag_count(&self) -> u32
        ensures { result ≡ count_in self.now Space.CoreTags }
    {
        self.count(Space::CoreTags)
    }

    /// Returns the number of core globals so far.
    pub fn core_global_count(&self) -> u32
        ensures { result ≡ count_in self.now Space.CoreGlobals }
    {
        self.count(Space::CoreGlobals)
    }

    /// Returns the number of component functions so far.
    pub fn func_count(&self) -> u32
        ensures { result ≡ count_in self.now Space.Funcs }
    {
        self.count(Space::Funcs)
    }

    /// Returns the number of component instances so far.
    pub fn instance_count(&self) -> u32
        ensures { result ≡ count_in self.now Space.Instances }
    {
        self.count(Space::Instances)
    }

    /// Returns the number of values so far.
    pub fn value_count(&self) -> u32
        ensures { result ≡ count_in self.now Space.Values }
    {
        self.count(Space::Values)
    }

    /// Returns the number of components so far.
    pub fn component_count(&self) -> u32
        ensures { result ≡ count_in self.now Space.Components }
    {
        self.count(Space::Components)
    }

    /// Returns the number of component types so far.
    pub fn type_count(&self) -> u32
        ensures { result ≡ count_in self.now Space.Types }
    {
        self.count(Space::Types)
    }

    /// Returns the number of items in a space, including the one being written.
    fn count(&self, space: Space) -> u32
        ensures { result ≡ count_in self.now space }
    {
        self.spaces.count(space)
    }

    /// Begins an item, which `discard` rolls back until it is ended. Returns its index.
    #[inline(always)]
    fn open(&mut self, kind: Kind, space: Space, name: Option<&str>) -> Result<u32, Fault>
        ensures { AddsItem self.old self.new
            (item_begun self.old (new_item_of kind space (option_copied name.entry) []))
            result (new_item_of kind space (option_copied name.entry) []) nothing }
    {
        if !self.buffer.is_finished() {
            return Err(Fault::Unfinished);
        }
        self.buffer.open(kind)?;
        let undo = self.spaces.state(space);
        match self.spaces.add(space, 1, name) {
            Ok(index) => {
                self.undo = Some(undo);
                Ok(index)
            }
            Err(fault) => {
                self.buffer.discard();
                Err(fault)
            }
        }
    }

    /// Ends the item being written. Allocates nothing.
    fn finish_member(&mut self)
        requires unfinished { builder_is_finished self.old ≡ false }
        requires whole { ∥ is_whole self.old ∥₁ }
        ensures { self.new ≡ item_ended self.old }
    {
        self.buffer.finish_member();
        self.undo = None;
    }

    /// Discards the item being written. Allocates nothing.
    fn discard(&mut self)
        requires { builder_is_finished self.old ≡ false }
        ensures { self.new ≡ item_given_up self.old }
    {
        self.buffer.discard();
        if let Some(undo) = self.undo {
            self.spaces.go_back(undo);
            self.undo = None;
        }
    }

    /// Adds a whole item with an optional debug name, and returns its index.
    fn add<E: Encode>(
        &mut self,
        kind: Kind,
        space: Space,
        name: Option<&str>,
        item: &E,
    ) -> Result<u32, Fault>
        requires { IsItemPiece (Some (kind_id kind)) (some_in space 1) (E.piece item.now) }
        ensures { AddsWholeItem self.old self.new result
            (new_item_of kind space (option_copied name.entry)) (E.piece item.now) }
    {
        if !self.buffer.is_finished() {
            return Err(Fault::Unfinished);
        }
        self.buffer.open(kind)?;
        match self.buffer.append_encoded(item) {
            Ok(()) => index_and_end(&mut self.buffer, &mut self.spaces, space, name),
            Err(fault) => {
                self.buffer.discard();
                Err(fault)
            }
        }
    }

    /// Adds a whole item with an optional debug name, and returns its index. The item is the
    /// encoding of `lead`, the values as a list, and the encoding of `tail`.
    fn add_listed<E: Encode, T: Encode + Drop, I: Iterator<Item = T> + Drop, F: Encode>(
        &mut self,
        kind: Kind,
        space: Space,
        name: Option<&str>,
        lead: &E,
        values: I,
        tail: &F,
    ) -> Result<u32, Fault>
        requires can { I.can_next values }
        requires ends { IsFinite (I.remaining values) }
        requires whole { (vs : List T) → IsItemPiece (Some (kind_id kind)) (some_in space 1)
            (listed (E.piece lead.now) T.piece (F.piece tail.now) vs) }
        ensures { AddsListedItem I.next_gives values self.old self.new result
            (new_item_of kind space (option_copied name.entry))
            (listed (E.piece lead.now) T.piece (F.piece tail.now)) }
    {
        if !self.buffer.is_finished() {
            return Err(Fault::Unfinished);
        }
        if let Err(fault) = self.buffer.open(kind) {
            return Err(fault);
        }
        match self.buffer.append_between(lead, values, tail) {
            Ok(()) => index_and_end(&mut self.buffer, &mut self.spaces, space, name),
            Err(fault) => {
                self.buffer.discard();
                Err(fault)
            }
        }
    }

    /// Adds a separate section, the encoding of `lead` and these bytes, which takes `number`
    /// indices in a space. The first of them has an optional debug name, and is returned.
    fn add_section<E: Encode>(
        &mut self,
        space: Space,
        number: u32,
        name: Option<&str>,
        lead: &E,
        bytes: &SectionBody<'_>,
    ) -> Result<u32, Fault>
        requires whole { IsItemPiece None (some_in space number)
            (with_bytes (E.piece lead.now) bytes.now) }
        requires nameless { space ≡ spaces.Values → option_copied name ≡ None }
        ensures { AddsSection self.old self.new result (indices_in space number)
            (option_copied name.entry) (with_bytes (E.piece lead.now) bytes.now) }
    {
        if !self.buffer.is_finished() {
            return Err(Fault::Unfinished);
        }
        let undo = self.spaces.state(space);
        match self.spaces.add(space, number, name) {
            Err(fault) => Err(fault),
            Ok(index) => match self.buffer.add_section(lead, bytes) {
                Ok(()) => Ok(index),
                Err(fault) => {
                    self.spaces.go_back(undo);
                    Err(fault)
                }
            },
        }
    }

    /// Adds a separate section without an index: the encoding of `lead`, and these bytes.
    fn add_unindexed_section<E: Encode>(
        &mut self,
        lead: &E,
        bytes: &SectionBody<'_>,
    ) -> Result<(), Fault>
        requires { IsItemPiece None None (with_bytes (E.piece lead.now) bytes.now) }
        ensures { AddsUnindexedSection self.old self.new result
            (with_bytes (E.piece lead.now) bytes.now) }
    {
        if !self.buffer.is_finished() {
            return Err(Fault::Unfinished);
        }
        self.buffer.add_section(lead, bytes)
    }

    /// Adds a canonical function with an optional debug name, and returns its index in this space.
    fn add_canonical<B: Allocator>(
        &mut self,
        space: Space,
        name: Option<&str>,
        function: &CanonTree<B>,
    ) -> Result<u32, Fault>
        requires { canonical_space (canon_view function.now) ≡ space }
        ensures { Enters self.old self.new result
            (canonical_entry (option_copied name.entry) (canon_view function.now)) }
    {
        self.add(Kind::CanonicalFunction, space, name, function)
    }

    /// Adds a custom section with the debug names so far, in the order of their kinds (component
    /// model, binary format, "Name Section").
    ///
    /// The names are kept, so a second call writes them again. Without names nothing is added, and
    /// the open section stays open.
    ///
    /// Fails as documented on `ComponentBuilder`; without names only while an item is being
    /// written.
    pub fn append_names(&mut self) -> Result<(), Fault>
        ensures { AddsNames self.old self.new result }
    {
        if !self.buffer.is_finished() {
            return Err(Fault::Unfinished);
        }
        let names = self.spaces.sorted_names();
        if names.is_empty() {
            return Ok(());
        }
        let content = (NAMES_LABEL, names);
        let sized = WithSize(&content);
        let section = Tagged(ComponentSectionId::CoreCustom.into(), &sized);
        self.buffer.add_section(&section, &SectionBody::whole(&[]))
    }

    /// Adds a core module with an optional debug name, and returns its index (component model,
    /// binary format, "Component Definitions"). Fails as documented on `ComponentBuilder`.
    pub fn core_module<B: Allocator>(
        &mut self,
        debug_name: Option<&str>,
        module: &Module<B>,
    ) -> Result<u32, Fault>
        ensures { Enters self.old self.new result
            (module_entry (option_copied debug_name.entry) «module».now) }
    {
        self.core_module_raw(debug_name, module.as_slice())
    }

    /// Adds the core module with these bytes and an optional debug name, and returns its index
    /// (component model, binary format, "Component Definitions"). The bytes aren't checked. Fails
    /// as documented on `ComponentBuilder`.
    pub fn core_module_raw(&mut self, debug_name: Option<&str>, bytes: &[u8]) -> Result<u32, Fault>
        ensures { Enters self.old self.new result
            (module_entry (option_copied debug_name.entry) bytes.now) }
    {
        let size = Size(bytes.len());
        let lead = Tagged(ComponentSectionId::CoreModule.into(), &size);
        let bytes = SectionBody::whole(bytes);
        self.add_section(Space::CoreModules, 1, debug_name, &lead, &bytes)
    }

    /// Adds an alias of a core instance's export with an optional debug name, and returns its index
    /// (component model, binary format, "Alias Definitions"). Fails as documented on
    /// `ComponentBuilder`.
    pub fn core_alias_export(
        &mut self,
        debug_name: Option<&str>,
        instance: u32,
        name: &str,
        kind: ExportKind,
    ) -> Result<u32, Fault>
        ensures { Enters self.old self.new result
            (core_alias_export_entry (option_copied debug_name.entry) instance name.now kind) }
    {
        let alias = Alias::CoreInstanceExport {
            instance,
            kind,
            name,
        };
        self.alias(debug_name, alias)
    }

    /// Adds an alias with an optional debug name, and returns its index, which is in the index
    /// space of the aliased item's kind (component model, binary format, "Alias Definitions").
    /// Fails as documented on `ComponentBuilder`.
    pub fn alias(&mut self, debug_name: Option<&str>, alias: Alias<'_>) -> Result<u32, Fault>
        ensures { Enters self.old self.new result
            (alias_entry (option_copied debug_name.entry) (alias_view alias.entry)) }
    {
        self.add(Kind::Alias, Space::of_alias(&alias), debug_name, &alias)
    }

    /// Adds an alias of a component instance's export, and returns its index (component model,
    /// binary format, "Alias Definitions"). The export's name becomes the alias's debug name. Fails
    /// as documented on `ComponentBuilder`.
    pub fn alias_export(
        &mut self,
        instance: u32,
        name: &str,
        kind: ComponentExportKind,
    ) -> Result<u32, Fault>
        ensures { Enters self.old self.new result (alias_export_entry instance name.now kind) }
    {
        let alias = Alias::InstanceExport {
            instance,
            kind,
            name,
        };
        self.alias(Some(name), alias)
    }

    /// Imports an item under this name, and returns its index (component model, binary format,
    /// "Import and Export Definitions"). The name is also the item's debug name. Fails as
    /// documented on `ComponentBuilder`.
    pub fn import<B: Allocator>(
        &mut self,
        name: ComponentExternName<'_, B>,
        ty: ComponentTypeRef,
    ) -> Result<u32, Fault>
        ensures { Enters self.old self.new result (import_entry (extern_name_view name.entry) ty) }
    {
        let import = (name, ty);
        let name = import.0.name.as_str();
        self.add(Kind::Import, Space::from(ty.kind()), Some(name), &import)
    }

    /// Exports the item of this kind with this index under this name, optionally ascribing a type,
    /// and returns the index of the export (component model, binary format, "Import and Export
    /// Definitions"). The name is also the export's debug name. Fails as documented on
    /// `ComponentBuilder`.
    pub fn export<B: Allocator>(
        &mut self,
        name: ComponentExternName<'_, B>,
        kind: ComponentExportKind,
        index: u32,
        ty: Option<ComponentTypeRef>,
    ) -> Result<u32, Fault>
        ensures { Enters self.old self.new result
            (export_entry (extern_name_view name.entry) kind index ty) }
    {
        let export = (name, (kind, (index, ty)));
        let name = export.0.name.as_str();
        self.add(Kind::Export, Space::from(kind), Some(name), &export)
    }

    /// Adds another builder's component as a nested component with an optional debug name, and
    /// returns its index (component model, binary format, "Component Definitions").
    ///
    /// The other builder is dropped, even if the call fails. Fails as documented on
    /// `ComponentBuilder`, and with `Unfinished` if either builder is unfinished.
    pub fn component<B: Allocator>(
        &mut self,
        debug_name: Option<&str>,
        component: ComponentBuilder<B>,
    ) -> Result<u32, Fault>
        ensures entered { (es : List Entry) → Holds component es → Enters self.old self.new result
            (component_entry (option_copied debug_name.entry) (whole (items es))) }
        ensures bytes { builder_is_finished component ≡ true → Enters self.old self.new result
            (component_entry (option_copied debug_name.entry)
            (sections_text component.settled.sections)) }
        ensures unfinished { builder_is_finished component ≡ false → result ≡ Err Unfinished }
        ensures err { OnErr result (self.new ≡ self.old) }
    {
        let bytes = component.finish()?;
        self.component_raw(debug_name, bytes.as_slice())
    }

    /// Adds another builder's component as a nested component with an optional debug name, and
    /// returns its index (component model, binary format, "Component Definitions").
    ///
    /// The other builder is unchanged, and may still be used. Fails as documented on
    /// `ComponentBuilder`, and with `Unfinished` if either builder is unfinished.
    pub fn component_ref<B: Allocator>(
        &mut self,
        debug_name: Option<&str>,
        component: &ComponentBuilder<B>,
    ) -> Result<u32, Fault>
        ensures entered { (es : List Entry) → Holds component.now es
            → Enters self.old self.new result
            (component_entry (option_copied debug_name.entry) (whole (items es))) }
        ensures bytes { builder_is_finished component.now ≡ true
            → Enters self.old self.new result
            (component_entry (option_copied debug_name.entry)
            (sections_text component.now.settled.sections)) }
        ensures unfinished { builder_is_finished component.now ≡ false
            → result ≡ Err Unfinished }
        ensures err { OnErr result (self.new ≡ self.old) }
    {
        if !component.is_finished() {
            return Err(Fault::Unfinished);
        }
        let bytes = component.buffer.ready();
        let size = Size(bytes.len());
        let lead = Tagged(ComponentSectionId::Component.into(), &size);
        self.add_section(Space::Components, 1, debug_name, &lead, &bytes)
    }

    /// Adds the component with these bytes and an optional debug name, and returns its index
    /// (component model, binary format, "Component Definitions"). The bytes aren't checked. Fails
    /// as documented on `ComponentBuilder`.
    pub fn component_raw(
        &mut self,
        debug_name: Option<&str>,
        component: &[u8],
    ) -> Result<u32, Fault>
        ensures { Enters self.old self.new result
            (component_entry (option_copied debug_name.entry) component.now) }
    {
        let size = Size(component.len());
        let lead = Tagged(ComponentSectionId::Component.into(), &size);
        let bytes = SectionBody::whole(component);
        self.add_section(Space::Components, 1, debug_name, &lead, &bytes)
    }

    /// Adds a start function, which is called with these values when the component is instantiated
    /// (component model, binary format, "Start Definitions"). Returns the number of values so far,
    /// which is the index of the first result. Fails as documented on `ComponentBuilder`.
    pub fn start<V: AsSlice<u32> + Drop>(
        &mut self,
        function_index: u32,
        args: V,
        results: u32,
    ) -> Result<u32, Fault>
        ensures { Enters self.old self.new result
            (start_entry function_index (V.items args) results) }
    {
        let start = ComponentStartSection {
            function_index,
            args: args.as_slice(),
            results,
        };
        let section = Tagged(ComponentSectionId::Start.into(), &start);
        self.add_section(
            Space::Values,
            results,
            None,
            &section,
            &SectionBody::whole(&[]),
        )
    }

    /// Adds a custom section (component model, binary format, "Component Definitions"). Fails as
    /// documented on `ComponentBuilder`.
    pub fn custom_section(&mut self, section: &CustomSection<'_>) -> Result<(), Fault>
        ensures { EntersWithoutIndex self.old self.new result
            (custom_entry section.now.name.now section.now.data.now) }
    {
        let lead = CustomLead(section);
        let lead = Tagged(ComponentSectionId::CoreCustom.into(), &lead);
        self.add_unindexed_section(&lead, &SectionBody::whole(section.data))
    }

    /// Adds a custom section with these bytes after its id (component model, binary format,
    /// "Component Definitions"). The bytes aren't checked. Fails as documented on
    /// `ComponentBuilder`.
    pub fn raw_custom_section(&mut self, section: &[u8]) -> Result<(), Fault>
        ensures { EntersWithoutIndex self.old self.new result (raw_entry section.now) }
    {
        let lead = Tagged(ComponentSectionId::CoreCustom.into(), &());
        self.add_unindexed_section(&lead, &SectionBody::whole(section))
    }

    /// Returns whether no item is being written. If so, the builder holds a list of entries in
    /// which no start function has a name, whatever calls were made.
    pub fn is_finished(&self) -> bool
        ensures finished { result ≡ builder_is_finished self.now }
        ensures holds { builder_is_finished self.now ≡ true
            → ∥ ((es : List Entry) × Holds self.now es × AllByRecursion StartIsNameless es) ∥₁ }
    {
        self.buffer.is_finished()
    }

    /// Discards the item being written, with its index, its debug name and its entry in a section,
    /// and returns whether there was one. Allocates nothing.
    pub fn discard_unfinished(&mut self) -> bool
        ensures { GivesUp self.new (item_given_up self.old)
            (builder_is_finished self.old) result }
    {
        if self.is_finished() {
            return false;
        }
        self.discard();
        true
    }

    /// Returns all bytes of the component, the encoding of the builder's entries, whatever calls
    /// were made. Allocates nothing. Fails only with `Unfinished`, while an item is being written.
    pub fn finish(self) -> Result<Vec<u8, A>, Fault>
        ensures held { (es : List Entry) → Holds self es
            → IfOk result (λ v. v.items ≡ whole (items es)) }
        ensures some { IfOk result (λ v.
            ∥ ((es : List Entry) × Holds self es × (v.items ≡ whole (items es))
            × AllByRecursion StartIsNameless es) ∥₁) }
        ensures bytes { IfOk result (λ v. v.items ≡ sections_text self.settled.sections) }
        // If no item is raw, the bytes have one reading, strictly and widely: the sections into
        // which the items are cut.
        ensures one_reading { IfOk result (λ v. (es : List Entry) → Holds self es
            → HasNoRaw (items es) → (mode : Spelling) (ss : List Section)
            → Reading mode v.items ss ↔ (ss ≡ runs (items es))) }
        ensures ok { IsOk result ↔ IsTrue (builder_is_finished self) }
        ensures fault { IfErr result (λ fault. fault ≡ Fault.Unfinished) }
    {
        if !self.buffer.is_finished() {
            return Err(Fault::Unfinished);
        }
        let ComponentBuilder {
            buffer,
            spaces: _,
            undo: _,
        } = self;
        Ok(buffer.finish())
    }
}

/// Ends the item being written, which takes an index with an optional debug name, and returns that
/// index; or discards the item and fails, if the space has no index or no room for the name.
#[inline(always)]
fn index_and_end<A: Allocator>(
    buffer: &mut Buffer<A>,
    spaces: &mut Spaces<A>,
    space: Space,
    name: Option<&str>,
) -> Result<u32, Fault>
    requires { is_none buffer.old.writing ≡ false }
    ensures index { IfOk result (λ i. i ≡ (namespace_at spaces.old space).count) }
    ensures ok { OnOk result (spaces.new
        ≡ spaces_with spaces.old (some_in space 1) (option_copied name.entry)) }
    ensures ended { OnOk result (buffer.new ≡ buffer_ended buffer.old) }
    ensures free { OnOk result (NoCause (SpaceCause
        (namespace_with (namespace_at spaces.old space) 1 (option_copied name.entry)))) }
    ensures err { OnErr result (spaces.new ≡ spaces.old) }
    ensures given_up { OnErr result (buffer.new ≡ buffer_given_up buffer.old) }
    ensures warranted { IfErr result (IsWarranted (SpaceCause
        (namespace_with (namespace_at spaces.old space) 1 (option_copied name.entry)))) }
    ensures all { length spaces.old ≡ 13 }
{
    match spaces.add(space, 1, name) {
        Ok(index) => {
            buffer.finish_member();
            Ok(index)
        }
        Err(fault) => {
            buffer.discard();
            Err(fault)
        }
    }
}

/// A builder is the parent of the encoders of its types. Until an encoder's last call has ended its
/// item, calls that grow or finish the builder fail with `Unfinished`; `discard_unfinished`
/// discards the item.
impl<A: Allocator> Parent for ComponentBuilder<A> {
    ghost finished = { builder_is_finished };

    ghost opened = { builder_is_opened };

    ghost appended = { item_appended };

    ghost is_whole = { is_whole };

    ghost ended = { item_ended };

    ghost refuses = { no_room_in_section };

    ghost begins = { opened_is_begun };

    ghost stays = { still_begun };

    ghost joins = { item_appended_twice };

    fn append_value<E: Encode>(&mut self, value: &E) -> Result<(), Fault> {
        self.buffer.append_encoded(value)
    }

    fn append_list<T: Encode + Drop, I: Iterator<Item = T> + Drop>(
        &mut self,
        lead: &[u8],
        values: I,
    ) -> Result<(), Fault> {
        self.buffer.append_listed(lead, values)
    }

    fn end_member(&mut self) {
        self.finish_member();
    }
}
