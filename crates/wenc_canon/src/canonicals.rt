//! The section of canonical functions, and canonical options.
ghost use Rattle.std.specs.Prelude.{◌≡◌, ◌==◌, false, OnOk, IfOk, IfErr};
ghost use Rattle.std.specs.Iterator.{IsFinite};
ghost use Rattle.wenc_base.specs.Prelude.{IsMemory, Appends, no_members, is_finished, held_section};
ghost use Rattle.wenc_base.specs.Prelude.{ContainsSome, AddsMember, HasMembers, HasForm, itself};
ghost use Rattle.wenc_base.specs.Prelude.{as_itself, serves_itself, ◌▸◌, u32 as number};
ghost use Rattle.wenc_canon.specs.Prelude.{AddsWithOptions, Lift, Lower, canonical};
ghost use Rattle.wenc_canon.specs.Prelude.{canonical_option, canonical_option_lawful};
ghost use Rattle.wenc_parts.specs.Prelude.{section_number};

use crate::adds_builtin::{AddsBuiltin, AddsRow, AddsSlot, AddsSlotRow};
use crate::fields::Fields;
use crate::rows::{self, Row};
use std::alloc::{Allocator, Global};
use std::marker::Model;
use wenc_base::{
    Delimited, DelimitedEq, Encode, Fault, Holder, Prefix, Tagged, ValType, encode_byte,
};
use wenc_parts::{ComponentSection, ComponentSectionId};

/// An option of a function that is lifted or lowered, or of a builtin that reads or writes values
/// (component model, binary format, `canonopt`).
#[derive(Clone, Copy, PartialEq, Eq)]
pub enum CanonicalOption {
    /// Strings are UTF-8.
    UTF8,
    /// Strings are UTF-16.
    UTF16,
    /// Strings are Latin-1 or UTF-16.
    CompactUTF16,
    /// The core memory with this index is read and written.
    Memory(u32),
    /// The core function with this index allocates memory.
    Realloc(u32),
    /// The core function with this index is called after the function has returned.
    PostReturn(u32),
    /// The function is lifted or lowered as asynchronous: its calls may wait.
    Async,
    /// The core function with this index receives the events of a waiting task.
    Callback(u32),
    /// The function is lowered to the core type with this index.
    CoreType(u32),
    /// Values have the types of WebAssembly's garbage collection.
    Gc,
}

impl Encode for CanonicalOption {
    ghost piece = { λ o. canonical_option o };

    fn encode<A: Allocator>(&self, sink: &mut Vec<u8, A>) -> Result<(), Fault> {
        match self {
            CanonicalOption::UTF8 => encode_byte(0x00, sink),
            CanonicalOption::UTF16 => encode_byte(0x01, sink),
            CanonicalOption::CompactUTF16 => encode_byte(0x02, sink),
            CanonicalOption::Memory(index) => encode_indexed(0x03, *index, sink),
            CanonicalOption::Realloc(index) => encode_indexed(0x04, *index, sink),
            CanonicalOption::PostReturn(index) => encode_indexed(0x05, *index, sink),
            CanonicalOption::Async => encode_byte(0x06, sink),
            CanonicalOption::Callback(index) => encode_indexed(0x07, *index, sink),
            CanonicalOption::CoreType(index) => encode_indexed(0x08, *index, sink),
            CanonicalOption::Gc => encode_byte(0x09, sink),
        }
    }
}

/// Appends the byte of an option, then an index.
fn encode_indexed<A: Allocator>(option: u8, index: u32, sink: &mut Vec<u8, A>) -> Result<(), Fault>
    ensures appended { let whole = option ▸ number index in
        Appends whole.text whole.Cause ⊥ sink.old.items sink.new.items result }
    ensures fits { OnOk result (option ▸ number index).Fits }
{
    Prefix(option, &index).encode(sink)
}

impl Delimited for CanonicalOption {
    ghost reads_back = { as_itself canonical_option_lawful };

    ghost written = { λ _. serves_itself };
}

impl DelimitedEq for CanonicalOption {
    ghost alike = { itself _ };
}

/// The section of canonical functions (component model, binary format, "Canonical Definitions").
///
/// ```
/// let mut component = Component::new(alloc)?;
/// let mut imports = ComponentImportSection::new(alloc);
/// imports.import("file".into(), ComponentTypeRef::Type(TypeBounds::SubResource))?;
/// component.section(&imports)?;
/// let mut functions = CanonicalFunctionSection::new(alloc);
/// functions.resource_drop(0)?;
/// functions.task_return(None, [CanonicalOption::UTF16].into_iter())?;
/// component.section(&functions)?;
/// let bytes = component.finish();
/// ```
///
/// # Errors
///
/// Each call that adds a function fails with `Memory` if an allocation fails, with `TooMany` if the
/// number of functions or options would exceed 4294967295, and with `TooLarge` if the size of the
/// section would. The section is then unchanged.
#[derive(Drop)]
pub struct CanonicalFunctionSection<A: Allocator = Global> {
    functions: Holder<A>,
}

impl<A: Allocator> Model for CanonicalFunctionSection<A> {
    ghost use Rattle.wenc_base.specs.Prelude.{HolderState, HasMembers, HasForm};
    ghost use Rattle.wenc_canon.specs.Prelude.{canonical};

    ghost Value = { HolderState };

    ghost view = { λ s. s.functions };

    ghost invariant = { λ s. HasMembers (HasForm canonical) s.functions };
}

impl<A: Allocator> CanonicalFunctionSection<A> {
    /// Creates a section without functions. Does not allocate.
    pub fn new(alloc: A) -> Self
        ensures { result ≡ no_members }
    {
        CanonicalFunctionSection {
            functions: Holder::new(alloc),
        }
    }

    /// Creates a section whose functions are the members of this holder, which have to be encodings
    /// of canonical functions. Does not allocate.
    ///
    /// With `Holder::over`, a section can thus be written after existing bytes: adding functions
    /// leaves these bytes in place, and `encode` writes the section alone. `into_holder` and
    /// `Holder::into_parts` return all bytes. If a member of the holder is open, the section is
    /// unfinished: adding functions and `encode` fail with `Unfinished`.
    ///
    /// ```
    /// let kept = bytes.len();
    /// let mut functions = CanonicalFunctionSection::from_holder(Holder::over(bytes, kept, 0));
    /// functions.resource_drop(2)?;
    /// let (bytes, _, count, _) = functions.into_holder().into_parts();
    /// ```
    pub fn from_holder(functions: Holder<A>) -> Self
        requires { HasMembers (HasForm canonical) functions }
        ensures { result ≡ functions }
    {
        CanonicalFunctionSection { functions }
    }

    /// Returns the holder of the functions, its kept prefix included. Does not allocate.
    pub fn into_holder(self) -> Holder<A>
        ensures same { result ≡ self }
        ensures functions { HasMembers (HasForm canonical) result }
    {
        let CanonicalFunctionSection { functions } = self;
        functions
    }

    /// Returns the number of functions.
    pub fn len(&self) -> u32
        ensures { result ≡ self.now.count }
    {
        self.functions.len()
    }

    /// Returns whether there are no functions.
    pub fn is_empty(&self) -> bool
        ensures { result ≡ (self.now.count == 0) }
    {
        self.len() == 0
    }

    /// Returns a copy of the section.
    ///
    /// # Errors
    ///
    /// Fails only if an allocation fails.
    pub fn clone(&self) -> Result<Self, Fault>
    where
        A: Clone,
        ensures same { IfOk result (λ s. s ≡ self.now) }
        ensures refused { IfErr result IsMemory }
    {
        let functions = self.functions.clone()?;
        Ok(CanonicalFunctionSection { functions })
    }

    /// Lifts the core function with the index `core_func` to a component function whose type has
    /// the index `ty` (`canon lift`). Fails as documented on the type.
    pub fn lift<I: Iterator<Item = CanonicalOption> + Drop>(
        &mut self,
        core_func: u32,
        ty: u32,
        options: I,
    ) -> Result<(), Fault>
        requires can { I.can_next options }
        requires ends { IsFinite (I.remaining options) }
        ensures { AddsWithOptions I.next_gives options self.old self.new result
            (λ os. Lift core_func os ty) }
    {
        // Without options it takes fewer instructions than a second `Prefix`.
        let lead = Tagged(rows::PLAIN, &core_func);
        self.functions
            .add_listed(&Prefix(rows::LIFT.1, &lead), options, &ty)
    }

    /// Lowers the component function with the index `func` to a core function (`canon lower`).
    /// Fails as documented on the type.
    pub fn lower<I: Iterator<Item = CanonicalOption> + Drop>(
        &mut self,
        func: u32,
        options: I,
    ) -> Result<(), Fault>
        requires can { I.can_next options }
        requires ends { IsFinite (I.remaining options) }
        ensures { AddsWithOptions I.next_gives options self.old self.new result
            (λ os. Lower func os) }
    {
        // Without options it takes fewer instructions than a second `Prefix`.
        let lead = Tagged(rows::PLAIN, &func);
        self.functions
            .add_listed(&Prefix(rows::LOWER.1, &lead), options, &())
    }
}

impl<A: Allocator> AddsRow for CanonicalFunctionSection<A> {
    type Answer = ();

    ghost adds = { λ old new result function. AddsMember (canonical function) old new result };

    ghost adds_with = { AddsWithOptions };

    fn add_row<F: Fields>(&mut self, row: Row, fields: &F) -> Result<(), Fault> {
        self.functions.add_encoded(&Prefix(row.1, fields))
    }

    fn add_row_with<F: Fields, I: Iterator<Item = CanonicalOption> + Drop>(
        &mut self,
        row: Row,
        fields: &F,
        options: I,
    ) -> Result<(), Fault> {
        self.functions
            .add_listed(&Prefix(row.1, fields), options, &())
    }
}

impl<A: Allocator> AddsSlotRow for CanonicalFunctionSection<A> {
    fn add_slot_row(&mut self, row: Row, ty: ValType, slot: u32) -> Result<(), Fault> {
        self.functions.add_encoded(&Prefix(row.1, &(ty, slot)))
    }
}

impl<A: Allocator> AddsBuiltin for CanonicalFunctionSection<A> {}

impl<A: Allocator> AddsSlot for CanonicalFunctionSection<A> {}

/// A finished section fails to encode only if an allocation fails. What is written consists of
/// canonical functions, whatever calls were made.
impl<A: Allocator> Encode for CanonicalFunctionSection<A> {
    ghost piece = { held_section };

    ghost unfinished = { λ s. is_finished s ≡ false };

    fn encode<B: Allocator>(&self, sink: &mut Vec<u8, B>) -> Result<(), Fault>
        ensures appended { Appends (held_section self.now).text (held_section self.now).Cause
            (is_finished self.now ≡ false) sink.old.items sink.new.items result }
        ensures fits { OnOk result (held_section self.now).Fits }
        ensures functions { OnOk result (∥ ContainsSome (HasForm canonical) self.now ∥₁) }
    {
        self.functions.encode_section(sink)
    }
}

impl<A: Allocator> ComponentSection for CanonicalFunctionSection<A> {
    ghost use Rattle.wenc_parts.specs.declared.component.ComponentSectionId.TheVariants as ids;

    ghost section_id = { λ _. section_number ids.CanonicalFunction };

    fn id(&self) -> u8 {
        u8::from(ComponentSectionId::CanonicalFunction)
    }
}
