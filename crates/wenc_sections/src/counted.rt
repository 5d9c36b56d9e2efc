//! Sections that consist of a count and items of one kind.
ghost use Rattle.std.specs.Prelude.{◌≡◌, ◌==◌, ℕ, List, false, OnOk, IfOk, IfErr};
ghost use Rattle.wenc_base.specs.Prelude.{Appends, IsMemory, no_members, is_finished, held_section};
ghost use Rattle.wenc_base.specs.Prelude.{ContainsSome, HasMembers};
ghost use Rattle.wenc_parts.specs.Prelude.{section_number};
ghost use Rattle.wenc_sections.specs.Prelude.{ComponentSectionId};

mod parent;

pub use parent::EncoderKind;
use std::alloc::{Allocator, Global};
use std::marker::{Model, PhantomData};
use wenc_base::{Encode, Fault, Holder};
use wenc_parts::{ComponentSection, ComponentSectionId};

/// The kind of the items of a counted section. The methods that add items are in the module of the
/// kind.
pub trait CountedKind {
    /// The id of such sections, for contracts.
    ghost ID: { ComponentSectionId };

    /// The id of such sections.
    const ID: ComponentSectionId;

    /// These bytes are the encoding of an item of such a section.
    ghost is_item: { List ℕ → Type 0 };
}

/// A section of items of one kind: their number, and their encodings. Each kind has an alias, such
/// as `ComponentAliasSection`.
///
/// A call that fails leaves the section unchanged.
///
/// ```
/// let mut exports = ComponentExportSection::new(alloc);
/// exports.export("log".into(), ComponentExportKind::Func, 0, None)?;
/// let count = exports.len();
/// let copy = exports.clone()?;
/// ```
#[derive(Drop)]
pub struct Counted<K: CountedKind, A: Allocator = Global> {
    /// The modules of the kinds add items to it.
    pub(crate) items: Holder<A>,
    kind: PhantomData<K>,
}

impl<K: CountedKind, A: Allocator> Model for Counted<K, A> {
    ghost use Rattle.wenc_base.specs.Prelude.{HolderState, HasMembers};

    ghost Value = { HolderState };

    ghost view = { λ s. s.items };

    ghost invariant = { λ s. HasMembers K.is_item s.items };
}

impl<K: CountedKind, A: Allocator> Counted<K, A> {
    /// Creates a section without items. Does not allocate.
    pub fn new(alloc: A) -> Self
        ensures { result ≡ no_members }
    {
        Counted {
            items: Holder::new(alloc),
            kind: PhantomData,
        }
    }

    /// Creates a section whose items are the members of this holder, which have to be encodings of
    /// such items. Does not allocate.
    ///
    /// With `Holder::over`, a section can thus be written after existing bytes: adding items leaves
    /// these bytes in place, and `encode` writes the section alone. `into_holder` and
    /// `Holder::into_parts` return all bytes. If a member of the holder is open, the section is
    /// unfinished.
    ///
    /// ```
    /// let kept = bytes.len();
    /// let mut aliases = ComponentAliasSection::from_holder(Holder::over(bytes, kept, 0));
    /// aliases.alias(alias)?;
    /// let (bytes, _, count, _) = aliases.into_holder().into_parts();
    /// ```
    pub fn from_holder(items: Holder<A>) -> Self
        requires { HasMembers K.is_item items }
        ensures { result ≡ items }
    {
        Counted {
            items,
            kind: PhantomData,
        }
    }

    /// Returns the holder of the items, its kept prefix included. Does not allocate.
    pub fn into_holder(self) -> Holder<A>
        ensures same { result ≡ self }
        ensures items { HasMembers K.is_item result }
    {
        let Counted { items, kind: _ } = self;
        items
    }

    /// Returns the number of items, one that is being written included.
    pub fn len(&self) -> u32
        ensures { result ≡ self.now.count }
    {
        self.items.len()
    }

    /// Returns whether the section has no items.
    pub fn is_empty(&self) -> bool
        ensures { result ≡ (self.now.count == 0) }
    {
        self.len() == 0
    }

    /// Returns a copy of the section. A copy of an unfinished section is unfinished.
    ///
    /// # Errors
    ///
    /// Fails only if an allocation fails.
    pub fn clone(&self) -> Result<Self, Fault>
    where
        A: Clone,
        ensures same { IfOk result (λ s. s ≡ self.now) }
        ensures refused { IfErr result IsMemory }
    {
        let items = self.items.clone()?;
        Ok(Counted {
            items,
            kind: PhantomData,
        })
    }
}

/// A finished section fails to encode only if an allocation fails. What is written consists of
/// complete items, whatever calls were made.
impl<K: CountedKind, A: Allocator> Encode for Counted<K, A> {
    ghost piece = { held_section };

    ghost unfinished = { λ s. is_finished s ≡ false };

    fn encode<B: Allocator>(&self, sink: &mut Vec<u8, B>) -> Result<(), Fault>
        ensures appended { Appends (held_section self.now).text (held_section self.now).Cause
            (is_finished self.now ≡ false) sink.old.items sink.new.items result }
        ensures fits { OnOk result (held_section self.now).Fits }
        ensures items { OnOk result (∥ ContainsSome K.is_item self.now ∥₁) }
    {
        self.items.encode_section(sink)
    }
}

impl<K: CountedKind, A: Allocator> ComponentSection for Counted<K, A> {
    ghost section_id = { λ _. section_number K.ID };

    fn id(&self) -> u8 {
        u8::from(K::ID)
    }
}
