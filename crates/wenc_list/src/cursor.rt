//! Readers of a component section by section, and of a section item by item.
ghost use Rattle.std.specs.Prelude.{◌≡◌, ◌≢◌, ◌-◌, ◌<◌, ◌≤◌, [], ◌∷◌, length, IfOk, IfErr};
ghost use Rattle.std.specs.Prelude.{IfSome, MatchOption};
ghost use Rattle.wenc_base.specs.Prelude.{Wide};
ghost use Rattle.wenc_builder.specs.Prelude.{preamble};
ghost use Rattle.wenc_list.specs.Prelude.{Opens, HasTaken, IsSpent, IsFaultIn, item_view};
ghost use Rattle.wenc_list.specs.Prelude.{item_seen, item_lists};
ghost use Rattle.wenc_list.specs.Prelude.{IsFaultHere, HasNoHeader, fault_of_content, read_count};
ghost use Rattle.wenc_list.specs.Prelude.{fault_of_items, fault_of_section, IsPlacedIn};
ghost use Rattle.wenc_list.specs.Prelude.{IsRefusedIn, IsUnopened, IsFaultOfOpening};
ghost use Rattle.wenc_list.specs.declared.fault.ListFault.TheVariants.{Memory, NotAComponent};
ghost use Rattle.wenc_read.specs.Prelude.{Gives, IsWithin, number_error};
ghost use Rattle.wenc_view.specs.Prelude.{AreCounted};

use crate::fault::ListFault;
use crate::item::ItemTree;
use crate::item_view::ItemView;
use crate::members::item_in;
use crate::sections::{are_bytes, frame};
use std::alloc::Allocator;
use wenc_decode::TreeOf;
use wenc_read::{Expected, NestedRefusal, Refusal, u32_of};

/// The remaining sections of a component.
///
/// They are read as by `list`, one by one. Nothing is allocated.
///
/// ```
/// let mut sections = Sections::new(component)?;
/// match sections.next()? {
///     Some(mut items) => items.next(),
///     None => Ok(None),
/// }
/// ```
#[derive(Clone, Copy)]
pub struct Sections<'a> {
    /// The length of the component in bytes.
    pub ends: usize,
    /// The remaining bytes.
    pub rest: &'a [u8],
}

/// The remaining items of a section.
#[derive(Clone, Copy)]
pub struct SectionItems<'a> {
    /// The section's id, from 0 to 11.
    pub id: u8,
    /// The byte offset of its id in the component.
    pub place: usize,
    /// The byte offset at which it ends.
    pub ends: usize,
    /// The number of remaining items. Custom sections, modules, nested components and start
    /// functions are sections of one item.
    pub left: u32,
    /// The remaining bytes.
    pub rest: &'a [u8],
}

/// Why no section is next.
#[derive(Clone, Copy)]
pub enum SectionRefusal<'a> {
    /// No section begins the bytes.
    Frame(Refusal),
    /// No count begins the content of the section, whose bytes these are.
    Count(SectionItems<'a>, Refusal),
}

/// Maps an error in the content of a section with this id. In a custom section only the name can be
/// malformed.
fn content_fault(refusal: NestedRefusal, id: u8, place: usize) -> ListFault
    ensures { result ≡ fault_of_content refusal id place }
{
    match refusal {
        NestedRefusal::Flat(_) if id == 0 => ListFault::BadSection { place },
        NestedRefusal::Flat(_) => ListFault::BadItem { place },
        NestedRefusal::TooDeep(_) => ListFault::TooDeep { place },
    }
}

/// Maps the error of reading the next of these items.
pub(crate) fn item_fault(items: &SectionItems<'_>, refusal: NestedRefusal) -> ListFault
    ensures { result ≡ fault_of_items items.now refusal }
{
    if items.left == 0 {
        return ListFault::BadItem { place: items.place };
    }
    content_fault(refusal, items.id, items.place)
}

/// Maps the error of reading the section at this byte offset.
pub(crate) fn section_fault(refusal: SectionRefusal<'_>, place: usize) -> ListFault
    ensures { result ≡ fault_of_section refusal.entry place }
{
    match refusal {
        SectionRefusal::Frame(_) => ListFault::BadSection { place },
        SectionRefusal::Count(..) => ListFault::BadItem { place },
    }
}

/// Returns the number of items in the content of a section with this id, and their bytes. Fails
/// if no number begins the content.
#[inline(always)]
pub(crate) fn counted(id: u8, content: &[u8]) -> Result<(u32, &[u8]), Refusal>
    requires { id ≤ 11 }
    ensures found { Gives (λ x. (x.0, x.1.now)) result (read_count id content.now) }
    ensures place { IsWithin (λ x. x.1.now) content.now result }
    ensures refused { IfErr result (λ e. e ≡ number_error 128 32 content.now 4 content.now) }
{
    match id {
        0 => Ok((1, content)),
        1 => Ok((1, content)),
        4 => Ok((1, content)),
        9 => Ok((1, content)),
        _ => u32_of(content),
    }
}

impl<'a> Sections<'a> {
    /// Returns all sections of the component with these bytes.
    ///
    /// # Errors
    ///
    /// Fails with `NotAComponent` if the bytes don't begin with the header of a component.
    pub fn new(bytes: &'a [u8]) -> Result<Sections<'a>, ListFault>
        ensures begins { IfOk result (λ s. preamble.Reads Wide bytes.now s.rest.now) }
        ensures ends { IfOk result (λ s. s.ends ≡ length bytes.now) }
        ensures fault { IfErr result (λ e. (e ≡ NotAComponent 0) × HasNoHeader bytes.now) }
    {
        match bytes {
            [0x00, 0x61, 0x73, 0x6d, 0x0d, 0x00, 0x01, 0x00, rest @ ..] => Ok(Sections {
                ends: bytes.len(),
                rest,
            }),
            _ => Err(ListFault::NotAComponent { place: 0 }),
        }
    }

    /// Returns the byte offset at which the next section begins, or the last one ended.
    pub fn place(&self) -> usize
        ensures { result ≡ self.now.ends - length self.now.rest.now }
    {
        self.ends.saturating_sub(self.rest.len())
    }

    /// Returns the next section with all of its items, or `None` at the end.
    ///
    /// # Errors
    ///
    /// Fails where `next` does, with the byte that can't be read. Nothing is taken then.
    #[inline(always)]
    pub fn next_or_refusal(&mut self) -> Result<Option<SectionItems<'a>>, SectionRefusal<'a>>
        // A returned section begins the remaining bytes, and all bytes after it remain.
        ensures taken { IfOk result (λ o. MatchOption o (self.old.rest.now ≡ [])
            (λ s. Opens self.old.ends self.old.rest.now s self.new.rest.now)) }
        ensures same_end { self.new.ends ≡ self.old.ends }
        // Otherwise nothing changes.
        ensures unchanged { IfOk result (λ o. MatchOption o (self.new ≡ self.old)
            (λ _. Unit {0})) }
        ensures refused { IfErr result (λ _. self.new ≡ self.old) }
        // An error has its cause in the section that begins the remaining bytes.
        ensures fault { let place = self.old.ends - length self.old.rest.now in
            IfErr result (λ e. IsFaultHere place self.old.rest.now (fault_of_section e place)) }
        // No section begins them, or the one that is named has no count.
        ensures unopened { IfErr result (IsUnopened self.old.ends self.old.rest.now) }
        // Its place is in them.
        ensures within { IfErr result (IsPlacedIn self.old.rest.now) }
        ensures some { IfErr result (λ _. 0 < length self.old.rest.now) }
    {
        if self.rest.is_empty() {
            return Ok(None);
        }
        let place = self.place();
        match frame(self.rest) {
            Ok(((id, content), rest)) => match counted(id, content) {
                Ok((left, items)) => {
                    self.rest = rest;
                    Ok(Some(SectionItems {
                        id,
                        place,
                        ends: self.place(),
                        left,
                        rest: items,
                    }))
                }
                Err(refusal) => {
                    let section = SectionItems {
                        id,
                        place,
                        ends: self.ends.saturating_sub(rest.len()),
                        left: 0,
                        rest: content,
                    };
                    Err(SectionRefusal::Count(section, refusal))
                }
            },
            Err(refusal) => Err(SectionRefusal::Frame(refusal)),
        }
    }

    /// Returns the next section with all of its items, or `None` at the end.
    ///
    /// # Errors
    ///
    /// Fails with `BadSection` if no section begins the remaining bytes, and with `BadItem` if the
    /// section has no count of its items. Nothing is taken then, and the next call fails too.
    #[inline(always)]
    pub fn next(&mut self) -> Result<Option<SectionItems<'a>>, ListFault>
        // A returned section begins the remaining bytes, and all bytes after it remain.
        ensures taken { IfOk result (λ o. MatchOption o (self.old.rest.now ≡ [])
            (λ s. Opens self.old.ends self.old.rest.now s self.new.rest.now)) }
        ensures same_end { self.new.ends ≡ self.old.ends }
        // Otherwise nothing changes.
        ensures unchanged { IfOk result (λ o. MatchOption o (self.new ≡ self.old)
            (λ _. Unit {0})) }
        ensures refused { IfErr result (λ _. self.new ≡ self.old) }
        // A fault has its cause in the section that begins the remaining bytes.
        ensures fault { IfErr result (IsFaultHere (self.old.ends - length self.old.rest.now)
            self.old.rest.now) }
        // No section begins them, or one whose items have no count.
        ensures unopened { IfErr result (IsFaultOfOpening self.old.ends self.old.rest.now) }
        ensures some { IfErr result (λ _. 0 < length self.old.rest.now) }
        // It is never `Memory`.
        ensures asks_nothing { IfErr result (λ e. e ≢ Memory) }
    {
        match self.next_or_refusal() {
            Ok(section) => Ok(section),
            Err(refusal) => Err(section_fault(refusal, self.place())),
        }
    }
}

impl<'a> SectionItems<'a> {
    /// Returns the byte offset at which the next item begins, or the last one ended.
    pub fn reached(&self) -> usize
        ensures { result ≡ self.now.ends - length self.now.rest.now }
    {
        self.ends.saturating_sub(self.rest.len())
    }

    /// Returns the next item, or `None` at the end. It borrows from the component: nothing is
    /// allocated.
    ///
    /// # Errors
    ///
    /// Fails where `next` does, with the byte that can't be read. Nothing is taken then.
    #[inline(always)]
    pub fn next_or_refusal(&mut self) -> Result<Option<ItemView<'a>>, NestedRefusal>
        // A returned item begins the remaining bytes, within depth 100, and all bytes after it
        // remain.
        ensures taken { IfOk result (λ o. MatchOption o (IsSpent self.old)
            (λ x. HasTaken self.old (item_seen x ∷ []) self.new)) }
        // Its lists are there, each behind its count, with as many members.
        ensures counted { IfOk result (λ o. IfSome o (λ x.
            AreCounted self.old.rest.now (item_lists x) self.new.rest.now)) }
        // Otherwise nothing changes.
        ensures unchanged { IfOk result (λ o. MatchOption o (self.new ≡ self.old)
            (λ _. Unit {0})) }
        ensures refused { IfErr result (λ _. self.new ≡ self.old) }
        // An error has its cause and its place in the remaining bytes.
        ensures fault { IfErr result (IsRefusedIn self.old) }
    {
        are_bytes(self.rest);
        if self.left == 0 {
            if self.rest.is_empty() {
                return Ok(None);
            }
            return Err(NestedRefusal::Flat(Refusal::at(self.rest, Expected::End)));
        }
        let (item, rest) = item_in(self.id, self.rest)?;
        self.left -= 1;
        self.rest = rest;
        Ok(Some(item))
    }

    /// Returns the next item, or `None` at the end. It borrows from the component: nothing is
    /// allocated.
    ///
    /// # Errors
    ///
    /// Fails with `BadItem` if no item begins the remaining bytes or bytes follow the last item,
    /// with `TooDeep` at a type with others nested more than 100 deep inside, and with `BadSection`
    /// in a custom section without a name. Nothing is taken then, and the next call reads the same
    /// bytes again.
    #[inline(always)]
    pub fn next(&mut self) -> Result<Option<ItemView<'a>>, ListFault>
        // A returned item begins the remaining bytes, within depth 100, and all bytes after it
        // remain.
        ensures taken { IfOk result (λ o. MatchOption o (IsSpent self.old)
            (λ x. HasTaken self.old (item_seen x ∷ []) self.new)) }
        // Its lists are there, each behind its count, with as many members.
        ensures counted { IfOk result (λ o. IfSome o (λ x.
            AreCounted self.old.rest.now (item_lists x) self.new.rest.now)) }
        // Otherwise nothing changes.
        ensures unchanged { IfOk result (λ o. MatchOption o (self.new ≡ self.old)
            (λ _. Unit {0})) }
        ensures refused { IfErr result (λ _. self.new ≡ self.old) }
        // A fault has its cause in the remaining bytes.
        ensures fault { IfErr result (IsFaultIn self.old) }
        // It is never `Memory`.
        ensures asks_nothing { IfErr result (λ e. e ≢ Memory) }
    {
        match self.next_or_refusal() {
            Ok(item) => Ok(item),
            Err(refusal) => Err(item_fault(self, refusal)),
        }
    }

    /// Returns the next item as an owned value, or `None` at the end.
    ///
    /// # Errors
    ///
    /// Fails as `next`, and with `Memory` if an allocation fails. Nothing is taken then.
    #[inline(always)]
    pub fn next_tree<A: Allocator + Copy>(
        &mut self,
        alloc: A,
    ) -> Result<Option<ItemTree<A>>, ListFault>
        ensures taken { IfOk result (λ o. MatchOption o (IsSpent self.old)
            (λ x. HasTaken self.old (item_view x ∷ []) self.new)) }
        ensures unchanged { IfOk result (λ o. MatchOption o (self.new ≡ self.old)
            (λ _. Unit {0})) }
        ensures refused { IfErr result (λ _. self.new ≡ self.old) }
        ensures fault { IfErr result (IsFaultIn self.old) }
    {
        let mut left = *self;
        let Some(item) = left.next()? else {
            return Ok(None);
        };
        let item = ItemTree::tree_of(alloc, item)?;
        *self = left;
        Ok(Some(item))
    }
}
