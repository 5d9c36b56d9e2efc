//! A whole component: its header, and its sections up to the end.
ghost use Rattle.std.specs.Prelude.{◌≡◌, ◌≤◌, ◌<◌, ◌-◌, ℕ, List, [], ◌∷◌, map, length};
ghost use Rattle.std.specs.Prelude.{slice_index, IfOk, IfErr, Err, MatchOption, MatchResult};
ghost use Rattle.wenc_base.specs.Prelude.{EndsWith, Wide};
ghost use Rattle.wenc_builder.specs.Prelude.{Section, Reading};
ghost use Rattle.wenc_list.specs.Prelude.{Space, item_view, section_view, AreWithin, AreFrom};
ghost use Rattle.wenc_list.specs.Prelude.{ArePlaced, count_of_sections, IsFaultOf};
ghost use Rattle.wenc_list.specs.Prelude.{IsMemoryOrTooDeep, HasNoHeader, IsFaultBehind, TakesAll};
ghost use Rattle.wenc_list.specs.Prelude.{FaultsIn, IsFaultHere, IsNextSectionOf, Opens, StopsIn};
ghost use Rattle.wenc_list.specs.Prelude.{StopsInside, fault_of_list};
ghost use Rattle.wenc_list.specs.declared.fault.ListFault.TheVariants.{Memory, NotAComponent};
ghost use Rattle.wenc_list.specs.declared.refusal.ListRefusal.TheVariants.{Header};
ghost use Rattle.wenc_sections.specs.Prelude.{space_number};

use crate::counts::count;
use crate::cursor::{SectionItems, Sections};
use crate::fault::ListFault;
use crate::item::ItemTree;
use crate::refusal::ListRefusal;
use std::alloc::{Allocator, Global};
use wenc_decode::{TreeOf, room_for};

/// A section, as read (component model, binary format, "Component Definitions").
#[derive(Drop)]
pub struct ListedSection<A: Allocator = Global> {
    /// Its id, from 0 to 11.
    pub id: u8,
    /// The byte offset of its id in the component.
    pub place: usize,
    /// The byte offset at which it ends.
    pub ends: usize,
    /// Its items. Custom sections, modules, nested components and start functions are sections of
    /// one item.
    pub items: Vec<ItemTree<A>, A>,
}

/// The contents of a component.
#[derive(Drop)]
pub struct Listing<A: Allocator = Global> {
    /// Its sections, in their order.
    pub sections: Vec<ListedSection<A>, A>,
    /// The number of indices that its items take in each space, in the order of the builder's
    /// methods for counts: core modules, core functions, core types, core memories, core tables,
    /// core instances, core tags, core globals, functions, instances, values, components, types.
    pub counts: [u128; 13],
}

/// Returns the next section, or `None` at the end.
#[inline(always)]
fn next_section<'a>(left: &mut Sections<'a>) -> Result<Option<SectionItems<'a>>, ListRefusal<'a>>
    ensures taken { IfOk result (λ o. MatchOption o (left.old.rest.now ≡ [])
        (λ s. Opens left.old.ends left.old.rest.now s left.new.rest.now)) }
    ensures same_end { left.new.ends ≡ left.old.ends }
    ensures unchanged { IfOk result (λ o. MatchOption o (left.new ≡ left.old) (λ _. Unit {0})) }
    ensures fault { let place = left.old.ends - length left.old.rest.now in
        IfErr result (λ e. IsFaultHere place left.old.rest.now (fault_of_list e)) }
    ensures some { IfErr result (λ _. 0 < length left.old.rest.now) }
    ensures stopped { IfErr result (IsNextSectionOf left.old) }
{
    match left.next_or_refusal() {
        Ok(section) => Ok(section),
        Err(refusal) => Err(ListRefusal::Section {
            place: left.place(),
            refusal,
        }),
    }
}

/// Reads all items of a section.
#[inline(always)]
fn section<A: Allocator + Copy>(
    alloc: A,
    from: SectionItems<'_>,
) -> Result<ListedSection<A>, ListRefusal<'_>>
    ensures taken { IfOk result (λ s. TakesAll from.entry (map item_view s.items.items)) }
    ensures id { IfOk result (λ s. s.id ≡ from.entry.id) }
    ensures placed { IfOk result (λ s. s.place ≡ from.entry.place) }
    ensures ended { IfOk result (λ s. s.ends ≡ from.entry.ends) }
    ensures fault { IfErr result (λ e. FaultsIn from.entry (fault_of_list e)) }
    ensures stopped { IfErr result (StopsIn from.entry) }
{
    let mut left = from;
    let mut items = Vec::with_capacity(alloc, room_for(left.left, left.rest))?;
    loop {
        match left.next_or_refusal() {
            Ok(Some(item)) => {
                let item = ItemTree::tree_of(alloc, item)?;
                items.push(item)?;
            }
            Ok(None) => {
                return Ok(ListedSection {
                    id: from.id,
                    place: from.place,
                    ends: from.ends,
                    items,
                });
            }
            Err(refusal) => {
                return Err(ListRefusal::Item {
                    count: from.left,
                    left,
                    refusal,
                });
            }
        }
    }
}

/// Reads the sections up to the end, and counts the indices that their items take.
#[inline(always)]
fn sections<A: Allocator + Copy>(
    alloc: A,
    from: Sections<'_>,
) -> Result<(Vec<ListedSection<A>, A>, [u128; 13]), ListRefusal<'_>>
    requires { length from.rest.now ≤ from.ends }
    ensures listed { IfOk result (λ x. AreFrom from.entry.ends x.0.items from.entry.rest.now []) }
    ensures within { IfOk result (λ x. AreWithin 100 (map section_view x.0.items)) }
    ensures counted { IfOk result (λ x. (k : Space) → slice_index x.1 (space_number k)
        ≡ count_of_sections k (map section_view x.0.items)) }
    ensures fault { IfErr result
        (λ e. IsFaultBehind from.entry.ends from.entry.rest.now (fault_of_list e)) }
    ensures stopped { (bytes : List ℕ) → from.entry.ends ≡ length bytes
        → EndsWith bytes from.entry.rest.now → IfErr result (StopsInside bytes) }
{
    let mut left = from;
    let mut sections = Vec::new(alloc);
    let mut counts = [0; 13];
    while let Some(items) = next_section(&mut left)? {
        let section = section(alloc, items)?;
        count(&mut counts, &section.items);
        sections.push(section)?;
    }
    Ok((sections, counts))
}

/// Lists a component as `list` does.
///
/// # Errors
///
/// Fails where `list` does, with the byte that can't be read.
///
/// ```
/// match list_or_refusal(alloc, component) {
///     Err(ListRefusal::Item { count, left, .. }) => Some(count.saturating_sub(left.left)),
///     _ => None,
/// }
/// ```
pub fn list_or_refusal<A: Allocator + Copy>(
    alloc: A,
    bytes: &[u8],
) -> Result<Listing<A>, ListRefusal<'_>>
    // The listed sections are a reading of the bytes, widely, up to their end.
    ensures reading { IfOk result
        (λ l. Reading Wide bytes.now (map section_view l.sections.items)) }
    // No type in it is deeper than 100.
    ensures within { IfOk result (λ l. AreWithin 100 (map section_view l.sections.items)) }
    // Each section is read at its byte offset, up to its end, and its id is the byte there.
    ensures placed { IfOk result (λ l. ArePlaced bytes.now l.sections.items) }
    // The counts are the sums of the indices that the items take.
    ensures counted { IfOk result (λ l. (k : Space) → slice_index l.counts (space_number k)
        ≡ count_of_sections k (map section_view l.sections.items)) }
    // Sections that are read within that depth are listed, unless memory runs out.
    ensures listed { (ss : List Section) → Reading Wide bytes.now ss → AreWithin 100 ss
        → MatchResult result (λ l. map section_view l.sections.items ≡ ss)
        (λ e. fault_of_list e ≡ Memory) }
    // Bytes with any reading are listed as that, unless memory runs out, or a type in it is deeper.
    ensures or_deep { (ss : List Section) → Reading Wide bytes.now ss
        → MatchResult result (λ l. map section_view l.sections.items ≡ ss)
        (λ e. IsMemoryOrTooDeep ss (fault_of_list e)) }
    // A fault has its cause: it names the first section that isn't read within that depth.
    ensures fault { IfErr result (λ e. IsFaultOf bytes.now (fault_of_list e)) }
    // An error has what remains there, with a place in it.
    ensures stopped { IfErr result (StopsInside bytes.now) }
    // Without a header the error is `Header`.
    ensures no_header { HasNoHeader bytes.now → result ≡ Err Header }
{
    match Sections::new(bytes) {
        Ok(all) => {
            let (sections, counts) = sections(alloc, all)?;
            Ok(Listing { sections, counts })
        }
        Err(_) => Err(ListRefusal::Header),
    }
}

/// Lists the sections of a component with their items and byte offsets, and counts the indices that
/// the items take (component model, binary format, "Component Definitions"). Modules and nested
/// components are copied as bytes, which aren't read.
///
/// Besides the encodings that this library writes, these spellings are read: padded numbers, of at
/// most 5 bytes (10 if they have 64 bits), padded indices among value types, a nullable abstract
/// reference as its heap type's byte, `func` and `extern` in the long form of such a reference, and
/// a name of an import or export that begins with `01`.
///
/// # Errors
///
/// Fails as documented on `ListFault`. A count that the bytes can't fill reserves no memory.
///
/// ```
/// let listing = list(alloc, component)?;
/// let mut imports = false;
/// for section in &listing.sections {
///     imports = imports || section.id == 10;
/// }
/// ```
pub fn list<A: Allocator + Copy>(alloc: A, bytes: &[u8]) -> Result<Listing<A>, ListFault>
    // The listed sections are a reading of the bytes, widely, up to their end.
    ensures reading { IfOk result
        (λ l. Reading Wide bytes.now (map section_view l.sections.items)) }
    // No type in it is deeper than 100.
    ensures within { IfOk result (λ l. AreWithin 100 (map section_view l.sections.items)) }
    // Each section is read at its byte offset, up to its end, and its id is the byte there.
    ensures placed { IfOk result (λ l. ArePlaced bytes.now l.sections.items) }
    // The counts are the sums of the indices that the items take.
    ensures counted { IfOk result (λ l. (k : Space) → slice_index l.counts (space_number k)
        ≡ count_of_sections k (map section_view l.sections.items)) }
    // Sections that are read within that depth are listed, unless memory runs out.
    ensures listed { (ss : List Section) → Reading Wide bytes.now ss → AreWithin 100 ss
        → MatchResult result (λ l. map section_view l.sections.items ≡ ss) (λ e. e ≡ Memory) }
    // Bytes with any reading are listed as that, unless memory runs out, or a type in it is deeper.
    ensures or_deep { (ss : List Section) → Reading Wide bytes.now ss
        → MatchResult result (λ l. map section_view l.sections.items ≡ ss)
        (IsMemoryOrTooDeep ss) }
    // A fault has its cause: it names the first section that isn't read within that depth.
    ensures fault { IfErr result (IsFaultOf bytes.now) }
    // Without a header the fault is `NotAComponent`.
    ensures no_header { HasNoHeader bytes.now → result ≡ Err (NotAComponent 0) }
{
    match list_or_refusal(alloc, bytes) {
        Ok(listing) => Ok(listing),
        Err(refusal) => Err(refusal.fault()),
    }
}
