//! A section cut out of a component.
ghost use Rattle.std.specs.Prelude.{◌≡◌, ◌<◌, ◌≤◌, List, length, map, remove, IfOk, IfErr};
ghost use Rattle.std.specs.Prelude.{MatchOption};
ghost use Rattle.wenc_base.specs.Prelude.{Wide};
ghost use Rattle.wenc_builder.specs.Prelude.{Section, Reading};
ghost use Rattle.wenc_list.specs.Prelude.{section_view, ArePlaced, IsFaultOf};

use std::alloc::{AllocError, Allocator};
use wenc_list::laws::own_bytes;
use wenc_list::{ListFault, ListedSection, Listing, list};

/// Returns the bytes of a component without one of its sections. They are read as the other
/// sections.
pub fn without_section<A: Allocator + Copy>(
    alloc: A,
    bytes: &[u8],
    sections: &[ListedSection<A>],
    index: usize,
) -> Result<Vec<u8, A>, AllocError>
    requires listed { ArePlaced bytes.now sections.now }
    requires one_of_them { index < length sections.now }
    ensures { IfOk result
        (λ left. Reading Wide left.items (remove (map section_view sections.now) index)) }
{
    own_bytes::<A>();
    let section = &sections[index];
    let (before, _) = bytes.split_at(section.place);
    let (_, after) = bytes.split_at(section.ends);
    let mut left = Vec::from_slice(alloc, before)?;
    left.extend_from_slice(after)?;
    Ok(left)
}

/// Lists a component without the bytes of one of its sections: the listing has the other sections.
/// Returns `None` if there is no such section.
pub fn listed_without<A: Allocator + Copy>(
    alloc: A,
    bytes: &[u8],
    index: usize,
) -> Result<Option<Listing<A>>, ListFault>
    ensures others { (ss : List Section) → Reading Wide bytes.now ss
        → IfOk result (λ o. MatchOption o (length ss ≤ index)
        (λ l. map section_view l.sections.items ≡ remove ss index)) }
    ensures fault { IfErr result (IsFaultOf bytes.now) }
{
    let listing = list(alloc, bytes)?;
    let sections = listing.sections.as_slice();
    if index >= sections.len() {
        return Ok(None);
    }
    let left = without_section(alloc, bytes, sections, index)?;
    Ok(Some(list(alloc, left.as_slice())?))
}
