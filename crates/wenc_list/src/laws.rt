//! Laws about the definitions. A call of one does nothing.
ghost use Rattle.std.specs.Prelude.{◌≡◌, ◌⊎◌, ℕ, ◌-◌, ◌<◌, ◌≤◌, List, [], ◌∷◌, ◌++◌, length, map};
ghost use Rattle.std.specs.Prelude.{take, drop, remove, slice_get, slice_range};
ghost use Rattle.wenc_base.specs.Prelude.{Wide, EndsWith};
ghost use Rattle.wenc_builder.specs.Prelude.{Item, Section, Reading, section_piece, preamble};
ghost use Rattle.wenc_list.specs.Prelude.{Opens, HasTaken, IsSpent, IsFaultIn, item_section};
ghost use Rattle.wenc_list.specs.Prelude.{section_view, AreWithin, ArePlaced, IsFaultOf};
ghost use Rattle.wenc_list.specs.Prelude.{IsFaultHere, SectionItems, ListFault, ListedSection};
ghost use Rattle.wenc_list.specs.declared.fault.ListFault.TheVariants.{Memory, TooDeep};

mod of_expected;
mod of_names;
mod of_producers;

pub use of_expected::expected_bytes_begin;
pub use of_names::names_are_exact;
pub use of_producers::parts_are_of_fields;
use std::alloc::Allocator;

/// Bytes that are read widely as sections in which no type is deeper than 100 have no fault but
/// `Memory`. Bytes that are read widely as any sections have no fault but that and `TooDeep`.
pub fn faults_of_what_is_read()
    ensures no_fault { (bytes : List ℕ) (ss : List Section) → Reading Wide bytes ss
        → AreWithin 100 ss
        → (fault : ListFault) → IsFaultOf bytes fault → fault ≡ Memory }
    ensures too_deep { (bytes : List ℕ) (ss : List Section) → Reading Wide bytes ss
        → (fault : ListFault) → IsFaultOf bytes fault
        → (fault ≡ Memory) ⊎ ((place : ℕ) × (fault ≡ TooDeep place)) }
{}

/// The invariant of a loop over the items of a section: it holds when none is taken, and is kept
/// when one more is taken. At the end the taken items are the section, and a fault in the remaining
/// bytes is one of the section.
pub fn what_was_taken()
    ensures none { (s : SectionItems) → HasTaken s [] s }
    ensures more { (first middle left : SectionItems) (xs : List Item) (x : Item)
        → HasTaken first xs middle → HasTaken middle (x ∷ []) left
        → HasTaken first (xs ++ x ∷ []) left }
    ensures read { (ends : ℕ) (bytes rest : List ℕ) (first left : SectionItems) (xs : List Item)
        → Opens ends bytes first rest → HasTaken first xs left → IsSpent left
        → (section_piece (item_section first.id xs)).Reads Wide bytes rest
        × AreWithin 100 (item_section first.id xs ∷ []) }
    ensures fault { (ends : ℕ) (bytes rest : List ℕ) (first left : SectionItems) (xs : List Item)
        → Opens ends bytes first rest → HasTaken first xs left
        → (fault : ListFault) → IsFaultIn left fault → IsFaultHere first.place bytes fault }
{}

/// The remaining bytes of a component begin at `Sections::place`, and those of a section at
/// `SectionItems::reached`: these are byte offsets in the component.
pub fn where_it_stands()
    // The component ends with the remaining bytes, after the header and after each section.
    ensures header { (bytes rest : List ℕ) → preamble.Reads Wide bytes rest → EndsWith bytes rest }
    ensures section { (ends : ℕ) (bytes before rest : List ℕ) (s : SectionItems)
        → EndsWith bytes before → Opens ends before s rest → EndsWith bytes rest }
    // So these follow the bytes before their byte offset.
    ensures place { (bytes left : List ℕ) → EndsWith bytes left
        → drop (length bytes - length left) bytes ≡ left }
    ensures reached { (bytes before rest : List ℕ) (first : SectionItems) (xs : List Item)
        (left : SectionItems) → EndsWith bytes before → Opens (length bytes) before first rest
        → HasTaken first xs left
        → drop (left.ends - length left.rest.now) bytes ≡ left.rest.now ++ rest }
{}

/// The bytes of a listed section, from `place` to `ends`, are read as that section, whatever bytes
/// follow. Without them, the component has the other sections.
pub fn own_bytes<A: Allocator>()
    ensures inside { (bytes : List ℕ) (ss : List (ListedSection A)) (i : ℕ) (s : ListedSection A)
        → ArePlaced bytes ss → slice_get ss i ≡ Some s
        → (s.place < s.ends) × (s.ends ≤ length bytes) }
    ensures anywhere { (bytes : List ℕ) (ss : List (ListedSection A)) (i : ℕ)
        (s : ListedSection A) → ArePlaced bytes ss → slice_get ss i ≡ Some s → (rest : List ℕ)
        → (section_piece (section_view s)).Reads Wide (slice_range bytes s.place s.ends ++ rest)
        rest }
    ensures others { (bytes : List ℕ) (ss : List (ListedSection A)) (i : ℕ) (s : ListedSection A)
        → ArePlaced bytes ss → slice_get ss i ≡ Some s
        → Reading Wide (take s.place bytes ++ drop s.ends bytes)
        (remove (map section_view ss) i) }
{}
