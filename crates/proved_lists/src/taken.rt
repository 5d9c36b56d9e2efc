//! Components read section by section, and sections item by item.
ghost use Rattle.std.specs.Prelude.{◌≡◌, ◌-◌, ℕ, List, [], ◌∷◌, length, drop, IfOk, IfErr};
ghost use Rattle.wenc_base.specs.Prelude.{Wide};
ghost use Rattle.wenc_builder.specs.Prelude.{Section, section_piece};
ghost use Rattle.wenc_list.specs.Prelude.{Opens, AreWithin, IsFaultHere};

use wenc_list::laws::{what_was_taken, where_it_stands};
use wenc_list::{ListFault, SectionItems, Sections};

/// Takes all items of a section: they are its contents, or the fault is that of the section.
pub fn all_items(items: SectionItems<'_>) -> Result<(), ListFault>
    ensures read { (ends : ℕ) (bytes rest : List ℕ) → Opens ends bytes items.entry rest
        → IfOk result (λ _. (s : Section) × (section_piece s).Reads Wide bytes rest
        × AreWithin 100 (s ∷ [])) }
    ensures fault { (ends : ℕ) (bytes rest : List ℕ) → Opens ends bytes items.entry rest
        → IfErr result (IsFaultHere items.entry.place bytes) }
{
    what_was_taken();
    let mut left = items;
    while let Some(_item) = left.next()? {}
    Ok(())
}

/// Returns the sections after the first one. Their bytes begin at the byte offset of the next
/// section.
pub fn behind_first(component: &[u8]) -> Result<Sections<'_>, ListFault>
    ensures { IfOk result (λ s. drop (s.ends - length s.rest.now) component.now ≡ s.rest.now) }
{
    where_it_stands();
    let mut sections = Sections::new(component)?;
    sections.next()?;
    Ok(sections)
}
