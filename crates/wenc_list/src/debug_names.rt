//! The subsections of a name section, and the sections of a core module.
ghost use Rattle.std.specs.Prelude.{◌≤◌, ℕ, List, [], length, IfOk, IfErr, MatchOption};
ghost use Rattle.wenc_base.specs.Prelude.{module_preamble, Wide, done, read_name, NameAssociation};
ghost use Rattle.wenc_base.specs.Prelude.{name_association_lawful};
ghost use Rattle.wenc_list.specs.Prelude.{names_view, read_part, read_core_sort, read_sort};
ghost use Rattle.wenc_list.specs.Prelude.{read_item_names, read_names_in, item_name_view};
ghost use Rattle.wenc_list.specs.Prelude.{item_name_sound, names_lists};
ghost use Rattle.wenc_read.specs.Prelude.{Gives, IsWithin, read_by};
ghost use Rattle.wenc_view.specs.Prelude.{AreCounted};

use wenc_read::{Expected, Refusal, byte, u32_of};
use wenc_sections::Space;
use wenc_view::{ListOf, View, text_of};

/// The name of an item.
#[derive(Clone, Copy)]
pub struct ItemName<'a> {
    /// The index of the item in its space.
    pub index: u32,
    /// Its name.
    pub name: &'a str,
}

impl<'a> View<'a> for ItemName<'a> {
    ghost Value = { NameAssociation };

    ghost view = { item_name_view };

    ghost reading = { read_by item_name_sound name_association_lawful };

    fn view_of(bytes: &'a [u8]) -> Result<(ItemName<'a>, &'a [u8]), Refusal> {
        let (index, rest) = u32_of(bytes)?;
        let (name, rest) = text_of(rest)?;
        Ok((ItemName { index, name }, rest))
    }
}

/// The content of a subsection of a name section (component model, binary format, "Name Section").
/// It borrows from the section.
#[derive(Clone, Copy)]
pub enum Names<'a> {
    /// The component's own name.
    Component(&'a str),
    /// Names of items in one index space.
    Items(Space, ListOf<'a, ItemName<'a>>),
    /// A subsection with another id, as its bytes, which aren't read.
    Raw(u8, &'a [u8]),
}

/// Returns the bytes after the header of a core module, where its sections begin (WebAssembly 3.0,
/// binary format, "Modules"), or `None` if the bytes don't begin with such a header.
///
/// ```
/// match behind_module_header(module) {
///     Some(sections) => part_of(sections),
///     None => Err(Refusal::at(module, Expected::From(0, 0))),
/// }
/// ```
pub fn behind_module_header(bytes: &[u8]) -> Option<&[u8]>
    ensures { MatchOption result ((rest : List ℕ) → module_preamble.Reads Wide bytes.now rest → ⊥)
        (λ rest. module_preamble.Reads Wide bytes.now rest.now) }
{
    match bytes {
        [0x00, 0x61, 0x73, 0x6d, 0x01, 0x00, 0x00, 0x00, rest @ ..] => Some(rest),
        _ => None,
    }
}

/// Splits off the section of a core module, or the subsection of a name section, that begins the
/// bytes (WebAssembly 3.0, binary format, "Sections"). Returns its id, its content, and the bytes
/// after it. Fails if there is no id or size, or the size exceeds the remaining bytes.
pub fn part_of(bytes: &[u8]) -> Result<((u8, &[u8]), &[u8]), Refusal>
    ensures found { Gives (λ x. ((x.0.0, x.0.1.now), x.1.now)) result (read_part bytes.now) }
    ensures place { IsWithin (λ x. x.1.now) bytes.now result }
{
    let (id, rest) = byte(bytes)?;
    let (size, rest) = u32_of(rest)?;
    let len = size as usize;
    if rest.len() < len {
        return Err(Refusal::at(rest, Expected::Bytes(size)));
    }
    let (content, rest) = rest.split_at(len);
    Ok(((id, content), rest))
}

/// Reads the kind of a core item, after its first byte, as an index space.
#[tactic(auto, unfolding(wenc_base::specs::Readers::choose))]
fn core_space_of(bytes: &[u8]) -> Result<(Space, &[u8]), Refusal>
    ensures found { Gives (λ x. (x.0, x.1.now)) result (read_core_sort bytes.now) }
    ensures place { IsWithin (λ x. x.1.now) bytes.now result }
{
    match byte(bytes)? {
        (0x00, rest) => Ok((Space::CoreFuncs, rest)),
        (0x01, rest) => Ok((Space::CoreTables, rest)),
        (0x02, rest) => Ok((Space::CoreMemories, rest)),
        (0x03, rest) => Ok((Space::CoreGlobals, rest)),
        (0x04, rest) => Ok((Space::CoreTags, rest)),
        (0x10, rest) => Ok((Space::CoreTypes, rest)),
        (0x11, rest) => Ok((Space::CoreModules, rest)),
        (0x12, rest) => Ok((Space::CoreInstances, rest)),
        _ => Err(Refusal::at(bytes, Expected::CoreSpace)),
    }
}

/// Reads a kind of items, as its index space.
#[tactic(auto, unfolding(wenc_base::specs::Readers::choose))]
fn space_of(bytes: &[u8]) -> Result<(Space, &[u8]), Refusal>
    ensures found { Gives (λ x. (x.0, x.1.now)) result (read_sort bytes.now) }
    ensures place { IsWithin (λ x. x.1.now) bytes.now result }
{
    match byte(bytes)? {
        (0x00, rest) => core_space_of(rest),
        (0x01, rest) => Ok((Space::Funcs, rest)),
        (0x02, rest) => Ok((Space::Values, rest)),
        (0x03, rest) => Ok((Space::Types, rest)),
        (0x04, rest) => Ok((Space::Components, rest)),
        (0x05, rest) => Ok((Space::Instances, rest)),
        _ => Err(Refusal::at(bytes, Expected::From(0, 5))),
    }
}

/// Reads the component's own name, which takes all of the content.
fn component_name(content: &[u8]) -> Result<&str, Refusal>
    ensures found { Gives (λ s. s.now) result (done read_name content.now) }
    ensures place { IfErr result (λ e. e.left ≤ length content.now) }
{
    let (name, rest) = text_of(content)?;
    if rest.is_empty() {
        Ok(name)
    } else {
        Err(Refusal::at(rest, Expected::End))
    }
}

/// Reads names of items in one index space, which take all of the content.
fn item_names(content: &[u8]) -> Result<Names<'_>, Refusal>
    ensures found { Gives names_view result (done read_item_names content.now) }
    ensures place { IfErr result (λ e. e.left ≤ length content.now) }
    ensures counted { IfOk result (λ n. AreCounted content.now (names_lists n) []) }
{
    let (space, rest) = space_of(content)?;
    let (names, rest) = ListOf::view_of(rest)?;
    if rest.is_empty() {
        Ok(Names::Items(space, names))
    } else {
        Err(Refusal::at(rest, Expected::End))
    }
}

/// Reads the content of a subsection of a name section with this id (component model, binary
/// format, "Name Section"). The subsections are the parts of the bytes after the name of a custom
/// section `component-name`. Nothing is allocated.
///
/// # Errors
///
/// Fails if the content isn't one of a subsection with this id.
///
/// ```
/// let ((id, content), rest) = part_of(data)?;
/// let names = names_in(id, content)?;
/// ```
pub fn names_in(id: u8, content: &[u8]) -> Result<Names<'_>, Refusal>
    ensures found { Gives names_view result (read_names_in id content.now) }
    ensures place { IfErr result (λ e. e.left ≤ length content.now) }
    ensures counted { IfOk result (λ n. AreCounted content.now (names_lists n) []) }
{
    match id {
        0 => Ok(Names::Component(component_name(content)?)),
        1 => item_names(content),
        _ => Ok(Names::Raw(id, content)),
    }
}
