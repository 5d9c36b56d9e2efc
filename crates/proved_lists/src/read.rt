//! Values read from the beginning of bytes.
ghost use Rattle.std.specs.Prelude.{◌≡◌, ◌≤◌, ◌<◌, [], ◌∷◌, ℕ, List, IfOk, IfErr, Ok};
ghost use Rattle.wenc_base.specs.Prelude.{u32 as number, Wide, times, read_u32};
ghost use Rattle.wenc_base.specs.Prelude.{Producers, list, producers_field};
ghost use Rattle.wenc_base.specs.Readers.{Bad, Deep};
ghost use Rattle.wenc_list.specs.Prelude.{names_view, parts_left, producers_parts};
ghost use Rattle.wenc_list.specs.Prelude.{subsection_by_id, read_names};
ghost use Rattle.wenc_parts.specs.Prelude.{AliasOf, alias, alias_view};
ghost use Rattle.wenc_read.specs.Prelude.{Gives, flaw_of};
ghost use Rattle.wenc_sections.specs.Prelude.{Subsection};
ghost use Rattle.wenc_types.specs.Prelude.{DefType, def_type, depth};
ghost use Rattle.wenc_view.specs.Prelude.{type_seen};

use wenc_list::laws::{names_are_exact, parts_are_of_fields};
use wenc_list::{Names, ProducersParts, names_in, part_of};
use wenc_parts::Alias;
use wenc_read::laws::readers_are_exact;
use wenc_read::{NestedRefusal, Refusal, u32_of};
use wenc_view::laws::{types_are_exact, views_are_exact};
use wenc_view::{TypeView, View, type_at};

/// Reads two numbers, one after the other. Returns them and the bytes after them.
pub fn two_numbers(bytes: &[u8]) -> Result<((u32, u32), &[u8]), Refusal>
    ensures { Gives (λ x. (x.0.0 ∷ x.0.1 ∷ [], x.1.now)) result (times read_u32 2 bytes.now) }
{
    let (first, rest) = u32_of(bytes)?;
    let (second, rest) = u32_of(rest)?;
    Ok(((first, second), rest))
}

/// Reads a number that the bytes spell. Returns it and the bytes after it. If that fails, the bytes
/// spell none.
pub fn number_of(bytes: &[u8]) -> Result<(u32, &[u8]), Refusal>
    ensures read { IfOk result (λ x. (number x.0).Reads Wide bytes.now x.1.now) }
    ensures none { IfErr result (λ _. (n : ℕ) (rest : List ℕ)
        → (number n).Reads Wide bytes.now rest → ⊥) }
{
    readers_are_exact();
    u32_of(bytes)
}

/// Reads an alias that the bytes spell. Returns it and the bytes after it. If that fails, the bytes
/// spell none.
pub fn alias_of(bytes: &[u8]) -> Result<(Alias<'_>, &[u8]), Refusal>
    ensures read { IfOk result (λ x. (alias (alias_view x.0)).Reads Wide bytes.now x.1.now) }
    ensures none { IfErr result (λ _. (to : AliasOf) (rest : List ℕ)
        → (alias to).Reads Wide bytes.now rest → ⊥) }
{
    views_are_exact::<Alias<'_>>();
    Alias::view_of(bytes)
}

/// Reads a type, which the bytes spell, no deeper than that. Returns it and the bytes after it. If
/// it fails with `Flat` they spell none, and with `TooDeep` none but a deeper one.
pub fn type_within(depth_left: u32, bytes: &[u8]) -> Result<(TypeView<'_>, &[u8]), NestedRefusal>
    ensures read { IfOk result (λ x. (depth (type_seen x.0) ≤ depth_left)
        × (def_type (type_seen x.0)).Reads Wide bytes.now x.1.now) }
    ensures none { IfErr result (λ e. flaw_of e ≡ Bad → (t : DefType) (rest : List ℕ)
        → (def_type t).Reads Wide bytes.now rest → ⊥) }
    ensures deeper { IfErr result (λ e. flaw_of e ≡ Deep → (t : DefType) (rest : List ℕ)
        → (def_type t).Reads Wide bytes.now rest → depth_left < depth t) }
{
    types_are_exact();
    type_at(depth_left, bytes)
}

/// Reads a subsection of names. Returns it and the bytes after it.
fn names_of(bytes: &[u8]) -> Result<(Names<'_>, &[u8]), Refusal>
    ensures { Gives (λ x. (names_view x.0, x.1.now)) result (read_names bytes.now) }
{
    let ((id, content), rest) = part_of(bytes)?;
    let names = names_in(id, content)?;
    Ok((names, rest))
}

/// Reads a subsection of names that the bytes spell. Returns it and the bytes after it. If that
/// fails, the bytes spell none.
pub fn names_read(bytes: &[u8]) -> Result<(Names<'_>, &[u8]), Refusal>
    ensures read { IfOk result
        (λ x. (subsection_by_id (names_view x.0)).Reads Wide bytes.now x.1.now) }
    ensures none { IfErr result (λ _. (names : Subsection) (rest : List ℕ)
        → (subsection_by_id names).Reads Wide bytes.now rest → ⊥) }
{
    names_are_exact(bytes);
    names_of(bytes)
}

/// Returns the parts of the producers that the bytes spell. It never fails on such bytes.
pub fn producers_read(bytes: &[u8]) -> Result<ProducersParts<'_>, Refusal>
    ensures read { (fields : List Producers)
        → (list producers_field fields).Reads Wide bytes.now []
        → IfOk result (λ p. parts_left p ≡ Ok (producers_parts fields)) }
    ensures never { (fields : List Producers)
        → (list producers_field fields).Reads Wide bytes.now [] → IfErr result (λ _. ⊥) }
{
    parts_are_of_fields();
    ProducersParts::new(bytes)
}
