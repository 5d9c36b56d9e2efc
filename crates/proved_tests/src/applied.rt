//! Each law applied to a literal, to a call or to a run.
ghost use Rattle.std.specs.List.Sorted.{IsStrictlyIncreasing};
ghost use Rattle.std.specs.List.{AllByRecursion};
ghost use Rattle.std.specs.Prelude.{◌≡◌, ◌+◌, ◌<◌, ◌≤◌, ◌++◌, ◌∷◌, [], ℕ, negsuc, List, map, true};
ghost use Rattle.std.specs.Prelude.{IsOk, IfOk, IfSome, OnOk};
ghost use Rattle.proved_tests.specs.Prelude.{Space, PrimitiveValType};
ghost use Rattle.wasm_encoder.specs.Prelude.{led, Commands, command_view, commands_listed, Ran};
ghost use Rattle.wenc_base.specs.Prelude.{counted, Contains, IsUnsignedText, IsSignedText};
ghost use Rattle.wenc_base.specs.Prelude.{Spelling, Strict, Wide};
ghost use Rattle.wenc_builder.specs.Prelude.{count_in, Entry, items as items_of, names, Holds};
ghost use Rattle.wenc_builder.specs.Prelude.{Item, HasNoRaw, Section, Run, Reading, whole};
ghost use Rattle.wenc_parts.specs.Prelude.{extern_name_view, value_type, primitive};
ghost use Rattle.wenc_parts.specs.declared.types.ComponentValType.TheVariants as value_types;
ghost use Rattle.wenc_sections.specs.Prelude.{Import, import_item};
ghost use Rattle.wenc_sections.specs.declared.space.Space.TheVariants as spaces;

use std::alloc::Allocator;
use wasm_encoder::laws::{
    an_added_function_is_one_more, counts_never_fall, delimited, indices_are_no_primitives,
    named_indices_ascend, neighbours_differ, nested_runs, one_item_counts_once, one_list,
    reads_once, sections_are_their_items, signed_text_in_words, texts_tell_values,
    unsigned_text_in_words, what_is_added_is_contained, what_is_finished_has_some,
};
use wasm_encoder::{Built, Command, build};
use wenc_base::{Encode, Fault};
use wenc_builder::ComponentBuilder;
use wenc_canon::{AddsBuiltin, CanonicalFunctionSection};
use wenc_parts::{ComponentExternName, ComponentTypeRef};
use wenc_sections::ComponentImportSection;

/// Shows that a number is spelled by no other bytes of the length of its encoding.
pub fn spelt_so_alone()
    ensures unsigned { (bytes : List ℕ) → IsUnsignedText bytes 624485
        → bytes ≡ 0xe5 ∷ 0x8e ∷ 0x26 ∷ [] }
    ensures signed { (bytes : List ℕ) → IsSignedText bytes (negsuc 64) → bytes ≡ 0xbf ∷ 0x7f ∷ [] }
{
    unsigned_text_in_words();
    signed_text_in_words();
}

/// Shows that bytes which begin with type 115, whose encoding has the byte of the primitive
/// `string` in it, begin with no primitive type.
pub fn no_primitive()
    ensures { (p : PrimitiveValType) (r s : List ℕ)
        → (value_type (value_types.«Type» 0x73)).text ++ r ≡ (primitive p).text ++ s → ⊥ }
{
    indices_are_no_primitives();
}

/// Shows that the encoding of an import is read as that import and determines it, and that no bytes
/// begin with two different imports, however they are spelled.
pub fn imports_are_told()
    ensures told { (a b : Import) (r s : List ℕ) → (import_item a).Fits → (import_item b).Fits
        → (import_item a).text ++ r ≡ (import_item b).text ++ s → (a ≡ b) × (r ≡ s) }
    ensures once { (a b : Import) (bytes r s : List ℕ) → (import_item a).Reads Strict bytes r
        → (import_item b).Reads Wide bytes s → (a ≡ b) × (r ≡ s) }
    ensures read { (a : Import) (rest : List ℕ) → (import_item a).Fits
        → (import_item a).Reads Strict ((import_item a).text ++ rest) rest }
{
    delimited();
    reads_once();
}

/// Shows that two numbers are equal if their encodings are.
pub fn numbers_are_told(one: &u32, other: &u32) {
    texts_tell_values(one, other);
}

/// Adds an import to a section, which then contains its earlier imports and this one.
pub fn one_import_more<A: Allocator, B: Allocator>(
    imports: &mut ComponentImportSection<A>,
    name: ComponentExternName<'_, B>,
    ty: ComponentTypeRef,
) -> Result<(), Fault>
    ensures { OnOk result ((is : List Import) → Contains import_item imports.old is
        → Contains import_item imports.new
        (is ++ record { name = extern_name_view name.entry; ty = ty } ∷ [])) }
{
    what_is_added_is_contained();
    imports.import(name, ty)?;
    Ok(())
}

/// Encodes a section of imports: it is a counted list of imports, whatever calls were made on it.
pub fn imports_written<A: Allocator, B: Allocator>(
    imports: &ComponentImportSection<A>,
    sink: &mut Vec<u8, B>,
) -> Result<(), Fault>
    ensures { OnOk result (∥ ((is : List Import)
        × (sink.new.items ≡ sink.old.items ++ (counted import_item is).text)) ∥₁) }
{
    what_is_finished_has_some();
    sections_are_their_items();
    imports.encode(sink)?;
    Ok(())
}

/// Adds a function to a section, which then has one more.
pub fn one_function_more<A: Allocator>(
    functions: &mut CanonicalFunctionSection<A>,
) -> Result<(), Fault>
    ensures { OnOk result (functions.new.count ≡ functions.old.count + 1) }
{
    an_added_function_is_one_more();
    functions.task_cancel()?;
    Ok(())
}

/// Imports a function, whose index is the previous count of functions. It counts once, and no count
/// falls.
pub fn import_counted<A: Allocator, B: Allocator>(
    builder: &mut ComponentBuilder<A>,
    name: ComponentExternName<'_, B>,
    ty: u32,
) -> Result<u32, Fault>
    ensures index { (es : List Entry) → Holds builder.old es
        → IfOk result (λ i. i ≡ count_in builder.old spaces.Funcs) }
    ensures once { (es : List Entry) → Holds builder.old es → OnOk result
        (count_in builder.new spaces.Funcs ≡ count_in builder.old spaces.Funcs + 1) }
    ensures never_less { (es : List Entry) → Holds builder.old es
        → (space : Space) → count_in builder.old space ≤ count_in builder.new space }
{
    one_item_counts_once();
    counts_never_fall();
    match builder.import(name, ComponentTypeRef::Func(ty)) {
        Ok(index) => Ok(index),
        Err(fault) => Err(fault),
    }
}

/// Returns whether no item is being written. If so, the builder holds entries in whose debug names
/// the indices ascend, each below its space's count, whatever calls were made.
pub fn names_in_order<A: Allocator>(builder: &ComponentBuilder<A>) -> bool
    ensures { result ≡ true → ∥ ((es : List Entry) × Holds builder.now es × ((space : Space)
        → IsStrictlyIncreasing (map (λ n. n.index) (names es space))
        × AllByRecursion (λ n. n.index < count_in builder.now space) (names es space))) ∥₁ }
{
    named_indices_ascend::<A>();
    builder.is_finished()
}

/// Finishes two builders: if no item is raw, and the bytes are equal, so are the items.
pub fn finished_alike<A: Allocator, B: Allocator>(
    one: ComponentBuilder<A>,
    other: ComponentBuilder<B>,
) -> Option<(Vec<u8, A>, Vec<u8, B>)>
    ensures { IfSome result (λ x. (es fs : List Entry) → Holds one es → Holds other fs
        → HasNoRaw (items_of es) → HasNoRaw (items_of fs)
        → x.0.items ≡ x.1.items → items_of es ≡ items_of fs) }
{
    one_list();
    match one.finish() {
        Ok(first) => match other.finish() {
            Ok(second) => Some((first, second)),
            Err(_) => None,
        },
        Err(_) => None,
    }
}

/// Runs commands: without a raw item, no two adjacent sections in the bytes collect items of one
/// kind; the indices of the debug names ascend; and if all commands are accepted, a nested
/// component of these commands has the same bytes.
pub fn told_of_a_run<A: Allocator + Copy, B: Allocator>(
    alloc: A,
    commands: &[Command<B>],
) -> Result<Built<A>, Fault>
    ensures apart { IfOk result (λ b. (es : List Entry)
        → Ran (map command_view commands.now) b.answers.items es → HasNoRaw (items_of es)
        → (mode : Spelling) (front behind : List Section) (id : ℕ) (xs ys : List Item)
        → Reading mode b.bytes.items (front ++ Run id xs ∷ Run id ys ∷ behind) → ⊥) }
    ensures ascending { IfOk result (λ b. (es : List Entry)
        → Ran (map command_view commands.now) b.answers.items es
        → (k : Space) → IsStrictlyIncreasing (map (λ n. n.index) (names es k))) }
    ensures nested { IfOk result (λ b. (inner : Commands)
        → commands_listed inner ≡ map command_view commands.now
        → AllByRecursion IsOk b.answers.items → b.bytes.items ≡ whole (items_of (led [] inner))) }
{
    neighbours_differ();
    named_indices_ascend::<B>();
    nested_runs();
    match build(alloc, commands) {
        Ok(built) => Ok(built),
        Err(fault) => Err(fault),
    }
}
