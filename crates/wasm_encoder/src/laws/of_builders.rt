//! Laws about the results of a builder's calls.
ghost use Rattle.std.specs.List.{AllByRecursion};
ghost use Rattle.std.specs.List.Sorted.{IsStrictlyIncreasing};
ghost use Rattle.std.specs.Prelude.{◌≡◌, ◌↔◌, ◌+◌, ◌<◌, ◌≤◌, ◌^◌, ◌++◌, ◌∷◌, [], ℕ, List, length};
ghost use Rattle.std.specs.Prelude.{map, true, IsOk, Ok, Option, Result, Some};
ghost use Rattle.wasm_encoder.specs.Prelude.{Fault, Space, ComponentSectionId, PrimitiveValType};
ghost use Rattle.wasm_encoder.specs.Prelude.{added, led, first_cause, CommandTree, Commands};
ghost use Rattle.wasm_encoder.specs.Prelude.{command_view, commands_listed, command_of};
ghost use Rattle.wasm_encoder.specs.Prelude.{AddsNameless, Ran, AreEntered, ListedAreEntered};
ghost use Rattle.wasm_encoder.specs.Prelude.{CoreFunctionsAreEntered, FunctionsAreEntered, Command};
ghost use Rattle.wenc_base.specs.Prelude.{NoCause};
ghost use Rattle.wenc_builder.specs.Prelude.{State, NewItem, new_item_in, builder_is_finished};
ghost use Rattle.wenc_builder.specs.Prelude.{item_begun, item_appended, item_ended, item_given_up};
ghost use Rattle.wenc_builder.specs.Prelude.{count_in, Enters, EntersWithoutIndex, Entry};
ghost use Rattle.wenc_builder.specs.Prelude.{items as items_of, names, StartIsNameless, Holds};
ghost use Rattle.wenc_builder.specs.Prelude.{Item, collected, HasNoRaw, Section, Run, runs, whole};
ghost use Rattle.wenc_builder.specs.Prelude.{defines, some_in, next_index};
ghost use Rattle.wenc_parts.specs.Prelude.{value_type, primitive};
ghost use Rattle.wenc_parts.specs.declared.types.ComponentValType.TheVariants as value_types;

use std::alloc::Allocator;
use wenc_base::ValType;
use wenc_parts::ComponentValType;

/// No two adjacent sections, of those into which items are cut, collect items of one kind.
pub fn neighbours_differ()
    ensures { (xs : List Item) (front behind : List Section) (id : ℕ) (ys zs : List Item)
        → runs xs ≡ front ++ Run id ys ∷ Run id zs ∷ behind → ⊥ }
{}

/// Items of one collected kind are one section, and none of them is raw. If each takes one index in
/// a space, they take as many indices there as there are items.
pub fn one_kind_is_one_section()
    ensures one { (id : ℕ) (x : Item) (xs : List Item)
        → AllByRecursion (λ y. collected y ≡ Some id) (x ∷ xs)
        → runs (x ∷ xs) ≡ Run id (x ∷ xs) ∷ [] }
    ensures none_raw { (id : ℕ) (xs : List Item)
        → AllByRecursion (λ y. collected y ≡ Some id) xs → HasNoRaw xs }
    ensures indices { (space : Space) (xs : List Item)
        → AllByRecursion (λ y. defines y ≡ some_in space 1) xs
        → next_index xs space ≡ length xs }
{}

/// The bytes of two builders without raw items are equal if and only if their items are.
pub fn held_items_tell_bytes()
    ensures { (one other : State) (es fs : List Entry) → Holds one es → Holds other fs
        → HasNoRaw (items_of es) → HasNoRaw (items_of fs)
        → (whole (items_of es) ≡ whole (items_of fs)) ↔ (items_of es ≡ items_of fs) }
{}

/// An accepted call that defines one item returns the previous count of the item's space, and
/// raises only that count, by one. The same holds for one that begins a type: the next index of a
/// space is its count.
pub fn one_item_counts_once()
    ensures answered { (old new : State) (i : ℕ) (x : Entry) (space : Space) (es : List Entry)
        → Holds old es → Enters old new (Ok i) x → defines x.item ≡ some_in space 1
        → i ≡ count_in old space }
    ensures raised { (old new : State) (i : ℕ) (x : Entry) (space : Space) (es : List Entry)
        → Holds old es → Enters old new (Ok i) x → defines x.item ≡ some_in space 1
        → count_in new space ≡ count_in old space + 1 }
    ensures alone { (old new : State) (i : ℕ) (x : Entry) (space other : Space) (es : List Entry)
        → Holds old es → Enters old new (Ok i) x → defines x.item ≡ some_in space 1
        → (other ≡ space → ⊥) → count_in new other ≡ count_in old other }
    ensures next { (s : State) (es : List Entry) (space : Space) → Holds s es
        → next_index (items_of es) space ≡ count_in s space }
    ensures begun_raised { (old parent : State) (id : ComponentSectionId) (space : Space)
        (name : Option (List ℕ)) (text : List ℕ) (es : List Entry) → Holds old es
        → parent ≡ item_begun old (new_item_in id space name text)
        → count_in parent space ≡ count_in old space + 1 }
    ensures begun_alone { (old parent : State) (id : ComponentSectionId) (space other : Space)
        (name : Option (List ℕ)) (text : List ℕ) (es : List Entry) → Holds old es
        → parent ≡ item_begun old (new_item_in id space name text) → (other ≡ space → ⊥)
        → count_in parent other ≡ count_in old other }
{}

/// The command made of an item adds that item alone, whatever was added before.
pub fn an_item_becomes_its_command()
    ensures { (es : List Entry) (x : Item) → items_of (added es (command_of x)) ≡ x ∷ [] }
{}

/// No call lowers the count of a space, whether it succeeds or fails: neither one that adds an
/// entry or begins a type, nor one of an encoder, which leaves the counts as they are. Discarding a
/// type restores the counts from before it was begun, if what was settled then still is.
pub fn counts_never_fall()
    ensures indexed { (old new : State) (result : Result ℕ Fault) (x : Entry) (space : Space)
        (es : List Entry) → Holds old es → Enters old new result x
        → count_in old space ≤ count_in new space }
    ensures without_index { (old new : State) (result : Result (Unit {0}) Fault) (x : Entry)
        (space : Space) (es : List Entry) → Holds old es → EntersWithoutIndex old new result x
        → count_in old space ≤ count_in new space }
    ensures begun { (old parent : State) (d : NewItem) (space : Space) (es : List Entry)
        → Holds old es
        → parent ≡ item_begun old d → count_in old space ≤ count_in parent space }
    ensures written { (old new : State) (text : List ℕ) (space : Space)
        → new ≡ item_appended old text → count_in new space ≡ count_in old space }
    ensures ended { (old new : State) (space : Space) → new ≡ item_ended old
        → count_in new space ≡ count_in old space }
    ensures given_up { (old parent new : State) (space : Space) → builder_is_finished old ≡ true
        → parent.settled ≡ old.settled → new ≡ item_given_up parent
        → count_in new space ≡ count_in old space }
{}

/// The indices in a space's list of names ascend, and each is below the space's count, if no start
/// function has a name. This holds in some entries that a builder holds, whatever calls were made
/// (`ComponentBuilder::is_finished`), and in all that commands lead to, if none adds a start
/// function with a name, as no `Command` does.
pub fn named_indices_ascend<A: Allocator>()
    ensures ascending { (es : List Entry) (k : Space) → AllByRecursion StartIsNameless es
        → IsStrictlyIncreasing (map (λ n. n.index) (names es k)) }
    ensures below { (es : List Entry) (k : Space) → AllByRecursion StartIsNameless es
        → AllByRecursion (λ n. n.index < next_index (items_of es) k) (names es k) }
    ensures below_count { (s : State) (es : List Entry) (space : Space) → Holds s es
        → AllByRecursion StartIsNameless es
        → AllByRecursion (λ n. n.index < count_in s space) (names es space) }
    ensures led_to { (commands : List CommandTree) (answers : List (Result (Option ℕ) Fault))
        (es : List Entry) → AllByRecursion AddsNameless commands → Ran commands answers es
        → AllByRecursion StartIsNameless es }
    ensures viewed { (commands : List (Command A))
        → AllByRecursion AddsNameless (map command_view commands) }
{}

/// The encoding of an index as a value type is never a primitive type's, and doesn't begin with
/// one.
pub fn indices_are_no_primitives()
    ensures { (n : ℕ) (p : PrimitiveValType) (r s : List ℕ) → n < 2 ^ 32
        → (value_type (value_types.«Type» n)).text ++ r ≡ (primitive p).text ++ s → ⊥ }
{}

/// Nested commands that are no cause of an error have a run in which all of them are accepted, to
/// the entries that they lead to. Conversely, nested commands with a run in which all of them are
/// accepted are no cause of an error, and the run led to those entries.
pub fn nested_runs()
    ensures there { (inner : Commands) → NoCause (first_cause [] inner)
        → (answers : List (Result (Option ℕ) Fault))
        × Ran (commands_listed inner) answers (led [] inner) × AllByRecursion IsOk answers }
    ensures back { (inner : Commands) (answers : List (Result (Option ℕ) Fault)) (all : List Entry)
        → Ran (commands_listed inner) answers all → AllByRecursion IsOk answers
        → (all ≡ led [] inner) × NoCause (first_cause [] inner) }
{}

/// A type that an accepted call began on a builder, and that an encoder's accepted last call wrote
/// and ended, is one entry more in every list that the builder held. Discarded, written in part or
/// not at all, it leaves every list held that was held.
pub fn encoded_types_are_entries()
    ensures written { AreEntered }
    ensures begun_given_up { (old parent new : State) (es : List Entry) (d : NewItem)
        → parent ≡ item_begun old d → new ≡ item_given_up parent → Holds old es → Holds new es }
    ensures written_given_up { (old parent new : State) (es : List Entry) (d : NewItem)
        (text : List ℕ)
        → parent ≡ item_appended (item_begun old d) text → new ≡ item_given_up parent
        → Holds old es → Holds new es }
{}

/// A type that an accepted call began on a builder, and that an encoder's accepted call wrote from
/// the values of an iterator, as `record` or `rec`, is one entry more in every list that the
/// builder held, made of all that the iterator yielded.
pub fn listed_types_are_entries<T, I: Iterator<Item = T>>()
    ensures { ListedAreEntered I.next_gives }
{}

/// The same for a core function, from the parameters and the results that two iterators yielded.
pub fn core_functions_are_entries<P, R>()
where
    P: Iterator<Item = ValType>,
    R: Iterator<Item = ValType>,
    ensures { CoreFunctionsAreEntered P.next_gives R.next_gives }
{}

/// The same for a function, from the calls of its encoder: `params` and `result`, or `async_`
/// before these.
pub fn functions_are_entries<'a, P: Iterator<Item = (&'a str, ComponentValType)>>()
    ensures { FunctionsAreEntered P.next_gives }
{}
