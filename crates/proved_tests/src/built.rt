//! Types written by the encoders of a builder, proved from the public contracts.
ghost use Rattle.std.specs.Iterator.Runs.{WholeRun};
ghost use Rattle.std.specs.Iterator.{IsFinite};
ghost use Rattle.std.specs.Prelude.{◌≡◌, ◌≤◌, ◌+◌, ◌++◌, ◌∷◌, [], List, map, OnOk, IfOk, None, Ok};
ghost use Rattle.std.specs.Prelude.{true, false};
ghost use Rattle.proved_tests.specs.Prelude.{Space};
ghost use Rattle.wasm_encoder.specs.Prelude.{IsEntered, core_function_entry, function_entry};
ghost use Rattle.wenc_base.specs.Prelude.{Rec, sub_view};
ghost use Rattle.wenc_builder.specs.Prelude.{count_in, Entry, items, type_entry, core_type_entry};
ghost use Rattle.wenc_builder.specs.Prelude.{Holds, next_index};
ghost use Rattle.wenc_sections.specs.declared.space.Space.TheVariants as spaces;
ghost use Rattle.wenc_types.specs.Prelude.{DefinedType, Grouped, OptionOf, Record};
ghost use Rattle.wenc_types.specs.Prelude.{borrowed_labelled_type};

use std::alloc::Allocator;
use wasm_encoder::laws::{
    core_functions_are_entries, counts_never_fall, encoded_types_are_entries,
    functions_are_entries, listed_types_are_entries, one_item_counts_once,
};
use wenc_base::{Fault, SubType, ValType};
use wenc_builder::ComponentBuilder;
use wenc_parts::ComponentValType;

/// Adds an option type: the builder then holds its entry after the earlier ones. Returns its index.
pub fn option_built<A: Allocator>(
    builder: &mut ComponentBuilder<A>,
    ty: ComponentValType,
) -> Result<u32, Fault>
    ensures held { (es : List Entry) → Holds builder.old es → OnOk result
        (Holds builder.new (es ++ type_entry None (DefinedType (OptionOf ty)) ∷ [])) }
    ensures indexed { (es : List Entry) → Holds builder.old es → IfOk result
        (λ i. i ≡ next_index (items es) spaces.Types) }
{
    encoded_types_are_entries();
    match builder.type_defined(None) {
        Ok((index, encoder)) => match encoder.option(ty) {
            Ok(()) => Ok(index),
            Err(fault) => Err(fault),
        },
        Err(fault) => Err(fault),
    }
}

/// Adds an option type: there is one more type, and no count falls, even if writing it fails.
pub fn option_counted<A: Allocator>(
    builder: &mut ComponentBuilder<A>,
    ty: ComponentValType,
) -> Result<u32, Fault>
    ensures once { (es : List Entry) → Holds builder.old es → OnOk result
        (count_in builder.new spaces.Types ≡ count_in builder.old spaces.Types + 1) }
    ensures never_less { (es : List Entry) → Holds builder.old es → (space : Space)
        → count_in builder.old space ≤ count_in builder.new space }
{
    counts_never_fall();
    one_item_counts_once();
    match builder.type_defined(None) {
        Ok((index, encoder)) => match encoder.option(ty) {
            Ok(()) => Ok(index),
            Err(fault) => Err(fault),
        },
        Err(fault) => Err(fault),
    }
}

/// Begins an option type, drops its encoder and discards the type: the builder's entries and counts
/// are unchanged.
pub fn option_given_up<A: Allocator>(builder: &mut ComponentBuilder<A>) -> Result<bool, Fault>
    ensures unfinished { OnOk result (result ≡ Ok true) }
    ensures back { (es : List Entry) → Holds builder.old es → OnOk result (Holds builder.new es) }
    ensures counts { (space : Space)
        → OnOk result (count_in builder.new space ≡ count_in builder.old space) }
{
    encoded_types_are_entries();
    counts_never_fall();
    match builder.type_defined(None) {
        Ok((_, _encoder)) => {}
        Err(fault) => return Err(fault),
    }
    Ok(builder.discard_unfinished())
}

/// Adds a record type: the builder then holds its entry, with the fields that the iterator yielded,
/// after the earlier ones. Returns its index.
pub fn record_built<'b, A: Allocator, F>(
    builder: &mut ComponentBuilder<A>,
    fields: F,
) -> Result<u32, Fault>
where
    F: Iterator<Item = (&'b str, ComponentValType)> + Drop,
    requires can { F.can_next fields }
    requires ends { IsFinite (F.remaining fields) }
    ensures held { OnOk result (WholeRun F.next_gives fields (λ run.
        IsEntered builder.old builder.new
        (type_entry None (DefinedType (Record (map borrowed_labelled_type run.items)))))) }
    ensures indexed { (es : List Entry) → Holds builder.old es → IfOk result
        (λ i. i ≡ next_index (items es) spaces.Types) }
{
    listed_types_are_entries::<(&'b str, ComponentValType), F>();
    match builder.type_defined(None) {
        Ok((index, encoder)) => match encoder.record(fields) {
            Ok(()) => Ok(index),
            Err(fault) => Err(fault),
        },
        Err(fault) => Err(fault),
    }
}

/// Adds a function type, from its beginning to its end: the builder then holds its entry, with the
/// parameters that the iterator yielded. Returns its index.
pub fn function_built<'b, A: Allocator, P>(
    builder: &mut ComponentBuilder<A>,
    params: P,
    answer: Option<ComponentValType>,
) -> Result<u32, Fault>
where
    P: Iterator<Item = (&'b str, ComponentValType)> + Drop,
    requires can { P.can_next params }
    requires ends { IsFinite (P.remaining params) }
    ensures held { OnOk result (WholeRun P.next_gives params (λ run.
        IsEntered builder.old builder.new (function_entry None false run.items answer))) }
    ensures indexed { (es : List Entry) → Holds builder.old es → IfOk result
        (λ i. i ≡ next_index (items es) spaces.Types) }
{
    functions_are_entries::<P>();
    match builder.type_function(None) {
        Ok((index, mut function)) => {
            function.params(params)?;
            function.result(answer)?;
            Ok(index)
        }
        Err(fault) => Err(fault),
    }
}

/// Adds the type of an asynchronous function in the same way.
pub fn async_function_built<'b, A: Allocator, P>(
    builder: &mut ComponentBuilder<A>,
    params: P,
    answer: Option<ComponentValType>,
) -> Result<u32, Fault>
where
    P: Iterator<Item = (&'b str, ComponentValType)> + Drop,
    requires can { P.can_next params }
    requires ends { IsFinite (P.remaining params) }
    ensures { OnOk result (WholeRun P.next_gives params (λ run.
        IsEntered builder.old builder.new (function_entry None true run.items answer))) }
{
    functions_are_entries::<P>();
    match builder.type_function(None) {
        Ok((index, mut function)) => {
            function.async_(true)?;
            function.params(params)?;
            function.result(answer)?;
            Ok(index)
        }
        Err(fault) => Err(fault),
    }
}

/// Adds the type of a core function, of the parameters and results that two iterators yielded.
pub fn core_function_built<A: Allocator, P, R>(
    builder: &mut ComponentBuilder<A>,
    params: P,
    results: R,
) -> Result<u32, Fault>
where
    P: Iterator<Item = ValType> + Drop,
    R: Iterator<Item = ValType> + Drop,
    requires can_params { P.can_next params }
    requires params_end { IsFinite (P.remaining params) }
    requires can_results { R.can_next results }
    requires results_end { IsFinite (R.remaining results) }
    ensures { OnOk result (WholeRun P.next_gives params (λ run. WholeRun R.next_gives results
        (λ last. IsEntered builder.old builder.new
        (core_function_entry None run.items last.items)))) }
{
    core_functions_are_entries::<P, R>();
    match builder.core_type(None) {
        Ok((index, encoder)) => match encoder.core().function(params, results) {
            Ok(()) => Ok(index),
            Err(fault) => Err(fault),
        },
        Err(fault) => Err(fault),
    }
}

/// Adds a group of core types, those that an iterator yielded.
pub fn group_built<'b, A: Allocator, B: Allocator + 'b, I>(
    builder: &mut ComponentBuilder<A>,
    types: I,
) -> Result<u32, Fault>
where
    I: Iterator<Item = &'b SubType<B>> + Drop,
    requires can { I.can_next types }
    requires ends { IsFinite (I.remaining types) }
    ensures { OnOk result (WholeRun I.next_gives types (λ run.
        IsEntered builder.old builder.new
        (core_type_entry None (Grouped (Rec (map (λ s. sub_view s.now) run.items)))))) }
{
    listed_types_are_entries::<&'b SubType<B>, I>();
    match builder.core_type(None) {
        Ok((index, encoder)) => match encoder.core().rec(types) {
            Ok(()) => Ok(index),
            Err(fault) => Err(fault),
        },
        Err(fault) => Err(fault),
    }
}
