//! Listings of components that were built.
ghost use Rattle.std.specs.Prelude.{◌≡◌, ◌⊎◌, ℕ, List, Option as Optional, Result as Outcome};
ghost use Rattle.std.specs.Prelude.{IfErr, IfOk, MatchResult, map};
ghost use Rattle.proved_tests.specs.Prelude.{Fault as FaultSpec, ListFault};
ghost use Rattle.wasm_encoder.specs.Prelude.{CommandTree, command_view, Ran, IsStopped};
ghost use Rattle.wenc_base.specs.Prelude.{Wide, IsMemory};
ghost use Rattle.wenc_builder.specs.Prelude.{HasNoRaw, Entry, items as items_of, Section, Reading};
ghost use Rattle.wenc_builder.specs.Prelude.{runs, whole, IsEncodable};
ghost use Rattle.wenc_list.specs.Prelude.{section_view, AreWithin, IsFaultOf, IsMemoryOrTooDeep};
ghost use Rattle.wenc_list.specs.declared.fault.ListFault.TheVariants.{Memory, TooDeep};

use std::alloc::Allocator;
use wasm_encoder::laws::listed;
use wasm_encoder::{Built, Command, build};
use wenc_base::Fault;
use wenc_list::{ListFault, Listing, list};

/// If commands ran and led to encodable items, none of them raw, the listing is the sections into
/// which these are cut. Only two faults are possible instead: a failed allocation, and a type
/// deeper than 100, if an item is or has one.
pub fn what_ran_is_listed()
    ensures sections { (commands : List CommandTree)
        (answers : List (Outcome (Optional ℕ) FaultSpec))
        (es : List Entry) → Ran commands answers es → HasNoRaw (items_of es)
        → IsEncodable (items_of es) → (ss : List Section) → Reading Wide (whole (items_of es)) ss
        → ss ≡ runs (items_of es) }
    ensures faults { (commands : List CommandTree) (answers : List (Outcome (Optional ℕ) FaultSpec))
        (es : List Entry) → Ran commands answers es → HasNoRaw (items_of es)
        → IsEncodable (items_of es) → AreWithin 100 (runs (items_of es))
        → (fault : ListFault) → IsFaultOf (whole (items_of es)) fault → fault ≡ Memory }
    ensures too_deep { (commands : List CommandTree)
        (answers : List (Outcome (Optional ℕ) FaultSpec))
        (es : List Entry) → Ran commands answers es → HasNoRaw (items_of es)
        → IsEncodable (items_of es) → (fault : ListFault) → IsFaultOf (whole (items_of es)) fault
        → (fault ≡ Memory) ⊎ ((place : ℕ) × (fault ≡ TooDeep place)
        × (AreWithin 100 (runs (items_of es)) → ⊥)) }
{
    listed();
}

/// Builds a component, and lists it. Without a raw item, its sections are those into which the
/// accepted commands' items are cut, unless the fault is a failed allocation or a type in them that
/// is deeper than 100. There is nothing to list only if `build` failed.
pub fn built_and_listed<A: Allocator + Copy>(
    alloc: A,
    commands: &[Command<A>],
) -> Result<(Built<A>, Result<Listing<A>, ListFault>), Fault>
    ensures read { IfOk result (λ x. (es : List Entry)
        → Ran (map command_view commands.now) x.0.answers.items es → HasNoRaw (items_of es)
        → MatchResult x.1 (λ listing. map section_view listing.sections.items ≡ runs (items_of es))
        (IsMemoryOrTooDeep (runs (items_of es)))) }
    ensures refused { IfErr result (λ fault. IsMemory fault
        ⊎ IsStopped (map command_view commands.now) fault) }
{
    match build(alloc, commands) {
        Ok(built) => {
            let listed = list(alloc, built.bytes.as_slice());
            Ok((built, listed))
        }
        Err(fault) => Err(fault),
    }
}
