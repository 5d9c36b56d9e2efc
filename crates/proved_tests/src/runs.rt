//! Properties of runs of commands, from the contract of `build` alone.
ghost use Rattle.proved_tests.specs.Prelude.{IsIndexedAt, Fault as FaultSpec};
ghost use Rattle.wasm_encoder.specs.Prelude.{CommandTree, command_view, Ran};
ghost use Rattle.wenc_base.specs.declared.fault.Fault.TheVariants.{Unfinished};
ghost use Rattle.wenc_builder.specs.Prelude.{HasNoRaw, Entry, items as items_of};
ghost use Rattle.std.specs.Prelude.{◌≡◌, ◌↔◌, ◌++◌, ◌∷◌, ℕ, List, map, length, IfSome, IfOk, IfErr};
ghost use Rattle.std.specs.Prelude.{Ok, Some, Option as Optional, Result as Outcome};

use std::alloc::Allocator;
use wasm_encoder::{Built, Command, build};
use wenc_base::Fault;

/// Runs two lists of commands: if none of the items that they led to is raw, the bytes are equal if
/// and only if the items are.
pub fn two_runs<A: Allocator + Copy, B: Allocator, C: Allocator>(
    alloc: A,
    one: &[Command<B>],
    other: &[Command<C>],
) -> Option<(Built<A>, Built<A>)>
    ensures { IfSome result (λ x. (es : List Entry) (fs : List Entry)
        → Ran (map command_view one.now) x.0.answers.items es
        → Ran (map command_view other.now) x.1.answers.items fs
        → HasNoRaw (items_of es) → HasNoRaw (items_of fs)
        → (x.0.bytes.items ≡ x.1.bytes.items) ↔ (items_of es ≡ items_of fs)) }
{
    match build(alloc, one) {
        Ok(first) => match build(alloc, other) {
            Ok(second) => Some((first, second)),
            Err(_) => None,
        },
        Err(_) => None,
    }
}

/// Runs commands: each returned index is its item's index. The run never fails with `Unfinished`.
pub fn indexed_run<A: Allocator + Copy, B: Allocator>(
    alloc: A,
    commands: &[Command<B>],
) -> Result<Built<A>, Fault>
    ensures indices { IfOk result (λ b. (es : List Entry)
        → Ran (map command_view commands.now) b.answers.items es
        → (front : List CommandTree) (c : CommandTree) (behind : List CommandTree)
        (so_far : List (Outcome (Optional ℕ) FaultSpec)) (i : ℕ)
        (later : List (Outcome (Optional ℕ) FaultSpec))
        → map command_view commands.now ≡ front ++ c ∷ behind
        → b.answers.items ≡ so_far ++ Ok (Some i) ∷ later
        → length front ≡ length so_far → IsIndexedAt c es i) }
    ensures never_unfinished { IfErr result (λ fault. fault ≡ Unfinished → ⊥) }
{
    build(alloc, commands)
}
