//! Parses builtins.
ghost use Rattle.std.specs.Prelude.{◌≡◌, ◌∷◌, [], drop, option_map};
ghost use Rattle.wenc.specs.Prelude.{values_said, one_of, builtin_said, words_left};
ghost use Rattle.wenc_canon.specs.Prelude.{Index, Flag, builtins};
ghost use Rattle.wenc_sections.specs.Prelude.{canon_view};

use crate::number::{flag, number};
use crate::words::Words;
use wasm_encoder::CanonTree;

/// Returns the builtin that a word and the words after it name. Builtins with options, a core type
/// or a result have no words. Those of resources and tasks are tried first.
pub fn builtin(verb: &str, words: Words) -> Option<CanonTree>
    ensures { option_map canon_view result ≡ builtin_said verb.now (words_left words.entry) }
{
    match verb {
        "resource.new" => Some(CanonTree::ResourceNew(index(words)?)),
        "resource.drop" => Some(CanonTree::ResourceDrop(index(words)?)),
        "resource.rep" => Some(CanonTree::ResourceRep(index(words)?)),
        "task.cancel" => alone(words, CanonTree::TaskCancel),
        "subtask.cancel" => Some(CanonTree::SubtaskCancel(async_flag(words)?)),
        "task.return" | "context.get" | "context.set" => None,
        "thread.yield" => alone(words, CanonTree::ThreadYield),
        "subtask.drop" => alone(words, CanonTree::SubtaskDrop),
        _ => of_stream(verb, words),
    }
}

/// Returns the builtin of streams, or of a later group, that these words name.
fn of_stream(verb: &str, words: Words) -> Option<CanonTree>
    ensures { option_map canon_view result ≡
        one_of (drop 10 builtins) verb.now (words_left words.entry) }
{
    match verb {
        "stream.new" => Some(CanonTree::StreamNew(index(words)?)),
        "stream.read" | "stream.write" => None,
        "stream.cancel-read" => {
            let (ty, async_) = index_and_flag(words)?;
            Some(CanonTree::StreamCancelRead { ty, async_ })
        }
        "stream.cancel-write" => {
            let (ty, async_) = index_and_flag(words)?;
            Some(CanonTree::StreamCancelWrite { ty, async_ })
        }
        "stream.drop-readable" => Some(CanonTree::StreamDropReadable(index(words)?)),
        "stream.drop-writable" => Some(CanonTree::StreamDropWritable(index(words)?)),
        _ => of_future(verb, words),
    }
}

/// Returns the builtin of futures, or of a later group, that these words name.
fn of_future(verb: &str, words: Words) -> Option<CanonTree>
    ensures { option_map canon_view result ≡
        one_of (drop 17 builtins) verb.now (words_left words.entry) }
{
    match verb {
        "future.new" => Some(CanonTree::FutureNew(index(words)?)),
        "future.read" | "future.write" => None,
        "future.cancel-read" => {
            let (ty, async_) = index_and_flag(words)?;
            Some(CanonTree::FutureCancelRead { ty, async_ })
        }
        "future.cancel-write" => {
            let (ty, async_) = index_and_flag(words)?;
            Some(CanonTree::FutureCancelWrite { ty, async_ })
        }
        "future.drop-readable" => Some(CanonTree::FutureDropReadable(index(words)?)),
        "future.drop-writable" => Some(CanonTree::FutureDropWritable(index(words)?)),
        _ => of_error_context(verb, words),
    }
}

/// Returns the builtin of error contexts, waitable sets or backpressure, or of a later group, that
/// these words name.
fn of_error_context(verb: &str, words: Words) -> Option<CanonTree>
    ensures { option_map canon_view result ≡
        one_of (drop 24 builtins) verb.now (words_left words.entry) }
{
    match verb {
        "error-context.new" | "error-context.debug-message" => None,
        "error-context.drop" => alone(words, CanonTree::ErrorContextDrop),
        "waitable-set.new" => alone(words, CanonTree::WaitableSetNew),
        "waitable-set.wait" => Some(CanonTree::WaitableSetWait(index(words)?)),
        "waitable-set.poll" => Some(CanonTree::WaitableSetPoll(index(words)?)),
        "waitable-set.drop" => alone(words, CanonTree::WaitableSetDrop),
        "waitable.join" => alone(words, CanonTree::WaitableJoin),
        "backpressure.inc" => alone(words, CanonTree::BackpressureInc),
        "backpressure.dec" => alone(words, CanonTree::BackpressureDec),
        _ => of_thread(verb, words),
    }
}

/// Returns the builtin of threads, or the forwarding one, that these words name.
fn of_thread(verb: &str, words: Words) -> Option<CanonTree>
    ensures { option_map canon_view result ≡
        one_of (drop 34 builtins) verb.now (words_left words.entry) }
{
    match verb {
        "thread.index" => alone(words, CanonTree::ThreadIndex),
        "thread.new-indirect" => {
            let (ty, table) = indices(words)?;
            Some(CanonTree::ThreadNewIndirect { ty, table })
        }
        "thread.resume-later" => alone(words, CanonTree::ThreadResumeLater),
        "thread.suspend" => alone(words, CanonTree::ThreadSuspend),
        "thread.suspend-then-resume" => alone(words, CanonTree::ThreadSuspendThenResume),
        "thread.yield-then-resume" => alone(words, CanonTree::ThreadYieldThenResume),
        "thread.suspend-then-promote" => alone(words, CanonTree::ThreadSuspendThenPromote),
        "thread.yield-then-promote" => alone(words, CanonTree::ThreadYieldThenPromote),
        "stream.forward" => Some(CanonTree::StreamForward(index(words)?)),
        "future.forward" => Some(CanonTree::FutureForward(index(words)?)),
        "thread.spawn-ref" => Some(CanonTree::ThreadSpawnRef(index(words)?)),
        "thread.spawn-indirect" => {
            let (ty, table) = indices(words)?;
            Some(CanonTree::ThreadSpawnIndirect { ty, table })
        }
        "thread.available-parallelism" => alone(words, CanonTree::ThreadAvailableParallelism),
        _ => None,
    }
}

/// Returns this function if no word is left.
fn alone(words: Words, function: CanonTree) -> Option<CanonTree>
    ensures { option_map canon_view result ≡
        option_map (λ v. canon_view function) (values_said [] (words_left words.entry)) }
{
    let mut words = words;
    match words.next() {
        None => Some(function),
        Some(_) => None,
    }
}

/// Returns the index that is the one word left.
fn index(words: Words) -> Option<u32>
    ensures { result ≡ values_said (Index ∷ []) (words_left words.entry) }
{
    let mut words = words;
    let index = number(words.next()?)?;
    match words.next() {
        None => Some(index),
        Some(_) => None,
    }
}

/// Returns the flag that is the one word left.
fn async_flag(words: Words) -> Option<bool>
    ensures { result ≡ values_said (Flag ∷ []) (words_left words.entry) }
{
    let mut words = words;
    let flag = flag(words.next()?)?;
    match words.next() {
        None => Some(flag),
        Some(_) => None,
    }
}

/// Returns the index and the flag that are the words left.
fn index_and_flag(words: Words) -> Option<(u32, bool)>
    ensures { result ≡ values_said (Index ∷ Flag ∷ []) (words_left words.entry) }
{
    let mut words = words;
    let index = number(words.next()?)?;
    Some((index, async_flag(words)?))
}

/// Returns the two indices that are the words left.
fn indices(words: Words) -> Option<(u32, u32)>
    ensures { result ≡ values_said (Index ∷ Index ∷ []) (words_left words.entry) }
{
    let mut words = words;
    let first = number(words.next()?)?;
    Some((first, index(words)?))
}
