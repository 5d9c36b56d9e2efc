//! Canonical functions, each by its opcode.
ghost use Rattle.std.specs.Prelude.{[], ◌∷◌, IfOk};
ghost use Rattle.wenc_base.specs.Prelude.{pick, nowhere, read_u32};
ghost use Rattle.wenc_canon.specs.Prelude.{read_lifted, read_lowered, rows, read_canonical_option};
ghost use Rattle.wenc_canon.specs.Prelude.{canonical_option_sound, canonical_option_lawful};
ghost use Rattle.wenc_canon.specs.Prelude.{Canonical, canonical_sound, canonical_lawful};
ghost use Rattle.wenc_view.specs.Prelude.{read_zero, stream_rows, future_rows, error_context_rows};
ghost use Rattle.wenc_view.specs.Prelude.{thread_rows, forward_rows, read_ty_and_options};
ghost use Rattle.wenc_view.specs.Prelude.{read_waited_memory, CanonicalOption as Value'};
ghost use Rattle.wenc_view.specs.Prelude.{canon_seen, list_view, place_of, canon_lists, AreCounted};
ghost use Rattle.wenc_read.specs.Prelude.{Gives, IsWithin, read_by};

use crate::list_of::ListOf;
use crate::pairs::both;
use crate::view::View;
use wenc_canon::CanonicalOption;
use wenc_parts::ResultList;
use wenc_read::{Expected, Refusal, byte};
use wenc_sections::CanonOf;

/// A canonical function, in place.
pub type CanonView<'a> = CanonOf<ListOf<'a, CanonicalOption>>;

impl<'a> View<'a> for CanonicalOption {
    ghost Value = { Value' };

    ghost view = { λ o. o };

    ghost reading = { read_by canonical_option_sound canonical_option_lawful };

    #[tactic(auto, unfolding(wenc_base::specs::Readers::choose))]
    fn view_of(bytes: &'a [u8]) -> Result<(CanonicalOption, &'a [u8]), Refusal> {
        match byte(bytes)? {
            (0x00, rest) => Ok((CanonicalOption::UTF8, rest)),
            (0x01, rest) => Ok((CanonicalOption::UTF16, rest)),
            (0x02, rest) => Ok((CanonicalOption::CompactUTF16, rest)),
            (0x03, rest) => {
                let (memory, rest) = index(rest)?;
                Ok((CanonicalOption::Memory(memory), rest))
            }
            (0x04, rest) => {
                let (func, rest) = index(rest)?;
                Ok((CanonicalOption::Realloc(func), rest))
            }
            (0x05, rest) => {
                let (func, rest) = index(rest)?;
                Ok((CanonicalOption::PostReturn(func), rest))
            }
            (0x06, rest) => Ok((CanonicalOption::Async, rest)),
            (0x07, rest) => {
                let (func, rest) = index(rest)?;
                Ok((CanonicalOption::Callback(func), rest))
            }
            (0x08, rest) => {
                let (ty, rest) = index(rest)?;
                Ok((CanonicalOption::CoreType(ty), rest))
            }
            (0x09, rest) => Ok((CanonicalOption::Gc, rest)),
            _ => Err(Refusal::at(bytes, Expected::From(0, 9))),
        }
    }
}

/// Reads the byte `00`.
#[tactic(auto, unfolding(wenc_base::specs::Readers::choose))]
fn zero(bytes: &[u8]) -> Result<((), &[u8]), Refusal>
    ensures found { Gives (λ x. (tt, x.1.now)) result (read_zero bytes.now) }
    ensures place { IsWithin (λ x. x.1.now) bytes.now result }
{
    match byte(bytes)? {
        (0x00, rest) => Ok(((), rest)),
        _ => Err(Refusal::at(bytes, Expected::From(0, 0))),
    }
}

/// Reads an index out of line, for functions that few components have.
#[inline(never)]
fn index(bytes: &[u8]) -> Result<(u32, &[u8]), Refusal>
    ensures found { Gives (λ x. (x.0, x.1.now)) result (read_u32 bytes.now) }
    ensures place { IsWithin (λ x. x.1.now) bytes.now result }
{
    u32::view_of(bytes)
}

/// Reads a lifted core function, after its opcode.
#[tactic(auto, unfolding(wenc_base::specs::Readers::choose))]
fn lifted(bytes: &[u8]) -> Result<(CanonView<'_>, &[u8]), Refusal>
    ensures found { Gives (λ x. (canon_seen x.0, x.1.now)) result (read_lifted bytes.now) }
    ensures place { IsWithin (λ x. x.1.now) bytes.now result }
    ensures counted { IfOk result (λ x. AreCounted bytes.now (canon_lists x.0) x.1.now) }
{
    match byte(bytes)? {
        (0x00, rest) => {
            let (core_func, rest) = index(rest)?;
            let (options, rest) = ListOf::view_of(rest)?;
            let (ty, rest) = index(rest)?;
            let function = CanonView::Lift {
                core_func,
                ty,
                options,
            };
            Ok((function, rest))
        }
        _ => Err(Refusal::at(bytes, Expected::From(0, 0))),
    }
}

/// Reads a lowered component function, after its opcode.
#[tactic(auto, unfolding(wenc_base::specs::Readers::choose))]
fn lowered(bytes: &[u8]) -> Result<(CanonView<'_>, &[u8]), Refusal>
    ensures found { Gives (λ x. (canon_seen x.0, x.1.now)) result (read_lowered bytes.now) }
    ensures place { IsWithin (λ x. x.1.now) bytes.now result }
    ensures counted { IfOk result (λ x. AreCounted bytes.now (canon_lists x.0) x.1.now) }
{
    match byte(bytes)? {
        (0x00, rest) => {
            let (func, rest) = index(rest)?;
            let (options, rest) = ListOf::view_of(rest)?;
            Ok((CanonView::Lower { func, options }, rest))
        }
        _ => Err(Refusal::at(bytes, Expected::From(0, 0))),
    }
}

/// Reads the index of a type, and options.
#[inline(never)]
fn ty_and_options(bytes: &[u8]) -> Result<(u32, ListOf<'_, CanonicalOption>, &[u8]), Refusal>
    ensures found { Gives (λ x. ((x.0, list_view read_canonical_option x.1), x.2.now)) result
        (read_ty_and_options bytes.now) }
    ensures place { IsWithin (λ x. x.2.now) bytes.now result }
    ensures counted { IfOk result
        (λ x. AreCounted bytes.now (place_of read_canonical_option x.1 ∷ []) x.2.now) }
{
    let (ty, rest) = index(bytes)?;
    let (options, rest) = ListOf::view_of(rest)?;
    Ok((ty, options, rest))
}

/// Reads the byte `00` and the index of a memory.
#[inline(never)]
fn waited_memory(bytes: &[u8]) -> Result<(u32, &[u8]), Refusal>
    ensures found { Gives (λ x. ((tt, x.0), x.1.now)) result (read_waited_memory bytes.now) }
    ensures place { IsWithin (λ x. x.1.now) bytes.now result }
{
    let (_, rest) = zero(bytes)?;
    index(rest)
}

// The fields of a row, after its opcode.

macro_rules! plain {
    ($bytes:ident, $function:ident) => {
        Ok((CanonView::$function, $bytes))
    };
}

macro_rules! indexed {
    ($read:expr, $function:ident) => {{
        let (index, rest) = $read?;
        Ok((CanonView::$function(index), rest))
    }};
}

macro_rules! flagged {
    ($bytes:ident, $function:ident) => {{
        let (async_, rest) = bool::view_of($bytes)?;
        Ok((CanonView::$function(async_), rest))
    }};
}

macro_rules! cancellable {
    ($bytes:ident, $function:ident) => {{
        let (_, rest) = zero($bytes)?;
        Ok((CanonView::$function, rest))
    }};
}

macro_rules! waiting {
    ($bytes:ident, $function:ident) => {{
        let (memory, rest) = waited_memory($bytes)?;
        Ok((CanonView::$function(memory), rest))
    }};
}

macro_rules! cancelled {
    ($bytes:ident, $function:ident) => {{
        let (ty, async_, rest) = both($bytes)?;
        Ok((CanonView::$function { ty, async_ }, rest))
    }};
}

macro_rules! in_table {
    ($bytes:ident, $function:ident) => {{
        let (ty, table, rest) = both($bytes)?;
        Ok((CanonView::$function { ty, table }, rest))
    }};
}

macro_rules! in_context {
    ($bytes:ident, $function:ident) => {{
        let (ty, slot, rest) = both($bytes)?;
        Ok((CanonView::$function { ty, slot }, rest))
    }};
}

macro_rules! of_options {
    ($bytes:ident, $function:ident) => {{
        let (options, rest) = ListOf::view_of($bytes)?;
        Ok((CanonView::$function(options), rest))
    }};
}

macro_rules! with_options {
    ($bytes:ident, $function:ident) => {{
        let (ty, options, rest) = ty_and_options($bytes)?;
        Ok((CanonView::$function { ty, options }, rest))
    }};
}

macro_rules! returning {
    ($bytes:ident, $function:ident) => {{
        let (ty, rest) = ResultList::view_of($bytes)?;
        let (options, rest) = ListOf::view_of(rest)?;
        Ok((CanonView::$function { ty: ty.0, options }, rest))
    }};
}

/// Reads a canonical function, after its opcode: the fields of its row. The rows before those of
/// streams are here.
#[inline(always)]
fn function(opcode: u8, bytes: &[u8]) -> Result<(CanonView<'_>, &[u8]), Refusal>
    ensures found { Gives (λ x. (canon_seen x.0, x.1.now)) result
        (pick rows nowhere opcode bytes.now) }
    ensures place { IsWithin (λ x. x.1.now) (opcode ∷ bytes.now) result }
    ensures counted { IfOk result (λ x. AreCounted bytes.now (canon_lists x.0) x.1.now) }
{
    match opcode {
        0x00 => lifted(bytes),
        0x01 => lowered(bytes),
        0x02 => indexed!(u32::view_of(bytes), ResourceNew),
        0x03 => indexed!(u32::view_of(bytes), ResourceDrop),
        0x04 => indexed!(u32::view_of(bytes), ResourceRep),
        0x05 => plain!(bytes, TaskCancel),
        0x06 => flagged!(bytes, SubtaskCancel),
        0x09 => returning!(bytes, TaskReturn),
        0x0a => in_context!(bytes, ContextGet),
        0x0b => in_context!(bytes, ContextSet),
        0x0c => cancellable!(bytes, ThreadYield),
        0x0d => plain!(bytes, SubtaskDrop),
        _ => of_stream(opcode, bytes),
    }
}

/// Reads the fields of a row, from those of streams on.
#[inline(never)]
fn of_stream(opcode: u8, bytes: &[u8]) -> Result<(CanonView<'_>, &[u8]), Refusal>
    ensures found { Gives (λ x. (canon_seen x.0, x.1.now)) result
        (pick stream_rows nowhere opcode bytes.now) }
    ensures place { IsWithin (λ x. x.1.now) (opcode ∷ bytes.now) result }
    ensures counted { IfOk result (λ x. AreCounted bytes.now (canon_lists x.0) x.1.now) }
{
    match opcode {
        0x0e => indexed!(index(bytes), StreamNew),
        0x0f => with_options!(bytes, StreamRead),
        0x10 => with_options!(bytes, StreamWrite),
        0x11 => cancelled!(bytes, StreamCancelRead),
        0x12 => cancelled!(bytes, StreamCancelWrite),
        0x13 => indexed!(index(bytes), StreamDropReadable),
        0x14 => indexed!(index(bytes), StreamDropWritable),
        _ => of_future(opcode, bytes),
    }
}

/// Reads the fields of a row, from those of futures on.
#[inline(never)]
fn of_future(opcode: u8, bytes: &[u8]) -> Result<(CanonView<'_>, &[u8]), Refusal>
    ensures found { Gives (λ x. (canon_seen x.0, x.1.now)) result
        (pick future_rows nowhere opcode bytes.now) }
    ensures place { IsWithin (λ x. x.1.now) (opcode ∷ bytes.now) result }
    ensures counted { IfOk result (λ x. AreCounted bytes.now (canon_lists x.0) x.1.now) }
{
    match opcode {
        0x15 => indexed!(index(bytes), FutureNew),
        0x16 => with_options!(bytes, FutureRead),
        0x17 => with_options!(bytes, FutureWrite),
        0x18 => cancelled!(bytes, FutureCancelRead),
        0x19 => cancelled!(bytes, FutureCancelWrite),
        0x1a => indexed!(index(bytes), FutureDropReadable),
        0x1b => indexed!(index(bytes), FutureDropWritable),
        _ => of_error_context(opcode, bytes),
    }
}

/// Reads the fields of a row, from those of error contexts on: of these, waitable sets and
/// backpressure.
#[inline(never)]
fn of_error_context(opcode: u8, bytes: &[u8]) -> Result<(CanonView<'_>, &[u8]), Refusal>
    ensures found { Gives (λ x. (canon_seen x.0, x.1.now)) result
        (pick error_context_rows nowhere opcode bytes.now) }
    ensures place { IsWithin (λ x. x.1.now) (opcode ∷ bytes.now) result }
    ensures counted { IfOk result (λ x. AreCounted bytes.now (canon_lists x.0) x.1.now) }
{
    match opcode {
        0x1c => of_options!(bytes, ErrorContextNew),
        0x1d => of_options!(bytes, ErrorContextDebugMessage),
        0x1e => plain!(bytes, ErrorContextDrop),
        0x1f => plain!(bytes, WaitableSetNew),
        0x20 => waiting!(bytes, WaitableSetWait),
        0x21 => waiting!(bytes, WaitableSetPoll),
        0x22 => plain!(bytes, WaitableSetDrop),
        0x23 => plain!(bytes, WaitableJoin),
        0x24 => plain!(bytes, BackpressureInc),
        0x25 => plain!(bytes, BackpressureDec),
        _ => of_thread(opcode, bytes),
    }
}

/// Reads the fields of a row, from those of threads on.
#[inline(never)]
fn of_thread(opcode: u8, bytes: &[u8]) -> Result<(CanonView<'_>, &[u8]), Refusal>
    ensures found { Gives (λ x. (canon_seen x.0, x.1.now)) result
        (pick thread_rows nowhere opcode bytes.now) }
    ensures place { IsWithin (λ x. x.1.now) (opcode ∷ bytes.now) result }
    ensures counted { IfOk result (λ x. AreCounted bytes.now (canon_lists x.0) x.1.now) }
{
    match opcode {
        0x26 => plain!(bytes, ThreadIndex),
        0x27 => in_table!(bytes, ThreadNewIndirect),
        0x28 => plain!(bytes, ThreadResumeLater),
        0x29 => cancellable!(bytes, ThreadSuspend),
        0x2a => cancellable!(bytes, ThreadSuspendThenResume),
        0x2b => cancellable!(bytes, ThreadYieldThenResume),
        0x2c => cancellable!(bytes, ThreadSuspendThenPromote),
        0x2d => cancellable!(bytes, ThreadYieldThenPromote),
        _ => of_forward(opcode, bytes),
    }
}

/// Reads the fields of one of the last rows: forwarding, and spawned threads.
#[inline(never)]
fn of_forward(opcode: u8, bytes: &[u8]) -> Result<(CanonView<'_>, &[u8]), Refusal>
    ensures found { Gives (λ x. (canon_seen x.0, x.1.now)) result
        (pick forward_rows nowhere opcode bytes.now) }
    ensures place { IsWithin (λ x. x.1.now) (opcode ∷ bytes.now) result }
    ensures counted { IfOk result (λ x. AreCounted bytes.now (canon_lists x.0) x.1.now) }
{
    match opcode {
        0x2e => indexed!(index(bytes), StreamForward),
        0x2f => indexed!(index(bytes), FutureForward),
        0x40 => indexed!(index(bytes), ThreadSpawnRef),
        0x41 => in_table!(bytes, ThreadSpawnIndirect),
        0x42 => plain!(bytes, ThreadAvailableParallelism),
        _ => Err(Refusal::before(bytes, Expected::Opcode)),
    }
}

impl<'a> View<'a> for CanonView<'a> {
    ghost Value = { Canonical };

    ghost view = { canon_seen };

    ghost reading = { read_by canonical_sound canonical_lawful };

    ghost lists = { canon_lists };

    #[tactic(auto, unfolding(wenc_base::specs::Readers::choose))]
    fn view_of(bytes: &'a [u8]) -> Result<(CanonView<'a>, &'a [u8]), Refusal> {
        let (opcode, rest) = byte(bytes)?;
        function(opcode, rest)
    }
}
