//! The builtins of the component model, for each type to which they can be added.
ghost use Rattle.std.specs.Iterator.{IsFinite};
ghost use Rattle.std.specs.Prelude.{◌≡◌, ◌∷◌, [], List, Option, Result};
ghost use Rattle.wenc_canon.specs.Prelude.{Fault as FaultSpec, Canonical, OfBuiltin, CoreType};
ghost use Rattle.wenc_canon.specs.Prelude.{Index, ◌is◌takes◌, CanonicalOption as OptionSpec};
ghost use Rattle.wenc_canon.specs.Prelude.{row_with, HasName, builtin_by, and_options};
ghost use Rattle.wenc_canon.specs.Prelude.{builtin_with};
ghost use Rattle.wenc_canon.specs.Canonicals as canon;

use crate::canonicals::CanonicalOption;
use crate::fields::{Fields, NotCancellable};
use crate::rows::{self, Row};
use wenc_base::{Fault, ValType};
use wenc_parts::{ComponentValType, ResultList};

/// A type to which builtins are added by their rows.
///
/// An implementation defines what a call adds and returns. Callers use the methods of
/// `AddsBuiltin`.
pub trait AddsRow {
    /// The result of a call.
    type Answer;

    /// A call adds this function: the receiver before and after, and the result.
    ghost adds: { Self → Self → Result Self.Answer FaultSpec → Canonical → Type 0 };

    /// A call adds the function with the options that an iterator yields.
    ghost adds_with: { {S : Type 0} → (S → Option OptionSpec → S → Type 0) → S
        → Self → Self → Result Self.Answer FaultSpec → (List OptionSpec → Canonical) → Type 0 };

    /// Adds the builtin of this row, with these fields, whose values aren't part of its name.
    fn add_row<F: Fields>(&mut self, row: Row, fields: &F) -> Result<Self::Answer, Fault>
        requires row { row_with row.1 ≡ (row.0.now is row.1 takes F.kinds) }
        requires name { HasName row.1 row.0.now }
        ensures { adds self.old self.new result
            (builtin_by row.1 F.kinds (F.values fields.now)) };

    /// Adds the builtin of this row, with options after these fields, whose values aren't part of
    /// its name.
    fn add_row_with<F: Fields, I: Iterator<Item = CanonicalOption> + Drop>(
        &mut self,
        row: Row,
        fields: &F,
        options: I,
    ) -> Result<Self::Answer, Fault>
        requires row { row_with row.1
            ≡ (row.0.now is row.1 takes and_options F.kinds) }
        requires name { HasName row.1 row.0.now }
        requires can { I.can_next options }
        requires ends { IsFinite (I.remaining options) }
        ensures { adds_with I.next_gives options self.old self.new result
            (builtin_with row.1 F.kinds (F.values fields.now)) };
}

/// A type to which builtins with a task-local slot are added by their rows.
pub trait AddsSlotRow: AddsRow {
    /// Adds the builtin of this row, with a slot of this value type.
    fn add_slot_row(&mut self, row: Row, ty: ValType, slot: u32) -> Result<Self::Answer, Fault>
        requires { row_with row.1
            ≡ (row.0.now is row.1 takes CoreType ∷ Index ∷ []) }
        ensures { Self.adds self.old self.new result
            (builtin_by row.1 (CoreType ∷ Index ∷ []) (ty, slot)) };
}

/// The builtins, which are functions that the component model provides: each call adds one
/// (component model, binary format, "Canonical Definitions").
///
/// # Errors
///
/// Each call fails as the calls of the implementing type do.
pub trait AddsBuiltin: AddsRow {
    /// Adds `resource.new`, which creates an owned handle to a resource of this type.
    fn resource_new(&mut self, ty: u32) -> Result<Self::Answer, Fault>
        ensures { Self.adds self.old self.new result (OfBuiltin canon.ResourceNew ty) }
    {
        self.add_row(rows::RESOURCE_NEW, &ty)
    }

    /// Adds `resource.drop`, which drops a handle of this type.
    fn resource_drop(&mut self, ty: u32) -> Result<Self::Answer, Fault>
        ensures { Self.adds self.old self.new result (OfBuiltin canon.ResourceDrop ty) }
    {
        self.add_row(rows::RESOURCE_DROP, &ty)
    }

    /// Adds `resource.rep`, which returns the representation of a resource of this type.
    fn resource_rep(&mut self, ty: u32) -> Result<Self::Answer, Fault>
        ensures { Self.adds self.old self.new result (OfBuiltin canon.ResourceRep ty) }
    {
        self.add_row(rows::RESOURCE_REP, &ty)
    }

    /// Adds `thread.spawn-ref`, which starts a thread in a shared function of this type, given by a
    /// reference.
    fn thread_spawn_ref(&mut self, ty: u32) -> Result<Self::Answer, Fault>
        ensures { Self.adds self.old self.new result (OfBuiltin canon.ThreadSpawnRef ty) }
    {
        self.add_row(rows::THREAD_SPAWN_REF, &ty)
    }

    /// Adds `thread.spawn-indirect`, which starts a thread in a shared function of this type, given
    /// by its index in a table.
    fn thread_spawn_indirect(&mut self, ty: u32, table: u32) -> Result<Self::Answer, Fault>
        ensures { Self.adds self.old self.new result
            (OfBuiltin canon.ThreadSpawnIndirect (ty, table)) }
    {
        self.add_row(rows::THREAD_SPAWN_INDIRECT, &(ty, table))
    }

    /// Adds `thread.available-parallelism`, which returns how many threads can run at once.
    fn thread_available_parallelism(&mut self) -> Result<Self::Answer, Fault>
        ensures { Self.adds self.old self.new result
            (OfBuiltin canon.ThreadAvailableParallelism tt) }
    {
        self.add_row(rows::THREAD_AVAILABLE_PARALLELISM, &())
    }

    /// Adds `backpressure.inc`, which increments the counter that holds new calls back.
    fn backpressure_inc(&mut self) -> Result<Self::Answer, Fault>
        ensures { Self.adds self.old self.new result (OfBuiltin canon.BackpressureInc tt) }
    {
        self.add_row(rows::BACKPRESSURE_INC, &())
    }

    /// Adds `backpressure.dec`, which decrements the counter that holds new calls back.
    fn backpressure_dec(&mut self) -> Result<Self::Answer, Fault>
        ensures { Self.adds self.old self.new result (OfBuiltin canon.BackpressureDec tt) }
    {
        self.add_row(rows::BACKPRESSURE_DEC, &())
    }

    /// Adds `task.return`, which returns the result of a lifted function, or none, to its caller,
    /// while the callee continues.
    fn task_return<I: Iterator<Item = CanonicalOption> + Drop>(
        &mut self,
        ty: Option<ComponentValType>,
        options: I,
    ) -> Result<Self::Answer, Fault>
        requires can { I.can_next options }
        requires ends { IsFinite (I.remaining options) }
        ensures { Self.adds_with I.next_gives options self.old self.new result
            (λ os. OfBuiltin canon.TaskReturn (ty, os)) }
    {
        self.add_row_with(rows::TASK_RETURN, &ResultList(ty), options)
    }

    /// Adds `task.cancel`, which confirms that the current task was cancelled.
    fn task_cancel(&mut self) -> Result<Self::Answer, Fault>
        ensures { Self.adds self.old self.new result (OfBuiltin canon.TaskCancel tt) }
    {
        self.add_row(rows::TASK_CANCEL, &())
    }

    /// Adds `subtask.drop`, which drops a subtask that has ended.
    fn subtask_drop(&mut self) -> Result<Self::Answer, Fault>
        ensures { Self.adds self.old self.new result (OfBuiltin canon.SubtaskDrop tt) }
    {
        self.add_row(rows::SUBTASK_DROP, &())
    }

    /// Adds `subtask.cancel`, which cancels a subtask. With `async_` it may complete later.
    fn subtask_cancel(&mut self, async_: bool) -> Result<Self::Answer, Fault>
        ensures { Self.adds self.old self.new result (OfBuiltin canon.SubtaskCancel async_) }
    {
        self.add_row(rows::SUBTASK_CANCEL, &async_)
    }

    /// Adds `stream.new`, which creates a stream of this type.
    fn stream_new(&mut self, ty: u32) -> Result<Self::Answer, Fault>
        ensures { Self.adds self.old self.new result (OfBuiltin canon.StreamNew ty) }
    {
        self.add_row(rows::STREAM_NEW, &ty)
    }

    /// Adds `stream.read`, which reads from a stream of this type.
    fn stream_read<I: Iterator<Item = CanonicalOption> + Drop>(
        &mut self,
        ty: u32,
        options: I,
    ) -> Result<Self::Answer, Fault>
        requires can { I.can_next options }
        requires ends { IsFinite (I.remaining options) }
        ensures { Self.adds_with I.next_gives options self.old self.new result
            (λ os. OfBuiltin canon.StreamRead (ty, os)) }
    {
        self.add_row_with(rows::STREAM_READ, &ty, options)
    }

    /// Adds `stream.write`, which writes to a stream of this type.
    fn stream_write<I: Iterator<Item = CanonicalOption> + Drop>(
        &mut self,
        ty: u32,
        options: I,
    ) -> Result<Self::Answer, Fault>
        requires can { I.can_next options }
        requires ends { IsFinite (I.remaining options) }
        ensures { Self.adds_with I.next_gives options self.old self.new result
            (λ os. OfBuiltin canon.StreamWrite (ty, os)) }
    {
        self.add_row_with(rows::STREAM_WRITE, &ty, options)
    }

    /// Adds `stream.forward`, which forwards the rest of one stream of this type to another.
    fn stream_forward(&mut self, ty: u32) -> Result<Self::Answer, Fault>
        ensures { Self.adds self.old self.new result (OfBuiltin canon.StreamForward ty) }
    {
        self.add_row(rows::STREAM_FORWARD, &ty)
    }

    /// Adds `stream.cancel-read`, which cancels a read from a stream of this type. With `async_` it
    /// may complete later.
    fn stream_cancel_read(&mut self, ty: u32, async_: bool) -> Result<Self::Answer, Fault>
        ensures { Self.adds self.old self.new result
            (OfBuiltin canon.StreamCancelRead (ty, async_)) }
    {
        self.add_row(rows::STREAM_CANCEL_READ, &(ty, async_))
    }

    /// Adds `stream.cancel-write`, which cancels a write to a stream of this type. With `async_` it
    /// may complete later.
    fn stream_cancel_write(&mut self, ty: u32, async_: bool) -> Result<Self::Answer, Fault>
        ensures { Self.adds self.old self.new result
            (OfBuiltin canon.StreamCancelWrite (ty, async_)) }
    {
        self.add_row(rows::STREAM_CANCEL_WRITE, &(ty, async_))
    }

    /// Adds `stream.drop-readable`, which drops the readable end of a stream of this type.
    fn stream_drop_readable(&mut self, ty: u32) -> Result<Self::Answer, Fault>
        ensures { Self.adds self.old self.new result (OfBuiltin canon.StreamDropReadable ty) }
    {
        self.add_row(rows::STREAM_DROP_READABLE, &ty)
    }

    /// Adds `stream.drop-writable`, which drops the writable end of a stream of this type.
    fn stream_drop_writable(&mut self, ty: u32) -> Result<Self::Answer, Fault>
        ensures { Self.adds self.old self.new result (OfBuiltin canon.StreamDropWritable ty) }
    {
        self.add_row(rows::STREAM_DROP_WRITABLE, &ty)
    }

    /// Adds `future.new`, which creates a future of this type.
    fn future_new(&mut self, ty: u32) -> Result<Self::Answer, Fault>
        ensures { Self.adds self.old self.new result (OfBuiltin canon.FutureNew ty) }
    {
        self.add_row(rows::FUTURE_NEW, &ty)
    }

    /// Adds `future.read`, which reads from a future of this type.
    fn future_read<I: Iterator<Item = CanonicalOption> + Drop>(
        &mut self,
        ty: u32,
        options: I,
    ) -> Result<Self::Answer, Fault>
        requires can { I.can_next options }
        requires ends { IsFinite (I.remaining options) }
        ensures { Self.adds_with I.next_gives options self.old self.new result
            (λ os. OfBuiltin canon.FutureRead (ty, os)) }
    {
        self.add_row_with(rows::FUTURE_READ, &ty, options)
    }

    /// Adds `future.write`, which writes to a future of this type.
    fn future_write<I: Iterator<Item = CanonicalOption> + Drop>(
        &mut self,
        ty: u32,
        options: I,
    ) -> Result<Self::Answer, Fault>
        requires can { I.can_next options }
        requires ends { IsFinite (I.remaining options) }
        ensures { Self.adds_with I.next_gives options self.old self.new result
            (λ os. OfBuiltin canon.FutureWrite (ty, os)) }
    {
        self.add_row_with(rows::FUTURE_WRITE, &ty, options)
    }

    /// Adds `future.forward`, which forwards the value of one future of this type to another.
    fn future_forward(&mut self, ty: u32) -> Result<Self::Answer, Fault>
        ensures { Self.adds self.old self.new result (OfBuiltin canon.FutureForward ty) }
    {
        self.add_row(rows::FUTURE_FORWARD, &ty)
    }

    /// Adds `future.cancel-read`, which cancels a read from a future of this type. With `async_` it
    /// may complete later.
    fn future_cancel_read(&mut self, ty: u32, async_: bool) -> Result<Self::Answer, Fault>
        ensures { Self.adds self.old self.new result
            (OfBuiltin canon.FutureCancelRead (ty, async_)) }
    {
        self.add_row(rows::FUTURE_CANCEL_READ, &(ty, async_))
    }

    /// Adds `future.cancel-write`, which cancels a write to a future of this type. With `async_` it
    /// may complete later.
    fn future_cancel_write(&mut self, ty: u32, async_: bool) -> Result<Self::Answer, Fault>
        ensures { Self.adds self.old self.new result
            (OfBuiltin canon.FutureCancelWrite (ty, async_)) }
    {
        self.add_row(rows::FUTURE_CANCEL_WRITE, &(ty, async_))
    }

    /// Adds `future.drop-readable`, which drops the readable end of a future of this type.
    fn future_drop_readable(&mut self, ty: u32) -> Result<Self::Answer, Fault>
        ensures { Self.adds self.old self.new result (OfBuiltin canon.FutureDropReadable ty) }
    {
        self.add_row(rows::FUTURE_DROP_READABLE, &ty)
    }

    /// Adds `future.drop-writable`, which drops the writable end of a future of this type.
    fn future_drop_writable(&mut self, ty: u32) -> Result<Self::Answer, Fault>
        ensures { Self.adds self.old self.new result (OfBuiltin canon.FutureDropWritable ty) }
    {
        self.add_row(rows::FUTURE_DROP_WRITABLE, &ty)
    }

    /// Adds `waitable-set.new`, which creates a set of waitables.
    fn waitable_set_new(&mut self) -> Result<Self::Answer, Fault>
        ensures { Self.adds self.old self.new result (OfBuiltin canon.WaitableSetNew tt) }
    {
        self.add_row(rows::WAITABLE_SET_NEW, &())
    }

    /// Adds `waitable-set.wait`, which waits for an event in a waitable set, and stores it in the
    /// core memory with this index.
    fn waitable_set_wait(&mut self, memory: u32) -> Result<Self::Answer, Fault>
        ensures { Self.adds self.old self.new result
            (OfBuiltin canon.WaitableSetWait (tt, memory)) }
    {
        self.add_row(rows::WAITABLE_SET_WAIT, &(NotCancellable, memory))
    }

    /// Adds `waitable-set.poll`, which checks for an event in a waitable set, and stores it in the
    /// core memory with this index.
    fn waitable_set_poll(&mut self, memory: u32) -> Result<Self::Answer, Fault>
        ensures { Self.adds self.old self.new result
            (OfBuiltin canon.WaitableSetPoll (tt, memory)) }
    {
        self.add_row(rows::WAITABLE_SET_POLL, &(NotCancellable, memory))
    }

    /// Adds `waitable-set.drop`, which drops a waitable set.
    fn waitable_set_drop(&mut self) -> Result<Self::Answer, Fault>
        ensures { Self.adds self.old self.new result (OfBuiltin canon.WaitableSetDrop tt) }
    {
        self.add_row(rows::WAITABLE_SET_DROP, &())
    }

    /// Adds `waitable.join`, which adds a waitable to a set.
    fn waitable_join(&mut self) -> Result<Self::Answer, Fault>
        ensures { Self.adds self.old self.new result (OfBuiltin canon.WaitableJoin tt) }
    {
        self.add_row(rows::WAITABLE_JOIN, &())
    }

    /// Adds `thread.index`, which returns the index of the current thread.
    fn thread_index(&mut self) -> Result<Self::Answer, Fault>
        ensures { Self.adds self.old self.new result (OfBuiltin canon.ThreadIndex tt) }
    {
        self.add_row(rows::THREAD_INDEX, &())
    }

    /// Adds `thread.new-indirect`, which creates a thread for a function of this type, given by its
    /// index in a table.
    fn thread_new_indirect(&mut self, ty: u32, table: u32) -> Result<Self::Answer, Fault>
        ensures { Self.adds self.old self.new result
            (OfBuiltin canon.ThreadNewIndirect (ty, table)) }
    {
        self.add_row(rows::THREAD_NEW_INDIRECT, &(ty, table))
    }

    /// Adds `thread.resume-later`, which lets a suspended thread continue later.
    fn thread_resume_later(&mut self) -> Result<Self::Answer, Fault>
        ensures { Self.adds self.old self.new result (OfBuiltin canon.ThreadResumeLater tt) }
    {
        self.add_row(rows::THREAD_RESUME_LATER, &())
    }

    /// Adds `thread.suspend`, which suspends the current thread.
    fn thread_suspend(&mut self) -> Result<Self::Answer, Fault>
        ensures { Self.adds self.old self.new result (OfBuiltin canon.ThreadSuspend tt) }
    {
        self.add_row(rows::THREAD_SUSPEND, &NotCancellable)
    }

    /// Adds `thread.yield`, which lets other threads run.
    fn thread_yield(&mut self) -> Result<Self::Answer, Fault>
        ensures { Self.adds self.old self.new result (OfBuiltin canon.ThreadYield tt) }
    {
        self.add_row(rows::THREAD_YIELD, &NotCancellable)
    }

    /// Adds `thread.suspend-then-resume`, which suspends the current thread, and resumes another at
    /// once.
    fn thread_suspend_then_resume(&mut self) -> Result<Self::Answer, Fault>
        ensures { Self.adds self.old self.new result (OfBuiltin canon.ThreadSuspendThenResume tt) }
    {
        self.add_row(rows::THREAD_SUSPEND_THEN_RESUME, &NotCancellable)
    }

    /// Adds `thread.yield-then-resume`, which resumes another thread at once, and the current one
    /// after it.
    fn thread_yield_then_resume(&mut self) -> Result<Self::Answer, Fault>
        ensures { Self.adds self.old self.new result (OfBuiltin canon.ThreadYieldThenResume tt) }
    {
        self.add_row(rows::THREAD_YIELD_THEN_RESUME, &NotCancellable)
    }

    /// Adds `thread.suspend-then-promote`, which suspends the current thread, and moves another to
    /// the front of those that wait.
    fn thread_suspend_then_promote(&mut self) -> Result<Self::Answer, Fault>
        ensures { Self.adds self.old self.new result (OfBuiltin canon.ThreadSuspendThenPromote tt) }
    {
        self.add_row(rows::THREAD_SUSPEND_THEN_PROMOTE, &NotCancellable)
    }

    /// Adds `thread.yield-then-promote`, which lets other threads run, first the one that it moves
    /// to the front of those that wait.
    fn thread_yield_then_promote(&mut self) -> Result<Self::Answer, Fault>
        ensures { Self.adds self.old self.new result (OfBuiltin canon.ThreadYieldThenPromote tt) }
    {
        self.add_row(rows::THREAD_YIELD_THEN_PROMOTE, &NotCancellable)
    }

    /// Adds `error-context.new`, which creates an error context with a message.
    fn error_context_new<I: Iterator<Item = CanonicalOption> + Drop>(
        &mut self,
        options: I,
    ) -> Result<Self::Answer, Fault>
        requires can { I.can_next options }
        requires ends { IsFinite (I.remaining options) }
        ensures { Self.adds_with I.next_gives options self.old self.new result
            (λ os. OfBuiltin canon.ErrorContextNew os) }
    {
        self.add_row_with(rows::ERROR_CONTEXT_NEW, &(), options)
    }

    /// Adds `error-context.debug-message`, which returns the message of an error context.
    fn error_context_debug_message<I: Iterator<Item = CanonicalOption> + Drop>(
        &mut self,
        options: I,
    ) -> Result<Self::Answer, Fault>
        requires can { I.can_next options }
        requires ends { IsFinite (I.remaining options) }
        ensures { Self.adds_with I.next_gives options self.old self.new result
            (λ os. OfBuiltin canon.ErrorContextDebugMessage os) }
    {
        self.add_row_with(rows::ERROR_CONTEXT_DEBUG_MESSAGE, &(), options)
    }

    /// Adds `error-context.drop`, which drops an error context.
    fn error_context_drop(&mut self) -> Result<Self::Answer, Fault>
        ensures { Self.adds self.old self.new result (OfBuiltin canon.ErrorContextDrop tt) }
    {
        self.add_row(rows::ERROR_CONTEXT_DROP, &())
    }
}

/// The builtins for the slots of a task. Their debug names end with the number of the slot
/// (component model, binary format, "Canonical Definitions").
///
/// # Errors
///
/// Each call fails as the calls of the implementing type do.
pub trait AddsSlot: AddsSlotRow {
    /// Adds `context.get`, which reads a slot of the current task, with this value type.
    fn context_get(&mut self, ty: ValType, slot: u32) -> Result<Self::Answer, Fault>
        ensures { Self.adds self.old self.new result (OfBuiltin canon.ContextGet (ty, slot)) }
    {
        self.add_slot_row(rows::CONTEXT_GET, ty, slot)
    }

    /// Adds `context.set`, which writes a slot of the current task, with this value type.
    fn context_set(&mut self, ty: ValType, slot: u32) -> Result<Self::Answer, Fault>
        ensures { Self.adds self.old self.new result (OfBuiltin canon.ContextSet (ty, slot)) }
    {
        self.add_slot_row(rows::CONTEXT_SET, ty, slot)
    }
}
