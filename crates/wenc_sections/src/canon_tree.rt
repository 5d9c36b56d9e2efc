//! Canonical functions, as trees.
ghost use Rattle.std.specs.Prelude.{OnOk};
ghost use Rattle.wenc_base.specs.Prelude.{Appends, Serves, serves_itself, as_seen};
ghost use Rattle.wenc_canon.specs.Prelude.{Lift, Lower, canonical, row_first_byte, row_then};
ghost use Rattle.wenc_canon.specs.Prelude.{builtin_name, canonical_lawful};
ghost use Rattle.wenc_sections.specs.Prelude.{canon_view, operand_behind};

use std::alloc::{AllocError, Allocator, Global};
use wenc_base::{Delimited, Encode, Fault, Prefix, Tagged, ValType};
use wenc_canon::rows::{self, Row};
use wenc_canon::{CanonicalOption, Fields, NotCancellable};
use wenc_parts::{ComponentValType, ResultList};

/// A canonical function, as a tree (component model, binary format, "Canonical Definitions").
///
/// More than 4294967295 options can't be encoded (`TooMany`).
///
/// ```
/// let mut sink = Vec::new(alloc);
/// let drop: CanonTree = CanonTree::ResourceDrop(3);
/// drop.encode(&mut sink)?;
/// ```
pub type CanonTree<A = Global> = CanonOf<Vec<CanonicalOption, A>>;

/// A canonical function, whose options are an `O`: a `CanonTree` owns them, a `CanonView` borrows
/// them. A `use` of its variants names `CanonOf`, not an alias.
#[derive(Drop)]
#[derive(Copy, PartialEq, Eq)]
pub enum CanonOf<O> {
    /// `canon lift`: lifts a core function to a component function of this type.
    Lift {
        /// The index of the core function.
        core_func: u32,
        /// The index of the component function's type.
        ty: u32,
        /// The options, in order.
        options: O,
    },
    /// `canon lower`: lowers a component function to a core function.
    Lower {
        /// The index of the component function.
        func: u32,
        /// The options, in order.
        options: O,
    },
    /// `resource.new`: creates an owned handle to a resource of this type.
    ResourceNew(u32),
    /// `resource.drop`: drops a handle of this type.
    ResourceDrop(u32),
    /// `resource.rep`: returns the representation of a resource of this type.
    ResourceRep(u32),
    /// `task.cancel`: confirms that the current task was cancelled.
    TaskCancel,
    /// `subtask.cancel`: cancels a subtask. With `true` it may complete later.
    SubtaskCancel(bool),
    /// `task.return`: returns the result of a lifted function, or none, to its caller, while the
    /// callee continues.
    TaskReturn {
        /// The type of the result, if there is one.
        ty: Option<ComponentValType>,
        /// The options, in order.
        options: O,
    },
    /// `context.get`: reads a slot of the current task, with this value type.
    ContextGet {
        /// The type of the slot.
        ty: ValType,
        /// The index of the slot.
        slot: u32,
    },
    /// `context.set`: writes a slot of the current task, with this value type.
    ContextSet {
        /// The type of the slot.
        ty: ValType,
        /// The index of the slot.
        slot: u32,
    },
    /// `thread.yield`: lets other threads run.
    ThreadYield,
    /// `subtask.drop`: drops a subtask that has ended.
    SubtaskDrop,
    /// `stream.new`: creates a stream of this type.
    StreamNew(u32),
    /// `stream.read`: reads from a stream of this type.
    StreamRead {
        /// The index of the type.
        ty: u32,
        /// The options, in order.
        options: O,
    },
    /// `stream.write`: writes to a stream of this type.
    StreamWrite {
        /// The index of the type.
        ty: u32,
        /// The options, in order.
        options: O,
    },
    /// `stream.cancel-read`: cancels a read from a stream of this type.
    StreamCancelRead {
        /// The index of the type.
        ty: u32,
        /// Whether the cancellation may complete later.
        async_: bool,
    },
    /// `stream.cancel-write`: cancels a write to a stream of this type.
    StreamCancelWrite {
        /// The index of the type.
        ty: u32,
        /// Whether the cancellation may complete later.
        async_: bool,
    },
    /// `stream.drop-readable`: drops the readable end of a stream of this type.
    StreamDropReadable(u32),
    /// `stream.drop-writable`: drops the writable end of a stream of this type.
    StreamDropWritable(u32),
    /// `future.new`: creates a future of this type.
    FutureNew(u32),
    /// `future.read`: reads from a future of this type.
    FutureRead {
        /// The index of the type.
        ty: u32,
        /// The options, in order.
        options: O,
    },
    /// `future.write`: writes to a future of this type.
    FutureWrite {
        /// The index of the type.
        ty: u32,
        /// The options, in order.
        options: O,
    },
    /// `future.cancel-read`: cancels a read from a future of this type.
    FutureCancelRead {
        /// The index of the type.
        ty: u32,
        /// Whether the cancellation may complete later.
        async_: bool,
    },
    /// `future.cancel-write`: cancels a write to a future of this type.
    FutureCancelWrite {
        /// The index of the type.
        ty: u32,
        /// Whether the cancellation may complete later.
        async_: bool,
    },
    /// `future.drop-readable`: drops the readable end of a future of this type.
    FutureDropReadable(u32),
    /// `future.drop-writable`: drops the writable end of a future of this type.
    FutureDropWritable(u32),
    /// `error-context.new`: creates an error context with a message.
    ErrorContextNew(O),
    /// `error-context.debug-message`: returns the message of an error context.
    ErrorContextDebugMessage(O),
    /// `error-context.drop`: drops an error context.
    ErrorContextDrop,
    /// `waitable-set.new`: creates a set of waitables.
    WaitableSetNew,
    /// `waitable-set.wait`: waits for an event in a waitable set, and stores it in this core
    /// memory.
    WaitableSetWait(u32),
    /// `waitable-set.poll`: checks for an event in a waitable set, and stores it in this core
    /// memory.
    WaitableSetPoll(u32),
    /// `waitable-set.drop`: drops a waitable set.
    WaitableSetDrop,
    /// `waitable.join`: adds a waitable to a set.
    WaitableJoin,
    /// `backpressure.inc`: increments the counter that holds new calls back.
    BackpressureInc,
    /// `backpressure.dec`: decrements the counter that holds new calls back.
    BackpressureDec,
    /// `thread.index`: returns the index of the current thread.
    ThreadIndex,
    /// `thread.new-indirect`: creates a thread for a function of this type, given by its index in a
    /// table.
    ThreadNewIndirect {
        /// The index of the type.
        ty: u32,
        /// The index of the table.
        table: u32,
    },
    /// `thread.resume-later`: lets a suspended thread continue later.
    ThreadResumeLater,
    /// `thread.suspend`: suspends the current thread.
    ThreadSuspend,
    /// `thread.suspend-then-resume`: suspends the current thread, and resumes another at once.
    ThreadSuspendThenResume,
    /// `thread.yield-then-resume`: resumes another thread at once, and the current one after it.
    ThreadYieldThenResume,
    /// `thread.suspend-then-promote`: suspends the current thread, and moves another to the front
    /// of those that wait.
    ThreadSuspendThenPromote,
    /// `thread.yield-then-promote`: lets other threads run, first the one that it moves to the
    /// front of those that wait.
    ThreadYieldThenPromote,
    /// `stream.forward`: forwards the rest of one stream of this type to another.
    StreamForward(u32),
    /// `future.forward`: forwards the value of one future of this type to another.
    FutureForward(u32),
    /// `thread.spawn-ref`: starts a thread in a shared function of this type, given by a reference.
    ThreadSpawnRef(u32),
    /// `thread.spawn-indirect`: starts a thread in a shared function of this type, given by its
    /// index in a table.
    ThreadSpawnIndirect {
        /// The index of the type.
        ty: u32,
        /// The index of the table.
        table: u32,
    },
    /// `thread.available-parallelism`: returns how many threads can run at once.
    ThreadAvailableParallelism,
}

impl<O: Copy> Clone for CanonOf<O> {
    ghost use Rattle.std.specs.Prelude.{◌≡◌, ⊤};

    ghost is_clone = { λ x y. y ≡ x };

    ghost is_infallible = { λ _. ⊤ };

    fn clone(&self) -> Result<CanonOf<O>, AllocError> {
        Ok(*self)
    }
}

impl<A: Allocator> CanonTree<A> {
    ghost use Rattle.std.specs.Prelude.{◌≡◌};

    /// Returns the name of the function, without the number of a slot.
    pub fn name(&self) -> &'static str
        ensures { result.now ≡ builtin_name (canon_view self.now) }
    {
        self.row().0
    }

    /// Returns the row of the function.
    #[inline(always)]
    fn row(&self) -> &'static Row
        ensures name { result.now.0.now ≡ builtin_name (canon_view self.now) }
        ensures opcode { result.now.1 ≡ row_first_byte (canon_view self.now) }
    {
        match self {
            CanonTree::Lift { .. } => &rows::LIFT,
            CanonTree::Lower { .. } => &rows::LOWER,
            CanonTree::ResourceNew(_) => &rows::RESOURCE_NEW,
            CanonTree::ResourceDrop(_) => &rows::RESOURCE_DROP,
            CanonTree::ResourceRep(_) => &rows::RESOURCE_REP,
            CanonTree::TaskCancel => &rows::TASK_CANCEL,
            CanonTree::SubtaskCancel(_) => &rows::SUBTASK_CANCEL,
            CanonTree::TaskReturn { .. } => &rows::TASK_RETURN,
            CanonTree::ContextGet { .. } => &rows::CONTEXT_GET,
            CanonTree::ContextSet { .. } => &rows::CONTEXT_SET,
            CanonTree::ThreadYield => &rows::THREAD_YIELD,
            CanonTree::SubtaskDrop => &rows::SUBTASK_DROP,
            CanonTree::StreamNew(_) => &rows::STREAM_NEW,
            CanonTree::StreamRead { .. } => &rows::STREAM_READ,
            CanonTree::StreamWrite { .. } => &rows::STREAM_WRITE,
            CanonTree::StreamCancelRead { .. } => &rows::STREAM_CANCEL_READ,
            CanonTree::StreamCancelWrite { .. } => &rows::STREAM_CANCEL_WRITE,
            CanonTree::StreamDropReadable(_) => &rows::STREAM_DROP_READABLE,
            CanonTree::StreamDropWritable(_) => &rows::STREAM_DROP_WRITABLE,
            CanonTree::FutureNew(_) => &rows::FUTURE_NEW,
            CanonTree::FutureRead { .. } => &rows::FUTURE_READ,
            CanonTree::FutureWrite { .. } => &rows::FUTURE_WRITE,
            CanonTree::FutureCancelRead { .. } => &rows::FUTURE_CANCEL_READ,
            CanonTree::FutureCancelWrite { .. } => &rows::FUTURE_CANCEL_WRITE,
            CanonTree::FutureDropReadable(_) => &rows::FUTURE_DROP_READABLE,
            CanonTree::FutureDropWritable(_) => &rows::FUTURE_DROP_WRITABLE,
            CanonTree::ErrorContextNew(_) => &rows::ERROR_CONTEXT_NEW,
            CanonTree::ErrorContextDebugMessage(_) => &rows::ERROR_CONTEXT_DEBUG_MESSAGE,
            CanonTree::ErrorContextDrop => &rows::ERROR_CONTEXT_DROP,
            CanonTree::WaitableSetNew => &rows::WAITABLE_SET_NEW,
            CanonTree::WaitableSetWait(_) => &rows::WAITABLE_SET_WAIT,
            CanonTree::WaitableSetPoll(_) => &rows::WAITABLE_SET_POLL,
            CanonTree::WaitableSetDrop => &rows::WAITABLE_SET_DROP,
            CanonTree::WaitableJoin => &rows::WAITABLE_JOIN,
            CanonTree::BackpressureInc => &rows::BACKPRESSURE_INC,
            CanonTree::BackpressureDec => &rows::BACKPRESSURE_DEC,
            CanonTree::ThreadIndex => &rows::THREAD_INDEX,
            CanonTree::ThreadNewIndirect { .. } => &rows::THREAD_NEW_INDIRECT,
            CanonTree::ThreadResumeLater => &rows::THREAD_RESUME_LATER,
            CanonTree::ThreadSuspend => &rows::THREAD_SUSPEND,
            CanonTree::ThreadSuspendThenResume => &rows::THREAD_SUSPEND_THEN_RESUME,
            CanonTree::ThreadYieldThenResume => &rows::THREAD_YIELD_THEN_RESUME,
            CanonTree::ThreadSuspendThenPromote => &rows::THREAD_SUSPEND_THEN_PROMOTE,
            CanonTree::ThreadYieldThenPromote => &rows::THREAD_YIELD_THEN_PROMOTE,
            CanonTree::StreamForward(_) => &rows::STREAM_FORWARD,
            CanonTree::FutureForward(_) => &rows::FUTURE_FORWARD,
            CanonTree::ThreadSpawnRef(_) => &rows::THREAD_SPAWN_REF,
            CanonTree::ThreadSpawnIndirect { .. } => &rows::THREAD_SPAWN_INDIRECT,
            CanonTree::ThreadAvailableParallelism => &rows::THREAD_AVAILABLE_PARALLELISM,
        }
    }

    /// Returns the operands, which follow the function's opcode.
    #[tactic(auto, using(wenc_base::specs::laws::Serves::serves_itself))]
    #[inline(always)]
    fn operands(&self) -> Operands<'_, A>
        ensures { Serves (operand_behind (row_first_byte (canon_view self.now)) result)
            (canonical (canon_view self.now)) }
    {
        match self {
            CanonTree::Lift {
                core_func,
                ty,
                options,
            } => Operands::Lifted(*core_func, *ty, options),
            CanonTree::Lower { func, options } => Operands::Lowered(*func, options),
            CanonTree::ResourceNew(index)
            | CanonTree::ResourceDrop(index)
            | CanonTree::ResourceRep(index)
            | CanonTree::StreamNew(index)
            | CanonTree::StreamDropReadable(index)
            | CanonTree::StreamDropWritable(index)
            | CanonTree::FutureNew(index)
            | CanonTree::FutureDropReadable(index)
            | CanonTree::FutureDropWritable(index)
            | CanonTree::StreamForward(index)
            | CanonTree::FutureForward(index)
            | CanonTree::ThreadSpawnRef(index) => Operands::Index(*index),
            CanonTree::TaskCancel
            | CanonTree::SubtaskDrop
            | CanonTree::ErrorContextDrop
            | CanonTree::WaitableSetNew
            | CanonTree::WaitableSetDrop
            | CanonTree::WaitableJoin
            | CanonTree::BackpressureInc
            | CanonTree::BackpressureDec
            | CanonTree::ThreadIndex
            | CanonTree::ThreadResumeLater
            | CanonTree::ThreadAvailableParallelism => Operands::Nothing,
            CanonTree::SubtaskCancel(async_) => Operands::Flag(*async_),
            CanonTree::TaskReturn { ty, options } => Operands::ResultsAndOptions(*ty, options),
            CanonTree::ContextGet { ty, slot } | CanonTree::ContextSet { ty, slot } =>
                Operands::Slot(*ty, *slot),
            CanonTree::ThreadYield
            | CanonTree::ThreadSuspend
            | CanonTree::ThreadSuspendThenResume
            | CanonTree::ThreadYieldThenResume
            | CanonTree::ThreadSuspendThenPromote
            | CanonTree::ThreadYieldThenPromote => Operands::NotCancellable,
            CanonTree::StreamRead { ty, options }
            | CanonTree::StreamWrite { ty, options }
            | CanonTree::FutureRead { ty, options }
            | CanonTree::FutureWrite { ty, options } => Operands::IndexAndOptions(*ty, options),
            CanonTree::StreamCancelRead { ty, async_ }
            | CanonTree::StreamCancelWrite { ty, async_ }
            | CanonTree::FutureCancelRead { ty, async_ }
            | CanonTree::FutureCancelWrite { ty, async_ } => Operands::IndexAndFlag(*ty, *async_),
            CanonTree::ErrorContextNew(options) | CanonTree::ErrorContextDebugMessage(options) =>
                Operands::Options(options),
            CanonTree::WaitableSetWait(memory) | CanonTree::WaitableSetPoll(memory) =>
                Operands::Memory(*memory),
            CanonTree::ThreadNewIndirect { ty, table }
            | CanonTree::ThreadSpawnIndirect { ty, table } => Operands::Indices(*ty, *table),
        }
    }
}

/// The operands of a canonical function, which follow its opcode.
#[derive(Drop)]
enum Operands<'a, A: Allocator> {
    /// The core function and the type of a lifted function, and its options, which are encoded
    /// between the two.
    Lifted(u32, u32, &'a Vec<CanonicalOption, A>),
    /// The function that is lowered, and its options.
    Lowered(u32, &'a Vec<CanonicalOption, A>),
    Nothing,
    NotCancellable,
    Index(u32),
    Flag(bool),
    /// The byte for not cancellable, and the index of a memory.
    Memory(u32),
    IndexAndFlag(u32, bool),
    Indices(u32, u32),
    /// The value type of a slot, and its index.
    Slot(ValType, u32),
    Options(&'a Vec<CanonicalOption, A>),
    IndexAndOptions(u32, &'a Vec<CanonicalOption, A>),
    ResultsAndOptions(Option<ComponentValType>, &'a Vec<CanonicalOption, A>),
}

impl<'a, A: Allocator> Operands<'a, A> {
    /// Appends this opcode, then the operands.
    fn encode_behind<B: Allocator>(&self, opcode: u8, sink: &mut Vec<u8, B>) -> Result<(), Fault>
        ensures appended { let p = operand_behind opcode self.now in
            Appends p.text p.Cause ⊥ sink.old.items sink.new.items result }
        ensures fits { OnOk result (operand_behind opcode self.now).Fits }
    {
        match self {
            Operands::Lifted(core_func, ty, options) => lifted(core_func, *ty, options, sink),
            Operands::Lowered(func, options) => lowered(func, options, sink),
            Operands::Nothing => Prefix(opcode, &()).encode(sink),
            Operands::NotCancellable => Prefix(opcode, &NotCancellable).encode(sink),
            Operands::Index(index) => Prefix(opcode, index).encode(sink),
            Operands::Flag(async_) => Prefix(opcode, async_).encode(sink),
            Operands::Memory(memory) => Prefix(opcode, &(NotCancellable, *memory)).encode(sink),
            Operands::IndexAndFlag(ty, async_) => Prefix(opcode, &(*ty, *async_)).encode(sink),
            Operands::Indices(ty, table) => Prefix(opcode, &(*ty, *table)).encode(sink),
            Operands::Slot(ty, slot) => Prefix(opcode, &(*ty, *slot)).encode(sink),
            Operands::Options(options) => with_options(opcode, &(), options, sink),
            Operands::IndexAndOptions(ty, options) => with_options(opcode, ty, options, sink),
            Operands::ResultsAndOptions(ty, options) => {
                with_options(opcode, &ResultList(*ty), options, sink)
            }
        }
    }
}

impl<A: Allocator> Encode for CanonTree<A> {
    ghost piece = { λ t. canonical (canon_view t) };

    fn encode<B: Allocator>(&self, sink: &mut Vec<u8, B>) -> Result<(), Fault> {
        self.operands().encode_behind(self.row().1, sink)
    }
}

impl<A: Allocator> Delimited for CanonTree<A> {
    ghost reads_back = { as_seen canon_view canonical_lawful };

    ghost written = { λ _. serves_itself };
}

/// Appends this opcode, these fields, then these options.
fn with_options<F: Fields, A: Allocator, B: Allocator>(
    opcode: u8,
    fields: &F,
    options: &Vec<CanonicalOption, A>,
    sink: &mut Vec<u8, B>,
) -> Result<(), Fault>
    ensures appended { let row = row_then opcode F.kinds (F.values fields.now) options.now.items in
        Appends row.text row.Cause (F.unfinished fields.now) sink.old.items sink.new.items result }
    ensures fits { OnOk result
        (row_then opcode F.kinds (F.values fields.now) options.now.items).Fits }
{
    (Tagged(opcode, fields), options.as_slice()).encode(sink)
}

/// Appends a function that is lifted, with its options before its type.
fn lifted<A: Allocator, B: Allocator>(
    core_func: &u32,
    ty: u32,
    options: &Vec<CanonicalOption, A>,
    sink: &mut Vec<u8, B>,
) -> Result<(), Fault>
    ensures appended { let function = canonical (Lift core_func.now options.now.items ty) in
        Appends function.text function.Cause ⊥ sink.old.items sink.new.items result }
    ensures fits { OnOk result (canonical (Lift core_func.now options.now.items ty)).Fits }
{
    let lead = Prefix(rows::PLAIN, core_func);
    (Prefix(rows::LIFT.1, &lead), options.as_slice(), ty).encode(sink)
}

/// Appends a function that is lowered.
fn lowered<A: Allocator, B: Allocator>(
    func: &u32,
    options: &Vec<CanonicalOption, A>,
    sink: &mut Vec<u8, B>,
) -> Result<(), Fault>
    ensures appended { let function = canonical (Lower func.now options.now.items) in
        Appends function.text function.Cause ⊥ sink.old.items sink.new.items result }
    ensures fits { OnOk result (canonical (Lower func.now options.now.items)).Fits }
{
    let lead = Prefix(rows::PLAIN, func);
    (Prefix(rows::LOWER.1, &lead), options.as_slice()).encode(sink)
}
