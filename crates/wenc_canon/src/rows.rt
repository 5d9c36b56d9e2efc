//! The name and the opcode of each canonical function (component model, explainer, "Canonical
//! Built-ins", and binary format, "Canonical Definitions"; docs/FORMAT.md lists their fields).

/// The name of a canonical function, without the number of a slot, and its opcode: the first byte
/// of its encoding.
#[derive(Clone, Copy)]
pub struct Row(pub &'static str, pub u8);

/// The byte after the opcodes of `LIFT` and `LOWER`.
pub const PLAIN: u8 = 0x00;

/// `lift`, followed by the byte `PLAIN`.
pub const LIFT: Row = Row("lift", 0x00);

/// `lower`, followed by the byte `PLAIN`.
pub const LOWER: Row = Row("lower", 0x01);

/// `resource.new`.
pub const RESOURCE_NEW: Row = Row("resource.new", 0x02);

/// `resource.drop`.
pub const RESOURCE_DROP: Row = Row("resource.drop", 0x03);

/// `resource.rep`.
pub const RESOURCE_REP: Row = Row("resource.rep", 0x04);

/// `task.cancel`.
pub const TASK_CANCEL: Row = Row("task.cancel", 0x05);

/// `subtask.cancel`.
pub const SUBTASK_CANCEL: Row = Row("subtask.cancel", 0x06);

/// `task.return`.
pub const TASK_RETURN: Row = Row("task.return", 0x09);

/// `context.get`.
pub const CONTEXT_GET: Row = Row("context.get", 0x0a);

/// `context.set`.
pub const CONTEXT_SET: Row = Row("context.set", 0x0b);

/// `thread.yield`.
pub const THREAD_YIELD: Row = Row("thread.yield", 0x0c);

/// `subtask.drop`.
pub const SUBTASK_DROP: Row = Row("subtask.drop", 0x0d);

/// `stream.new`.
pub const STREAM_NEW: Row = Row("stream.new", 0x0e);

/// `stream.read`.
pub const STREAM_READ: Row = Row("stream.read", 0x0f);

/// `stream.write`.
pub const STREAM_WRITE: Row = Row("stream.write", 0x10);

/// `stream.cancel-read`.
pub const STREAM_CANCEL_READ: Row = Row("stream.cancel-read", 0x11);

/// `stream.cancel-write`.
pub const STREAM_CANCEL_WRITE: Row = Row("stream.cancel-write", 0x12);

/// `stream.drop-readable`.
pub const STREAM_DROP_READABLE: Row = Row("stream.drop-readable", 0x13);

/// `stream.drop-writable`.
pub const STREAM_DROP_WRITABLE: Row = Row("stream.drop-writable", 0x14);

/// `future.new`.
pub const FUTURE_NEW: Row = Row("future.new", 0x15);

/// `future.read`.
pub const FUTURE_READ: Row = Row("future.read", 0x16);

/// `future.write`.
pub const FUTURE_WRITE: Row = Row("future.write", 0x17);

/// `future.cancel-read`.
pub const FUTURE_CANCEL_READ: Row = Row("future.cancel-read", 0x18);

/// `future.cancel-write`.
pub const FUTURE_CANCEL_WRITE: Row = Row("future.cancel-write", 0x19);

/// `future.drop-readable`.
pub const FUTURE_DROP_READABLE: Row = Row("future.drop-readable", 0x1a);

/// `future.drop-writable`.
pub const FUTURE_DROP_WRITABLE: Row = Row("future.drop-writable", 0x1b);

/// `error-context.new`.
pub const ERROR_CONTEXT_NEW: Row = Row("error-context.new", 0x1c);

/// `error-context.debug-message`.
pub const ERROR_CONTEXT_DEBUG_MESSAGE: Row = Row("error-context.debug-message", 0x1d);

/// `error-context.drop`.
pub const ERROR_CONTEXT_DROP: Row = Row("error-context.drop", 0x1e);

/// `waitable-set.new`.
pub const WAITABLE_SET_NEW: Row = Row("waitable-set.new", 0x1f);

/// `waitable-set.wait`.
pub const WAITABLE_SET_WAIT: Row = Row("waitable-set.wait", 0x20);

/// `waitable-set.poll`.
pub const WAITABLE_SET_POLL: Row = Row("waitable-set.poll", 0x21);

/// `waitable-set.drop`.
pub const WAITABLE_SET_DROP: Row = Row("waitable-set.drop", 0x22);

/// `waitable.join`.
pub const WAITABLE_JOIN: Row = Row("waitable.join", 0x23);

/// `backpressure.inc`.
pub const BACKPRESSURE_INC: Row = Row("backpressure.inc", 0x24);

/// `backpressure.dec`.
pub const BACKPRESSURE_DEC: Row = Row("backpressure.dec", 0x25);

/// `thread.index`.
pub const THREAD_INDEX: Row = Row("thread.index", 0x26);

/// `thread.new-indirect`.
pub const THREAD_NEW_INDIRECT: Row = Row("thread.new-indirect", 0x27);

/// `thread.resume-later`.
pub const THREAD_RESUME_LATER: Row = Row("thread.resume-later", 0x28);

/// `thread.suspend`.
pub const THREAD_SUSPEND: Row = Row("thread.suspend", 0x29);

/// `thread.suspend-then-resume`.
pub const THREAD_SUSPEND_THEN_RESUME: Row = Row("thread.suspend-then-resume", 0x2a);

/// `thread.yield-then-resume`.
pub const THREAD_YIELD_THEN_RESUME: Row = Row("thread.yield-then-resume", 0x2b);

/// `thread.suspend-then-promote`.
pub const THREAD_SUSPEND_THEN_PROMOTE: Row = Row("thread.suspend-then-promote", 0x2c);

/// `thread.yield-then-promote`.
pub const THREAD_YIELD_THEN_PROMOTE: Row = Row("thread.yield-then-promote", 0x2d);

/// `stream.forward`.
pub const STREAM_FORWARD: Row = Row("stream.forward", 0x2e);

/// `future.forward`.
pub const FUTURE_FORWARD: Row = Row("future.forward", 0x2f);

/// `thread.spawn-ref`.
pub const THREAD_SPAWN_REF: Row = Row("thread.spawn-ref", 0x40);

/// `thread.spawn-indirect`.
pub const THREAD_SPAWN_INDIRECT: Row = Row("thread.spawn-indirect", 0x41);

/// `thread.available-parallelism`.
pub const THREAD_AVAILABLE_PARALLELISM: Row = Row("thread.available-parallelism", 0x42);
