//! What tasks and the runner tell each other.

use gpi::{SigId, Write};
use port_io::{Name, Sequence};
use py_syntax::LogLevel;
use py_value::{EventNo, Fault, LockNo, QueueNo, TaskNo, Trig, Value};

/// What a task wants next.
#[derive(Drop)]
pub enum Turned {
    /// To wait for the trigger (cocotb 1.8, "Triggers"). It is given the trigger's result once that is done: for a join the value of the task, for
    /// `First` the result of the part that was done first, else the trigger itself; or the fault of the wait.
    Await(Trig),
    /// To stage a write: `signal.value = v` (cocotb 1.8, "Writing values"). It is given `None`, and the design sees the write at the next read-write
    /// phase. In the read-only phase the write ends the test, and no handler of the task sees it. So with `signal.value = Force(v)`, `Freeze()` and
    /// `Release()` (cocotb 1.8, `cocotb.handle`).
    Stage {
        sig: SigId,
        act: Write,
    },
    /// To write at once: `signal.setimmediatevalue(v)`. It is given `None`. In the read-only phase as above.
    Put {
        sig: SigId,
        act: Write,
    },
    /// To start a task of the function of that number, with these values for its parameters, in order (cocotb 1.8, "Coroutines and Tasks"). It is
    /// given the task. With `give_way` the new task runs before this one goes on.
    Start {
        func: u32,
        args: Sequence<Value>,
        give_way: bool,
    },
    /// To kill a task: `task.kill()`. It is given `None`.
    Kill(TaskNo),
    /// To make an event: `Event()`. It is given the event, which isn't set.
    NewEvent,
    /// To set an event and wake those that wait for it: `event.set()`. It is given `None`.
    SetEvent(EventNo),
    /// To clear an event: `event.clear()`. It is given `None`.
    ClearEvent(EventNo),
    /// To make a lock: `Lock()`. It is given the lock, which is free.
    NewLock,
    /// To release a lock: `lock.release()`, or the end of an `async with`. It is given `None`, or TriggerException where the lock is free.
    Release(LockNo),
    /// To make a queue of this bound, 0 meaning none: `Queue(maxsize)` (cocotb 1.8, `cocotb.queue.Queue`). It is given the queue, which is empty, or
    /// RuntimeError where fewer than two numbers of events are left.
    NewQueue(u32),
    /// To put an item into a queue: `queue.put_nowait(item)`. It is given `None`, or QueueFull where the queue is full, or RuntimeError where it has no bound and
    /// holds 65,536 items.
    PutNow {
        queue: QueueNo,
        item: Value,
    },
    /// To take the oldest item out of a queue: `queue.get_nowait()`. It is given the item, or QueueEmpty.
    GetNow(QueueNo),
    /// To draw one of `span` numbers from `low` on: `random.randint(low, high)`. It is given the number.
    Draw {
        low: i128,
        span: u64,
    },
    /// To write a log line. It is given `None`.
    Log {
        level: LogLevel,
        text: Name,
    },
    /// The task has returned this value.
    Done(Value),
    /// A fault of the task was not caught.
    Raised(Fault),
    /// The fuel doesn't suffice for the next step.
    Spent,
}
