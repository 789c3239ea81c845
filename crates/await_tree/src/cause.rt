//! What leaves wait for, what reaches them, and what tasks are given.
ghost use Rattle.std.specs.Prelude.{◌≡◌};
ghost use Rattle.gpi.specs.Keys.{same_key};
ghost use Rattle.await_tree.specs.Fire.{is_same, reach_of};

use gpi::Key;
use py_value::{EventNo, Fault, LockNo, TaskNo, Value};

/// What a leaf of a tree waits for (cocotb 1.8, "Triggers").
#[derive(Clone, Copy, Debug, PartialEq, Eq)]
pub enum Awaited {
    /// The simulator calls back for this key.
    Key(Key),
    /// The event is set.
    Event(EventNo),
    /// The lock is handed on.
    Lock(LockNo),
    /// The task ends.
    Join(TaskNo),
}

/// What reaches all leaves that wait for it.
#[derive(Clone, Copy, Debug, PartialEq, Eq)]
pub enum Cause {
    /// The key fired.
    Key(Key),
    /// The event was set.
    Event(EventNo),
    /// The task has ended, with a fault or without.
    Ended { task: TaskNo, failed: bool },
}

/// What a task is given when it goes on.
#[derive(Drop)]
pub enum Given {
    /// Nothing: the task has its first turn.
    Begin,
    /// This value.
    Value(Value),
    /// This fault is raised in it.
    Fault(Fault),
    /// The value that the ended task returned, None where it was killed, or its fault. Whoever keeps what ended tasks gave puts a copy in
    /// its place.
    Joined(TaskNo),
}

/// What a tree answers to what it is told.
#[derive(Drop)]
pub enum Step {
    /// It waits.
    Still,
    /// It is done, with this result, and nothing of it is left.
    Done(Given),
}

/// Why there is no tree.
#[derive(Drop)]
pub enum TreeFault {
    /// A leaf may not begin: this fault is raised in the task that awaits.
    Raised(Fault),
    /// There is no memory.
    OutOfMemory,
}

/// Whether two keys are the same.
fn is_same_key(a: Key, b: Key) -> bool
    ensures { result ≡ same_key a b }
{
    match (a, b) {
        (Key::At(s), Key::At(t)) => s == t,
        (Key::Rise(s), Key::Rise(t)) => s.0 == t.0,
        (Key::Fall(s), Key::Fall(t)) => s.0 == t.0,
        (Key::Change(s), Key::Change(t)) => s.0 == t.0,
        (Key::ReadWrite, Key::ReadWrite) => true,
        (Key::ReadOnly, Key::ReadOnly) => true,
        (Key::NextStep, Key::NextStep) => true,
        _ => false,
    }
}

impl Awaited {
    /// Whether the two are the same. It takes no memory.
    pub fn is_same(self, other: Awaited) -> bool
        ensures { result ≡ is_same self other }
    {
        match (self, other) {
            (Awaited::Key(a), Awaited::Key(b)) => is_same_key(a, b),
            (Awaited::Event(a), Awaited::Event(b)) => a.0 == b.0,
            (Awaited::Lock(a), Awaited::Lock(b)) => a.0 == b.0,
            (Awaited::Join(a), Awaited::Join(b)) => a.0 == b.0,
            _ => false,
        }
    }
}

impl Cause {
    /// What the leaves wait for that it reaches. It takes no memory.
    pub fn reach(self) -> Awaited
        ensures { result ≡ reach_of self }
    {
        match self {
            Cause::Key(key) => Awaited::Key(key),
            Cause::Event(event) => Awaited::Event(event),
            Cause::Ended { task, .. } => Awaited::Join(task),
        }
    }
}
