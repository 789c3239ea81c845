//! Values and faults.
ghost use Rattle.std.specs.Prelude.{◌≡◌};
ghost use Rattle.py_value.specs.Answer.{plain_fault};

use crate::{EventNo, LockNo, QueueNo, TaskNo, Trig};
use four_value::Bits;
use gpi::SigId;
use port_io::Name;
use py_syntax::FaultKind;

/// A fault that was raised (the language reference, 8.4).
#[derive(Drop)]
pub struct Fault {
    /// Its class.
    pub kind: FaultKind,
    /// What the fault says, or nothing.
    pub text: Name,
}

impl Fault {
    /// A fault that an operation raises, which says nothing. It takes no memory.
    pub fn plain(kind: FaultKind) -> Fault
        ensures { result ≡ plain_fault kind }
    {
        Fault {
            kind,
            text: Name::empty(),
        }
    }
}

/// A value of a tests file (the language reference, 3.1).
#[derive(Drop)]
pub enum Value {
    /// Python's `None`.
    Absent,
    /// `True` or `False`.
    Truth(bool),
    /// A whole number from -2^127 to 2^127 - 1.
    Whole(i128),
    /// A text, of at most 65,536 bytes.
    Text(Name),
    /// The digits that a signal had when it was read.
    Vector(Bits),
    /// A hierarchy: a node of the design, by its number.
    Place(u32),
    /// A memory: its words are `count` signals from `first` on, by rising index from `low` on.
    Words { first: SigId, low: u32, count: u32 },
    /// A signal, whose value is read anew each time.
    Signal(SigId),
    /// A trigger.
    Trigger(Trig),
    /// A task: what the call that starts it gives.
    Task(TaskNo),
    /// An event.
    Event(EventNo),
    /// A lock.
    Lock(LockNo),
    /// A queue.
    Queue(QueueNo),
    /// A clock on a signal of one bit, which stays high or low for `half` steps.
    Clock { sig: SigId, half: u64 },
    /// A fault that an `except` has caught and named.
    Caught(Fault),
}
