//! The queue of a test, and the tasks in it that are ready.
ghost use Rattle.std.specs.Prelude.{◌≡◌, ◌≤◌, ◌<◌, ◌+◌, [], List, length, IfOk, OnOk, OnErr, MatchOption};
ghost use Rattle.gpi.specs.Content.{Content};
ghost use Rattle.gpi.specs.declared.design.Flat.{Flat};
ghost use Rattle.rig_model.specs.Parts.Queue.{nothing_queued};
ghost use Rattle.await_tree.specs.WaitList.Keys.{AreAlike};

use await_tree::Given;
use await_tree::wait_list::{Awaits, Ready};
use port_io::NoMemory;
use py_value::TaskNo;
use run_view::signal_port::WriteStage;
use std::alloc::Global;

/// What is ready, what waits, and what the runner itself awaits. Of a simulator that is handed to its calls the registered keys are the awaited
/// ones: those of the waiting tasks, the read-write phase while a write is staged, and the times of a deadline and of a planned start. The ring has
/// room for each task that is ready or waits, so that waking one takes no memory.
///
/// Each call asks that the two stand so, and leaves them so, whatever it answers. What the simulator holds besides keys and counts stays. Want of
/// memory is the only error, and then the queue is as it was.
#[derive(Drop)]
pub struct RunQueue<W: Awaits> {
    /// The tasks that wait, and the keys that the runner holds.
    pub awaits: W,
    /// The tasks that are ready.
    pub ready: Ready,
    /// The staged writes.
    pub staged: WriteStage,
    /// When the test is given up, in steps.
    pub deadline: Option<u64>,
    /// When the next test begins, in steps.
    pub planned: Option<u64>,
}

impl<W: Awaits> RunQueue<W> {
    ghost use Rattle.run_state.specs.Queue.Fits.{Fits, IsBare, queue_of};
    ghost use Rattle.run_state.specs.Queue.Effects.{with_first, with_ready};

    /// Nothing is ready, waits or is staged. No task may wait in `awaits`, and it may hold no key.
    pub fn new(alloc: Global, awaits: W) -> Result<RunQueue<W>, NoMemory>
        requires waiting { W.waiting awaits ≡ [] }
        requires held { AreAlike (W.held awaits) [] }
        ensures is { IfOk result (λ queue. queue_of W.waiting queue ≡ nothing_queued) }
        ensures fits { IfOk result (λ queue. (flat : Flat) → (content : Content) → IsBare flat content → Fits flat W.waiting W.held queue content) }
    {
        Ok(RunQueue {
            awaits,
            ready: Ready::new(alloc)?,
            staged: WriteStage::new(alloc),
            deadline: None,
            planned: None,
        })
    }

    /// Makes room for at least so many tasks that are ready or wait.
    pub fn make_room(&mut self, tasks: u32) -> Result<(), NoMemory>
        ensures is { queue_of W.waiting self.new ≡ queue_of W.waiting self.old }
        ensures fits { (flat : Flat) → (content : Content) → Fits flat W.waiting W.held self.old content
            → Fits flat W.waiting W.held self.new content }
        ensures room { OnOk result (tasks ≤ self.new.ready.room) }
        ensures grows { self.old.ready.room ≤ self.new.ready.room }
        ensures awaits { self.new.awaits ≡ self.old.awaits }
    {
        self.ready.room(tasks)
    }

    /// The task is ready, behind all others. There must be room for it. It takes no memory.
    pub fn put(&mut self, task: TaskNo, given: Given)
        requires room { length self.old.ready.entries + length (W.waiting self.old.awaits) < self.old.ready.room }
        ensures is { queue_of W.waiting self.new ≡ with_ready task given (queue_of W.waiting self.old) }
        ensures fits { (flat : Flat) → (content : Content) → Fits flat W.waiting W.held self.old content
            → Fits flat W.waiting W.held self.new content }
        ensures room { self.new.ready.room ≡ self.old.ready.room }
        ensures awaits { self.new.awaits ≡ self.old.awaits }
    {
        self.ready.put(task, given);
    }

    /// Takes the first task that is ready, with what it is given, or answers `None` where none is. It takes no memory.
    pub fn first(&mut self) -> Option<(TaskNo, Given)>
        ensures first { MatchOption result
            ((self.old.ready.entries ≡ []) × (queue_of W.waiting self.new ≡ queue_of W.waiting self.old))
            (λ entry. queue_of W.waiting self.old ≡ with_first entry.0 entry.1 (queue_of W.waiting self.new)) }
        ensures fits { (flat : Flat) → (content : Content) → Fits flat W.waiting W.held self.old content
            → Fits flat W.waiting W.held self.new content }
        ensures room { self.new.ready.room ≡ self.old.ready.room }
        ensures awaits { self.new.awaits ≡ self.old.awaits }
    {
        self.ready.first()
    }
}
