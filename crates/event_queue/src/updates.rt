//! The updates that are due or wait.
ghost use Rattle.std.specs.Prelude.{◌≤◌, ◌+◌, IsTrue, length};
ghost use Rattle.std.specs.VecDeque.{deque_len, deque_capacity};
ghost use Rattle.event_queue.specs.Delays.{waiting_in};

use crate::delayed::Delays;
use gpi::{Delayed, LATEST_UPDATE, Update};
use port_io::NoMemory;
use std::alloc::Global;
use std::collections::VecDeque;

/// The updates that are due, those that wait for the running processes, and those that wait for their time. The delayed ones have room
/// where they come due, so that no memory is wanted when time moves on.
#[derive(Drop)]
pub struct Updates {
    /// The due ones, and behind them the later ones.
    ready: VecDeque<Update>,
    /// How many are due.
    due: usize,
    /// Those that wait for their time.
    delayed: Delays,
    ghost due_inside: { due ≤ deque_len ready },
    ghost arrivals_fit: { deque_len ready + length (waiting_in delayed) ≤ deque_capacity ready },
}

impl Updates {
    ghost use Rattle.std.specs.Prelude.{◌≡◌, ◌++◌, ◌∷◌, [], ℕ, not, OnOk};
    ghost use Rattle.gpi.specs.Keys.{least};
    ghost use Rattle.gpi.specs.State.{at_once, delaying, all_delaying, with_delayed, arriving, waiting_on, delayed_times};
    ghost use Rattle.kernel_base.specs.Lists.{is_empty};
    ghost use Rattle.event_queue.specs.Waiting.{are_from, Takes};
    ghost use Rattle.event_queue.specs.Held.{due_of, later_of, delayed_of, HasRoom, AreSameUpdates};

    /// No updates. It takes no memory.
    pub fn new(alloc: Global) -> Updates
        ensures due { due_of result ≡ [] }
        ensures later { later_of result ≡ [] }
        ensures delayed { delayed_of result ≡ [] }
    {
        Updates {
            ready: VecDeque::new(alloc),
            due: 0,
            delayed: Delays::new(alloc),
        }
    }

    /// Makes room for so many more updates, wherever they are to wait. Its one error is the want of memory.
    pub fn make_room(&mut self, more: usize) -> Result<(), NoMemory>
        ensures same { AreSameUpdates self.old self.new }
        ensures room { OnOk result (HasRoom more self.new) }
    {
        let Some(most) = self.delayed.len().checked_add(more) else {
            return Err(NoMemory);
        };
        self.ready.reserve(most)?;
        self.delayed.make_room(more)?;
        Ok(())
    }

    /// An update waits for the running processes. There must be room.
    pub fn push_later(&mut self, update: &Update)
        requires { HasRoom 1 self.old }
        ensures due { due_of self.new ≡ due_of self.old }
        ensures later { later_of self.new ≡ later_of self.old ++ update.now ∷ [] }
        ensures delayed { delayed_of self.new ≡ delayed_of self.old }
        ensures room { (more : ℕ) → HasRoom (1 + more) self.old → HasRoom more self.new }
    {
        self.ready.push_back_reserved(*update);
    }

    /// An update waits for its time. There must be room.
    pub fn push_delayed(&mut self, delayed: &Delayed)
        requires { HasRoom 1 self.old }
        ensures due { due_of self.new ≡ due_of self.old }
        ensures later { later_of self.new ≡ later_of self.old }
        ensures delayed { delayed_of self.new ≡ with_delayed delayed.now (delayed_of self.old) }
        ensures room { (more : ℕ) → HasRoom (1 + more) self.old → HasRoom more self.new }
    {
        self.delayed.push(delayed);
    }

    /// An update of an activation at this time goes to where it waits. One that would come later than the latest time is given up.
    fn enqueue_one(&mut self, now: u64, update: &Update)
        requires { HasRoom 1 self.old }
        ensures due { due_of self.new ≡ due_of self.old }
        ensures later { later_of self.new ≡ later_of self.old ++ at_once (update.now ∷ []) }
        ensures delayed { delayed_of self.new ≡ delaying now update.now (delayed_of self.old) }
        ensures room { (more : ℕ) → HasRoom (1 + more) self.old → HasRoom more self.new }
    {
        if update.delay == 0 {
            self.push_later(update);
            return;
        }
        match now.checked_add(update.delay) {
            Some(time) if time <= LATEST_UPDATE => self.push_delayed(&Delayed {
                time,
                update: *update,
            }),
            _ => {}
        }
    }

    /// The updates of an activation at this time go to where they wait. There must be room for them.
    pub fn enqueue(&mut self, now: u64, updates: &[Update])
        requires { HasRoom (length updates.now) self.old }
        ensures due { due_of self.new ≡ due_of self.old }
        ensures later { later_of self.new ≡ later_of self.old ++ at_once updates.now }
        ensures delayed { delayed_of self.new ≡ all_delaying now updates.now (delayed_of self.old) }
    {
        for update in updates {
            self.enqueue_one(now, update);
        }
    }

    /// Takes the first due update. Where none is due the later ones become due.
    pub fn take(&mut self) -> Option<Update>
        ensures is { Takes (due_of self.old) (later_of self.old) result (due_of self.new) (later_of self.new) }
        ensures delayed { delayed_of self.new ≡ delayed_of self.old }
    {
        let update = self.ready.pop_front()?;
        self.due = if self.due == 0 {
            self.ready.len()
        } else {
            self.due - 1
        };
        Some(update)
    }

    /// Whether an update is due.
    pub fn is_due(&self) -> bool
        ensures { result ≡ not (is_empty (due_of self.now)) }
    {
        self.due > 0
    }

    /// Whether an update waits for the running processes.
    #[tactic(auto, using(crate::proofs::Ordered::any_left))]
    pub fn is_later(&self) -> bool
        ensures { result ≡ not (is_empty (later_of self.now)) }
    {
        self.due < self.ready.len()
    }

    /// The least time for which an update waits, in steps.
    pub fn least_delayed(&self) -> Option<u64>
        ensures { result ≡ least (delayed_times (delayed_of self.now)) }
    {
        self.delayed.least_time()
    }

    /// The updates that wait for this time become the later ones, in place of those that are. None may wait for an earlier time.
    pub fn arrive(&mut self, time: u64)
        requires { IsTrue (are_from time (delayed_of self.old)) }
        ensures due { due_of self.new ≡ due_of self.old }
        ensures later { later_of self.new ≡ arriving time (delayed_of self.old) }
        ensures delayed { delayed_of self.new ≡ waiting_on time (delayed_of self.old) }
    {
        self.ready.truncate(self.due);
        self.delayed.arrive(time, &mut self.ready);
    }
}
