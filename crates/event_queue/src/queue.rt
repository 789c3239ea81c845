//! What a simulator has still to do.
ghost use Rattle.std.specs.Prelude.{◌≡◌, ◌<◌, ◌++◌, ◌∷◌, [], IsTrue, false, not, length, IfOk, OnOk, OnErr, MatchOption, IfSome, slice_get, if◌then◌else◌};
ghost use Rattle.gpi.specs.Keys.{holds, least};
ghost use Rattle.gpi.specs.State.{at_once, with_delayed, all_delaying, arriving, waiting_on, delayed_times};
ghost use Rattle.kernel_base.specs.Lists.{is_empty};
ghost use Rattle.kernel_base.specs.TimeSets.{IsWithTime, IsWithoutTime};
ghost use Rattle.event_queue.specs.Waiting.{are_from, Takes};
ghost use Rattle.event_queue.specs.Queues.{held, processes_of, none_held, HasRoomFor};

use crate::ring::Ring;
use crate::updates::Updates;
use gpi::{Delayed, Update};
use kernel_base::Times;
use port_io::NoMemory;
use std::alloc::Global;

/// What a simulator has still to do: the active processes, each once, the updates that are due, that wait for the running processes and that
/// wait for their time (IEEE 1364-2005, clauses 9.2.2 and 11.3), and the times for which something is registered.
///
/// Contracts see these lists (`held`), of how many processes it knows (`processes_of`), and for how many more updates it has room
/// (`HasRoom`). Only [`new`](Queue::new), [`make_room`](Queue::make_room), [`later`](Queue::later), [`delay`](Queue::delay) and
/// [`add_time`](Queue::add_time) take memory.
#[derive(Drop)]
pub struct Queue {
    active: Ring,
    updates: Updates,
    times: Times,
}

impl Queue {
    /// Nothing to do for so many processes, with room for all of them to be active. Its one error is the want of memory.
    pub fn new(alloc: Global, processes: u32) -> Result<Queue, NoMemory>
        ensures held { IfOk result (λ queue. held queue ≡ none_held) }
        ensures processes { IfOk result (λ queue. processes_of queue ≡ processes) }
    {
        let active = Ring::new(alloc, processes as usize)?;
        Ok(Queue {
            active,
            updates: Updates::new(alloc),
            times: Times::new(alloc),
        })
    }

    /// Puts a process behind the active ones unless it is active, and tells whether it wasn't.
    pub fn wake(&mut self, process: u32) -> bool
        requires { process < processes_of self.old }
        ensures fresh { result ≡ not (holds process (held self.old).active) }
        ensures held { let h = held self.old in
            held self.new ≡ record h { active = if holds process h.active then h.active else h.active ++ process ∷ [] } }
        ensures processes { processes_of self.new ≡ processes_of self.old }
        ensures updates { self.new.updates ≡ self.old.updates }
        ensures times { self.new.times ≡ self.old.times }
    {
        self.active.wake(process)
    }

    /// Takes the first active process, and answers `None` where none is active.
    pub fn next(&mut self) -> Option<u32>
        ensures is { MatchOption result (((held self.old).active ≡ []) × (self.new ≡ self.old))
            (λ process. (held self.old).active ≡ process ∷ (held self.new).active) }
        ensures updates { self.new.updates ≡ self.old.updates }
        ensures times { self.new.times ≡ self.old.times }
        ensures processes { processes_of self.new ≡ processes_of self.old }
    {
        self.active.next()
    }

    /// The first active process.
    pub fn first(&self) -> Option<u32>
        ensures is { result ≡ slice_get (held self.now).active 0 }
        ensures known { IfSome result (λ process. process < processes_of self.now) }
    {
        self.active.first()
    }

    /// Makes room for so many more updates, wherever they are to wait. Its one error is the want of memory.
    pub fn make_room(&mut self, more: usize) -> Result<(), NoMemory>
        ensures held { held self.new ≡ held self.old }
        ensures processes { processes_of self.new ≡ processes_of self.old }
        ensures room { OnOk result (HasRoomFor more self.new) }
    {
        self.updates.make_room(more)
    }

    /// The updates of an activation at this time go to where they wait (clauses 9.2.2 and 11.4): without a delay behind the later ones, else
    /// among the delayed ones, in order. One that would come later than the latest time is given up. There must be room for them.
    pub fn enqueue(&mut self, now: u64, updates: &[Update])
        requires { HasRoomFor (length updates.now) self.old }
        ensures held { let h = held self.old in
            held self.new ≡ record h { later = h.later ++ at_once updates.now; delayed = all_delaying now updates.now h.delayed } }
        ensures processes { processes_of self.new ≡ processes_of self.old }
    {
        self.updates.enqueue(now, updates);
    }

    /// An update waits for the running processes, behind the others. Its one error is the want of memory, and then nothing has changed.
    pub fn later(&mut self, update: &Update) -> Result<(), NoMemory>
        ensures later { let h = held self.old in OnOk result (held self.new ≡ record h { later = h.later ++ update.now ∷ [] }) }
        ensures kept { OnErr result (held self.new ≡ held self.old) }
        ensures processes { processes_of self.new ≡ processes_of self.old }
    {
        self.updates.make_room(1)?;
        self.updates.push_later(update);
        Ok(())
    }

    /// An update waits for this time, in steps, behind those of that time that came before. Its one error is the want of memory, and then
    /// nothing has changed.
    pub fn delay(&mut self, time: u64, update: &Update) -> Result<(), NoMemory>
        ensures delayed { let h = held self.old in
            OnOk result (held self.new ≡ record h { delayed = with_delayed (record { time = time; update = update.now }) h.delayed }) }
        ensures kept { OnErr result (held self.new ≡ held self.old) }
        ensures processes { processes_of self.new ≡ processes_of self.old }
    {
        self.updates.make_room(1)?;
        self.updates.push_delayed(&Delayed {
            time,
            update: *update,
        });
        Ok(())
    }

    /// Takes the first due update. Where none is due the later ones become due, and the first of them is taken. It answers `None` where there
    /// is none of either.
    pub fn due(&mut self) -> Option<Update>
        ensures is { Takes (held self.old).due (held self.old).later result (held self.new).due (held self.new).later }
        ensures delayed { (held self.new).delayed ≡ (held self.old).delayed }
        ensures active { self.new.active ≡ self.old.active }
        ensures times { self.new.times ≡ self.old.times }
    {
        self.updates.take()
    }

    /// Whether an update is due.
    pub fn is_due(&self) -> bool
        ensures { result ≡ not (is_empty (held self.now).due) }
    {
        self.updates.is_due()
    }

    /// Whether an update waits for the running processes.
    pub fn is_later(&self) -> bool
        ensures { result ≡ not (is_empty (held self.now).later) }
    {
        self.updates.is_later()
    }

    /// The least time for which an update waits, in steps.
    pub fn least_delayed(&self) -> Option<u64>
        ensures { result ≡ least (delayed_times (held self.now).delayed) }
    {
        self.updates.least_delayed()
    }

    /// The updates that wait for this time become the later ones, in order; later ones that are there are given up. None may wait for an earlier
    /// time.
    pub fn arrive(&mut self, time: u64)
        requires { IsTrue (are_from time (held self.old).delayed) }
        ensures held { let h = held self.old in
            held self.new ≡ record h { later = arriving time h.delayed; delayed = waiting_on time h.delayed } }
        ensures processes { processes_of self.new ≡ processes_of self.old }
    {
        self.updates.arrive(time);
    }

    /// A time, in steps, is registered; it may not be so already. Its one error is the want of memory, and then nothing has changed.
    pub fn add_time(&mut self, time: u64) -> Result<(), NoMemory>
        requires { holds time (held self.old).times ≡ false }
        ensures times { OnOk result (IsWithTime time (held self.old).times (held self.new).times) }
        ensures others { held self.new ≡ record (held self.old) { times = (held self.new).times } }
        ensures kept { OnErr result (held self.new ≡ held self.old) }
        ensures processes { processes_of self.new ≡ processes_of self.old }
    {
        self.times.add(time)
    }

    /// A registered time isn't so any more.
    pub fn drop_time(&mut self, time: u64)
        requires { IsTrue (holds time (held self.old).times) }
        ensures times { IsWithoutTime time (held self.old).times (held self.new).times }
        ensures others { held self.new ≡ record (held self.old) { times = (held self.new).times } }
        ensures processes { processes_of self.new ≡ processes_of self.old }
    {
        self.times.take(time);
    }

    /// A time isn't registered any more; tells whether it was.
    pub fn take_time(&mut self, time: u64) -> bool
        ensures there { result ≡ holds time (held self.old).times }
        ensures times { IsWithoutTime time (held self.old).times (held self.new).times }
        ensures others { held self.new ≡ record (held self.old) { times = (held self.new).times } }
        ensures processes { processes_of self.new ≡ processes_of self.old }
    {
        self.times.take(time)
    }

    /// The least registered time, in steps.
    pub fn least_time(&self) -> Option<u64>
        ensures { result ≡ least (held self.now).times }
    {
        self.times.least()
    }
}
