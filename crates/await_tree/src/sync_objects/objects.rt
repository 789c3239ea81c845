//! Events and locks, by number.
ghost use Rattle.std.specs.Prelude.{◌≡◌, ◌<◌, true, false, not, length, []};
ghost use Rattle.std.specs.Prelude.{OnOk, OnErr, IfOk, IsTrue};
ghost use Rattle.await_tree.specs.SyncObjects.States as states;

use port_io::NoMemory;
use py_value::{EventNo, LockNo};
use std::alloc::Global;
use std::marker::Model;

/// The events and the locks that were made in a test, which contracts see as `States` of `specs/States.antt`: for each event whether it is
/// set, and for each lock whether it is held. Only `add_event` and `add_lock` take memory.
#[derive(Drop)]
pub struct Objects {
    events: Vec<bool>,
    locks: Vec<bool>,
}

impl Model for Objects {
    ghost use Rattle.std.specs.Prelude.{◌≤◌, length};
    ghost use Rattle.await_tree.specs.SyncObjects.Limits.{event_limit, lock_limit};
    ghost use Rattle.await_tree.specs.SyncObjects.States.{States};

    ghost Value = { States };

    ghost view = { λ objects. record { events = objects.events.items; locks = objects.locks.items } };

    ghost invariant = { λ objects. (length objects.events.items ≤ event_limit) × (length objects.locks.items ≤ lock_limit) };
}

impl Objects {
    /// No event and no lock. It takes no memory.
    pub fn new(alloc: Global) -> Objects
        ensures { result ≡ states.none }
    {
        Objects {
            events: Vec::new(alloc),
            locks: Vec::new(alloc),
        }
    }

    /// Makes an event, which is unset (cocotb 1.8, `Event`), and answers its number. There must be fewer than 65,536 events. Only want of
    /// memory is an error, and after it nothing has changed.
    pub fn add_event(&mut self) -> Result<EventNo, NoMemory>
        requires { length self.old.events < states.event_limit }
        ensures number { IfOk result (λ event. event.0 ≡ length self.old.events) }
        ensures ok { OnOk result (self.new ≡ states.with_event self.old) }
        ensures err { OnErr result (self.new ≡ self.old) }
    {
        let number = self.event_count();
        self.events.push(false)?;
        Ok(EventNo(number))
    }

    /// Makes a lock, which is free (cocotb 1.8, `Lock`), and answers its number. There must be fewer than 65,536 locks. Only want of memory
    /// is an error, and after it nothing has changed.
    pub fn add_lock(&mut self) -> Result<LockNo, NoMemory>
        requires { length self.old.locks < states.lock_limit }
        ensures number { IfOk result (λ lock. lock.0 ≡ length self.old.locks) }
        ensures ok { OnOk result (self.new ≡ states.with_lock self.old) }
        ensures err { OnErr result (self.new ≡ self.old) }
    {
        let number = self.lock_count();
        self.locks.push(false)?;
        Ok(LockNo(number))
    }

    /// Drops all events and locks, as the end of a test does. It takes no memory.
    pub fn clear(&mut self)
        ensures { self.new ≡ states.none }
    {
        self.events.clear();
        self.locks.clear();
    }

    /// How many events were made.
    pub fn event_count(&self) -> u32
        ensures { result ≡ length self.now.events }
    {
        self.events.len() as u32
    }

    /// How many locks were made.
    pub fn lock_count(&self) -> u32
        ensures { result ≡ length self.now.locks }
    {
        self.locks.len() as u32
    }

    /// Whether an event that was made is set (cocotb 1.8, `Event.is_set`).
    pub fn is_set(&self, event: EventNo) -> bool
        requires { event.0 < length self.now.events }
        ensures { result ≡ states.is_set event self.now }
    {
        self.events[event.0 as usize]
    }

    /// Whether a lock that was made is held (cocotb 1.8, `Lock.locked`).
    pub fn is_locked(&self, lock: LockNo) -> bool
        requires { lock.0 < length self.now.locks }
        ensures { result ≡ states.is_held lock self.now }
    {
        self.locks[lock.0 as usize]
    }

    /// Sets an event that was made, whether it was set or not (cocotb 1.8, `Event.set`). It takes no memory.
    pub fn set_event(&mut self, event: EventNo)
        requires { event.0 < length self.old.events }
        ensures { self.new ≡ states.with_set event self.old }
    {
        self.events[event.0 as usize] = true;
    }

    /// Clears an event that was made, whether it was set or not (cocotb 1.8, `Event.clear`). It takes no memory.
    pub fn clear_event(&mut self, event: EventNo)
        requires { event.0 < length self.old.events }
        ensures { self.new ≡ states.with_unset event self.old }
    {
        self.events[event.0 as usize] = false;
    }

    /// Takes a lock that was made where it is free, and tells whether it was; it is held then, and all else stays (cocotb 1.8,
    /// `Lock.acquire`). A held lock stays held. It takes no memory.
    pub fn take(&mut self, lock: LockNo) -> bool
        requires { lock.0 < length self.old.locks }
        ensures free { result ≡ not (states.is_held lock self.old) }
        ensures held { result ≡ false → self.new ≡ self.old }
        ensures taken { result ≡ true → self.new ≡ states.with_held lock self.old }
    {
        let is_free = !self.is_locked(lock);
        if is_free {
            self.locks[lock.0 as usize] = true;
        }
        is_free
    }

    /// Frees a lock that is held (cocotb 1.8, `Lock.release`). It takes no memory.
    pub fn free(&mut self, lock: LockNo)
        requires made { lock.0 < length self.old.locks }
        requires held { IsTrue (states.is_held lock self.old) }
        ensures { self.new ≡ states.with_free lock self.old }
    {
        self.locks[lock.0 as usize] = false;
    }
}
