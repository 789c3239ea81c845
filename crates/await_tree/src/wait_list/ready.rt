//! The ring of ready tasks.
ghost use Rattle.std.specs.Prelude.{◌≡◌, ◌≤◌, ◌<◌, ◌||◌, ◌++◌, ◌∷◌, [], length, take, drop, OnOk, OnErr, MatchOption, IfOk};
ghost use Rattle.await_tree.specs.WaitList.Ring.{has_entry, without_entry};

use crate::Given;
use circular_buffer::HeapCircularBuffer;
use port_io::NoMemory;
use py_value::TaskNo;
use std::alloc::Global;
use std::marker::Model;

/// A task that is ready, and what it is given in its next turn.
#[derive(Drop)]
pub struct Entry {
    pub task: TaskNo,
    pub given: Given,
}

/// The ready tasks, each with what it is given: first in, first out (cocotb 1.8, "Coroutines and Tasks"). It takes memory only where room
/// is made.
#[derive(Drop)]
pub struct Ready {
    ring: HeapCircularBuffer<Entry>,
}

impl Model for Ready {
    ghost use Rattle.std.specs.Coded.{codes};
    ghost use Rattle.py_value.specs.TriggerCode.{trig_code};
    ghost use Rattle.await_tree.specs.WaitList.Ring.{Ring};

    ghost Value = { Ring };

    ghost coded = { Prim.hlevel (codes, trig_code) };

    ghost view = { λ a. record { entries = a.ring.items; room = a.ring.capacity } };
}

/// Whether one of these is true.
fn either(first: bool, second: bool) -> bool
    ensures { result ≡ (first || second) }
{
    first || second
}

impl Ready {
    /// A ring with no entry. Its one error is the want of memory.
    pub fn new(alloc: Global) -> Result<Ready, NoMemory>
        ensures { IfOk result (λ ready. ready.entries ≡ []) }
    {
        let ring = HeapCircularBuffer::with_capacity(alloc, 0)?;
        Ok(Ready { ring })
    }

    /// Makes room for at least so many entries. After `NoMemory` nothing has changed.
    pub fn room(&mut self, tasks: u32) -> Result<(), NoMemory>
        ensures entries { self.new.entries ≡ self.old.entries }
        ensures room { OnOk result (tasks ≤ self.new.room) }
        ensures grows { self.old.room ≤ self.new.room }
        ensures err { OnErr result (self.new ≡ self.old) }
    {
        let capacity = self.ring.capacity();
        let wanted = tasks as usize;
        if capacity < wanted {
            let doubled = capacity.saturating_mul(2);
            self.ring.resize(doubled.max(wanted))?;
        }
        Ok(())
    }

    /// Adds an entry at the back. There must be room for it. It takes no memory.
    pub fn put(&mut self, task: TaskNo, given: Given)
        requires { length self.old.entries < self.old.room }
        ensures entries { self.new.entries ≡ self.old.entries ++ record { task = task; given = given } ∷ [] }
        ensures room { self.new.room ≡ self.old.room }
    {
        let _ = self.ring.push_back(Entry { task, given });
    }

    /// Takes the first entry, or answers `None` where there is none. It takes no memory.
    pub fn first(&mut self) -> Option<(TaskNo, Given)>
        ensures first { MatchOption result
            ((self.old.entries ≡ []) × (self.new.entries ≡ []))
            (λ entry. self.old.entries ≡ record { task = entry.0; given = entry.1 } ∷ self.new.entries) }
        ensures room { self.new.room ≡ self.old.room }
    {
        let Entry { task, given } = self.ring.pop_front()?;
        Some((task, given))
    }

    /// Puts the first entry at the back, unless it is one of the task, which is taken out. Tells whether it is.
    fn turn_round(&mut self, task: TaskNo) -> bool
        requires { length self.old.entries ≤ self.old.room }
        ensures is { result ≡ has_entry task (take 1 self.old.entries) }
        ensures entries { self.new.entries ≡ drop 1 self.old.entries ++ without_entry task (take 1 self.old.entries) }
        ensures room { self.new.room ≡ self.old.room }
    {
        match self.first() {
            Some((own, given)) => {
                let is_own = own.0 == task.0;
                if !is_own {
                    self.put(own, given);
                }
                is_own
            }
            None => false,
        }
    }

    /// Takes the task's entry out, and tells whether it has one. The others stay in their order. It takes no memory.
    pub fn take_out(&mut self, task: TaskNo) -> bool
        ensures is { result ≡ has_entry task self.old.entries }
        ensures entries { self.new.entries ≡ without_entry task self.old.entries }
        ensures room { self.new.room ≡ self.old.room }
    {
        let mut found = false;
        let mut left = self.ring.len();
        while left > 0 {
            left -= 1;
            let is_own = self.turn_round(task);
            found = either(found, is_own);
        }
        found
    }

    /// Takes all entries out. It takes no memory.
    pub fn clear(&mut self)
        ensures entries { self.new.entries ≡ [] }
        ensures room { self.new.room ≡ self.old.room }
    {
        self.ring.clear();
    }
}
