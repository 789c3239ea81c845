//! The active processes.
ghost use Rattle.std.specs.Prelude.{◌≡◌, ◌<◌, ◌++◌, ◌∷◌, [], not, length, IfOk, MatchOption, IfSome, if◌then◌else◌, slice_get};
ghost use Rattle.gpi.specs.Keys.{holds};

use circular_buffer::HeapCircularBuffer;
use port_io::NoMemory;
use std::alloc::Global;
use std::marker::Model;

/// The active processes in the order in which they are to run, and a flag for each process. It has room for all of them.
#[derive(Drop)]
pub struct Ring {
    order: HeapCircularBuffer<u32>,
    flags: Vec<bool>,
}

impl Model for Ring {
    ghost use Rattle.std.specs.Prelude.{length};
    ghost use Rattle.event_queue.specs.Active.{Active, IsRing};

    ghost Value = { Active };

    ghost view = { λ r. record { list = r.order.items; count = length r.flags.items } };

    ghost invariant = { λ r. IsRing r.order.items r.flags.items r.order.capacity };
}

impl Ring {
    /// None of so many processes is active. Its one error is the want of memory.
    pub fn new(alloc: Global, processes: usize) -> Result<Ring, NoMemory>
        ensures { IfOk result (λ ring. ring ≡ record { list = []; count = processes }) }
    {
        let order = HeapCircularBuffer::with_capacity(alloc, processes)?;
        let flags = vec![in alloc; false; processes]?;
        Ok(Ring { order, flags })
    }

    /// Puts a process at the end unless it is there, and tells whether it wasn't.
    pub fn wake(&mut self, process: u32) -> bool
        requires { process < self.old.count }
        ensures fresh { result ≡ not (holds process self.old.list) }
        ensures is { self.new ≡ record self.old { list = (if holds process self.old.list then self.old.list else self.old.list ++ process ∷ []) } }
    {
        if self.flags[process as usize] {
            return false;
        }
        self.flags[process as usize] = true;
        self.order.push_back(process);
        true
    }

    /// Takes the first process.
    pub fn next(&mut self) -> Option<u32>
        ensures { MatchOption result ((self.old.list ≡ []) × (self.new ≡ self.old))
            (λ process. (self.old.list ≡ process ∷ self.new.list) × (self.new.count ≡ self.old.count)) }
    {
        match self.order.pop_front() {
            Some(process) => {
                self.flags[process as usize] = false;
                Some(process)
            }
            None => None,
        }
    }

    /// The first process.
    pub fn first(&self) -> Option<u32>
        ensures is { result ≡ slice_get self.now.list 0 }
        ensures known { IfSome result (λ process. process < self.now.count) }
    {
        match self.order.front() {
            Some(process) => Some(*process),
            None => None,
        }
    }
}
