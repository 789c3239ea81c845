//! The calls of a simulator, on a design that is simulated.
ghost use Rattle.std.specs.Prelude.{◌≡◌, length, false, IsTrue, OnOk, OnErr};
ghost use Rattle.gpi.specs.Keys.{has, is_time};
ghost use Rattle.gpi.specs.Events.{idle};
ghost use Rattle.gpi.specs.Content.{IsAsked, Registers, Removes};
ghost use Rattle.fast_kernel.specs.Kernel.{content_of, IsLoaded, Stays};

use crate::queued::{add_time, drop_time};
use crate::simulation::Simulation;
use gpi::{Key, Region};
use port_io::NoMemory;

impl Simulation {
    /// Registers a key. Its one error is the want of memory, for a time alone, and then nothing has changed.
    #[tactic(auto, using(callback_book::proofs::Placed::asked_placed))]
    pub fn register(&mut self, key: Key) -> Result<(), NoMemory>
        requires loaded { IsLoaded self.old }
        requires asked { IsAsked (length self.old.shown.items) (content_of self.old).state key }
        requires new { has key (content_of self.old).keys ≡ false }
        ensures stays { Stays self.old self.new }
        ensures is { OnOk result (Registers (content_of self.old) key (content_of self.new)) }
        ensures kept { OnErr result (content_of self.new ≡ content_of self.old) }
        ensures cause { OnErr result (IsTrue (is_time key)) }
    {
        add_time(&mut self.queue, key)?;
        self.book.add(key);
        Ok(())
    }

    /// Removes a registered key.
    #[tactic(auto, using(callback_book::proofs::Placed::has_placed))]
    pub fn remove(&mut self, key: Key)
        requires loaded { IsLoaded self.old }
        requires there { IsTrue (has key (content_of self.old).keys) }
        ensures stays { Stays self.old self.new }
        ensures is { Removes (content_of self.old) key (content_of self.new) }
    {
        drop_time(&mut self.queue, key);
        self.book.remove(key);
    }

    /// Whether nothing is left to do.
    #[tactic(auto, using(kernel_base::proofs::Idle::idle_is))]
    pub fn idle(&self) -> bool
        requires { IsLoaded self.now }
        ensures { let c = content_of self.now in result ≡ idle c.procs c.state c.keys }
    {
        let open = self.region != Region::End;
        !self.has_report()
            && !self.queue.is_due()
            && !self.has_active()
            && !self.queue.is_later()
            && !(self.book.has(Key::ReadWrite) && open)
            && !(self.book.has(Key::ReadOnly) && open)
            && self.next_time().is_none()
    }
}
