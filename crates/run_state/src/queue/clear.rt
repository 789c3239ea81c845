//! All is dropped.
ghost use Rattle.std.specs.Prelude.{◌≡◌, [], None};
ghost use Rattle.gpi.specs.declared.design.Flat.{Flat};
ghost use Rattle.rig_model.specs.Parts.Queue.{Leads, nothing_queued};
ghost use Rattle.run_state.specs.Queue.Effects.{dropping};
ghost use Rattle.run_state.specs.Queue.Fits.{Fits, Keeps, Stays, queue_of};
ghost use Rattle.run_state.specs.Queue.Sheds.{Sheds};
ghost use Rattle.await_tree.specs.WaitList.Keys.{AreKeys};
ghost use Rattle.await_tree.specs.WaitList.Waiting.{named};

use crate::queue::RunQueue;
use await_tree::wait_list::{Awaits, Steps};
use gpi::{Gpi, Key};
use std::sync::ledger::Ledger;

impl<W: Awaits> RunQueue<W> {
    /// No write is staged any more, and the read-write phase isn't held.
    fn clear_writes<K: Gpi, L: Ledger>(&mut self, kernel: &mut K, steps: &mut Steps<L>)
        requires loaded { K.is_loaded kernel.old }
        requires keeps { Keeps W.waiting W.held self.old (K.content kernel.old) }
        ensures is { queue_of W.waiting self.new ≡ record (queue_of W.waiting self.old) { staged = [] } }
        ensures sheds { Sheds (K.content kernel.old) (K.content kernel.new)
            (named (W.waiting self.old.awaits) (W.held self.old.awaits)) (named (W.waiting self.new.awaits) (W.held self.new.awaits)) }
        ensures loaded { K.is_loaded kernel.new }
        ensures keeps { Keeps W.waiting W.held self.new (K.content kernel.new) }
        ensures ready { self.new.ready ≡ self.old.ready }
    {
        if self.staged.is_empty() {
            return;
        }
        self.staged.clear();
        self.awaits.release(kernel, Key::ReadWrite, steps);
    }

    /// The test has no deadline any more.
    fn clear_deadline<K: Gpi, L: Ledger>(&mut self, kernel: &mut K, steps: &mut Steps<L>)
        requires loaded { K.is_loaded kernel.old }
        requires keeps { Keeps W.waiting W.held self.old (K.content kernel.old) }
        ensures is { queue_of W.waiting self.new ≡ record (queue_of W.waiting self.old) { deadline = None } }
        ensures sheds { Sheds (K.content kernel.old) (K.content kernel.new)
            (named (W.waiting self.old.awaits) (W.held self.old.awaits)) (named (W.waiting self.new.awaits) (W.held self.new.awaits)) }
        ensures loaded { K.is_loaded kernel.new }
        ensures keeps { Keeps W.waiting W.held self.new (K.content kernel.new) }
        ensures ready { self.new.ready ≡ self.old.ready }
    {
        if let Some(due) = self.deadline {
            self.deadline = None;
            if self.holds_time(due) {
                return;
            }
            self.awaits.release(kernel, Key::At(due), steps);
        }
    }

    /// No start is planned any more.
    fn clear_planned<K: Gpi, L: Ledger>(&mut self, kernel: &mut K, steps: &mut Steps<L>)
        requires loaded { K.is_loaded kernel.old }
        requires keeps { Keeps W.waiting W.held self.old (K.content kernel.old) }
        ensures is { queue_of W.waiting self.new ≡ record (queue_of W.waiting self.old) { planned = None } }
        ensures sheds { Sheds (K.content kernel.old) (K.content kernel.new)
            (named (W.waiting self.old.awaits) (W.held self.old.awaits)) (named (W.waiting self.new.awaits) (W.held self.new.awaits)) }
        ensures loaded { K.is_loaded kernel.new }
        ensures keeps { Keeps W.waiting W.held self.new (K.content kernel.new) }
        ensures ready { self.new.ready ≡ self.old.ready }
    {
        if let Some(due) = self.planned {
            self.planned = None;
            if self.holds_time(due) {
                return;
            }
            self.awaits.release(kernel, Key::At(due), steps);
        }
    }

    /// Drops all, as one effect: nothing is ready, waits or is staged, there is no deadline and no planned start, and no key is registered any more.
    /// It takes no memory.
    pub fn clear<K: Gpi, L: Ledger>(&mut self, kernel: &mut K, steps: &mut Steps<L>)
        requires loaded { K.is_loaded kernel.old }
        requires keeps { Keeps W.waiting W.held self.old (K.content kernel.old) }
        ensures is { queue_of W.waiting self.new ≡ nothing_queued }
        ensures bare { AreKeys (K.content kernel.new).keys [] }
        ensures leads { Leads dropping (queue_of W.waiting self.old) (K.content kernel.old) (queue_of W.waiting self.new) (K.content kernel.new) }
        ensures loaded { K.is_loaded kernel.new }
        ensures stays { Stays (K.content kernel.old) (K.content kernel.new) }
        ensures keeps { Keeps W.waiting W.held self.new (K.content kernel.new) }
        ensures fits { (flat : Flat) → Fits flat W.waiting W.held self.old (K.content kernel.old)
            → Fits flat W.waiting W.held self.new (K.content kernel.new) }
        ensures room { self.new.ready.room ≡ self.old.ready.room }
    {
        self.ready.clear();
        self.awaits.clear(kernel, steps);
        self.clear_writes(kernel, steps);
        self.clear_deadline(kernel, steps);
        self.clear_planned(kernel, steps);
    }
}
