//! Times that the runner itself awaits: the deadline of a test, and the planned start of the next one.
ghost use Rattle.std.specs.Prelude.{◌≡◌, ◌≤◌, ◌<◌, ◌∷◌, [], OnOk, OnErr, None};
ghost use Rattle.gpi.specs.Keys.{among};
ghost use Rattle.gpi.specs.Limits.{latest_time};
ghost use Rattle.gpi.specs.declared.design.Flat.{Flat};
ghost use Rattle.gpi.specs.declared.types.Key.TheVariants.{At};
ghost use Rattle.rig_model.specs.Parts.Queue.{Leads, queue_held};
ghost use Rattle.run_state.specs.Queue.Effects.{giving_up, planning};
ghost use Rattle.run_state.specs.Queue.Fits.{Fits, Keeps, Stays, queue_of};
ghost use Rattle.await_tree.specs.WaitList.Keys.{AreAlike, Rekeyed};
ghost use Rattle.await_tree.specs.WaitList.Waiting.{named};

use crate::queue::RunQueue;
use await_tree::wait_list::{Awaits, Steps};
use gpi::{Gpi, Key};
use port_io::NoMemory;
use std::sync::ledger::Ledger;

impl<W: Awaits> RunQueue<W> {
    /// Whether the runner awaits this time.
    pub(crate) fn holds_time(&self, due: u64) -> bool
        ensures { result ≡ among (At due) (queue_held (queue_of W.waiting self.now)) }
    {
        self.deadline == Some(due) || self.planned == Some(due)
    }

    /// The runner holds the time from now on, whether or not it does already.
    fn hold_time<K: Gpi, L: Ledger>(
        &mut self,
        kernel: &mut K,
        due: u64,
        steps: &mut Steps<L>,
    ) -> Result<(), NoMemory>
        requires loaded { K.is_loaded kernel.old }
        requires keeps { Keeps W.waiting W.held self.old (K.content kernel.old) }
        requires later { (K.content kernel.old).state.time < due }
        requires latest { due ≤ latest_time }
        ensures held { OnOk result (AreAlike (W.held self.new.awaits) (At due ∷ W.held self.old.awaits)) }
        ensures keys { OnOk result (Rekeyed (K.content kernel.old) (K.content kernel.new) (At due ∷ [])
            (named (W.waiting self.old.awaits) (W.held self.old.awaits)) (named (W.waiting self.new.awaits) (W.held self.new.awaits))) }
        ensures is { queue_of W.waiting self.new ≡ queue_of W.waiting self.old }
        ensures loaded { K.is_loaded kernel.new }
        ensures stays { OnErr result (Stays (K.content kernel.old) (K.content kernel.new)) }
        ensures keeps { OnErr result (Keeps W.waiting W.held self.new (K.content kernel.new)) }
        ensures ready { self.new.ready ≡ self.old.ready }
    {
        if self.holds_time(due) {
            return Ok(());
        }
        self.awaits.hold(kernel, Key::At(due), steps)?;
        Ok(())
    }

    /// The test is to be given up then (cocotb 1.8, `cocotb.test`, `timeout_time`). It has no deadline yet. The time, in steps, is later than now,
    /// and at most 2^63.
    pub fn set_deadline<K: Gpi, L: Ledger>(
        &mut self,
        kernel: &mut K,
        due: u64,
        steps: &mut Steps<L>,
    ) -> Result<(), NoMemory>
        requires loaded { K.is_loaded kernel.old }
        requires keeps { Keeps W.waiting W.held self.old (K.content kernel.old) }
        requires new { self.old.deadline ≡ None }
        requires later { (K.content kernel.old).state.time < due }
        requires latest { due ≤ latest_time }
        ensures leads { OnOk result (Leads (giving_up due)
            (queue_of W.waiting self.old) (K.content kernel.old) (queue_of W.waiting self.new) (K.content kernel.new)) }
        ensures kept { OnErr result (queue_of W.waiting self.new ≡ queue_of W.waiting self.old) }
        ensures loaded { K.is_loaded kernel.new }
        ensures stays { Stays (K.content kernel.old) (K.content kernel.new) }
        ensures keeps { Keeps W.waiting W.held self.new (K.content kernel.new) }
        ensures fits { (flat : Flat) → Fits flat W.waiting W.held self.old (K.content kernel.old)
            → Fits flat W.waiting W.held self.new (K.content kernel.new) }
        ensures room { self.new.ready.room ≡ self.old.ready.room }
    {
        self.hold_time(kernel, due, steps)?;
        self.deadline = Some(due);
        Ok(())
    }

    /// The next test is to begin then. No start is planned yet. The time, in steps, is later than now, and at most 2^63.
    pub fn plan_start<K: Gpi, L: Ledger>(
        &mut self,
        kernel: &mut K,
        due: u64,
        steps: &mut Steps<L>,
    ) -> Result<(), NoMemory>
        requires loaded { K.is_loaded kernel.old }
        requires keeps { Keeps W.waiting W.held self.old (K.content kernel.old) }
        requires new { self.old.planned ≡ None }
        requires later { (K.content kernel.old).state.time < due }
        requires latest { due ≤ latest_time }
        ensures leads { OnOk result (Leads (planning due)
            (queue_of W.waiting self.old) (K.content kernel.old) (queue_of W.waiting self.new) (K.content kernel.new)) }
        ensures kept { OnErr result (queue_of W.waiting self.new ≡ queue_of W.waiting self.old) }
        ensures loaded { K.is_loaded kernel.new }
        ensures stays { Stays (K.content kernel.old) (K.content kernel.new) }
        ensures keeps { Keeps W.waiting W.held self.new (K.content kernel.new) }
        ensures fits { (flat : Flat) → Fits flat W.waiting W.held self.old (K.content kernel.old)
            → Fits flat W.waiting W.held self.new (K.content kernel.new) }
        ensures room { self.new.ready.room ≡ self.old.ready.room }
    {
        self.hold_time(kernel, due, steps)?;
        self.planned = Some(due);
        Ok(())
    }
}
