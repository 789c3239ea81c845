//! Writes that are staged.
ghost use Rattle.std.specs.Prelude.{◌≡◌, OnOk, OnErr, [], false};
ghost use Rattle.gpi.specs.State.{is_end};
ghost use Rattle.gpi.specs.declared.design.Flat.{Flat};
ghost use Rattle.rig_model.specs.Parts.Fits.{IsSoundWrite};
ghost use Rattle.rig_model.specs.Parts.Queue.{Leads};
ghost use Rattle.run_state.specs.Queue.Effects.{staging};
ghost use Rattle.run_state.specs.Queue.Fits.{Fits, Keeps, Stays, queue_of};

use crate::queue::RunQueue;
use await_tree::wait_list::{Awaits, Steps};
use gpi::{Gpi, Key, SigId, Write};
use port_io::NoMemory;
use std::sync::ledger::Ledger;

impl<W: Awaits> RunQueue<W> {
    /// Stages a write where none is staged: the read-write phase is held from now on.
    fn stage_first<K: Gpi, L: Ledger>(
        &mut self,
        kernel: &mut K,
        sig: SigId,
        act: Write,
        steps: &mut Steps<L>,
    ) -> Result<(), NoMemory>
        requires loaded { K.is_loaded kernel.old }
        requires keeps { Keeps W.waiting W.held self.old (K.content kernel.old) }
        requires empty { self.old.staged ≡ [] }
        requires open { is_end (K.content kernel.old).state.region ≡ false }
        ensures leads { OnOk result (Leads (staging sig act)
            (queue_of W.waiting self.old) (K.content kernel.old) (queue_of W.waiting self.new) (K.content kernel.new)) }
        ensures kept { OnErr result (queue_of W.waiting self.new ≡ queue_of W.waiting self.old) }
        ensures loaded { K.is_loaded kernel.new }
        ensures stays { Stays (K.content kernel.old) (K.content kernel.new) }
        ensures keeps { Keeps W.waiting W.held self.new (K.content kernel.new) }
        ensures fits { (flat : Flat) → IsSoundWrite flat.signals (record { sig = sig; act = act })
            → Fits flat W.waiting W.held self.old (K.content kernel.old) → Fits flat W.waiting W.held self.new (K.content kernel.new) }
        ensures room { self.new.ready.room ≡ self.old.ready.room }
    {
        self.awaits.hold(kernel, Key::ReadWrite, steps)?;
        match self.staged.stage(sig, act) {
            Ok(()) => Ok(()),
            Err(NoMemory) => {
                self.awaits.release(kernel, Key::ReadWrite, steps);
                Err(NoMemory)
            }
        }
    }

    /// Stages a write, as the last one (cocotb 1.8, "Writing values to signals", `cocotb.handle.Force`). It isn't the read-only phase.
    pub fn stage<K: Gpi, L: Ledger>(
        &mut self,
        kernel: &mut K,
        sig: SigId,
        act: Write,
        steps: &mut Steps<L>,
    ) -> Result<(), NoMemory>
        requires loaded { K.is_loaded kernel.old }
        requires keeps { Keeps W.waiting W.held self.old (K.content kernel.old) }
        requires open { is_end (K.content kernel.old).state.region ≡ false }
        ensures leads { OnOk result (Leads (staging sig act)
            (queue_of W.waiting self.old) (K.content kernel.old) (queue_of W.waiting self.new) (K.content kernel.new)) }
        ensures kept { OnErr result (queue_of W.waiting self.new ≡ queue_of W.waiting self.old) }
        ensures loaded { K.is_loaded kernel.new }
        ensures stays { Stays (K.content kernel.old) (K.content kernel.new) }
        ensures keeps { Keeps W.waiting W.held self.new (K.content kernel.new) }
        ensures fits { (flat : Flat) → IsSoundWrite flat.signals (record { sig = sig; act = act })
            → Fits flat W.waiting W.held self.old (K.content kernel.old) → Fits flat W.waiting W.held self.new (K.content kernel.new) }
        ensures room { self.new.ready.room ≡ self.old.ready.room }
    {
        if self.staged.is_empty() {
            self.stage_first(kernel, sig, act, steps)?;
        } else {
            self.staged.stage(sig, act)?;
        }
        Ok(())
    }
}
