//! Writes that are done at once.
ghost use Rattle.std.specs.Prelude.{◌≡◌, ◌<◌, List, Option, false, length};
ghost use Rattle.port_io.specs.Means.{sink_means};
ghost use Rattle.gpi.specs.Content.{Does};
ghost use Rattle.gpi.specs.Events.{value_at};
ghost use Rattle.gpi.specs.Keys.{fired_of};
ghost use Rattle.gpi.specs.State.{is_end};
ghost use Rattle.gpi.specs.Terms.{widths_of};
ghost use Rattle.gpi.specs.declared.types.Counts.{Counts};
ghost use Rattle.gpi.specs.declared.types.Key.{Key};
ghost use Rattle.await_tree.specs.WaitList.Keys.{AreAlike};
ghost use Rattle.test_meaning.specs.Body.BodyTrees.{Function};
ghost use Rattle.rig_model.specs.Run.Serve.{deposit};
ghost use Rattle.rig_model.specs.Task.Known.{HasDigits};
ghost use Rattle.rig_model.specs.Parts.Fits.{IsSoundWrite};
ghost use Rattle.run_state.specs.Queue.Fits.{Fits, queue_of};
ghost use Rattle.scheduler.specs.Written.{written_in};

use crate::puts::change_of;
use crate::teller::Teller;
use await_tree::wait_list::{Awaits, Steps};
use gpi::{Fired, Gpi, SigId, Write};
use port_io::{Sink, SinkFault};
use run_state::queue::RunQueue;
use run_view::signal_port::Staged;
use std::alloc::Global;
use std::sync::ledger::Ledger;

/// A write is done, and the keys of its change fire: a value is deposited, a force takes its digits or, of a freeze, those that the signal
/// shows at that moment, and a release ends a force (IEEE 1364-2005, clause 9.3.2). It takes no memory.
fn write_signal<K: Gpi>(kernel: &mut K, sig: SigId, act: Write) -> Fired
    requires loaded { K.is_loaded kernel.old }
    requires open { is_end (K.content kernel.old).state.region ≡ false }
    requires sig { sig.0 < length (K.content kernel.old).state.signals }
    requires digits { HasDigits (length (value_at (K.content kernel.old).state sig)) act }
    ensures loaded { K.is_loaded kernel.new }
    ensures is { let e = written_in (K.content kernel.old) sig act in
        (result ≡ fired_of e.fired) × Does (K.content kernel.old) e (K.content kernel.new) }
    ensures widths { widths_of (K.content kernel.new).state.signals ≡ widths_of (K.content kernel.old).state.signals }
{
    match act {
        Write::Plain(bits) => kernel.deposit(sig, bits),
        Write::Force(bits) => kernel.force(sig, bits),
        Write::Freeze => {
            let shown = kernel.read(sig);
            kernel.force(sig, shown)
        }
        Write::Release => kernel.release(sig),
    }
}

impl<'a> Teller<'a> {
    ghost use Rattle.scheduler.specs.Amid.{IsAmidHeld, Serves, StandsAmid};
    ghost use Rattle.scheduler.specs.Evented.{IsPut};
    ghost use Rattle.scheduler.specs.Setups.{setup_of};

    /// A signal is written, its change is told, and the tasks are woken that wait for it. Amid an event fired keys may be left to be served.
    pub(crate) fn put_out<W: Awaits, K: Gpi, L: Ledger, O: Sink>(
        &self,
        alloc: Global,
        queue: &mut RunQueue<W>,
        kernel: &mut K,
        write: Staged,
        out: &mut O,
        fault: Option<SinkFault>,
        steps: &mut Steps<L>,
    ) -> Option<SinkFault>
        requires loaded { K.is_loaded kernel.old }
        requires amid { IsAmidHeld self.now.flat.now queue.old.ready.room
            (W.held queue.old.awaits) (queue_of W.waiting queue.old) (K.content kernel.old) }
        requires open { is_end (K.content kernel.old).state.region ≡ false }
        requires sound { IsSoundWrite self.now.flat.now.signals write }
        ensures loaded { K.is_loaded kernel.new }
        ensures serves { (functions : List Function) (fired : List Key) (counts : Counts) → StandsAmid self.now.flat.now
            queue.old.ready.room fired counts (W.held queue.old.awaits) (queue_of W.waiting queue.old) (K.content kernel.old)
            → Serves (sink_means O.Sink) (deposit (setup_of functions self.now) write.sig write.act)
            self.now.flat.now queue.old.ready.room fired counts (queue_of W.waiting queue.old) (K.content kernel.old)
            (W.held queue.new.awaits) (queue_of W.waiting queue.new) (K.content kernel.new) fault out.old result out.new }
        ensures held { AreAlike (W.held queue.new.awaits) (W.held queue.old.awaits) }
        ensures region { (K.content kernel.new).state.region ≡ (K.content kernel.old).state.region }
        ensures room { queue.new.ready.room ≡ queue.old.ready.room }
        ensures staged { queue.new.staged ≡ queue.old.staged }
        ensures deadline { queue.new.deadline ≡ queue.old.deadline }
        ensures planned { queue.new.planned ≡ queue.old.planned }
    {
        let time = kernel.now();
        let Staged { sig, act } = write;
        let old = kernel.read(sig);
        let fired = write_signal(kernel, sig, act);
        let shown = kernel.read(sig);
        let change = change_of(sig, old, shown);
        let fault = self.tell(alloc, time, change, out, fault);
        queue.awaits.fire(kernel, fired, &mut queue.ready, steps);
        fault
    }

    /// A signal is written at once (cocotb 1.8, "Writing values"), outside of an event and of the read-only phase: its change is told, and the tasks
    /// are woken that wait for it. Tells why the put of its line failed, if it did; all is served then too. It takes memory for the line alone.
    pub fn put_now<W: Awaits, K: Gpi, L: Ledger, O: Sink>(
        &self,
        alloc: Global,
        queue: &mut RunQueue<W>,
        kernel: &mut K,
        write: Staged,
        out: &mut O,
        steps: &mut Steps<L>,
    ) -> Option<SinkFault>
        requires loaded { K.is_loaded kernel.old }
        requires fits { Fits self.now.flat.now W.waiting W.held queue.old (K.content kernel.old) }
        requires open { is_end (K.content kernel.old).state.region ≡ false }
        requires sound { IsSoundWrite self.now.flat.now.signals write }
        ensures loaded { K.is_loaded kernel.new }
        ensures fits { Fits self.now.flat.now W.waiting W.held queue.new (K.content kernel.new) }
        ensures done { IsPut (sink_means O.Sink) self.now write (queue_of W.waiting queue.old) (K.content kernel.old)
            (queue_of W.waiting queue.new) (K.content kernel.new) out.old result out.new }
        ensures room { queue.new.ready.room ≡ queue.old.ready.room }
    {
        self.put_out(alloc, queue, kernel, write, out, None, steps)
    }
}
