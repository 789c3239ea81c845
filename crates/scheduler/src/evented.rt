//! Events of the simulator.
ghost use Rattle.std.specs.Prelude.{◌≡◌, ◌∷◌, [], List, IfOk, OnOk, OnErr, true, false};
ghost use Rattle.port_io.specs.Means.{sink_means};
ghost use Rattle.gpi.specs.Events.{idle};
ghost use Rattle.gpi.specs.Keys.{among};
ghost use Rattle.gpi.specs.State.{is_end};
ghost use Rattle.gpi.specs.declared.types.Counts.{Counts};
ghost use Rattle.gpi.specs.declared.types.Key.{Key};
ghost use Rattle.gpi.specs.declared.types.Key.TheVariants.{At, ReadWrite};
ghost use Rattle.await_tree.specs.WaitList.Waiting.{fired_keys, key_list};
ghost use Rattle.test_meaning.specs.Body.BodyTrees.{Function};
ghost use Rattle.rig_model.specs.Run.Rig.{is_any};
ghost use Rattle.rig_model.specs.Run.Serve.{flushed, flushed_if, is_due, not_due};
ghost use Rattle.run_state.specs.Queue.Fits.{Fits, queue_of};

use crate::teller::Teller;
use await_tree::wait_list::{Awaits, Steps};
use gpi::{Advance, Fired, Gpi, Key, SigId, Write};
use port_io::{NoMemory, Sink, SinkFault};
use run_state::queue::RunQueue;
use run_view::signal_port::Staged;
use std::alloc::Global;
use std::sync::ledger::Ledger;

/// What an event came to.
#[derive(Clone, Copy, Debug)]
pub struct Evented {
    /// The running test is given up, since its time is over.
    pub is_late: bool,
    /// Why a put failed, if one did. All that fired is served then too.
    pub fault: Option<SinkFault>,
}

fn is_read_write(key: Option<Key>) -> bool
    ensures { result ≡ among ReadWrite (key_list key) }
{
    matches!(key, Some(Key::ReadWrite))
}

/// Whether the read-write phase is among the keys that fired.
fn settles(fired: Fired) -> bool
    ensures { result ≡ among ReadWrite (fired_keys fired) }
{
    is_read_write(fired.first) || is_read_write(fired.second)
}

fn is_time(key: Option<Key>, time: u64) -> bool
    ensures { result ≡ among (At time) (key_list key) }
{
    match key {
        Some(Key::At(due)) => time == due,
        _ => false,
    }
}

/// Whether this time is among the keys that fired.
fn is_reached(fired: Fired, time: u64) -> bool
    ensures { result ≡ among (At time) (fired_keys fired) }
{
    is_time(fired.first, time) || is_time(fired.second, time)
}

/// Whether the time, if there is one, is among the keys that fired; it is none any more then.
fn take_due(time: &mut Option<u64>, fired: Fired) -> bool
    ensures answer { result ≡ is_due (fired_keys fired) time.old }
    ensures left { time.new ≡ not_due (fired_keys fired) time.old }
{
    let Some(due) = *time else {
        return false;
    };
    if is_reached(fired, due) {
        *time = None;
        true
    } else {
        false
    }
}

/// A signal and what is written to it, as a staged write.
fn staged_of(write: (SigId, Write)) -> Staged
    ensures { result ≡ record { sig = write.0; act = write.1 } }
{
    let (sig, act) = write;
    Staged { sig, act }
}

impl<'a> Teller<'a> {
    ghost use Rattle.scheduler.specs.Amid.{IsAmid, Serves, StandsAmid};
    ghost use Rattle.scheduler.specs.Evented.{IsEvented};
    ghost use Rattle.scheduler.specs.Setups.{setup_of};

    /// The staged writes go out, the oldest first.
    fn flush<W: Awaits, K: Gpi, L: Ledger, O: Sink>(
        &self,
        alloc: Global,
        queue: &mut RunQueue<W>,
        kernel: &mut K,
        out: &mut O,
        fault: Option<SinkFault>,
        steps: &mut Steps<L>,
    ) -> Option<SinkFault>
        requires loaded { K.is_loaded kernel.old }
        requires amid { IsAmid self.now.flat.now queue.old.ready.room
            (ReadWrite ∷ []) (W.held queue.old.awaits) (queue_of W.waiting queue.old) (K.content kernel.old) }
        requires held { is_any queue.old.staged ≡ true → among ReadWrite (W.held queue.old.awaits) ≡ true }
        requires open { is_end (K.content kernel.old).state.region ≡ false }
        ensures loaded { K.is_loaded kernel.new }
        ensures serves { (functions : List Function) (counts : Counts) → StandsAmid self.now.flat.now queue.old.ready.room
            (ReadWrite ∷ []) counts (W.held queue.old.awaits) (queue_of W.waiting queue.old) (K.content kernel.old)
            → Serves (sink_means O.Sink) (flushed (setup_of functions self.now) queue.old.staged) self.now.flat.now queue.old.ready.room
            (ReadWrite ∷ []) counts (queue_of W.waiting queue.old) (K.content kernel.old) (W.held queue.new.awaits)
            (queue_of W.waiting queue.new) (K.content kernel.new) fault out.old result out.new }
        ensures room { queue.new.ready.room ≡ queue.old.ready.room }
        ensures staged { queue.new.staged ≡ [] }
        ensures deadline { queue.new.deadline ≡ queue.old.deadline }
        ensures planned { queue.new.planned ≡ queue.old.planned }
    {
        let mut fault = fault;
        'writes: while let Some(first) = queue.staged.take_first() {
            let write = staged_of(first);
            fault = self.put_out(alloc, queue, kernel, write, out, fault, steps);
        }
        fault
    }

    /// The staged writes go out where the read-write phase is among the keys that fired.
    fn flush_if<W: Awaits, K: Gpi, L: Ledger, O: Sink>(
        &self,
        alloc: Global,
        queue: &mut RunQueue<W>,
        kernel: &mut K,
        keys: Fired,
        out: &mut O,
        fault: Option<SinkFault>,
        steps: &mut Steps<L>,
    ) -> Option<SinkFault>
        requires loaded { K.is_loaded kernel.old }
        requires amid { IsAmid self.now.flat.now queue.old.ready.room (fired_keys keys)
            (W.held queue.old.awaits) (queue_of W.waiting queue.old) (K.content kernel.old) }
        requires held { is_any queue.old.staged ≡ true → among ReadWrite (W.held queue.old.awaits) ≡ true }
        requires open { among ReadWrite (fired_keys keys) ≡ true → is_end (K.content kernel.old).state.region ≡ false }
        requires alone { among ReadWrite (fired_keys keys) ≡ true → fired_keys keys ≡ ReadWrite ∷ [] }
        ensures loaded { K.is_loaded kernel.new }
        ensures serves { (functions : List Function) (counts : Counts) → StandsAmid self.now.flat.now queue.old.ready.room
            (fired_keys keys) counts (W.held queue.old.awaits) (queue_of W.waiting queue.old) (K.content kernel.old)
            → Serves (sink_means O.Sink) (flushed_if (setup_of functions self.now) (among ReadWrite (fired_keys keys)))
            self.now.flat.now queue.old.ready.room (fired_keys keys) counts (queue_of W.waiting queue.old) (K.content kernel.old)
            (W.held queue.new.awaits) (queue_of W.waiting queue.new) (K.content kernel.new) fault out.old result out.new }
        ensures room { queue.new.ready.room ≡ queue.old.ready.room }
        ensures staged { among ReadWrite (fired_keys keys) ≡ true → queue.new.staged ≡ [] }
        ensures deadline { queue.new.deadline ≡ queue.old.deadline }
        ensures planned { queue.new.planned ≡ queue.old.planned }
    {
        if settles(keys) {
            self.flush(alloc, queue, kernel, out, fault, steps)
        } else {
            fault
        }
    }

    /// The simulator does its next event (IEEE 1364-2005, clause 11), of which there is one: its change is told, the staged writes go out if it is
    /// the read-write phase, and the keys are served that it fires. Whether the running test's time is over, and why a put failed, if one did. After
    /// `NoMemory` nothing has changed.
    pub fn do_event<W: Awaits, K: Gpi, L: Ledger, O: Sink>(
        &self,
        alloc: Global,
        queue: &mut RunQueue<W>,
        kernel: &mut K,
        out: &mut O,
        steps: &mut Steps<L>,
    ) -> Result<Evented, NoMemory>
        requires loaded { K.is_loaded kernel.old }
        requires fits { Fits self.now.flat.now W.waiting W.held queue.old (K.content kernel.old) }
        requires some { idle (K.content kernel.old).procs (K.content kernel.old).state (K.content kernel.old).keys ≡ false }
        ensures loaded { K.is_loaded kernel.new }
        ensures fits { Fits self.now.flat.now W.waiting W.held queue.new (K.content kernel.new) }
        ensures done { IfOk result (λ evented. IsEvented (sink_means O.Sink) self.now (queue_of W.waiting queue.old) (K.content kernel.old)
            evented.is_late (queue_of W.waiting queue.new) (K.content kernel.new) out.old evented.fault out.new) }
        ensures room { queue.new.ready.room ≡ queue.old.ready.room }
        ensures queue { OnErr result (queue.new ≡ queue.old) }
        ensures kernel { OnErr result (K.content kernel.new ≡ K.content kernel.old) }
        ensures out { OnErr result (out.new ≡ out.old) }
    {
        let time = kernel.now();
        let moved = match kernel.advance()? {
            Advance::Moved(moved) => moved,
            Advance::Idle => unreachable!(),
        };
        let told = self.tell(alloc, time, moved.change, out, None);
        let is_late = take_due(&mut queue.deadline, moved.fired);
        take_due(&mut queue.planned, moved.fired);
        let fault = self.flush_if(alloc, queue, kernel, moved.fired, out, told, steps);
        queue
            .awaits
            .fire(kernel, moved.fired, &mut queue.ready, steps);
        Ok(Evented { is_late, fault })
    }
}
