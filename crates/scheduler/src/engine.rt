//! The engine, what its tests share, and the end of a test.
ghost use Rattle.std.specs.Prelude.{◌≡◌, ◌<◌, ◌+◌, [], length, IfOk, OnOk, OnErr, false};
ghost use Rattle.gpi.specs.Content.{Content, opening};
ghost use Rattle.gpi.specs.Limits.{latest_time};
ghost use Rattle.gpi.specs.Soundness.{IsSoundFlat};
ghost use Rattle.run_view.specs.RandomStream.Generator.{seeded};
ghost use Rattle.rig_model.specs.Task.Known.{AreSoundFunctions};
ghost use Rattle.await_tree.specs.WaitList.Keys.{AreAlike, AreKeys};
ghost use Rattle.rig_model.specs.Run.Case.{emptied, ended, start_planned};
ghost use Rattle.rig_model.specs.Run.Rig.{path_of};
ghost use Rattle.run_state.specs.Queue.Fits.{Keeps};
ghost use Rattle.scheduler.specs.Parts.{means};

use crate::teller::Teller;
use crate::test::RunningTest;
use await_tree::wait_list::{Awaits, Steps};
use gpi::{Flat, Gpi, SigId};
use port_io::{Name, NoMemory};
use rig_model::task::FlowMaker;
use run_view::design_names::DesignNames;
use std::alloc::Global;
use std::sync::ledger::Ledger;

/// Runs tests on a design, one at a time: the tasks of a test (cocotb 1.8, "Coroutines and Tasks"), and the events of a simulator of the design,
/// which is handed to each call. As in the loop of IEEE 1364-2005, 11.4, the simulator goes on only where no task is ready.
///
/// An engine and its simulator fit where the two stand together for a configuration of the design (`FitsKernel`). A new engine and a simulator that
/// has just loaded the design fit. Each call that finds them fitting leaves them so, unless it answers `WriteFault` or `NoMemory`; then the
/// registered keys are still the awaited ones, and `end_test` asks no more.
#[derive(Drop)]
pub struct Engine<'a, M: FlowMaker + Drop, W: Awaits> {
    pub(crate) teller: Teller<'a>,
    pub(crate) names: DesignNames<'a>,
    pub(crate) test: RunningTest<M, W>,
    /// A test was begun, and has no outcome yet: a turn may follow.
    pub(crate) runs_test: bool,
}

impl<'a, M: FlowMaker + Drop, W: Awaits> Engine<'a, M, W> {
    ghost use Rattle.scheduler.specs.Engine.{Relates, counting, rig_of, runs_test, setup_of};
    ghost use Rattle.scheduler.specs.Fits.{FitsKernel, KeepsAll};

    /// An engine for the design, in which no test runs and no start is planned. Its random numbers are those of the seed. With `trace` it writes a
    /// line for each told change of a signal. No task may wait in `awaits`, and it may hold no key. Only want of memory is an error.
    pub fn new(
        alloc: Global,
        maker: M,
        awaits: W,
        flat: &'a Flat,
        seed: u64,
        trace: bool,
    ) -> Result<Self, NoMemory>
        requires waiting { W.waiting awaits ≡ [] }
        requires held { AreAlike (W.held awaits) [] }
        ensures setup { IfOk result (λ engine. setup_of (means M.FlowMaker M.Flow.Flow W.Awaits) engine
            ≡ record { functions = M.functions maker; flat = flat.now; trace = trace }) }
        ensures empty { IfOk result
            (λ engine. (content : Content) → rig_of (means M.FlowMaker M.Flow.Flow W.Awaits) engine content
            ≡ emptied content.state (seeded seed) content.counts) }
        ensures fits { IfOk result (λ engine. IsSoundFlat flat.now → AreSoundFunctions (M.functions maker)
            → FitsKernel (means M.FlowMaker M.Flow.Flow W.Awaits) engine (opening flat.now)) }
        ensures runs { IfOk result (λ engine. runs_test engine ≡ false) }
    {
        Ok(Engine {
            teller: Teller { flat, trace },
            names: DesignNames::new(alloc, flat)?,
            test: RunningTest::new(alloc, maker, awaits, seed)?,
            runs_test: false,
        })
    }

    /// The path of a signal of the design, as `top.a` (IEEE 1364-2005, 12.5). It takes no memory.
    pub fn path(&self, sig: SigId) -> &Name
        requires { sig.0 < length self.now.teller.flat.now.signals }
        ensures { result.now ≡ path_of self.now.teller.flat.now sig }
    {
        &self.teller.flat.signals.get(sig.0 as usize).path
    }

    /// The design that its tests run on.
    pub fn design(&self) -> &Flat
        ensures { result.now ≡ (setup_of (means M.FlowMaker M.Flow.Flow W.Awaits) self.now).flat }
    {
        self.teller.flat
    }

    /// Drops all of the test, whether it has an outcome or not, and a planned start. No key is registered any more. What else the simulator holds
    /// stays but for the counts, which are those of the drop where engine and simulator fitted. It takes no memory.
    pub fn end_test<K: Gpi, L: Ledger>(&mut self, kernel: &mut K, steps: &mut Steps<L>)
        requires loaded { K.is_loaded kernel.old }
        requires keys { Keeps W.waiting W.held self.old.test.queue (K.content kernel.old) }
        ensures ended { Relates (means M.FlowMaker M.Flow.Flow W.Awaits) K.Gpi (λ setup c d. d ≡ ended c) self.old kernel.old self.new kernel.new }
        ensures fits { FitsKernel (means M.FlowMaker M.Flow.Flow W.Awaits) self.old (K.content kernel.old)
            → FitsKernel (means M.FlowMaker M.Flow.Flow W.Awaits) self.new (K.content kernel.new) }
        ensures keeps { KeepsAll (means M.FlowMaker M.Flow.Flow W.Awaits) K.Gpi self.old self.new kernel.new }
        ensures none { AreKeys (K.content kernel.new).keys [] }
        ensures runs { runs_test self.new ≡ false }
    {
        self.runs_test = false;
        self.test.clear(kernel, steps);
    }

    /// The next test is to begin in the next time step. No test runs, no start is planned, and now is below 2^63. Only want of memory is an error,
    /// and then all is as it was but for the counts.
    pub fn plan_start<K: Gpi, L: Ledger>(
        &mut self,
        kernel: &mut K,
        steps: &mut Steps<L>,
    ) -> Result<(), NoMemory>
        requires loaded { K.is_loaded kernel.old }
        requires fits { FitsKernel (means M.FlowMaker M.Flow.Flow W.Awaits) self.old (K.content kernel.old) }
        requires new { self.old.test.queue.planned ≡ None }
        requires early { (K.content kernel.old).state.time < latest_time }
        ensures planned { OnOk result (Relates (means M.FlowMaker M.Flow.Flow W.Awaits) K.Gpi
            (λ setup c d. d ≡ start_planned c) self.old kernel.old self.new kernel.new) }
        ensures kept { OnErr result (Relates (means M.FlowMaker M.Flow.Flow W.Awaits) K.Gpi
            (λ setup c d. d ≡ counting (K.content kernel.new).counts c) self.old kernel.old self.new kernel.new) }
        ensures fits { FitsKernel (means M.FlowMaker M.Flow.Flow W.Awaits) self.new (K.content kernel.new) }
        ensures keeps { KeepsAll (means M.FlowMaker M.Flow.Flow W.Awaits) K.Gpi self.old self.new kernel.new }
        ensures runs { runs_test self.new ≡ runs_test self.old }
    {
        let due = kernel.now() + 1;
        self.test.queue.plan_start(kernel, due, steps)
    }
}
