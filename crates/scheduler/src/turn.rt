//! Turns.
ghost use Rattle.std.specs.Prelude.{◌≡◌, ◌⊎◌, ◌&&◌, [], None, Some, Ok};
ghost use Rattle.port_io.specs.Means.{sink_means};
ghost use Rattle.rig_model.specs.Task.Known.{KnowsGiven};
ghost use Rattle.rig_model.specs.Run.Effect.{goes_on};
ghost use Rattle.rig_model.specs.Run.Rig.{view_of};
ghost use Rattle.rig_model.specs.Parts.Steps.{FitSteps, TurnSteps, in_turn};
ghost use Rattle.scheduler.specs.Turns.{Turning, has_gone, turn_fault};
ghost use Rattle.scheduler.specs.Parts.{means};

use crate::Engine;
use crate::turned::{Next, Turn, has_gone};
use await_tree::Given;
use await_tree::wait_list::{Awaits, Steps};
use gpi::Gpi;
use port_io::{NoMemory, Sink};
use py_value::TaskNo;
use rig_model::task::{FlowMaker, Turned};
use std::alloc::Global;
use std::sync::ledger::Ledger;

impl<'a, M: FlowMaker + Drop, W: Awaits> Engine<'a, M, W> {
    ghost use Rattle.scheduler.specs.Engine.{Holds, Relates, runs_test};
    ghost use Rattle.scheduler.specs.Fits.{FitsAt, FitsKernel, KeepsAll, Turns};

    /// The task runs until its turn ends.
    fn run_task<O: Sink, K: Gpi, L: Ledger>(
        &mut self,
        alloc: Global,
        kernel: &mut K,
        task: TaskNo,
        given: Given,
        out: &mut O,
        fuel: &mut u64,
        steps: &mut Steps<L>,
    ) -> Result<Turn, NoMemory>
        requires loaded { K.is_loaded kernel.old }
        requires fits { FitsAt (Some task) (means M.FlowMaker M.Flow.Flow W.Awaits) self.old (K.content kernel.old) }
        requires none { self.old.test.queue.planned ≡ None }
        requires known { Holds (means M.FlowMaker M.Flow.Flow W.Awaits) K.Gpi (λ setup c. KnowsGiven (view_of setup c) given) self.old kernel.old }
        ensures turning { Relates (means M.FlowMaker M.Flow.Flow W.Awaits) K.Gpi
            (λ setup c d. Turning (sink_means O.Sink) (FitSteps in_turn setup) setup fuel.old (goes_on task (Some given) c) out.old result
            fuel.new d out.new) self.old kernel.old self.new kernel.new }
        ensures fits { turn_fault result ≡ None
            → FitsKernel (means M.FlowMaker M.Flow.Flow W.Awaits) self.new (K.content kernel.new) }
        ensures keeps { KeepsAll (means M.FlowMaker M.Flow.Flow W.Awaits) K.Gpi self.old self.new kernel.new }
        ensures runs { self.new.runs_test ≡ self.old.runs_test }
    {
        let mut given = given;
        'effects: loop {
            let turned = self.test.poll(
                alloc,
                kernel,
                self.teller.flat,
                &self.names,
                task,
                given,
                fuel,
            )?;
            if let Turned::Spent = turned {
                return Ok(Turn::Spent);
            }
            match self
                .test
                .apply(alloc, kernel, &self.teller, task, turned, out, steps)?
            {
                Next::GoesOn(next) => given = next,
                Next::Ends(turn) => return Ok(turn),
            }
        }
    }

    /// Does one turn, whether or not a test runs.
    fn take_turn<O: Sink, K: Gpi, L: Ledger>(
        &mut self,
        alloc: Global,
        kernel: &mut K,
        out: &mut O,
        fuel: &mut u64,
        steps: &mut Steps<L>,
    ) -> Result<Turn, NoMemory>
        requires loaded { K.is_loaded kernel.old }
        requires fits { FitsKernel (means M.FlowMaker M.Flow.Flow W.Awaits) self.old (K.content kernel.old) }
        requires alone { (self.old.test.queue.planned ≡ None) ⊎ (self.old.test.queue.ready.entries ≡ []) }
        ensures turns { Turns (sink_means O.Sink) (means M.FlowMaker M.Flow.Flow W.Awaits) K.Gpi TurnSteps
            self.old kernel.old fuel.old out.old result self.new kernel.new fuel.new out.new }
        ensures still { self.old.test.queue.ready.entries ≡ [] → result ≡ Ok Turn.Spent
            → Relates (means M.FlowMaker M.Flow.Flow W.Awaits) K.Gpi (λ setup c d. d ≡ c) self.old kernel.old self.new kernel.new }
        ensures runs { self.new.runs_test ≡ self.old.runs_test }
    {
        match self.test.queue.first() {
            Some((task, given)) => {
                let given = self.test.told(alloc, given)?;
                self.run_task(alloc, kernel, task, given, out, fuel, steps)
            }
            None => self.advance(alloc, kernel, out, fuel, steps),
        }
    }

    /// Does one turn: the first task that is ready runs until it waits, ends or gives way, or where none is ready the simulator does one event, and
    /// the tasks are woken that wait for a key that it fires. Where the read-write phase (cocotb 1.8, "Triggers", `ReadWrite`) is among these keys,
    /// the staged writes go out before, the oldest first, each with the wakes of the keys that it fires. With `trace` each change that the simulator
    /// tells gives a line.
    ///
    /// The fuel falls by one for each statement, condition and question of a loop that begins, and for each event. The lines are put in order, one
    /// put each. `Due` comes exactly where the planned start fired. `Spent` comes exactly where the next step costs more than the fuel that is left,
    /// and no task is lost then; where none is ready, nothing has changed. `Over` comes where the test gets its outcome, with its parts left in
    /// place until `end_test`; `WriteFault` where the put of the next line fails, and nothing is put after it.
    /// A test runs, or a start is planned. After `Over`, `Due`, `Spent`, `WriteFault` or `NoMemory` no turn follows.
    pub fn turn<O: Sink, K: Gpi, L: Ledger>(
        &mut self,
        alloc: Global,
        kernel: &mut K,
        out: &mut O,
        fuel: &mut u64,
        steps: &mut Steps<L>,
    ) -> Result<Turn, NoMemory>
        requires loaded { K.is_loaded kernel.old }
        requires fits { FitsKernel (means M.FlowMaker M.Flow.Flow W.Awaits) self.old (K.content kernel.old) }
        requires alone { (self.old.test.queue.planned ≡ None) ⊎ (self.old.test.queue.ready.entries ≡ []) }
        ensures turns { Turns (sink_means O.Sink) (means M.FlowMaker M.Flow.Flow W.Awaits) K.Gpi TurnSteps
            self.old kernel.old fuel.old out.old result self.new kernel.new fuel.new out.new }
        ensures still { self.old.test.queue.ready.entries ≡ [] → result ≡ Ok Turn.Spent
            → Relates (means M.FlowMaker M.Flow.Flow W.Awaits) K.Gpi (λ setup c d. d ≡ c) self.old kernel.old self.new kernel.new }
        ensures runs { runs_test self.new ≡ (runs_test self.old && has_gone result) }
    {
        let turn = self.take_turn(alloc, kernel, out, fuel, steps);
        self.runs_test = self.runs_test && has_gone(&turn);
        turn
    }
}
