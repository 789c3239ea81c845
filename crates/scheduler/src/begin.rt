//! The begin of a test.
ghost use Rattle.std.specs.Prelude.{◌≡◌, ◌≤◌, [], OnOk, IfOk, Ok, true, None, Some};
ghost use Rattle.port_io.specs.Means.{sink_means};
ghost use Rattle.test_meaning.specs.Body.Sound.{is_sound_case};
ghost use Rattle.test_meaning.specs.Body.Views.{view_case, view_limit};
ghost use Rattle.py_evaluate.specs.Attribute.Knows.{KnowsAll, KnowsNode};
ghost use Rattle.py_evaluate.specs.Attribute.Look.{View};
ghost use Rattle.rig_model.specs.Task.Frame.{function_at};
ghost use Rattle.rig_model.specs.Run.Case.{emptied, test_begun, with_deadline, with_limit};
ghost use Rattle.rig_model.specs.Run.Effect.{with_new_task};
ghost use Rattle.rig_model.specs.Run.Counts.{counted};
ghost use Rattle.rig_model.specs.Run.Rig.{awaited};
ghost use Rattle.scheduler.specs.Turns.{BeginsTo, has_gone};
ghost use Rattle.scheduler.specs.Parts.{means};
ghost use Rattle.scheduler.specs.Begins.{begun_turn, faulted};

use crate::Engine;
use crate::limits::{deadline_at, limit_steps};
use crate::starts::task_arguments;
use crate::turned::Turn;
use await_tree::wait_list::{Awaits, Steps};
use gpi::Gpi;
use port_io::{NoMemory, Sequence, Sink, SinkFault};
use py_evaluate::attribute::OperationFault;
use py_syntax::{Const, FaultKind};
use py_value::{Fault, Value};
use rig_model::run::Outcome;
use rig_model::task::FlowMaker;
use run_state::lines::test_line;
use std::alloc::Global;
use std::sync::ledger::Ledger;
use test_meaning::body::TestCase;

/// How a test has begun: it runs, or it has ended with a fault of that kind before its first statement.
fn begun(fault: Option<FaultKind>) -> Turn
    ensures { result ≡ begun_turn fault }
{
    match fault {
        None => Turn::Went,
        Some(kind) => Turn::Over(Outcome::Raised(Fault::plain(kind))),
    }
}

impl<'a, M: FlowMaker + Drop, W: Awaits> Engine<'a, M, W> {
    ghost use Rattle.scheduler.specs.Engine.{Relates, rig_of, runs_test};
    ghost use Rattle.scheduler.specs.Fits.{FitsKernel, KeepsAll, Prepares};

    /// Sets the deadline of a test whose own task is ready, so many steps from now; where that time can't come there is none.
    fn set_steps<K: Gpi, L: Ledger>(
        &mut self,
        kernel: &mut K,
        after: u64,
        steps: &mut Steps<L>,
    ) -> Result<(), NoMemory>
        requires loaded { K.is_loaded kernel.old }
        requires fits { FitsKernel (means M.FlowMaker M.Flow.Flow W.Awaits) self.old (K.content kernel.old) }
        requires none { awaited (rig_of (means M.FlowMaker M.Flow.Flow W.Awaits) self.old (K.content kernel.old)) ≡ [] }
        requires new { self.old.test.queue.deadline ≡ None }
        requires some { 1 ≤ after }
        ensures limited { OnOk result (Relates (means M.FlowMaker M.Flow.Flow W.Awaits) K.Gpi
            (λ setup c d. d ≡ counted [] c (with_deadline (Ok after) c)) self.old kernel.old self.new kernel.new) }
        ensures stays { Prepares (means M.FlowMaker M.Flow.Flow W.Awaits) K.Gpi self.old result self.new kernel.new }
    {
        match deadline_at(kernel.now(), after) {
            None => Ok(()),
            Some(due) => self.test.queue.set_deadline(kernel, due, steps),
        }
    }

    /// Sets the deadline of a test whose own task is ready, or tells the fault of its time.
    fn set_limit<K: Gpi, L: Ledger>(
        &mut self,
        alloc: Global,
        kernel: &mut K,
        limit: &(Const, Const),
        steps: &mut Steps<L>,
    ) -> Result<Option<FaultKind>, NoMemory>
        requires loaded { K.is_loaded kernel.old }
        requires fits { FitsKernel (means M.FlowMaker M.Flow.Flow W.Awaits) self.old (K.content kernel.old) }
        requires none { awaited (rig_of (means M.FlowMaker M.Flow.Flow W.Awaits) self.old (K.content kernel.old)) ≡ [] }
        requires new { self.old.test.queue.deadline ≡ None }
        ensures limited { IfOk result (λ fault. Relates (means M.FlowMaker M.Flow.Flow W.Awaits) K.Gpi
            (λ setup c d. faulted fault d ≡ counted [] c (with_limit setup.flat.step_fs (Some (view_limit limit.now)) c))
            self.old kernel.old self.new kernel.new) }
        ensures stays { Prepares (means M.FlowMaker M.Flow.Flow W.Awaits) K.Gpi self.old result self.new kernel.new }
    {
        match limit_steps(alloc, self.teller.flat.step_fs, limit) {
            Ok(after) => {
                self.set_steps(kernel, after, steps)?;
                Ok(None)
            }
            Err(OperationFault::Raised(kind)) => Ok(Some(kind)),
            Err(OperationFault::OutOfMemory) => Err(NoMemory),
        }
    }

    /// The test's own task is ready, with these values behind the top of the design, and its deadline is set; or tells the fault of its time.
    fn start_with<K: Gpi, L: Ledger>(
        &mut self,
        alloc: Global,
        kernel: &mut K,
        case: &TestCase,
        values: Sequence<Value>,
        steps: &mut Steps<L>,
    ) -> Result<Option<FaultKind>, NoMemory>
        requires loaded { K.is_loaded kernel.old }
        requires fits { FitsKernel (means M.FlowMaker M.Flow.Flow W.Awaits) self.old (K.content kernel.old) }
        requires empty { rig_of (means M.FlowMaker M.Flow.Flow W.Awaits) self.old (K.content kernel.old)
            ≡ emptied (K.content kernel.old).state self.old.test.random (K.content kernel.old).counts }
        requires sound { is_sound_case (M.functions self.old.test.tasks.maker) (view_case case.now) ≡ true }
        requires known { (view : View) → KnowsNode view 0 → KnowsAll view values }
        ensures begins { IfOk result (λ fault. Relates (means M.FlowMaker M.Flow.Flow W.Awaits) K.Gpi
            (λ setup c d. faulted fault d ≡ counted [] c (with_limit setup.flat.step_fs (view_case case.now).time
            (with_new_task (function_at setup.functions case.now.func) values c))) self.old kernel.old self.new kernel.new) }
        ensures stays { Prepares (means M.FlowMaker M.Flow.Flow W.Awaits) K.Gpi self.old result self.new kernel.new }
    {
        self.test.begin(alloc, case.func, values)?;
        match &case.time {
            None => Ok(None),
            Some(limit) => self.set_limit(alloc, kernel, limit, steps),
        }
    }

    /// The test's own task is ready, and its deadline is set; or tells the fault of an argument or of its time.
    fn start_case<K: Gpi, L: Ledger>(
        &mut self,
        alloc: Global,
        kernel: &mut K,
        case: &TestCase,
        steps: &mut Steps<L>,
    ) -> Result<Option<FaultKind>, NoMemory>
        requires loaded { K.is_loaded kernel.old }
        requires fits { FitsKernel (means M.FlowMaker M.Flow.Flow W.Awaits) self.old (K.content kernel.old) }
        requires empty { rig_of (means M.FlowMaker M.Flow.Flow W.Awaits) self.old (K.content kernel.old)
            ≡ emptied (K.content kernel.old).state self.old.test.random (K.content kernel.old).counts }
        requires sound { is_sound_case (M.functions self.old.test.tasks.maker) (view_case case.now) ≡ true }
        ensures begins { IfOk result (λ fault. Relates (means M.FlowMaker M.Flow.Flow W.Awaits) K.Gpi
            (λ setup c d. faulted fault d ≡ test_begun setup (view_case case.now) c) self.old kernel.old self.new kernel.new) }
        ensures stays { Prepares (means M.FlowMaker M.Flow.Flow W.Awaits) K.Gpi self.old result self.new kernel.new }
    {
        match task_arguments(alloc, &case.args) {
            Ok(values) => self.start_with(alloc, kernel, case, values, steps),
            Err(OperationFault::Raised(kind)) => Ok(Some(kind)),
            Err(OperationFault::OutOfMemory) => Err(NoMemory),
        }
    }

    /// Begins a test: its own task is ready, its deadline is set, and its line is put. Before, no test runs and no start is planned. `Went` where
    /// that was done, `Over` where an argument has no value or the time of the test is refused, `WriteFault` where the put failed, and `NoMemory`
    /// where memory is short: after all but `Went` only `end_test` is called.
    pub fn begin_test<O: Sink, K: Gpi, L: Ledger>(
        &mut self,
        alloc: Global,
        kernel: &mut K,
        case: &TestCase,
        out: &mut O,
        steps: &mut Steps<L>,
    ) -> Result<Turn, NoMemory>
        requires loaded { K.is_loaded kernel.old }
        requires fits { FitsKernel (means M.FlowMaker M.Flow.Flow W.Awaits) self.old (K.content kernel.old) }
        requires empty { rig_of (means M.FlowMaker M.Flow.Flow W.Awaits) self.old (K.content kernel.old)
            ≡ emptied (K.content kernel.old).state self.old.test.random (K.content kernel.old).counts }
        requires sound { is_sound_case (M.functions self.old.test.tasks.maker) (view_case case.now) ≡ true }
        ensures begins { Relates (means M.FlowMaker M.Flow.Flow W.Awaits) K.Gpi
            (λ setup c d. BeginsTo (sink_means O.Sink) setup (view_case case.now) c result d out.old out.new)
            self.old kernel.old self.new kernel.new }
        ensures fits { OnOk result (FitsKernel (means M.FlowMaker M.Flow.Flow W.Awaits) self.new (K.content kernel.new)) }
        ensures keeps { KeepsAll (means M.FlowMaker M.Flow.Flow W.Awaits) K.Gpi self.old self.new kernel.new }
        ensures runs { runs_test self.new ≡ has_gone result }
    {
        self.runs_test = false;
        let line = test_line(alloc, kernel.now(), case.name.bytes())?;
        let fault = self.start_case(alloc, kernel, case, steps)?;
        match out.put(alloc, line.as_slice()) {
            Ok(()) => {
                self.runs_test = fault.is_none();
                Ok(begun(fault))
            }
            Err(SinkFault::Failed) => Ok(Turn::WriteFault),
            Err(SinkFault::OutOfMemory) => Err(NoMemory),
        }
    }
}
