//! Tasks that end, and tasks that are killed.
ghost use Rattle.std.specs.Prelude.{◌≡◌, ◌<◌, length, IfOk, Ok};
ghost use Rattle.run_state.specs.Queue.Still.{AreStill};
ghost use Rattle.rig_model.specs.declared.task.task.Turned.TheVariants.{Done, Kill, Raised};

use crate::test::RunningTest;
use crate::turned::{Next, Turn};
use await_tree::ended_tasks::Ending;
use await_tree::wait_list::{Awaits, Steps};
use await_tree::{Cause, Given};
use gpi::Gpi;
use port_io::{Name, NoMemory};
use py_syntax::FaultKind;
use py_value::{Fault, TaskNo, Value};
use rig_model::run::Outcome;
use rig_model::task::FlowMaker;
use std::alloc::Global;
use std::sync::ledger::Ledger;

/// A copy of a fault. Only want of memory is an error.
fn copy_fault(alloc: Global, fault: &Fault) -> Result<Fault, NoMemory>
    ensures { IfOk result (λ copied. copied ≡ fault.now) }
{
    Ok(Fault {
        kind: fault.kind,
        text: Name::of(alloc, fault.text.bytes())?,
    })
}

impl<M: FlowMaker + Drop, W: Awaits> RunningTest<M, W> {
    ghost use Rattle.scheduler.specs.TestFits.{HasTurn, KeptFit, LeadsOn};
    ghost use Rattle.scheduler.specs.Parts.{means};

    /// A task kills another (cocotb 1.8, `Task.kill`), which leaves the ready tasks and those that wait; those who join it are served. One that has
    /// ended stays as it is, and a task that would kill itself is given a RuntimeError. It takes no memory.
    pub(crate) fn kill<K: Gpi, L: Ledger>(
        &mut self,
        kernel: &mut K,
        task: TaskNo,
        other: TaskNo,
        steps: &mut Steps<L>,
    ) -> Next
        requires turn { HasTurn (means M.FlowMaker M.Flow.Flow W.Awaits) K.Gpi task self.old kernel.old }
        requires other { other.0 < length self.old.tasks.ended }
        ensures leads { LeadsOn (means M.FlowMaker M.Flow.Flow W.Awaits) K.Gpi task (Kill other) self.old kernel.old result self.new kernel.new }
        ensures stays { KeptFit (means M.FlowMaker M.Flow.Flow W.Awaits) K.Gpi self.old kernel.old self.new kernel.new }
    {
        if other.0 == task.0 {
            return Next::GoesOn(Given::Fault(Fault::plain(FaultKind::RuntimeError)));
        }
        if self.tasks.is_done(other) {
            return Next::GoesOn(Given::Value(Value::Absent));
        }
        self.tasks.end(other, Ending::Killed);
        self.queue.kill(kernel, other, steps);
        Next::GoesOn(Given::Value(Value::Absent))
    }

    /// A task has returned a value, and those who join it are served. Where it is the test's own the test has ended. It takes no memory.
    pub(crate) fn finish<K: Gpi, L: Ledger>(
        &mut self,
        kernel: &mut K,
        task: TaskNo,
        value: Value,
        steps: &mut Steps<L>,
    ) -> Next
        requires turn { HasTurn (means M.FlowMaker M.Flow.Flow W.Awaits) K.Gpi task self.old kernel.old }
        ensures leads { LeadsOn (means M.FlowMaker M.Flow.Flow W.Awaits) K.Gpi task (Done value) self.old kernel.old result self.new kernel.new }
        ensures stays { KeptFit (means M.FlowMaker M.Flow.Flow W.Awaits) K.Gpi self.old kernel.old self.new kernel.new }
    {
        self.tasks.end(task, Ending::Returned(value));
        let ended = Cause::Ended {
            task,
            failed: false,
        };
        self.queue.wake(kernel, ended, steps);
        if task.0 == 0 {
            Next::Ends(Turn::Over(Outcome::Normal))
        } else {
            Next::Ends(Turn::Went)
        }
    }

    /// A fault of a task was not caught: it is that of those who join the task, and where none does it ends the test.
    pub(crate) fn fail<K: Gpi, L: Ledger>(
        &mut self,
        alloc: Global,
        kernel: &mut K,
        task: TaskNo,
        fault: Fault,
        steps: &mut Steps<L>,
    ) -> Result<Next, NoMemory>
        requires turn { HasTurn (means M.FlowMaker M.Flow.Flow W.Awaits) K.Gpi task self.old kernel.old }
        requires still { AreStill (W.waiting self.old.queue.awaits) }
        ensures leads { IfOk result
            (λ next. LeadsOn (means M.FlowMaker M.Flow.Flow W.Awaits) K.Gpi task (Raised fault) self.old kernel.old next self.new kernel.new) }
        ensures stays { KeptFit (means M.FlowMaker M.Flow.Flow W.Awaits) K.Gpi self.old kernel.old self.new kernel.new }
    {
        let own = copy_fault(alloc, &fault)?;
        self.tasks.end(task, Ending::Failed(own));
        let ended = Cause::Ended { task, failed: true };
        if self.queue.wake(kernel, ended, steps) {
            Ok(Next::Ends(Turn::Went))
        } else {
            Ok(Next::Ends(Turn::Over(Outcome::Raised(fault))))
        }
    }
}
