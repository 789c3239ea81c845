//! Tasks that wait.
ghost use Rattle.std.specs.Prelude.{◌≡◌, ◌≤◌, IfOk, Ok};
ghost use Rattle.gpi.specs.Limits.{latest_time};
ghost use Rattle.rig_model.specs.declared.task.task.Turned.TheVariants.{Await};

use crate::test::RunningTest;
use crate::turned::{Next, Turn};
use await_tree::wait_list::{Awaits, Steps};
use await_tree::{Given, Step, Tree, TreeFault};
use gpi::Gpi;
use port_io::NoMemory;
use py_value::{TaskNo, Trig};
use rig_model::task::FlowMaker;
use run_view::begin_tree;
use std::alloc::Global;
use std::sync::ledger::Ledger;

impl<M: FlowMaker + Drop, W: Awaits> RunningTest<M, W> {
    ghost use Rattle.scheduler.specs.TestFits.{HasTurn, KeptFit, LeadsOn};
    ghost use Rattle.scheduler.specs.Parts.{means, rig_of};
    ghost use Rattle.scheduler.specs.Waits.{KnowsWait};

    /// The task waits for the trigger (cocotb 1.8, "Triggers"), or goes on at once: with the fault of a leaf that may not begin, or with the result
    /// of a trigger that is done.
    pub(crate) fn wait<K: Gpi, L: Ledger>(
        &mut self,
        alloc: Global,
        kernel: &mut K,
        task: TaskNo,
        trig: Trig,
        steps: &mut Steps<L>,
    ) -> Result<Next, NoMemory>
        requires turn { HasTurn (means M.FlowMaker M.Flow.Flow W.Awaits) K.Gpi task self.old kernel.old }
        requires time { (K.content kernel.old).state.time ≤ latest_time }
        requires known { KnowsWait (rig_of (means M.FlowMaker M.Flow.Flow W.Awaits) self.old (K.content kernel.old)) trig }
        ensures leads { IfOk result
            (λ next. LeadsOn (means M.FlowMaker M.Flow.Flow W.Awaits) K.Gpi task (Await trig) self.old kernel.old next self.new kernel.new) }
        ensures stays { KeptFit (means M.FlowMaker M.Flow.Flow W.Awaits) K.Gpi self.old kernel.old self.new kernel.new }
    {
        let mut tree = match Tree::of(alloc, &trig, kernel.now(), kernel.region()) {
            Ok(tree) => tree,
            Err(TreeFault::Raised(fault)) => return Ok(Next::GoesOn(Given::Fault(fault))),
            Err(TreeFault::OutOfMemory) => return Err(NoMemory),
        };
        match begin_tree(alloc, &mut tree, &mut self.objects, self.tasks.ended()) {
            Step::Done(given) => Ok(Next::GoesOn(self.tasks.told(alloc, given)?)),
            Step::Still => {
                self.queue.wait(kernel, task, tree, steps)?;
                Ok(Next::Ends(Turn::Went))
            }
        }
    }
}
