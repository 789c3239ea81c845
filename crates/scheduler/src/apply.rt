//! What each thing that a task wants does.
ghost use Rattle.std.specs.Prelude.{◌≢◌, ◌≤◌, IfOk, Some};
ghost use Rattle.gpi.specs.Limits.{latest_time};
ghost use Rattle.port_io.specs.Means.{PutsTo, sink_means};
ghost use Rattle.scheduler.specs.Setups.{setup_of};
ghost use Rattle.rig_model.specs.Run.Effect.{effect};
ghost use Rattle.rig_model.specs.Run.Rig.{view_of};
ghost use Rattle.scheduler.specs.Turns.{LeadsTo, next_fault};
ghost use Rattle.rig_model.specs.Task.Known.{KnowsTurned};

use crate::teller::Teller;
use crate::test::RunningTest;
use crate::turned::Next;
use crate::writes::write_log;
use await_tree::wait_list::{Awaits, Steps};
use gpi::Gpi;
use port_io::{NoMemory, Sink};
use py_value::TaskNo;
use rig_model::task::{FlowMaker, Turned};
use run_view::signal_port::Staged;
use std::alloc::Global;
use std::sync::ledger::Ledger;

impl<M: FlowMaker + Drop, W: Awaits> RunningTest<M, W> {
    ghost use Rattle.scheduler.specs.TestFits.{FitsAt, FitsNext, HasQueues, Kept};
    ghost use Rattle.scheduler.specs.Parts.{Relates, means, rig_of};

    /// What the task wants that has its turn is done, once the turn is taken from it. What tasks see must know what it wants. The task goes on and
    /// is given something, or its turn ends. After a failed put and after `NoMemory` only `clear` is called.
    pub fn apply<O: Sink, K: Gpi, L: Ledger>(
        &mut self,
        alloc: Global,
        kernel: &mut K,
        teller: &Teller<'_>,
        task: TaskNo,
        turned: Turned,
        out: &mut O,
        steps: &mut Steps<L>,
    ) -> Result<Next, NoMemory>
        requires loaded { K.is_loaded kernel.old }
        requires fits { FitsAt (Some task) teller.now.flat.now
            (means M.FlowMaker M.Flow.Flow W.Awaits) self.old (K.content kernel.old) }
        requires time { (K.content kernel.old).state.time ≤ latest_time }
        requires known { KnowsTurned (M.functions self.old.tasks.maker) (view_of (setup_of (M.functions self.old.tasks.maker) teller.now)
            (rig_of (means M.FlowMaker M.Flow.Flow W.Awaits) self.old (K.content kernel.old))) turned }
        requires queues { HasQueues self.old }
        requires wanted { turned ≢ Turned.Spent }
        ensures leads { IfOk result (λ next. Relates (means M.FlowMaker M.Flow.Flow W.Awaits) K.Gpi
            (λ c d. LeadsTo (setup_of (M.functions self.old.tasks.maker) teller.now) task turned c next d) self.old kernel.old self.new kernel.new) }
        ensures puts { PutsTo (sink_means O.Sink) out.old (effect (setup_of (M.functions self.old.tasks.maker) teller.now) task turned
            (rig_of (means M.FlowMaker M.Flow.Flow W.Awaits) self.old (K.content kernel.old))).lines
            (next_fault result) out.new }
        ensures fits { IfOk result (λ next. FitsNext task next teller.now.flat.now
            (means M.FlowMaker M.Flow.Flow W.Awaits) self.new (K.content kernel.new)) }
        ensures kept { Kept (means M.FlowMaker M.Flow.Flow W.Awaits) K.Gpi self.old self.new kernel.new }
    {
        match turned {
            Turned::Await(trig) => self.wait(alloc, kernel, task, trig, steps),
            Turned::Stage { sig, act } => self.stage_write(kernel, sig, act, steps),
            Turned::Put { sig, act } => self.put_write(
                alloc,
                kernel,
                teller,
                Staged { sig, act },
                out,
                steps,
            ),
            Turned::Start {
                func,
                args,
                give_way,
            } => self.start_task(alloc, task, func, args, give_way),
            Turned::Kill(other) => Ok(self.kill(kernel, task, other, steps)),
            Turned::NewEvent => self.new_event(),
            Turned::SetEvent(event) => Ok(self.set_event(kernel, task, event, steps)),
            Turned::ClearEvent(event) => Ok(self.clear_event(event)),
            Turned::NewLock => self.new_lock(),
            Turned::Release(lock) => Ok(self.release(kernel, task, lock, steps)),
            Turned::NewQueue(bound) => self.new_queue(bound),
            Turned::PutNow { queue, item } => self.put_item(kernel, task, queue, item, steps),
            Turned::GetNow(queue) => Ok(self.get_item(kernel, task, queue, steps)),
            Turned::Draw { low, span } => Ok(self.draw(low, span)),
            Turned::Log { level, text } => write_log(alloc, kernel.now(), level, &text, out),
            Turned::Done(value) => Ok(self.finish(kernel, task, value, steps)),
            Turned::Raised(fault) => self.fail(alloc, kernel, task, fault, steps),
            Turned::Spent => unreachable!(),
        }
    }
}
