//! Events and locks (cocotb 1.8, "Triggers", `Event` and `Lock`).
ghost use Rattle.std.specs.Prelude.{◌≡◌, ◌<◌, length, IfOk, Ok, None};
ghost use Rattle.py_value.specs.declared.trigger.TaskNo.{TaskNo};
ghost use Rattle.py_value.specs.Answer.{plain_fault};
ghost use Rattle.rig_model.specs.Run.Rig.{Setup};
ghost use Rattle.scheduler.specs.Turns.{LeadsTo, next_fault};
ghost use Rattle.rig_model.specs.declared.task.task.Turned.TheVariants.{ClearEvent, NewEvent, NewLock, Release, SetEvent};

use crate::test::RunningTest;
use crate::turned::Next;
use await_tree::wait_list::{Awaits, Steps};
use await_tree::{Cause, Given};
use gpi::Gpi;
use port_io::NoMemory;
use py_syntax::FaultKind;
use py_value::{EventNo, Fault, LockNo, TaskNo, Value};
use rig_model::task::FlowMaker;
use std::sync::ledger::Ledger;

/// How many events may be made in a test.
pub(crate) const EVENT_LIMIT: u32 = 65_536;

/// How many locks may be made in a test.
const LOCK_LIMIT: u32 = 65_536;

/// The task goes on, and a fault of that kind is raised in it.
pub(crate) fn refused(kind: FaultKind) -> Next
    ensures { result ≡ Next.GoesOn (Given.Fault (plain_fault kind)) }
{
    Next::GoesOn(Given::Fault(Fault::plain(kind)))
}

impl<M: FlowMaker + Drop, W: Awaits> RunningTest<M, W> {
    ghost use Rattle.scheduler.specs.TestFits.{HasTurn, KeptFit, LeadsOn};
    ghost use Rattle.scheduler.specs.Parts.{RelatesAside, means};

    /// A task makes an event, or is given a RuntimeError where there are 65,536.
    pub(crate) fn new_event(&mut self) -> Result<Next, NoMemory>
        ensures leads { IfOk result (λ next. (setup : Setup) → (task : TaskNo)
            → RelatesAside (means M.FlowMaker M.Flow.Flow W.Awaits) (λ c d. LeadsTo setup task NewEvent c next d) self.old self.new) }
        ensures fine { IfOk result (λ next. next_fault (Ok next) ≡ None) }
        ensures queue { self.new.queue ≡ self.old.queue }
        ensures tasks { self.new.tasks ≡ self.old.tasks }
    {
        if self.objects.event_count() >= EVENT_LIMIT {
            return Ok(refused(FaultKind::RuntimeError));
        }
        let event = self.objects.add_event()?;
        Ok(Next::GoesOn(Given::Value(Value::Event(event))))
    }

    /// A task makes a lock, or is given a RuntimeError where there are 65,536.
    pub(crate) fn new_lock(&mut self) -> Result<Next, NoMemory>
        ensures leads { IfOk result (λ next. (setup : Setup) → (task : TaskNo)
            → RelatesAside (means M.FlowMaker M.Flow.Flow W.Awaits) (λ c d. LeadsTo setup task NewLock c next d) self.old self.new) }
        ensures fine { IfOk result (λ next. next_fault (Ok next) ≡ None) }
        ensures queue { self.new.queue ≡ self.old.queue }
        ensures tasks { self.new.tasks ≡ self.old.tasks }
    {
        if self.objects.lock_count() >= LOCK_LIMIT {
            return Ok(refused(FaultKind::RuntimeError));
        }
        let lock = self.objects.add_lock()?;
        Ok(Next::GoesOn(Given::Value(Value::Lock(lock))))
    }

    /// A task sets an event, and those who wait for it are served. It takes no memory.
    pub(crate) fn set_event<K: Gpi, L: Ledger>(
        &mut self,
        kernel: &mut K,
        task: TaskNo,
        event: EventNo,
        steps: &mut Steps<L>,
    ) -> Next
        requires turn { HasTurn (means M.FlowMaker M.Flow.Flow W.Awaits) K.Gpi task self.old kernel.old }
        requires event { event.0 < length self.old.objects.events }
        ensures leads { LeadsOn (means M.FlowMaker M.Flow.Flow W.Awaits) K.Gpi task (SetEvent event) self.old kernel.old result self.new kernel.new }
        ensures stays { KeptFit (means M.FlowMaker M.Flow.Flow W.Awaits) K.Gpi self.old kernel.old self.new kernel.new }
    {
        self.objects.set_event(event);
        self.queue.wake(kernel, Cause::Event(event), steps);
        Next::GoesOn(Given::Value(Value::Absent))
    }

    /// A task clears an event. It takes no memory.
    pub(crate) fn clear_event(&mut self, event: EventNo) -> Next
        requires { event.0 < length self.old.objects.events }
        ensures leads { (setup : Setup) → (task : TaskNo)
            → RelatesAside (means M.FlowMaker M.Flow.Flow W.Awaits) (λ c d. LeadsTo setup task (ClearEvent event) c result d) self.old self.new }
        ensures fine { next_fault (Ok result) ≡ None }
        ensures queue { self.new.queue ≡ self.old.queue }
        ensures tasks { self.new.tasks ≡ self.old.tasks }
    {
        self.objects.clear_event(event);
        Next::GoesOn(Given::Value(Value::Absent))
    }

    /// A task releases a lock, which goes to the first task that waits for it, or is free. Where it isn't held the task is given a TriggerException.
    /// It takes no memory.
    pub(crate) fn release<K: Gpi, L: Ledger>(
        &mut self,
        kernel: &mut K,
        task: TaskNo,
        lock: LockNo,
        steps: &mut Steps<L>,
    ) -> Next
        requires turn { HasTurn (means M.FlowMaker M.Flow.Flow W.Awaits) K.Gpi task self.old kernel.old }
        requires lock { lock.0 < length self.old.objects.locks }
        ensures leads { LeadsOn (means M.FlowMaker M.Flow.Flow W.Awaits) K.Gpi task (Release lock) self.old kernel.old result self.new kernel.new }
        ensures stays { KeptFit (means M.FlowMaker M.Flow.Flow W.Awaits) K.Gpi self.old kernel.old self.new kernel.new }
    {
        if !self.objects.is_locked(lock) {
            return refused(FaultKind::TriggerException);
        }
        if self.queue.grant(kernel, lock, steps) {
            return Next::GoesOn(Given::Value(Value::Absent));
        }
        self.objects.free(lock);
        Next::GoesOn(Given::Value(Value::Absent))
    }
}
