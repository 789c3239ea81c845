//! Queues (cocotb 1.8, `cocotb.queue.Queue`).
ghost use Rattle.std.specs.Prelude.{◌≡◌, ◌<◌, length, IfOk, Ok, None};
ghost use Rattle.py_value.specs.declared.trigger.TaskNo.{TaskNo};
ghost use Rattle.rig_model.specs.Run.Effect.{clears_if, sets_if};
ghost use Rattle.rig_model.specs.Run.Rig.{Setup};
ghost use Rattle.scheduler.specs.QueueEffects.{get_told, put_told};
ghost use Rattle.scheduler.specs.Turns.{LeadsTo, next_fault};
ghost use Rattle.rig_model.specs.declared.task.task.Turned.TheVariants.{GetNow, NewQueue, PutNow};

use crate::locks::{EVENT_LIMIT, refused};
use crate::test::RunningTest;
use crate::turned::Next;
use await_tree::wait_list::{Awaits, Steps};
use await_tree::{Cause, Given};
use gpi::Gpi;
use port_io::NoMemory;
use py_syntax::FaultKind;
use py_value::{EventNo, QueueNo, TaskNo, Value};
use rig_model::task::FlowMaker;
use std::sync::ledger::Ledger;
use task_queue::PutAnswer;

impl<M: FlowMaker + Drop, W: Awaits> RunningTest<M, W> {
    ghost use Rattle.scheduler.specs.TestFits.{HasQueues, HasRoom, HasTurn, KeptFit, LeadsOn};
    ghost use Rattle.scheduler.specs.Parts.{Relates, RelatesAside, means};

    /// A task makes a queue of this bound, 0 meaning none, or is given a RuntimeError where fewer than two numbers of events are left.
    pub(crate) fn new_queue(&mut self, bound: u32) -> Result<Next, NoMemory>
        requires { HasQueues self.old }
        ensures leads { IfOk result (λ next. (setup : Setup) → (task : TaskNo)
            → RelatesAside (means M.FlowMaker M.Flow.Flow W.Awaits) (λ c d. LeadsTo setup task (NewQueue bound) c next d) self.old self.new) }
        ensures fine { IfOk result (λ next. next_fault (Ok next) ≡ None) }
        ensures queue { self.new.queue ≡ self.old.queue }
        ensures tasks { self.new.tasks ≡ self.old.tasks }
    {
        if self.objects.event_count() >= EVENT_LIMIT - 1 {
            return Ok(refused(FaultKind::RuntimeError));
        }
        let items_event = self.objects.add_event()?;
        let space_event = self.objects.add_event()?;
        self.objects.set_event(space_event);
        let queue = self.queues.add(bound, items_event, space_event)?;
        Ok(Next::GoesOn(Given::Value(Value::Queue(queue))))
    }

    /// Where it is so, an event is set, and those who wait for it are served. It takes no memory.
    fn set_if<K: Gpi, L: Ledger>(
        &mut self,
        kernel: &mut K,
        task: TaskNo,
        is_so: bool,
        event: EventNo,
        steps: &mut Steps<L>,
    )
        requires turn { HasTurn (means M.FlowMaker M.Flow.Flow W.Awaits) K.Gpi task self.old kernel.old }
        requires event { event.0 < length self.old.objects.events }
        ensures sets { Relates (means M.FlowMaker M.Flow.Flow W.Awaits) K.Gpi (λ c d. sets_if is_so event c ≡ d)
            self.old kernel.old self.new kernel.new }
        ensures room { HasRoom (means M.FlowMaker M.Flow.Flow W.Awaits) self.new }
        ensures stays { KeptFit (means M.FlowMaker M.Flow.Flow W.Awaits) K.Gpi self.old kernel.old self.new kernel.new }
        ensures events { length self.new.objects.events ≡ length self.old.objects.events }
        ensures queues { self.new.queues ≡ self.old.queues }
    {
        if !is_so {
            return;
        }
        self.objects.set_event(event);
        self.queue.wake(kernel, Cause::Event(event), steps);
    }

    /// Where it is so, an event is cleared. It takes no memory.
    fn clear_if(&mut self, is_so: bool, event: EventNo)
        requires { event.0 < length self.old.objects.events }
        ensures clears { RelatesAside (means M.FlowMaker M.Flow.Flow W.Awaits) (λ c d. clears_if is_so event c ≡ d) self.old self.new }
        ensures queue { self.new.queue ≡ self.old.queue }
        ensures tasks { self.new.tasks ≡ self.old.tasks }
    {
        if !is_so {
            return;
        }
        self.objects.clear_event(event);
    }

    /// An item was put into a queue, which was empty before or not: its events are set and cleared by that, and those who wait for an item are
    /// served. It takes no memory.
    fn tell_put<K: Gpi, L: Ledger>(
        &mut self,
        kernel: &mut K,
        task: TaskNo,
        queue: QueueNo,
        was_empty: bool,
        steps: &mut Steps<L>,
    )
        requires turn { HasTurn (means M.FlowMaker M.Flow.Flow W.Awaits) K.Gpi task self.old kernel.old }
        requires queue { queue.0 < length self.old.queues }
        requires queues { HasQueues self.old }
        ensures tells { Relates (means M.FlowMaker M.Flow.Flow W.Awaits) K.Gpi (λ c d. put_told was_empty queue c ≡ d)
            self.old kernel.old self.new kernel.new }
        ensures room { HasRoom (means M.FlowMaker M.Flow.Flow W.Awaits) self.new }
        ensures stays { KeptFit (means M.FlowMaker M.Flow.Flow W.Awaits) K.Gpi self.old kernel.old self.new kernel.new }
    {
        let items = self.queues.items_event(queue);
        let space = self.queues.space_event(queue);
        self.set_if(kernel, task, was_empty, items, steps);
        let full = self.queues.is_full(queue);
        self.clear_if(full, space);
    }

    /// An item was taken out of a queue, which was full before or not: its events are set and cleared by that, and those who wait for room are
    /// served. It takes no memory.
    fn tell_get<K: Gpi, L: Ledger>(
        &mut self,
        kernel: &mut K,
        task: TaskNo,
        queue: QueueNo,
        was_full: bool,
        steps: &mut Steps<L>,
    )
        requires turn { HasTurn (means M.FlowMaker M.Flow.Flow W.Awaits) K.Gpi task self.old kernel.old }
        requires queue { queue.0 < length self.old.queues }
        requires queues { HasQueues self.old }
        ensures tells { Relates (means M.FlowMaker M.Flow.Flow W.Awaits) K.Gpi (λ c d. get_told was_full queue c ≡ d)
            self.old kernel.old self.new kernel.new }
        ensures room { HasRoom (means M.FlowMaker M.Flow.Flow W.Awaits) self.new }
        ensures stays { KeptFit (means M.FlowMaker M.Flow.Flow W.Awaits) K.Gpi self.old kernel.old self.new kernel.new }
    {
        let items = self.queues.items_event(queue);
        let space = self.queues.space_event(queue);
        self.set_if(kernel, task, was_full, space, steps);
        let held = self.queues.len(queue);
        self.clear_if(held == 0, items);
    }

    /// A task puts an item into a queue, behind the others: the first one sets the event of items, whose waiters are served, and the one that
    /// fills the queue clears that of its room. Where the queue is full the task is given QueueFull, and where it has no bound and holds 65,536
    /// items a RuntimeError.
    pub(crate) fn put_item<K: Gpi, L: Ledger>(
        &mut self,
        kernel: &mut K,
        task: TaskNo,
        queue: QueueNo,
        item: Value,
        steps: &mut Steps<L>,
    ) -> Result<Next, NoMemory>
        requires turn { HasTurn (means M.FlowMaker M.Flow.Flow W.Awaits) K.Gpi task self.old kernel.old }
        requires queue { queue.0 < length self.old.queues }
        requires queues { HasQueues self.old }
        ensures leads { IfOk result (λ next.
            LeadsOn (means M.FlowMaker M.Flow.Flow W.Awaits) K.Gpi task (PutNow queue item) self.old kernel.old next self.new kernel.new) }
        ensures stays { KeptFit (means M.FlowMaker M.Flow.Flow W.Awaits) K.Gpi self.old kernel.old self.new kernel.new }
    {
        let held = self.queues.len(queue);
        match self.queues.put_now(queue, item)? {
            PutAnswer::Stored => {
                self.tell_put(kernel, task, queue, held == 0, steps);
                Ok(Next::GoesOn(Given::Value(Value::Absent)))
            }
            PutAnswer::Full => Ok(refused(FaultKind::QueueFull)),
            PutAnswer::AtLimit => Ok(refused(FaultKind::RuntimeError)),
        }
    }

    /// A task takes the oldest item out of a queue, and is given it: where the queue was full the event of its room is set, whose waiters are
    /// served, and the last item that is taken clears that of items. Where the queue holds none the task is given QueueEmpty. It takes no memory.
    pub(crate) fn get_item<K: Gpi, L: Ledger>(
        &mut self,
        kernel: &mut K,
        task: TaskNo,
        queue: QueueNo,
        steps: &mut Steps<L>,
    ) -> Next
        requires turn { HasTurn (means M.FlowMaker M.Flow.Flow W.Awaits) K.Gpi task self.old kernel.old }
        requires queue { queue.0 < length self.old.queues }
        requires queues { HasQueues self.old }
        ensures leads { LeadsOn (means M.FlowMaker M.Flow.Flow W.Awaits) K.Gpi task (GetNow queue) self.old kernel.old result self.new kernel.new }
        ensures stays { KeptFit (means M.FlowMaker M.Flow.Flow W.Awaits) K.Gpi self.old kernel.old self.new kernel.new }
    {
        let was_full = self.queues.is_full(queue);
        match self.queues.get_now(queue) {
            Some(item) => {
                self.tell_get(kernel, task, queue, was_full, steps);
                Next::GoesOn(Given::Value(item))
            }
            None => refused(FaultKind::QueueEmpty),
        }
    }
}
