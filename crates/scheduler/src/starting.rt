//! Tasks that are started.
ghost use Rattle.std.specs.Prelude.{◌≡◌, ◌≤◌, ◌<◌, ◌+◌, [], length, IfOk, OnOk, Ok, Some, None};
ghost use Rattle.gpi.specs.Content.{Content};
ghost use Rattle.scheduler.specs.EffectLaws.Stands.{StandsIn};
ghost use Rattle.await_tree.specs.EndedTasks.Endings.{start_limit};
ghost use Rattle.rig_model.specs.Run.Effect.{with_new_task};
ghost use Rattle.rig_model.specs.Run.Limits.{live_limit};
ghost use Rattle.rig_model.specs.Run.Rig.{Setup};
ghost use Rattle.scheduler.specs.Turns.{LeadsTo, next_fault};
ghost use Rattle.rig_model.specs.Task.Frame.{function_at};
ghost use Rattle.rig_model.specs.declared.task.task.Turned.TheVariants.{Start};
ghost use Rattle.run_state.specs.TestTasks.Tasks.{live_in};

use crate::test::RunningTest;
use crate::turned::{Next, Turn};
use await_tree::Given;
use await_tree::wait_list::Awaits;
use port_io::{NoMemory, Sequence};
use py_syntax::FaultKind;
use py_value::{Fault, TaskNo, Value};
use rig_model::task::FlowMaker;
use std::alloc::Global;

impl<M: FlowMaker + Drop, W: Awaits> RunningTest<M, W> {
    ghost use Rattle.scheduler.specs.TestFits.{HasRoom, KeptAside};
    ghost use Rattle.scheduler.specs.Parts.{RelatesAside, means, rig_of};

    /// A task of that function, with these values for its parameters, is live and ready, behind all others: its number. No limit on tasks is reached.
    pub(crate) fn add_task(
        &mut self,
        alloc: Global,
        func: u32,
        args: Sequence<Value>,
    ) -> Result<TaskNo, NoMemory>
        requires room { HasRoom (means M.FlowMaker M.Flow.Flow W.Awaits) self.old }
        requires few { length self.old.queue.ready.entries + length (W.waiting self.old.queue.awaits)
            ≤ length (live_in M.Flow.meaning self.old.tasks) }
        requires func { func < length (M.functions self.old.tasks.maker) }
        requires live { length (live_in M.Flow.meaning self.old.tasks) < live_limit }
        requires started { length self.old.tasks.ended < start_limit }
        ensures number { IfOk result (λ number. number ≡ record { 0 = length self.old.tasks.ended }) }
        ensures added { OnOk result (RelatesAside (means M.FlowMaker M.Flow.Flow W.Awaits)
            (λ c d. d ≡ with_new_task (function_at (M.functions self.old.tasks.maker) func) args c) self.old self.new) }
        ensures few { OnOk result
            (length self.new.queue.ready.entries + length (W.waiting self.new.queue.awaits) ≤ length (live_in M.Flow.meaning self.new.tasks)) }
        ensures room { OnOk result (HasRoom (means M.FlowMaker M.Flow.Flow W.Awaits) self.new) }
        ensures stays { KeptAside (means M.FlowMaker M.Flow.Flow W.Awaits) self.old self.new }
    {
        let tasks = self.tasks.count() + 1;
        self.queue.make_room(tasks)?;
        let number = self.tasks.start(alloc, func, args)?;
        self.queue.put(number, Given::Begin);
        Ok(number)
    }

    /// A test begins, in which no task was started: its own task, of that function with these values for its parameters, is live and ready. Only
    /// want of memory is an error.
    pub fn begin(&mut self, alloc: Global, func: u32, args: Sequence<Value>) -> Result<(), NoMemory>
        requires room { HasRoom (means M.FlowMaker M.Flow.Flow W.Awaits) self.old }
        requires none { self.old.tasks.ended ≡ [] }
        requires ready { self.old.queue.ready.entries ≡ [] }
        requires waiting { W.waiting self.old.queue.awaits ≡ [] }
        requires func { func < length (M.functions self.old.tasks.maker) }
        ensures added { OnOk result (RelatesAside (means M.FlowMaker M.Flow.Flow W.Awaits)
            (λ c d. d ≡ with_new_task (function_at (M.functions self.old.tasks.maker) func) args c) self.old self.new) }
        ensures room { OnOk result (HasRoom (means M.FlowMaker M.Flow.Flow W.Awaits) self.new) }
        ensures stays { KeptAside (means M.FlowMaker M.Flow.Flow W.Awaits) self.old self.new }
    {
        self.add_task(alloc, func, args)?;
        Ok(())
    }

    /// A task starts another (cocotb 1.8, "Coroutines and Tasks"), and goes on or gives way to it. Where a limit on tasks is reached it is given a
    /// RuntimeError.
    pub(crate) fn start_task(
        &mut self,
        alloc: Global,
        task: TaskNo,
        func: u32,
        args: Sequence<Value>,
        give_way: bool,
    ) -> Result<Next, NoMemory>
        requires room { HasRoom (means M.FlowMaker M.Flow.Flow W.Awaits) self.old }
        requires stands { (content : Content)
            → StandsIn (Some task) (rig_of (means M.FlowMaker M.Flow.Flow W.Awaits) self.old content) }
        requires func { func < length (M.functions self.old.tasks.maker) }
        ensures leads { IfOk result (λ next. (setup : Setup) → RelatesAside (means M.FlowMaker M.Flow.Flow W.Awaits)
            (λ c d. setup.functions ≡ M.functions self.old.tasks.maker → LeadsTo setup task (Start func args give_way) c next d)
            self.old self.new) }
        ensures fine { IfOk result (λ next. next_fault (Ok next) ≡ None) }
        ensures room { OnOk result (HasRoom (means M.FlowMaker M.Flow.Flow W.Awaits) self.new) }
        ensures stays { KeptAside (means M.FlowMaker M.Flow.Flow W.Awaits) self.old self.new }
    {
        if self.tasks.is_full() {
            return Ok(Next::GoesOn(Given::Fault(Fault::plain(FaultKind::RuntimeError))));
        }
        let number = self.add_task(alloc, func, args)?;
        let given = Given::Value(Value::Task(number));
        if give_way {
            self.queue.put(task, given);
            Ok(Next::Ends(Turn::Went))
        } else {
            Ok(Next::GoesOn(given))
        }
    }
}
