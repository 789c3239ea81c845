//! The tasks of a test, by number.
ghost use Rattle.std.specs.Prelude.{◌≡◌, ◌⊎◌, ◌≤◌, ◌<◌, ◌++◌, ◌∷◌, [], length, IfOk, OnOk, OnErr, IsSome};
ghost use Rattle.await_tree.specs.EndedTasks.Endings as endings;
ghost use Rattle.await_tree.specs.EndedTasks.Memory as memory;
ghost use Rattle.run_state.specs.LiveTasks.Flows.{meanings};
ghost use Rattle.rig_model.specs.Run.Known.{KnowsTasks};
ghost use Rattle.rig_model.specs.Run.Step.{task_at};
ghost use Rattle.run_view.specs.View.{view_of, HaveEvents, IsOf};
ghost use Rattle.rig_model.specs.Task.Frame.{fresh, function_at};
ghost use Rattle.rig_model.specs.Task.Known.{KnowsGiven};
ghost use Rattle.run_state.specs.TestTasks.Live.{LeavesOne, PollsOne};

use crate::live_tasks::LiveTasks;
use await_tree::Given;
use await_tree::ended_tasks::{EndedTasks, Ending};
use await_tree::sync_objects::Objects;
use gpi::{Flat, Gpi};
use port_io::{NoMemory, Sequence};
use py_value::{TaskNo, Value};
use rig_model::task::{FlowMaker, Turned};
use run_view::RunView;
use run_view::design_names::DesignNames;
use std::alloc::Global;
use task_queue::Queues;

/// How many tasks may live at once.
const LIVE_LIMIT: u32 = 65_536;

/// How many tasks may be started in a test.
const START_LIMIT: u32 = 16_777_216;

/// The tasks of a test, which a maker makes of the functions of its file: the flows of those that live, and how the others have ended. Only `start`,
/// `poll` and `told` take memory, and their one error is the want of it.
#[derive(Drop)]
pub struct TestTasks<M: FlowMaker + Drop> {
    pub(crate) maker: M,
    pub(crate) live: LiveTasks<M::Flow>,
    pub(crate) ended: EndedTasks,
}

impl<M: FlowMaker + Drop> TestTasks<M> {
    ghost use Rattle.run_state.specs.TestTasks.Tasks.{are_full, live_in, without, IsWhole};

    /// No task was started. It takes no memory.
    pub fn new(alloc: Global, maker: M) -> TestTasks<M>
        ensures maker { result.maker ≡ maker }
        ensures live { live_in M.Flow.meaning result ≡ [] }
        ensures ended { result.ended ≡ [] }
        ensures whole { IsWhole M.functions (meanings M.Flow.functions M.Flow.meaning) result }
    {
        TestTasks {
            maker,
            live: LiveTasks::new(alloc),
            ended: EndedTasks::new(alloc),
        }
    }

    /// How the tasks have ended that were started.
    pub fn ended(&self) -> &EndedTasks
        ensures { result.now ≡ self.now.ended }
    {
        &self.ended
    }

    /// How many tasks live.
    pub fn count(&self) -> u32
        ensures { result ≡ length (live_in M.Flow.meaning self.now) }
    {
        self.live.count()
    }

    /// Whether no further task may be started: 65,536 live, or 16,777,216 were started.
    pub fn is_full(&self) -> bool
        ensures { result ≡ are_full (live_in M.Flow.meaning self.now) self.now.ended }
    {
        self.live.count() >= LIVE_LIMIT || self.ended.count() >= START_LIMIT
    }

    /// Whether a task that was started has ended (cocotb 1.8, `Task.done`). It takes no memory.
    pub fn is_done(&self, task: TaskNo) -> bool
        requires { task.0 < length self.now.ended }
        ensures { result ≡ endings.is_done task self.now.ended }
    {
        self.ended.is_done(task)
    }

    /// What a task is given, where the result of a join is put in the place of `Given::Joined`. Memory is wanting only for such a result.
    pub fn told(&self, alloc: Global, given: Given) -> Result<Given, NoMemory>
        requires { endings.HasStarted given self.now.ended }
        ensures is { IfOk result (λ told. told ≡ endings.told_given given self.now.ended) }
        ensures want { OnErr result (memory.IsWant given self.now.ended) }
    {
        self.ended.told(alloc, given)
    }

    /// Starts a task of that function with these values for its parameters, in order: it lives, and has the next number. Fewer than 16,777,216 were
    /// started before. After `NoMemory` the same tasks live, and the new one may count
    /// as started (`counted`); then only `clear` may follow.
    pub fn start(
        &mut self,
        alloc: Global,
        func: u32,
        args: Sequence<Value>,
    ) -> Result<TaskNo, NoMemory>
        requires whole { IsWhole M.functions (meanings M.Flow.functions M.Flow.meaning) self.old }
        requires func { func < length (M.functions self.old.maker) }
        requires room { length self.old.ended < endings.start_limit }
        ensures number { IfOk result (λ number. number ≡ record { 0 = length self.old.ended }) }
        ensures live { OnOk result (live_in M.Flow.meaning self.new ≡ live_in M.Flow.meaning self.old
            ++ fresh (record { 0 = length self.old.ended }) (function_at (M.functions self.old.maker) func) args ∷ []) }
        ensures ended { OnOk result (self.new.ended ≡ endings.with_task self.old.ended) }
        ensures whole { OnOk result (IsWhole M.functions (meanings M.Flow.functions M.Flow.meaning) self.new) }
        ensures maker { self.new.maker ≡ self.old.maker }
        ensures err { OnErr result (live_in M.Flow.meaning self.new ≡ live_in M.Flow.meaning self.old) }
        ensures counted { OnErr result ((self.new.ended ≡ self.old.ended) ⊎ (self.new.ended ≡ endings.with_task self.old.ended)) }
    {
        let number = TaskNo(self.ended.count());
        let flow = self.maker.make(alloc, number, func, args)?;
        self.ended.add()?;
        self.live.start(alloc, flow)?;
        Ok(number)
    }

    /// Polls the live task of that number, where it is given the answer to what it wanted last. It sees the simulator, which runs this design with
    /// these names, the events, locks and queues, and how tasks have ended, and must know there what the tasks hold and what this one is given. The fuel
    /// falls by what the steps cost, and `Spent` comes where it doesn't suffice for the next one. After want of memory the task keeps its number,
    /// what it has still to do may be anything, the fuel hasn't risen, and all else is as before.
    pub fn poll<K: Gpi>(
        &mut self,
        alloc: Global,
        kernel: &K,
        flat: &Flat,
        names: &DesignNames<'_>,
        objects: &Objects,
        queues: &Queues,
        task: TaskNo,
        given: Given,
        fuel: &mut u64,
    ) -> Result<Turned, NoMemory>
        requires whole { IsWhole M.functions (meanings M.Flow.functions M.Flow.meaning) self.old }
        requires loaded { K.is_loaded kernel.now }
        requires design { IsOf flat.now names.now (K.content kernel.now).state }
        requires events { HaveEvents objects.now queues.now }
        requires lives { IsSome (task_at task (live_in M.Flow.meaning self.old)) }
        requires known { KnowsTasks (M.functions self.old.maker) (view_of flat.now (K.content kernel.now).state objects.now queues.now self.old.ended)
            (live_in M.Flow.meaning self.old) }
        requires answer { KnowsGiven (view_of flat.now (K.content kernel.now).state objects.now queues.now self.old.ended) given }
        ensures falls { fuel.new ≤ fuel.old }
        ensures left { LeavesOne (live_in M.Flow.meaning self.old) task (live_in M.Flow.meaning self.new) }
        ensures polls { IfOk result
            (λ turned. PollsOne (M.functions self.old.maker) (view_of flat.now (K.content kernel.now).state objects.now queues.now self.old.ended) fuel.old
            (live_in M.Flow.meaning self.old) task given turned fuel.new (live_in M.Flow.meaning self.new)) }
        ensures ended { self.new.ended ≡ self.old.ended }
        ensures whole { IsWhole M.functions (meanings M.Flow.functions M.Flow.meaning) self.new }
        ensures maker { self.new.maker ≡ self.old.maker }
    {
        let view = RunView::new(kernel, flat, names, objects, queues, &self.ended);
        self.live.poll(alloc, task, given, &view, fuel)
    }

    /// The live task of that number ends so, and lives no more. It takes no memory.
    pub fn end(&mut self, task: TaskNo, ending: Ending)
        requires whole { IsWhole M.functions (meanings M.Flow.functions M.Flow.meaning) self.old }
        requires lives { IsSome (task_at task (live_in M.Flow.meaning self.old)) }
        ensures live { live_in M.Flow.meaning self.new ≡ without task (live_in M.Flow.meaning self.old) }
        ensures ended { self.new.ended ≡ endings.with_ending task ending self.old.ended }
        ensures whole { IsWhole M.functions (meanings M.Flow.functions M.Flow.meaning) self.new }
        ensures maker { self.new.maker ≡ self.old.maker }
    {
        self.live.end(task);
        self.ended.end(task, ending);
    }

    /// Drops all tasks, as the end of a test does: none was started then. It takes no memory.
    pub fn clear(&mut self)
        ensures live { live_in M.Flow.meaning self.new ≡ [] }
        ensures ended { self.new.ended ≡ [] }
        ensures whole { IsWhole M.functions (meanings M.Flow.functions M.Flow.meaning) self.new }
        ensures maker { self.new.maker ≡ self.old.maker }
    {
        self.live.clear();
        self.ended.clear();
    }
}
