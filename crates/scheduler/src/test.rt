//! A test that runs.
ghost use Rattle.std.specs.Prelude.{◌≡◌, ◌≤◌, [], IfOk, IsSome};
ghost use Rattle.gpi.specs.Content.{Content};
ghost use Rattle.gpi.specs.declared.design.Flat.{Flat};
ghost use Rattle.await_tree.specs.EndedTasks.Endings.{HasStarted, told_given};
ghost use Rattle.run_view.specs.RandomStream.Generator.{seeded};
ghost use Rattle.rig_model.specs.Run.Known.{KnowsTasks};
ghost use Rattle.rig_model.specs.Run.Step.{task_at};
ghost use Rattle.rig_model.specs.Parts.Queue.{Leads, nothing_queued};
ghost use Rattle.run_state.specs.Queue.Effects.{dropping};
ghost use Rattle.run_state.specs.Queue.Fits.{Fits, IsBare, Keeps, Stays, queue_of};
ghost use Rattle.run_view.specs.View.{view_of, HaveEvents, IsOf};
ghost use Rattle.await_tree.specs.SyncObjects.States.{none};
ghost use Rattle.rig_model.specs.Task.Known.{KnowsGiven};
ghost use Rattle.run_state.specs.TestTasks.Live.{LeavesOne, PollsOne};
ghost use Rattle.run_state.specs.TestTasks.Tasks.{live_in};
ghost use Rattle.await_tree.specs.WaitList.Keys.{AreAlike, AreKeys};

use await_tree::Given;
use await_tree::sync_objects::Objects;
use await_tree::wait_list::{Awaits, Steps};
use gpi::{Flat, Gpi};
use port_io::NoMemory;
use py_value::TaskNo;
use rig_model::task::{FlowMaker, Turned};
use run_state::queue::RunQueue;
use run_state::test_tasks::TestTasks;
use run_view::design_names::DesignNames;
use run_view::random_stream::RandomStream;
use std::alloc::Global;
use std::sync::ledger::Ledger;
use task_queue::Queues;

/// A test that runs, or none: its tasks, what is ready, waits and is awaited, its events, locks and queues, and the random numbers of the run.
/// Contracts see it, together with a simulator, as the configuration `rig_of` of `specs/Parts.antt`.
#[derive(Drop)]
pub struct RunningTest<M: FlowMaker + Drop, W: Awaits> {
    /// What is ready, waits and is awaited.
    pub queue: RunQueue<W>,
    pub(crate) tasks: TestTasks<M>,
    pub(crate) objects: Objects,
    pub(crate) queues: Queues,
    pub(crate) random: RandomStream,
}

impl<M: FlowMaker + Drop, W: Awaits> RunningTest<M, W> {
    ghost use Rattle.scheduler.specs.TestFits.{HasRoom};
    ghost use Rattle.scheduler.specs.Parts.{means, parts_of};

    /// No test runs. No task may wait in `awaits`, and it may hold no key. Only want of memory is an error.
    pub fn new(alloc: Global, maker: M, awaits: W, seed: u64) -> Result<Self, NoMemory>
        requires waiting { W.waiting awaits ≡ [] }
        requires held { AreAlike (W.held awaits) [] }
        ensures maker { IfOk result (λ test. test.tasks.maker ≡ maker) }
        ensures parts { IfOk result (λ test. parts_of (means M.FlowMaker M.Flow.Flow W.Awaits) test
            ≡ record { tasks = []; endings = []; objects = none; queues = []; random = seeded seed }) }
        ensures queue { IfOk result (λ test. queue_of W.waiting test.queue ≡ nothing_queued) }
        ensures room { IfOk result (λ test. HasRoom (means M.FlowMaker M.Flow.Flow W.Awaits) test) }
        ensures fits { IfOk result
            (λ test. (flat : Flat) → (content : Content) → IsBare flat content → Fits flat W.waiting W.held test.queue content) }
    {
        Ok(RunningTest {
            queue: RunQueue::new(alloc, awaits)?,
            tasks: TestTasks::new(alloc, maker),
            objects: Objects::new(alloc),
            queues: Queues::new(alloc),
            random: RandomStream::new(seed),
        })
    }

    /// What a task is given, where the result of a join is put in the place of `Given::Joined`. Only want of memory is an error.
    pub fn told(&self, alloc: Global, given: Given) -> Result<Given, NoMemory>
        requires { HasStarted given self.now.tasks.ended }
        ensures { IfOk result (λ told. told ≡ told_given given self.now.tasks.ended) }
    {
        self.tasks.told(alloc, given)
    }

    /// Polls the live task of that number: the next thing that it wants, where it is given the answer to the last one. What it sees must know what
    /// the tasks hold and what this one is given. The fuel falls by what the steps cost, and `Spent` comes where it doesn't suffice for the next one.
    pub fn poll<K: Gpi>(
        &mut self,
        alloc: Global,
        kernel: &K,
        flat: &Flat,
        names: &DesignNames<'_>,
        task: TaskNo,
        given: Given,
        fuel: &mut u64,
    ) -> Result<Turned, NoMemory>
        requires room { HasRoom (means M.FlowMaker M.Flow.Flow W.Awaits) self.old }
        requires loaded { K.is_loaded kernel.now }
        requires design { IsOf flat.now names.now (K.content kernel.now).state }
        requires events { HaveEvents self.old.objects self.old.queues }
        requires lives { IsSome (task_at task (live_in M.Flow.meaning self.old.tasks)) }
        requires known { KnowsTasks (M.functions self.old.tasks.maker)
            (view_of flat.now (K.content kernel.now).state self.old.objects self.old.queues self.old.tasks.ended)
            (live_in M.Flow.meaning self.old.tasks) }
        requires answer { KnowsGiven
            (view_of flat.now (K.content kernel.now).state self.old.objects self.old.queues self.old.tasks.ended) given }
        ensures falls { fuel.new ≤ fuel.old }
        ensures left { LeavesOne (live_in M.Flow.meaning self.old.tasks) task (live_in M.Flow.meaning self.new.tasks) }
        ensures polls { IfOk result (λ turned. PollsOne (M.functions self.old.tasks.maker)
            (view_of flat.now (K.content kernel.now).state self.old.objects self.old.queues self.old.tasks.ended) fuel.old
            (live_in M.Flow.meaning self.old.tasks) task given turned fuel.new (live_in M.Flow.meaning self.new.tasks)) }
        ensures rest { parts_of (means M.FlowMaker M.Flow.Flow W.Awaits) self.new
            ≡ record (parts_of (means M.FlowMaker M.Flow.Flow W.Awaits) self.old)
            { tasks = live_in M.Flow.meaning self.new.tasks } }
        ensures room { HasRoom (means M.FlowMaker M.Flow.Flow W.Awaits) self.new }
        ensures maker { self.new.tasks.maker ≡ self.old.tasks.maker }
        ensures queue { self.new.queue ≡ self.old.queue }
    {
        self.tasks.poll(
            alloc,
            kernel,
            flat,
            names,
            &self.objects,
            &self.queues,
            task,
            given,
            fuel,
        )
    }

    /// Drops all of the test: its tasks, its events, locks and queues, and all that is ready, waits or is awaited; no key is registered any more.
    /// The random numbers go on where they are. It takes no memory.
    pub fn clear<K: Gpi, L: Ledger>(&mut self, kernel: &mut K, steps: &mut Steps<L>)
        requires loaded { K.is_loaded kernel.old }
        requires keeps { Keeps W.waiting W.held self.old.queue (K.content kernel.old) }
        ensures parts { parts_of (means M.FlowMaker M.Flow.Flow W.Awaits) self.new
            ≡ record { tasks = []; endings = []; objects = none; queues = []; random = self.old.random } }
        ensures queue { queue_of W.waiting self.new.queue ≡ nothing_queued }
        ensures leads { Leads dropping (queue_of W.waiting self.old.queue) (K.content kernel.old) nothing_queued (K.content kernel.new) }
        ensures bare { AreKeys (K.content kernel.new).keys [] }
        ensures loaded { K.is_loaded kernel.new }
        ensures stays { Stays (K.content kernel.old) (K.content kernel.new) }
        ensures keeps { Keeps W.waiting W.held self.new.queue (K.content kernel.new) }
        ensures fits { (flat : Flat) → Fits flat W.waiting W.held self.old.queue (K.content kernel.old)
            → Fits flat W.waiting W.held self.new.queue (K.content kernel.new) }
        ensures room { HasRoom (means M.FlowMaker M.Flow.Flow W.Awaits) self.new }
        ensures maker { self.new.tasks.maker ≡ self.old.tasks.maker }
    {
        self.queue.clear(kernel, steps);
        self.tasks.clear();
        self.objects.clear();
        self.queues.clear();
    }
}
