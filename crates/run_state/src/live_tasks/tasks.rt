//! The live tasks, by number.
ghost use Rattle.std.specs.Prelude.{◌≡◌, ◌<◌, ◌≤◌, ◌++◌, ◌∷◌, [], Some, None, length, slice_set, is_some, List, IfOk, OnOk, OnErr, IfSome, IsSome};
ghost use Rattle.std.specs.Option.{option_map};
ghost use Rattle.test_meaning.specs.Body.BodyTrees.{Function};
ghost use Rattle.rig_model.specs.Task.Known.{KnowsGiven};
ghost use Rattle.run_state.specs.LiveTasks.Tasks as tasks;

use crate::live_tasks::place::Place;
use await_tree::Given;
use port_io::NoMemory;
use py_evaluate::attribute::Look;
use py_value::TaskNo;
use rig_model::task::{Flow, Turned};
use std::alloc::Global;
use std::marker::Model;

/// The live tasks of a test, which contracts see as the list of their flows by number, with `None` for a task that lives no more;
/// `tasks_of` of `specs/Tasks.antt` gives the tasks of these. A task is found by its number at once. Only `start` and `poll` take memory.
#[derive(Drop)]
pub struct LiveTasks<F: Flow> {
    /// By number.
    places: Vec<Place<F>>,
    /// How many of them hold a live task.
    count: u32,
}

impl<F: Flow> Model for LiveTasks<F> {
    ghost use Rattle.std.specs.Prelude.{List, Option};
    ghost use Rattle.run_state.specs.LiveTasks.Placed.{IsWhole};

    ghost Value = { List (Option F) };

    ghost view = { λ a. a.places.items };

    ghost invariant = { λ a. IsWhole F.meaning a.places.items a.count };
}

impl<F: Flow> LiveTasks<F> {
    /// No task was started. It takes no memory.
    pub fn new(alloc: Global) -> LiveTasks<F>
        ensures { result ≡ [] }
    {
        LiveTasks {
            places: Vec::new(alloc),
            count: 0,
        }
    }

    /// How many tasks live.
    pub fn count(&self) -> u32
        ensures { result ≡ length (tasks.tasks_of F.meaning self.now) }
    {
        self.count
    }

    /// How many tasks were started: the number of the next one.
    pub fn started(&self) -> u32
        ensures { result ≡ length self.now }
    {
        self.places.len() as u32
    }

    /// Whether a task that was started lives; where it does, it is that of the flow at its number. It takes no memory.
    pub fn is_live(&self, task: TaskNo) -> bool
        requires { task.0 < length self.now }
        ensures is { result ≡ is_some (tasks.task_at task (tasks.tasks_of F.meaning self.now)) }
        ensures flow { tasks.task_at task (tasks.tasks_of F.meaning self.now) ≡ option_map F.meaning (tasks.flow_at task self.now) }
    {
        self.places[task.0 as usize].is_live()
    }

    /// A task was started (cocotb 1.8, "Coroutines and Tasks"): it lives, and has the next number. Fewer than 16,777,216 must have been
    /// started before. Only want of memory is an error, and after it nothing has changed.
    pub fn start(&mut self, alloc: Global, flow: F) -> Result<(), NoMemory>
        requires number { (F.meaning flow).number ≡ record { 0 = length self.old } }
        requires room { length self.old < tasks.start_limit }
        ensures ok { OnOk result (self.new ≡ self.old ++ Some flow ∷ []) }
        ensures tasks { OnOk result (tasks.tasks_of F.meaning self.new ≡ tasks.tasks_of F.meaning self.old ++ F.meaning flow ∷ []) }
        ensures file { OnOk result
            ((file : List Function) → F.functions flow ≡ file → tasks.AreOf F.functions file self.old → tasks.AreOf F.functions file self.new) }
        ensures err { OnErr result (self.new ≡ self.old) }
    {
        let place = Place::new(alloc, flow)?;
        self.places.push(place)?;
        self.count += 1;
        Ok(())
    }

    /// Polls the live task of that number: the next thing that it wants, where it is given the answer to the last one. The fuel falls by what
    /// the steps on the way cost; `Spent` comes exactly where it doesn't suffice for the next step. The view must know what the task holds and
    /// is given; it then knows what the task wants and holds. Only want of memory is an error: the task keeps its number then, all else is as
    /// before, and the fuel hasn't risen. After `Done`, `Raised`, `Spent` or want of memory the task isn't polled again.
    pub fn poll<V: Look>(
        &mut self,
        alloc: Global,
        task: TaskNo,
        given: Given,
        view: &V,
        fuel: &mut u64,
    ) -> Result<Turned, NoMemory>
        requires live { IsSome (tasks.task_at task (tasks.tasks_of F.meaning self.old)) }
        requires known { IfSome (tasks.flow_at task self.old) (tasks.IsKnown (tasks.meanings F.functions F.meaning) (V.view view.now)) }
        requires answer { KnowsGiven (V.view view.now) given }
        ensures falls { fuel.new ≤ fuel.old }
        ensures left { tasks.LeavesTask (tasks.meanings F.functions F.meaning) self.old task self.new }
        ensures file { (file : List Function) → tasks.AreOf F.functions file self.old → tasks.AreOf F.functions file self.new }
        ensures polls { IfOk result (λ turned. tasks.PollsTask (tasks.meanings F.functions F.meaning) (V.view view.now)
            fuel.old self.old task given turned fuel.new self.new) }
    {
        let place = &mut self.places[task.0 as usize];
        place.poll(alloc, given, view, fuel)
    }

    /// The live task of that number lives no more: it has ended, or is killed (cocotb 1.8, `Task.kill`). It takes no memory.
    pub fn end(&mut self, task: TaskNo)
        requires { IsSome (tasks.task_at task (tasks.tasks_of F.meaning self.old)) }
        ensures is { self.new ≡ slice_set self.old task.0 None }
        ensures tasks { tasks.tasks_of F.meaning self.new ≡ tasks.without task (tasks.tasks_of F.meaning self.old) }
        ensures file { (file : List Function) → tasks.AreOf F.functions file self.old → tasks.AreOf F.functions file self.new }
    {
        self.places[task.0 as usize] = Place::empty();
        self.count -= 1;
    }

    /// Drops all tasks, as the end of a test does: none was started then. It takes no memory.
    pub fn clear(&mut self)
        ensures { self.new ≡ [] }
    {
        self.places.clear();
        self.count = 0;
    }
}
