//! The part that runs tasks, by what a task is.
ghost use Rattle.std.specs.Prelude.{◌≡◌, ◌<◌, ◌≤◌, List, length, IfOk, Some};
ghost use Rattle.test_meaning.specs.Body.BodyTrees.{Function};
ghost use Rattle.rig_model.specs.Task.Frame.{Task, fresh, function_at};
ghost use Rattle.rig_model.specs.Task.Known.{AreSoundFunctions, KnowsGiven, KnowsTurned, KnowsWhole};
ghost use Rattle.rig_model.specs.Task.Poll.{Polled};

use crate::task::Turned;
use await_tree::Given;
use port_io::{NoMemory, Sequence};
use py_evaluate::attribute::Look;
use py_value::{TaskNo, Value};
use std::alloc::Global;

/// A task (cocotb 1.8, "Coroutines and Tasks") that is polled.
pub trait Flow: Drop {
    /// The functions of its file, by number.
    ghost functions: { Self → List Function };

    /// What the task has still to do.
    ghost meaning: { Self → Task };

    /// The next thing that the task wants, where it is given the answer to the last one: `Begin` at first. The fuel falls by what the steps on the
    /// way cost; `Spent` comes exactly where it is 0 before a step that costs. `NoMemory` is the only error: the task keeps its number and its
    /// functions then, and the fuel hasn't risen. After `Done`, `Raised`, `Spent` or `NoMemory` no poll follows. The view must know what the task
    /// holds and what it is given; it then knows what the task wants and holds.
    fn poll<V: Look>(
        &mut self,
        alloc: Global,
        given: Given,
        view: &V,
        fuel: &mut u64,
    ) -> Result<Turned, NoMemory>
        requires task { KnowsWhole (functions self.old) (V.view view.now) (meaning self.old) }
        requires answer { KnowsGiven (V.view view.now) given }
        ensures file { functions self.new ≡ functions self.old }
        ensures number { (meaning self.new).number ≡ (meaning self.old).number }
        ensures falls { fuel.new ≤ fuel.old }
        ensures polled { IfOk result (λ turned.
            Polled (functions self.old) (V.view view.now) fuel.old (meaning self.old) (Some given) turned fuel.new (meaning self.new)) }
        ensures known { IfOk result (λ turned. KnowsTurned (functions self.old) (V.view view.now) turned
            × KnowsWhole (functions self.old) (V.view view.now) (meaning self.new)) };
}

/// Makes the tasks of a tests file.
pub trait FlowMaker {
    /// The tasks that it makes.
    type Flow: Flow;

    /// The functions of the file, by number.
    ghost functions: { Self → List Function };

    /// The task of that number before its first turn, which runs the function of that number, with these values for its parameters, in order. Its one
    /// error is the want of memory.
    fn make(
        &self,
        alloc: Global,
        task: TaskNo,
        func: u32,
        args: Sequence<Value>,
    ) -> Result<Self::Flow, NoMemory>
        requires { func < length (functions self.now) }
        ensures task { IfOk result (λ flow. Self.Flow.meaning flow ≡ fresh task (function_at (functions self.now) func) args) }
        ensures file { IfOk result (λ flow. Self.Flow.functions flow ≡ functions self.now) };
}
