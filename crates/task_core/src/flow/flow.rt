//! A task as its open calls.
ghost use Rattle.std.specs.Prelude.{◌≡◌, ◌≤◌, IfOk, false};
ghost use Rattle.rig_model.specs.Task.Known.{KnowsWhole};
ghost use Rattle.rig_model.specs.Task.Step as meaning;
ghost use Rattle.task_core.specs.Flow.Flow.{IsSame, StepsTo, functions_in, task_in};

use crate::code::{Callable, Code};
use crate::flow::course::step_cost;
use crate::flow::step::step_call;
use crate::open_call::OpenCall;
use await_tree::Given;
use port_io::NoMemory;
use py_evaluate::attribute::Look;
use py_value::{TaskNo, Value};
use rig_model::task::{Flow, Turned};
use std::alloc::Global;

/// A task of a tests file (cocotb 1.8, "Coroutines and Tasks"), as its open calls. After want of memory, which is the only error of its calls, no
/// poll follows.
#[derive(Drop)]
pub struct CodeFlow<'a, C> {
    /// The functions of its file, by number.
    pub(crate) functions: &'a [Callable<'a, C>],
    /// The task's number.
    pub(crate) number: TaskNo,
    /// The number of its next trigger.
    pub(crate) triggers: u64,
    /// The innermost call, which is of no account where the task has ended.
    pub(crate) call: OpenCall<'a, C>,
    /// The calls around it, the outermost first.
    pub(crate) around: Vec<OpenCall<'a, C>>,
    /// Whether the last call has ended.
    pub(crate) ended: bool,
}

impl<'a, C: Code<'a>> CodeFlow<'a, C> {
    /// One step of a task that hasn't ended, whatever it costs. Only want of memory is an error.
    fn go<V: Look>(
        &mut self,
        alloc: Global,
        given: Option<Given>,
        view: &V,
    ) -> Result<Option<Turned>, NoMemory>
        requires open { self.old.ended ≡ false }
        requires known { KnowsWhole (functions_in C.reads self.old) (V.view view.now) (task_in C.reads self.old) }
        ensures same { IsSame self.old self.new }
        ensures next { IfOk result (λ turned. meaning.next (functions_in C.reads self.old) (task_in C.reads self.old) given (V.view view.now)
            ≡ record { task = task_in C.reads self.new; turned = turned }) }
    {
        let wish = step_call(
            alloc,
            &mut self.call,
            given,
            view,
            self.number,
            &mut self.triggers,
        )?;
        self.settle(alloc, wish)
    }

    /// One step, which wants something or nothing, or for which the fuel doesn't suffice. Only want of memory is an error.
    fn step<V: Look>(
        &mut self,
        alloc: Global,
        given: Option<Given>,
        view: &V,
        fuel: &mut u64,
    ) -> Result<Option<Turned>, NoMemory>
        requires { KnowsWhole (functions_in C.reads self.old) (V.view view.now) (task_in C.reads self.old) }
        ensures same { IsSame self.old self.new }
        ensures falls { fuel.new ≤ fuel.old }
        ensures steps { IfOk result (λ turned.
            StepsTo (functions_in C.reads self.old) (V.view view.now) fuel.old (task_in C.reads self.old) given turned fuel.new (task_in C.reads self.new)) }
    {
        if self.ended {
            return Ok(Some(Turned::Done(Value::Absent)));
        }
        let cost = step_cost(&self.call, &given);
        if *fuel < cost {
            return Ok(Some(Turned::Spent));
        }
        *fuel -= cost;
        self.go(alloc, given, view)
    }
}

impl<'a, C: Code<'a>> Flow for CodeFlow<'a, C> {
    ghost use Rattle.task_core.specs.Flow.Flow.{functions_in, task_in};

    ghost functions = { functions_in C.reads };

    ghost meaning = { task_in C.reads };

    fn poll<V: Look>(
        &mut self,
        alloc: Global,
        given: Given,
        view: &V,
        fuel: &mut u64,
    ) -> Result<Turned, NoMemory> {
        view.names_are_known();
        view.queues_are_known();
        let mut next = Some(given);
        'steps: loop {
            match self.step(alloc, next, view, fuel)? {
                Some(turned) => return Ok(turned),
                None => next = None,
            }
        }
    }
}
