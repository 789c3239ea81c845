//! What is done with a value that is given.
ghost use Rattle.py_evaluate.specs.Attribute.Knows.{KnowsNames};
ghost use Rattle.py_evaluate.specs.Attribute.Look.{View};
ghost use Rattle.rig_model.specs.Task.Frame as frame;
ghost use Rattle.rig_model.specs.Task.Values as meaning;
ghost use Rattle.task_core.specs.OpenCall.Parts.{use_in};
ghost use Rattle.task_core.specs.OpenCall.Slots.{names_in};
ghost use Rattle.task_core.specs.Statement.Step.{Stepped};

use crate::code::Code;
use crate::open_call::{Jump, OpenCall, Use, Wish};
use crate::statement::awaits::wait_limited;
use crate::statement::signals::stage;
use port_io::NoMemory;
use py_evaluate::attribute::Look;
use py_value::{TaskNo, Value};
use std::alloc::Global;
use task_step::statement_values::Source;

/// Does what was to be done with a value, now that it is there (the language reference, 7.2 and 7.6; cocotb 1.8, "Writing values", `with_timeout`):
/// its mark was taken off the call before. Only want of memory is an error; a fault of the task is raised in the call.
pub fn use_value<'a, C: Code<'a>, V: Look>(
    alloc: Global,
    what: Use<'a>,
    value: Value,
    call: &mut OpenCall<'a, C>,
    view: &V,
    task: TaskNo,
    next: &mut u64,
) -> Result<Wish, NoMemory>
    requires { KnowsNames (V.view view.now) (names_in call.old.slots) }
    ensures { Stepped C.reads (meaning.use_value (use_in what.entry) value) task (V.view view.now) call.old call.new next.old next.new result }
{
    match what {
        Use::Assigns(name) => {
            call.name(name, Some(value));
            Ok(call.go_on())
        }
        Use::Writes(target) => {
            stage(alloc, target, &Source::Value(value), call, view, task, next)
        }
        Use::Returns => Ok(call.leave(Jump::Return(value))),
        Use::Times(steps) => wait_started(alloc, steps, &value, call, task, next),
        Use::Limited(_) => Ok(call.go_on_with(value)),
    }
}

/// Waits for a task that a `with_timeout` has started, for so many steps (cocotb 1.8, `with_timeout`).
fn wait_started<'a, C: Code<'a>>(
    alloc: Global,
    steps: u64,
    value: &Value,
    call: &mut OpenCall<'a, C>,
    task: TaskNo,
    next: &mut u64,
) -> Result<Wish, NoMemory>
    ensures { (view : View) → Stepped C.reads (meaning.use_value (frame.Times steps) value.now) task view call.old call.new next.old next.new result }
{
    match value {
        Value::Task(started) => {
            call.first_use(Use::Limited(*started))?;
            wait_limited(alloc, steps, value, call, task, next)
        }
        _ => Ok(call.go_on()),
    }
}
