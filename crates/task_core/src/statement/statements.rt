//! Statements of one line.
ghost use Rattle.py_evaluate.specs.Attribute.Knows.{KnowsNames};
ghost use Rattle.test_meaning.specs.Body.Views.{view_statement};
ghost use Rattle.rig_model.specs.Task.Statements.{do_statement};
ghost use Rattle.task_core.specs.OpenCall.Slots.{names_in};
ghost use Rattle.task_core.specs.Statement.Step.{Stepped};

use crate::code::Code;
use crate::open_call::{Jump, OpenCall, Use, Wish};
use crate::statement::acts::{act, log};
use crate::statement::awaits::{start, wait};
use crate::statement::queues::put_item;
use crate::statement::right_sides::{assign_operated, right_side};
use crate::statement::signals::{act_now, stage_action, write_now};
use crate::statement::throws::{assert_holds, throw};
use port_io::NoMemory;
use py_evaluate::attribute::Look;
use py_value::{TaskNo, Value};
use std::alloc::Global;
use test_meaning::body::Statement;

/// Does a statement of one line (the language reference, 7; cocotb 1.8, "Writing values", "Triggers", "Logging"), which was taken off the call
/// before. Only want of memory is an error; a fault of the task is raised in the call.
pub fn statement<'a, C: Code<'a>, V: Look>(
    alloc: Global,
    statement: &'a Statement,
    call: &mut OpenCall<'a, C>,
    view: &V,
    task: TaskNo,
    next: &mut u64,
) -> Result<Wish, NoMemory>
    requires { KnowsNames (V.view view.now) (names_in call.old.slots) }
    ensures { Stepped C.reads (do_statement (view_statement statement.now)) task (V.view view.now) call.old call.new next.old next.new result }
{
    match statement {
        Statement::Pass => Ok(call.go_on()),
        Statement::Break => Ok(call.leave(Jump::Break)),
        Statement::Continue => Ok(call.leave(Jump::Continue)),
        Statement::Return(None) => Ok(call.leave(Jump::Return(Value::Absent))),
        Statement::Return(Some(side)) => {
            right_side(alloc, side, Use::Returns, call, view, task, next)
        }
        Statement::Raise(kind, said) => throw(alloc, *kind, said, call, view, task, next),
        Statement::Assert(condition, said) => {
            assert_holds(alloc, condition, said, call, view, task, next)
        }
        Statement::Assign(name, side) => {
            right_side(alloc, side, Use::Assigns(name), call, view, task, next)
        }
        Statement::AugmentedAssign(name, op, e) => {
            assign_operated(alloc, name, *op, e, call, view, task, next)
        }
        Statement::AssignValue(target, side) => {
            right_side(alloc, side, Use::Writes(target), call, view, task, next)
        }
        Statement::SetImmediateValue(target, e) => {
            write_now(alloc, target, e, call, view, task, next)
        }
        Statement::Await(awaited) => wait(alloc, awaited, call, view, task, next),
        Statement::Act(e, action) => act(alloc, e, *action, call, view, task, next),
        Statement::Log(logger, level, e, es) => {
            log(alloc, logger, *level, e, es, call, view, task, next)
        }
        Statement::StartSoon(started) => start(alloc, started, false, call, view, task, next),
        Statement::PutNow(queue, item) => put_item(alloc, queue, item, call, view, task, next),
        Statement::AssignAction(target, action) => {
            stage_action(alloc, target, action, call, view, task, next)
        }
        Statement::SetImmediateAction(target, action) => {
            act_now(alloc, target, action, call, view, task, next)
        }
    }
}
