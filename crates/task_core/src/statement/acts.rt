//! Methods that act, and log statements.
ghost use Rattle.std.specs.Prelude.{map};
ghost use Rattle.py_syntax.specs.ExpressionTrees as tree;
ghost use Rattle.py_evaluate.specs.Attribute.Knows.{KnowsNames};
ghost use Rattle.test_meaning.specs.Body.BodyTrees as body;
ghost use Rattle.test_meaning.specs.Body.Views.{view_logger};
ghost use Rattle.rig_model.specs.Task.Statements as meaning;
ghost use Rattle.task_core.specs.OpenCall.Slots.{names_in};
ghost use Rattle.task_core.specs.Statement.Step.{Stepped};

use crate::code::Code;
use crate::open_call::{OpenCall, Wish};
use crate::statement::evaluations::{eval_act, eval_log};
use port_io::NoMemory;
use py_evaluate::attribute::Look;
use py_syntax::{Action, Expression, LogLevel};
use py_value::TaskNo;
use rig_model::task::Turned;
use std::alloc::Global;
use test_meaning::body::Logger;

/// `set()` and `clear()` of an event, `release()` of a lock, `kill()` of a task (cocotb 1.8, "Triggers", "Coroutines and Tasks").
pub(crate) fn act<'a, C: Code<'a>, V: Look>(
    alloc: Global,
    e: &Expression,
    action: Action,
    call: &mut OpenCall<'a, C>,
    view: &V,
    task: TaskNo,
    next: &mut u64,
) -> Result<Wish, NoMemory>
    requires { KnowsNames (V.view view.now) (names_in call.old.slots) }
    ensures { Stepped C.reads (meaning.do_statement (body.Act (tree.view e.now) action)) task (V.view view.now) call.old call.new next.old next.new result }
{
    match eval_act(alloc, e, action, &call.slots, view, task, next) {
        Ok(turned) => Ok(call.want(turned)),
        Err(fault) => call.fail(fault),
    }
}

/// A log statement (cocotb 1.8, "Logging"; the library reference, "Logging").
pub(crate) fn log<'a, C: Code<'a>, V: Look>(
    alloc: Global,
    logger: &Logger,
    level: LogLevel,
    e: &Expression,
    es: &[Expression],
    call: &mut OpenCall<'a, C>,
    view: &V,
    task: TaskNo,
    next: &mut u64,
) -> Result<Wish, NoMemory>
    requires { KnowsNames (V.view view.now) (names_in call.old.slots) }
    ensures { Stepped C.reads (meaning.log (view_logger logger.now) level (tree.view e.now) (map tree.view es.now)) task (V.view view.now)
        call.old call.new next.old next.new result }
{
    match eval_log(alloc, logger, e, es, &call.slots, view, task, next) {
        Ok(text) => Ok(call.want(Turned::Log { level, text })),
        Err(fault) => call.fail(fault),
    }
}
