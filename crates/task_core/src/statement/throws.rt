//! Faults that are raised by hand.
ghost use Rattle.std.specs.Prelude.{option_map};
ghost use Rattle.py_syntax.specs.ExpressionTrees as tree;
ghost use Rattle.py_evaluate.specs.Attribute.Knows.{KnowsNames};
ghost use Rattle.test_meaning.specs.Body.BodyTrees as body;
ghost use Rattle.rig_model.specs.Task.Statements as meaning;
ghost use Rattle.task_core.specs.OpenCall.Slots.{names_in};
ghost use Rattle.task_core.specs.Statement.Step.{Stepped};

use crate::code::Code;
use crate::open_call::{Jump, OpenCall, Wish};
use crate::statement::evaluations::eval_truth;
use port_io::NoMemory;
use py_evaluate::attribute::Look;
use py_syntax::{Expression, FaultKind};
use py_value::{Fault, TaskNo};
use std::alloc::Global;
use task_step::task_values::eval_text;

/// `raise kind(said)` (the language reference, 7.8).
pub(crate) fn throw<'a, C: Code<'a>, V: Look>(
    alloc: Global,
    kind: FaultKind,
    said: &Option<Expression>,
    call: &mut OpenCall<'a, C>,
    view: &V,
    task: TaskNo,
    next: &mut u64,
) -> Result<Wish, NoMemory>
    requires { KnowsNames (V.view view.now) (names_in call.old.slots) }
    ensures { Stepped C.reads (meaning.throw_text kind (option_map tree.view said.now)) task (V.view view.now) call.old call.new next.old next.new result }
{
    match eval_text(alloc, said, &call.slots, view, task, next) {
        Ok(text) => Ok(call.leave(Jump::Throw(Fault { kind, text }))),
        Err(fault) => call.fail(fault),
    }
}

/// What an `assert` does, whose condition holds or not: what it says is evaluated only where it doesn't.
fn asserted<'a, C: Code<'a>, V: Look>(
    alloc: Global,
    holds: bool,
    said: &Option<Expression>,
    call: &mut OpenCall<'a, C>,
    view: &V,
    task: TaskNo,
    next: &mut u64,
) -> Result<Wish, NoMemory>
    requires { KnowsNames (V.view view.now) (names_in call.old.slots) }
    ensures { Stepped C.reads (meaning.asserted holds (option_map tree.view said.now)) task (V.view view.now) call.old call.new next.old next.new result }
{
    if holds {
        Ok(call.go_on())
    } else {
        throw(
            alloc,
            FaultKind::AssertionError,
            said,
            call,
            view,
            task,
            next,
        )
    }
}

/// `assert condition, said` (the language reference, 7.3).
pub(crate) fn assert_holds<'a, C: Code<'a>, V: Look>(
    alloc: Global,
    condition: &Expression,
    said: &Option<Expression>,
    call: &mut OpenCall<'a, C>,
    view: &V,
    task: TaskNo,
    next: &mut u64,
) -> Result<Wish, NoMemory>
    requires { KnowsNames (V.view view.now) (names_in call.old.slots) }
    ensures { Stepped C.reads (meaning.do_statement (body.Assert (tree.view condition.now) (option_map tree.view said.now))) task (V.view view.now)
        call.old call.new next.old next.new result }
{
    match eval_truth(alloc, condition, &call.slots, view, task, next) {
        Ok(holds) => asserted(alloc, holds, said, call, view, task, next),
        Err(fault) => call.fail(fault),
    }
}
