//! `for`.
ghost use Rattle.std.specs.Prelude.{◌≤◌, IfOk, Ok};
ghost use Rattle.py_syntax.specs.StatementTrees.{view_span};
ghost use Rattle.py_evaluate.specs.Attribute.Knows.{KnowsNames};
ghost use Rattle.test_meaning.specs.Body.BodyTrees as body;
ghost use Rattle.task_step.specs.LoopSpan.Span.{left_in};
ghost use Rattle.rig_model.specs.Task.Blocks as meaning;
ghost use Rattle.task_core.specs.OpenCall.Call.{Moved, at_in};
ghost use Rattle.task_core.specs.OpenCall.Slots.{names_in};
ghost use Rattle.task_core.specs.Blocks.Steps.{IsStep};

use crate::code::Code;
use crate::open_call::{Mark, OpenCall, Wish};
use port_io::{Name, NoMemory};
use py_evaluate::attribute::Look;
use py_syntax::Span;
use py_value::TaskNo;
use std::alloc::Global;
use task_step::loop_span::{Element, Left, ask_next};
use task_step::task_values::eval_span;

/// The element gets the name, and the block comes next, and then the next question.
fn go_round<'a, C: Code<'a>>(
    call: &mut OpenCall<'a, C>,
    name: &'a Name,
    element: Element<'a>,
    block: C,
) -> Result<Wish, NoMemory>
    ensures { IfOk result
        (IsStep C.reads (meaning.each name.now (Ok element.entry.value) (left_in element.entry.left) (C.reads block).block) call.old call.new) }
{
    call.name(name, Some(element.value));
    call.enter_marked(block, Mark::Each(name, element.left, block))
}

/// A question of a `for` (the language reference, 8.3): where there is a next element it gets the name, and the block comes next, and then the
/// next question. Only want of memory is an error.
pub(crate) fn ask_each<'a, C: Code<'a>>(
    alloc: Global,
    call: &mut OpenCall<'a, C>,
    name: &'a Name,
    left: Left<'a>,
    block: C,
) -> Result<Wish, NoMemory>
    ensures { IfOk result (IsStep C.reads (meaning.ask_next name.now (left_in left.entry) (C.reads block).block) call.old call.new) }
{
    match ask_next(alloc, left) {
        Ok(Some(element)) => go_round(call, name, element, block),
        Ok(None) => Ok(call.go_on()),
        Err(fault) => call.fail(fault),
    }
}

/// `for` (the language reference, 8.3): what it goes over is evaluated, and its first question is asked. Only want of memory is an error.
pub fn do_for<'a, C: Code<'a>, V: Look>(
    alloc: Global,
    call: &mut OpenCall<'a, C>,
    name: &'a Name,
    span: &'a Span,
    block: C,
    view: &V,
    task: TaskNo,
    next: &mut u64,
) -> Result<Wish, NoMemory>
    requires { KnowsNames (V.view view.now) (names_in call.old.slots) }
    ensures moved { IfOk result (Moved C.reads
        (meaning.do_item (body.For name.now (view_span span.now) (C.reads block).block) (at_in C.reads task (V.view view.now) call.old next.old))
        call.new next.new) }
    ensures rises { next.old ≤ next.new }
{
    match eval_span(alloc, span, &call.slots, view, task, next) {
        Ok(left) => ask_each(alloc, call, name, left, block),
        Err(fault) => call.fail(fault),
    }
}
