//! Right sides of assignments, and what functions return.
ghost use Rattle.std.specs.Prelude.{IfOk};
ghost use Rattle.py_syntax.specs.ExpressionTrees as tree;
ghost use Rattle.py_syntax.specs.declared.expression.Operation.TheVariants as operation;
ghost use Rattle.py_evaluate.specs.Attribute.Knows.{KnowsNames};
ghost use Rattle.test_meaning.specs.Body.BodyTrees as body;
ghost use Rattle.test_meaning.specs.Body.Views.{view_awaited, view_call, view_right};
ghost use Rattle.rig_model.specs.Task.Statements.{do_statement};
ghost use Rattle.rig_model.specs.Task.Values as meaning;
ghost use Rattle.rig_model.specs.declared.task.task.Turned.TheVariants as turned;
ghost use Rattle.task_core.specs.OpenCall.Parts.{use_in};
ghost use Rattle.task_core.specs.OpenCall.Slots.{names_in};
ghost use Rattle.task_core.specs.Statement.Step.{Stepped, Wanted};

use crate::code::Code;
use crate::open_call::{OpenCall, Use, Wish};
use crate::statement::awaits::{start, wait};
use crate::statement::evaluations::{eval_draw, eval_operated};
use crate::statement::queues::{item_side, queue_side};
use crate::statement::uses::use_value;
use port_io::{Name, NoMemory};
use py_evaluate::attribute::Look;
use py_syntax::{BinOp, Expression};
use py_value::TaskNo;
use rig_model::task::Turned;
use std::alloc::Global;
use task_step::statement_values::Draw;
use task_step::task_values::eval;
use test_meaning::body::{Awaited, Call, RightSide};

/// A value that is there in the same step.
fn value_side<'a, C: Code<'a>, V: Look>(
    alloc: Global,
    e: &Expression,
    what: Use<'a>,
    call: &mut OpenCall<'a, C>,
    view: &V,
    task: TaskNo,
    next: &mut u64,
) -> Result<Wish, NoMemory>
    requires { KnowsNames (V.view view.now) (names_in call.old.slots) }
    ensures { Stepped C.reads (meaning.right_side (body.RightValue (tree.view e.now)) (use_in what.entry)) task (V.view view.now)
        call.old call.new next.old next.new result }
{
    match eval(alloc, e, &call.slots, view, task, next) {
        Ok(value) => use_value(alloc, what, value, call, view, task, next),
        Err(fault) => call.fail(fault),
    }
}

/// `name += e`, and so with the other operators (the language reference, 7.2.1).
pub(crate) fn assign_operated<'a, C: Code<'a>, V: Look>(
    alloc: Global,
    name: &'a Name,
    op: BinOp,
    e: &Expression,
    call: &mut OpenCall<'a, C>,
    view: &V,
    task: TaskNo,
    next: &mut u64,
) -> Result<Wish, NoMemory>
    requires { KnowsNames (V.view view.now) (names_in call.old.slots) }
    ensures { Stepped C.reads (do_statement (body.AugmentedAssign name.now op (tree.view e.now))) task
        (V.view view.now) call.old call.new next.old next.new result }
{
    match eval_operated(alloc, name, op, e, &call.slots, view, task, next) {
        Ok(value) => use_value(alloc, Use::Assigns(name), value, call, view, task, next),
        Err(fault) => call.fail(fault),
    }
}

/// One of these numbers is drawn, and used so.
fn draw_used<'a, C: Code<'a>>(
    drawn: Draw,
    what: Use<'a>,
    call: &mut OpenCall<'a, C>,
) -> Result<Wish, NoMemory>
    ensures { IfOk result (λ wish. Wanted C.reads call.old call.new wish (use_in what.entry) (turned.Draw drawn.low drawn.span)) }
{
    call.first_use(what)?;
    Ok(call.want(Turned::Draw {
        low: drawn.low,
        span: drawn.span,
    }))
}

/// `Event()`, which is used so once it is given.
fn event_side<'a, C: Code<'a>>(what: Use<'a>, call: &mut OpenCall<'a, C>) -> Result<Wish, NoMemory>
    ensures { IfOk result (λ wish. Wanted C.reads call.old call.new wish (use_in what.entry) turned.NewEvent) }
{
    call.first_use(what)?;
    Ok(call.want(Turned::NewEvent))
}

/// `Lock()`, which is used so once it is given.
fn lock_side<'a, C: Code<'a>>(what: Use<'a>, call: &mut OpenCall<'a, C>) -> Result<Wish, NoMemory>
    ensures { IfOk result (λ wish. Wanted C.reads call.old call.new wish (use_in what.entry) turned.NewLock) }
{
    call.first_use(what)?;
    Ok(call.want(Turned::NewLock))
}

/// `random.randint(low, high)` (the library reference, `random.randint`).
fn random_side<'a, C: Code<'a>, V: Look>(
    alloc: Global,
    low: &Expression,
    high: &Expression,
    what: Use<'a>,
    call: &mut OpenCall<'a, C>,
    view: &V,
    task: TaskNo,
    next: &mut u64,
) -> Result<Wish, NoMemory>
    requires { KnowsNames (V.view view.now) (names_in call.old.slots) }
    ensures { Stepped C.reads (meaning.right_side (body.RandomInt (tree.view low.now) (tree.view high.now)) (use_in what.entry)) task (V.view view.now)
        call.old call.new next.old next.new result }
{
    match eval_draw(alloc, low, high, &call.slots, view, task, next) {
        Ok(drawn) => draw_used(drawn, what, call),
        Err(fault) => call.fail(fault),
    }
}

/// `await ..`, whose value is used so once it is given.
fn await_side<'a, C: Code<'a>, V: Look>(
    alloc: Global,
    awaited: &Awaited,
    what: Use<'a>,
    call: &mut OpenCall<'a, C>,
    view: &V,
    task: TaskNo,
    next: &mut u64,
) -> Result<Wish, NoMemory>
    requires { KnowsNames (V.view view.now) (names_in call.old.slots) }
    ensures { Stepped C.reads (meaning.right_side (body.RightAwait (view_awaited awaited.now)) (use_in what.entry)) task (V.view view.now)
        call.old call.new next.old next.new result }
{
    call.first_use(what)?;
    wait(alloc, awaited, call, view, task, next)
}

/// `cocotb.start_soon(started)`, whose task is used so once it is given.
fn start_side<'a, C: Code<'a>, V: Look>(
    alloc: Global,
    started: &Call,
    what: Use<'a>,
    call: &mut OpenCall<'a, C>,
    view: &V,
    task: TaskNo,
    next: &mut u64,
) -> Result<Wish, NoMemory>
    requires { KnowsNames (V.view view.now) (names_in call.old.slots) }
    ensures { Stepped C.reads (meaning.right_side (body.RightStart (view_call started.now)) (use_in what.entry)) task (V.view view.now)
        call.old call.new next.old next.new result }
{
    call.first_use(what)?;
    start(alloc, started, false, call, view, task, next)
}

/// A right side, whose value is used so (the language reference, 7.2 and 7.6): in the same step where it is there, else once it is given.
pub(crate) fn right_side<'a, C: Code<'a>, V: Look>(
    alloc: Global,
    side: &RightSide,
    what: Use<'a>,
    call: &mut OpenCall<'a, C>,
    view: &V,
    task: TaskNo,
    next: &mut u64,
) -> Result<Wish, NoMemory>
    requires { KnowsNames (V.view view.now) (names_in call.old.slots) }
    ensures { Stepped C.reads (meaning.right_side (view_right side.now) (use_in what.entry)) task
        (V.view view.now) call.old call.new next.old next.new result }
{
    match side {
        RightSide::Value(e) => value_side(alloc, e, what, call, view, task, next),
        RightSide::Await(awaited) => await_side(alloc, awaited, what, call, view, task, next),
        RightSide::StartSoon(started) => start_side(alloc, started, what, call, view, task, next),
        RightSide::Event => event_side(what, call),
        RightSide::Lock => lock_side(what, call),
        RightSide::RandomInt(low, high) => {
            random_side(alloc, low, high, what, call, view, task, next)
        }
        RightSide::Queue(bound) => queue_side(alloc, bound, what, call, view, task, next),
        RightSide::GetNow(queue) => item_side(alloc, queue, what, call, view, task, next),
    }
}
