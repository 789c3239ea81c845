//! Queues (cocotb 1.8, `cocotb.queue.Queue`).
ghost use Rattle.std.specs.Prelude.{IfOk, option_map};
ghost use Rattle.py_syntax.specs.ExpressionTrees as tree;
ghost use Rattle.py_evaluate.specs.Attribute.Knows.{KnowsNames};
ghost use Rattle.test_meaning.specs.Body.BodyTrees as body;
ghost use Rattle.rig_model.specs.Task.Statements.{do_statement};
ghost use Rattle.rig_model.specs.Task.Values as meaning;
ghost use Rattle.rig_model.specs.declared.task.task.Turned.TheVariants as turned;
ghost use Rattle.task_core.specs.OpenCall.Parts.{use_in};
ghost use Rattle.task_core.specs.OpenCall.Slots.{names_in};
ghost use Rattle.task_core.specs.Statement.Step.{Stepped, Wanted};

use crate::code::Code;
use crate::open_call::{OpenCall, Use, Wish};
use crate::statement::evaluations::{eval_bound, eval_queue, eval_queue_put};
use port_io::NoMemory;
use py_evaluate::attribute::Look;
use py_syntax::Expression;
use py_value::{QueueNo, TaskNo};
use rig_model::task::Turned;
use std::alloc::Global;

/// `queue.put_nowait(item)`
pub(crate) fn put_item<'a, C: Code<'a>, V: Look>(
    alloc: Global,
    queue: &Expression,
    item: &Expression,
    call: &mut OpenCall<'a, C>,
    view: &V,
    task: TaskNo,
    next: &mut u64,
) -> Result<Wish, NoMemory>
    requires { KnowsNames (V.view view.now) (names_in call.old.slots) }
    ensures { Stepped C.reads (do_statement (body.PutNow (tree.view queue.now) (tree.view item.now))) task (V.view view.now)
        call.old call.new next.old next.new result }
{
    match eval_queue_put(alloc, queue, item, &call.slots, view, task, next) {
        Ok(put) => Ok(call.want(Turned::PutNow {
            queue: put.queue,
            item: put.item,
        })),
        Err(fault) => call.fail(fault),
    }
}

/// The oldest item of a queue is taken, and used so.
fn item_used<'a, C: Code<'a>>(
    queue: QueueNo,
    what: Use<'a>,
    call: &mut OpenCall<'a, C>,
) -> Result<Wish, NoMemory>
    ensures { IfOk result (λ wish. Wanted C.reads call.old call.new wish (use_in what.entry) (turned.GetNow queue)) }
{
    call.first_use(what)?;
    Ok(call.want(Turned::GetNow(queue)))
}

/// `queue.get_nowait()`, whose item is used so once it is given.
pub(crate) fn item_side<'a, C: Code<'a>, V: Look>(
    alloc: Global,
    queue: &Expression,
    what: Use<'a>,
    call: &mut OpenCall<'a, C>,
    view: &V,
    task: TaskNo,
    next: &mut u64,
) -> Result<Wish, NoMemory>
    requires { KnowsNames (V.view view.now) (names_in call.old.slots) }
    ensures { Stepped C.reads (meaning.right_side (body.GetNow (tree.view queue.now)) (use_in what.entry)) task (V.view view.now)
        call.old call.new next.old next.new result }
{
    match eval_queue(alloc, queue, &call.slots, view, task, next) {
        Ok(queue) => item_used(queue, what, call),
        Err(fault) => call.fail(fault),
    }
}

/// A queue of this bound is made, and used so.
fn queue_used<'a, C: Code<'a>>(
    bound: u32,
    what: Use<'a>,
    call: &mut OpenCall<'a, C>,
) -> Result<Wish, NoMemory>
    ensures { IfOk result (λ wish. Wanted C.reads call.old call.new wish (use_in what.entry) (turned.NewQueue bound)) }
{
    call.first_use(what)?;
    Ok(call.want(Turned::NewQueue(bound)))
}

/// `Queue(maxsize)`, which is used so once it is given.
pub(crate) fn queue_side<'a, C: Code<'a>, V: Look>(
    alloc: Global,
    bound: &Option<Expression>,
    what: Use<'a>,
    call: &mut OpenCall<'a, C>,
    view: &V,
    task: TaskNo,
    next: &mut u64,
) -> Result<Wish, NoMemory>
    requires { KnowsNames (V.view view.now) (names_in call.old.slots) }
    ensures { Stepped C.reads (meaning.right_side (body.NewQueue (option_map tree.view bound.now)) (use_in what.entry)) task (V.view view.now)
        call.old call.new next.old next.new result }
{
    match eval_bound(alloc, bound, &call.slots, view, task, next) {
        Ok(bound) => queue_used(bound, what, call),
        Err(fault) => call.fail(fault),
    }
}
