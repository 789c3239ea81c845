//! Calls, starts of tasks, and what is awaited.
ghost use Rattle.std.specs.Prelude.{IfOk, false, option_map};
ghost use Rattle.py_syntax.specs.ExpressionTrees as tree;
ghost use Rattle.py_evaluate.specs.Attribute.Knows.{KnowsNames};
ghost use Rattle.py_evaluate.specs.Attribute.Look.{View};
ghost use Rattle.test_meaning.specs.Body.BodyTrees as body;
ghost use Rattle.test_meaning.specs.Body.Views.{view_awaited, view_call};
ghost use Rattle.rig_model.specs.Task.Awaits as meaning;
ghost use Rattle.rig_model.specs.Task.Calls.{starts, with_call};
ghost use Rattle.rig_model.specs.Task.Frame.{Times};
ghost use Rattle.rig_model.specs.declared.task.task.Turned.TheVariants as turned;
ghost use Rattle.task_core.specs.OpenCall.Slots.{names_in};
ghost use Rattle.task_core.specs.Statement.Step.{Stepped, Wanted};

use crate::code::Code;
use crate::open_call::{OpenCall, Use, Wish};
use port_io::NoMemory;
use py_evaluate::attribute::Look;
use py_syntax::Expression;
use py_value::{TaskNo, Value};
use rig_model::task::Turned;
use std::alloc::Global;
use task_step::task_values::{
    Called, eval_call, eval_items, eval_limit, eval_room, eval_timed_call, eval_wait, limited,
};
use test_meaning::body::{Awaited, Call, Timed};

/// Starts a task of the call (cocotb 1.8, "Coroutines and Tasks"); with `give_way` it runs before this one goes on.
pub(crate) fn start<'a, C: Code<'a>, V: Look>(
    alloc: Global,
    started: &Call,
    give_way: bool,
    call: &mut OpenCall<'a, C>,
    view: &V,
    task: TaskNo,
    next: &mut u64,
) -> Result<Wish, NoMemory>
    requires { KnowsNames (V.view view.now) (names_in call.old.slots) }
    ensures { Stepped C.reads (λ a. with_call a (view_call started.now) (starts give_way)) task (V.view view.now) call.old call.new next.old next.new result }
{
    match eval_call(alloc, started, &call.slots, view, task, next) {
        Ok(called) => Ok(call.want(Turned::Start {
            func: called.function,
            args: called.arguments,
            give_way,
        })),
        Err(fault) => call.fail(fault),
    }
}

/// Waits for a trigger or a task under a limit of so many steps (cocotb 1.8, `with_timeout`).
pub(crate) fn wait_limited<'a, C: Code<'a>>(
    alloc: Global,
    steps: u64,
    value: &Value,
    call: &mut OpenCall<'a, C>,
    task: TaskNo,
    next: &mut u64,
) -> Result<Wish, NoMemory>
    ensures { (view : View) → Stepped C.reads (meaning.wait_limited steps value.now) task view call.old call.new next.old next.new result }
{
    match limited(alloc, task, value, steps, next) {
        Ok(trig) => Ok(call.want(Turned::Await(trig))),
        Err(fault) => call.fail(fault),
    }
}

/// `await e`, of a trigger or a task (the language reference, 6.4).
fn wait_value<'a, C: Code<'a>, V: Look>(
    alloc: Global,
    e: &Expression,
    call: &mut OpenCall<'a, C>,
    view: &V,
    task: TaskNo,
    next: &mut u64,
) -> Result<Wish, NoMemory>
    requires { KnowsNames (V.view view.now) (names_in call.old.slots) }
    ensures { Stepped C.reads (meaning.await (body.AwaitedValue (tree.view e.now))) task (V.view view.now) call.old call.new next.old next.new result }
{
    match eval_wait(alloc, e, &call.slots, view, task, next) {
        Ok(trig) => Ok(call.want(Turned::Await(trig))),
        Err(fault) => call.fail(fault),
    }
}

/// `await` of a call of a function: the call is opened.
fn wait_call<'a, C: Code<'a>, V: Look>(
    alloc: Global,
    called: &Call,
    call: &mut OpenCall<'a, C>,
    view: &V,
    task: TaskNo,
    next: &mut u64,
) -> Result<Wish, NoMemory>
    requires { KnowsNames (V.view view.now) (names_in call.old.slots) }
    ensures { Stepped C.reads (meaning.await (body.AwaitedCall (view_call called.now))) task (V.view view.now) call.old call.new next.old next.new result }
{
    match eval_call(alloc, called, &call.slots, view, task, next) {
        Ok(called) => Ok(call.call(called.function, called.arguments)),
        Err(fault) => call.fail(fault),
    }
}

/// Waits for room in a queue.
fn wait_room<'a, C: Code<'a>, V: Look>(
    alloc: Global,
    e: &Expression,
    call: &mut OpenCall<'a, C>,
    view: &V,
    task: TaskNo,
    next: &mut u64,
) -> Result<Wish, NoMemory>
    requires { KnowsNames (V.view view.now) (names_in call.old.slots) }
    ensures { Stepped C.reads (meaning.await (body.AwaitedRoom (tree.view e.now))) task (V.view view.now) call.old call.new next.old next.new result }
{
    match eval_room(alloc, e, &call.slots, view, task, next) {
        Ok(trig) => Ok(call.want(Turned::Await(trig))),
        Err(fault) => call.fail(fault),
    }
}

/// Waits for an item in a queue.
fn wait_items<'a, C: Code<'a>, V: Look>(
    alloc: Global,
    e: &Expression,
    call: &mut OpenCall<'a, C>,
    view: &V,
    task: TaskNo,
    next: &mut u64,
) -> Result<Wish, NoMemory>
    requires { KnowsNames (V.view view.now) (names_in call.old.slots) }
    ensures { Stepped C.reads (meaning.await (body.AwaitedItem (tree.view e.now))) task (V.view view.now) call.old call.new next.old next.new result }
{
    match eval_items(alloc, e, &call.slots, view, task, next) {
        Ok(trig) => Ok(call.want(Turned::Await(trig))),
        Err(fault) => call.fail(fault),
    }
}

/// `await with_timeout(e, time, unit)` of a trigger or a task.
fn wait_limit<'a, C: Code<'a>, V: Look>(
    alloc: Global,
    e: &Expression,
    time: &Expression,
    unit: &Option<Expression>,
    call: &mut OpenCall<'a, C>,
    view: &V,
    task: TaskNo,
    next: &mut u64,
) -> Result<Wish, NoMemory>
    requires { KnowsNames (V.view view.now) (names_in call.old.slots) }
    ensures { Stepped C.reads (meaning.await (body.WithTimeout (body.TimedValue (tree.view e.now)) (tree.view time.now) (option_map tree.view unit.now)))
        task (V.view view.now) call.old call.new next.old next.new result }
{
    match eval_limit(alloc, e, time, unit, &call.slots, view, task, next) {
        Ok(trig) => Ok(call.want(Turned::Await(trig))),
        Err(fault) => call.fail(fault),
    }
}

/// Starts a task of what was called, for which the call waits once it is known, for so many steps.
fn start_timed<'a, C: Code<'a>>(
    called: Called,
    steps: u64,
    call: &mut OpenCall<'a, C>,
) -> Result<Wish, NoMemory>
    ensures { IfOk result (λ wish. Wanted C.reads call.old call.new wish (Times steps) (turned.Start called.function called.arguments false)) }
{
    call.first_use(Use::Times(steps))?;
    Ok(call.want(Turned::Start {
        func: called.function,
        args: called.arguments,
        give_way: false,
    }))
}

/// `await with_timeout(call, time, unit)` of a call, which is started as a task.
fn wait_timed<'a, C: Code<'a>, V: Look>(
    alloc: Global,
    called: &Call,
    time: &Expression,
    unit: &Option<Expression>,
    call: &mut OpenCall<'a, C>,
    view: &V,
    task: TaskNo,
    next: &mut u64,
) -> Result<Wish, NoMemory>
    requires { KnowsNames (V.view view.now) (names_in call.old.slots) }
    ensures { Stepped C.reads (meaning.await (body.WithTimeout (body.TimedCall (view_call called.now)) (tree.view time.now) (option_map tree.view unit.now)))
        task (V.view view.now) call.old call.new next.old next.new result }
{
    match eval_timed_call(alloc, called, time, unit, &call.slots, view, task, next) {
        Ok(timed) => start_timed(timed.called, timed.steps, call),
        Err(fault) => call.fail(fault),
    }
}

/// `await` (the language reference, 6.4; cocotb 1.8, "Triggers", "Coroutines and Tasks").
pub(crate) fn wait<'a, C: Code<'a>, V: Look>(
    alloc: Global,
    awaited: &Awaited,
    call: &mut OpenCall<'a, C>,
    view: &V,
    task: TaskNo,
    next: &mut u64,
) -> Result<Wish, NoMemory>
    requires { KnowsNames (V.view view.now) (names_in call.old.slots) }
    ensures { Stepped C.reads (meaning.await (view_awaited awaited.now)) task (V.view view.now) call.old call.new next.old next.new result }
{
    match awaited {
        Awaited::Value(e) => wait_value(alloc, e, call, view, task, next),
        Awaited::Call(called) => wait_call(alloc, called, call, view, task, next),
        Awaited::Start(started) => start(alloc, started, true, call, view, task, next),
        Awaited::Room(queue) => wait_room(alloc, queue, call, view, task, next),
        Awaited::Items(queue) => wait_items(alloc, queue, call, view, task, next),
        Awaited::WithTimeout(Timed::Value(e), time, unit) => {
            wait_limit(alloc, e, time, unit, call, view, task, next)
        }
        Awaited::WithTimeout(Timed::Call(called), time, unit) => {
            wait_timed(alloc, called, time, unit, call, view, task, next)
        }
    }
}
