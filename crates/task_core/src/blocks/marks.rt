//! `try`, and marks that come to be done.
ghost use Rattle.std.specs.Prelude.{◌≤◌, None, IfOk};
ghost use Rattle.py_evaluate.specs.Attribute.Knows.{KnowsNames};
ghost use Rattle.test_meaning.specs.Body.BodyTrees as body;
ghost use Rattle.rig_model.specs.Task.Blocks as meaning;
ghost use Rattle.rig_model.specs.Task.Frame as frame;
ghost use Rattle.task_core.specs.OpenCall.Call.{Moved, at_in};
ghost use Rattle.task_core.specs.OpenCall.Parts.{mark_in};
ghost use Rattle.task_core.specs.OpenCall.Slots.{names_in};
ghost use Rattle.task_core.specs.Blocks.Steps.{IsStep};

use crate::blocks::conditions::do_while;
use crate::blocks::loops::ask_each;
use crate::code::Code;
use crate::open_call::{Mark, OpenCall, Wish};
use port_io::{Name, NoMemory};
use py_evaluate::attribute::Look;
use py_value::{LockNo, TaskNo};
use rig_model::task::Turned;
use std::alloc::Global;

/// `try` (the language reference, 8.4): its block comes next, within its handlers. Only want of memory is an error.
pub fn do_try<'a, C: Code<'a>>(
    call: &mut OpenCall<'a, C>,
    block: C,
    handlers: C,
) -> Result<Wish, NoMemory>
    ensures { IfOk result (IsStep C.reads (meaning.do_item (body.Try (C.reads block).block (C.reads handlers).handlers)) call.old call.new) }
{
    call.enter_marked(block, Mark::Handles(handlers))
}

/// The block of an `except` ends: its name is unassigned.
fn end_bound<'a, C: Code<'a>>(call: &mut OpenCall<'a, C>, name: &Name) -> Wish
    ensures { IsStep C.reads (meaning.do_first (frame.Bound name.now)) call.old call.new result }
{
    call.name(name, None);
    call.go_on()
}

/// The block of an `async with` ends: its lock is released.
fn end_held<'a, C: Code<'a>>(call: &mut OpenCall<'a, C>, lock: LockNo) -> Wish
    ensures { IsStep C.reads (meaning.do_first (frame.Holds lock)) call.old call.new result }
{
    call.want(Turned::Release(lock))
}

/// A mark that comes to be done, and for which no value was given (the language reference, 8): a loop asks its next question, the name of an `except`
/// is unassigned, the lock of an `async with` is released, and nothing is done at all others. Only want of memory is an error.
pub fn do_mark<'a, C: Code<'a>, V: Look>(
    alloc: Global,
    call: &mut OpenCall<'a, C>,
    mark: Mark<'a, C>,
    view: &V,
    task: TaskNo,
    next: &mut u64,
) -> Result<Wish, NoMemory>
    requires { KnowsNames (V.view view.now) (names_in call.old.slots) }
    ensures moved { IfOk result (Moved C.reads (meaning.do_first (mark_in C.reads mark.entry)
        (at_in C.reads task (V.view view.now) call.old next.old)) call.new next.new) }
    ensures rises { next.old ≤ next.new }
{
    match mark {
        Mark::Again(condition, block) => do_while(alloc, call, condition, block, view, task, next),
        Mark::Each(name, left, block) => ask_each(alloc, call, name, left, block),
        Mark::Uses(_) | Mark::Enters(..) | Mark::Handles(_) => Ok(call.go_on()),
        Mark::Bound(name) => Ok(end_bound(call, name)),
        Mark::Holds(lock) => Ok(end_held(call, lock)),
    }
}
