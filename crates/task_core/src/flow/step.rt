//! Steps of one call.
ghost use Rattle.std.specs.Prelude.{IfOk};
ghost use Rattle.py_evaluate.specs.Attribute.Knows.{KnowsNames};
ghost use Rattle.task_compile.specs.Reading.{with_blocks};
ghost use Rattle.rig_model.specs.Task.Blocks.{do_first, do_item};
ghost use Rattle.rig_model.specs.Task.Step as meaning;
ghost use Rattle.task_core.specs.Code.Head.{head_in};
ghost use Rattle.task_core.specs.OpenCall.Call.{Moved, at_in, frame_in};
ghost use Rattle.task_core.specs.OpenCall.Parts.{mark_in, todo_of, todos_in};
ghost use Rattle.task_core.specs.OpenCall.Slots.{names_in};
ghost use Rattle.task_core.specs.Flow.Given.{use_first};

use crate::blocks::{do_for, do_if, do_mark, do_try, do_while, do_with, drop_mark, enter_block};
use crate::code::{Begun, Code, Head};
use crate::flow::course::course_given;
use crate::open_call::{Course, Jump, Mark, OpenCall, Todo, Wish};
use crate::statement::{statement, use_value};
use await_tree::Given;
use port_io::NoMemory;
use py_evaluate::attribute::Look;
use py_value::{TaskNo, Value};
use std::alloc::Global;
use test_meaning::body::Item;

/// Begins a statement with these blocks, which was taken off the call before (the language reference, 7 and 8). Only want of memory is an error.
fn begin_item<'a, C: Code<'a>, V: Look>(
    alloc: Global,
    item: &'a Item,
    first: C,
    second: C,
    call: &mut OpenCall<'a, C>,
    view: &V,
    task: TaskNo,
    next: &mut u64,
) -> Result<Wish, NoMemory>
    requires { KnowsNames (V.view view.now) (names_in call.old.slots) }
    ensures { IfOk result (Moved C.reads
        (do_item (with_blocks item.now (C.reads first).block (C.reads second).block (C.reads second).handlers)
        (at_in C.reads task (V.view view.now) call.old next.old)) call.new next.new) }
{
    match item {
        Item::Statement(one) => statement(alloc, one, call, view, task, next),
        Item::If { condition, .. } => do_if(
            alloc, call, condition, first, second, view, task, next,
        ),
        Item::While { condition, .. } => do_while(alloc, call, condition, first, view, task, next),
        Item::For { name, span, .. } => do_for(alloc, call, name, span, first, view, task, next),
        Item::Try { .. } => do_try(call, first, second),
        Item::With { lock, .. } => do_with(alloc, call, lock, first, view, task, next),
    }
}

/// Begins a statement, which was taken off the call before. Only want of memory is an error.
fn begin<'a, C: Code<'a>, V: Look>(
    alloc: Global,
    head: Head<'a, C>,
    call: &mut OpenCall<'a, C>,
    view: &V,
    task: TaskNo,
    next: &mut u64,
) -> Result<Wish, NoMemory>
    requires { KnowsNames (V.view view.now) (names_in call.old.slots) }
    ensures { IfOk result (Moved C.reads (do_item (head_in C.reads head.entry) (at_in C.reads task (V.view view.now) call.old next.old)) call.new next.new) }
{
    match head.begun {
        Begun::Item(item) => begin_item(
            alloc,
            item,
            head.first,
            head.second,
            call,
            view,
            task,
            next,
        ),
        Begun::Elif(condition) => do_if(
            alloc,
            call,
            condition,
            head.first,
            head.second,
            view,
            task,
            next,
        ),
    }
}

/// Does the first thing to do, which was taken off the call before and was given no value. Only want of memory is an error.
fn do_todo<'a, C: Code<'a>, V: Look>(
    alloc: Global,
    todo: Todo<'a, C>,
    call: &mut OpenCall<'a, C>,
    view: &V,
    task: TaskNo,
    next: &mut u64,
) -> Result<Wish, NoMemory>
    requires { KnowsNames (V.view view.now) (names_in call.old.slots) }
    ensures { IfOk result (Moved C.reads (do_first (todo_of C.reads todo.entry) (at_in C.reads task (V.view view.now) call.old next.old)) call.new next.new) }
{
    match todo {
        Todo::Do(head) => begin(alloc, head, call, view, task, next),
        Todo::Mark(mark) => do_mark(alloc, call, mark, view, task, next),
    }
}

/// The mark in front, which was taken off the call before, uses a value, or lets it go. Only want of memory is an error.
fn use_at<'a, C: Code<'a>, V: Look>(
    alloc: Global,
    mark: Mark<'a, C>,
    value: Value,
    call: &mut OpenCall<'a, C>,
    view: &V,
    task: TaskNo,
    next: &mut u64,
) -> Result<Wish, NoMemory>
    requires { KnowsNames (V.view view.now) (names_in call.old.slots) }
    ensures { IfOk result (Moved C.reads (use_first value (mark_in C.reads mark.entry)
        (at_in C.reads task (V.view view.now) call.old next.old)) call.new next.new) }
{
    match mark {
        Mark::Uses(what) => use_value(alloc, what, value, call, view, task, next),
        Mark::Enters(lock, block) => enter_block(call, lock, block),
        _ => do_mark(alloc, call, mark, view, task, next),
    }
}

/// The step of a call that goes on with the first thing to do; behind the last one a function returns None. Only want of memory is an error.
fn step_on<'a, C: Code<'a>, V: Look>(
    alloc: Global,
    call: &mut OpenCall<'a, C>,
    view: &V,
    task: TaskNo,
    next: &mut u64,
) -> Result<Wish, NoMemory>
    requires { KnowsNames (V.view view.now) (names_in call.old.slots) }
    ensures { IfOk result (Moved C.reads
        (meaning.step_on (todos_in C.reads call.old.todo) (meaning.at task next.old (names_in call.old.slots) (V.view view.now))) call.new next.new) }
{
    match call.take() {
        Some(todo) => do_todo(alloc, todo, call, view, task, next),
        None => Ok(call.end(Jump::Return(Value::Absent))),
    }
}

/// The step of a call that has a value: the mark in front uses it, and where none does it is let go. Only want of memory is an error.
fn step_with<'a, C: Code<'a>, V: Look>(
    alloc: Global,
    value: Value,
    call: &mut OpenCall<'a, C>,
    view: &V,
    task: TaskNo,
    next: &mut u64,
) -> Result<Wish, NoMemory>
    requires { KnowsNames (V.view view.now) (names_in call.old.slots) }
    ensures { IfOk result (Moved C.reads
        (meaning.step_with value (todos_in C.reads call.old.todo) (meaning.at task next.old (names_in call.old.slots) (V.view view.now))) call.new next.new) }
{
    match call.take() {
        Some(Todo::Mark(mark)) => use_at(alloc, mark, value, call, view, task, next),
        Some(Todo::Do(head)) => begin(alloc, head, call, view, task, next),
        None => Ok(call.end(Jump::Return(Value::Absent))),
    }
}

/// One step of a call of this task, whose next trigger has this number, where the call is given this: what it wants. Only want of memory is an error.
pub(crate) fn step_call<'a, C: Code<'a>, V: Look>(
    alloc: Global,
    call: &mut OpenCall<'a, C>,
    given: Option<Given>,
    view: &V,
    task: TaskNo,
    next: &mut u64,
) -> Result<Wish, NoMemory>
    requires { KnowsNames (V.view view.now) (names_in call.old.slots) }
    ensures { IfOk result (Moved C.reads
        (meaning.step (meaning.given_to given (frame_in C.reads call.old).course) (frame_in C.reads call.old).todo
        (meaning.at task next.old (frame_in C.reads call.old).names (V.view view.now)))
        call.new next.new) }
{
    match course_given(given, call.take_course()) {
        Course::On => step_on(alloc, call, view, task, next),
        Course::Has(value) => step_with(alloc, value, call, view, task, next),
        Course::Leaves(jump) => drop_mark(call, jump),
    }
}
