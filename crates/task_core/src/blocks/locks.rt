//! `async with`.
ghost use Rattle.std.specs.Prelude.{◌≤◌, ◌∷◌, [], IfOk};
ghost use Rattle.py_syntax.specs.ExpressionTrees as tree;
ghost use Rattle.py_value.specs.declared.value.Value as value;
ghost use Rattle.py_evaluate.specs.Attribute.Knows.{KnowsNames};
ghost use Rattle.rig_model.specs.Task.Awaits.{waits};
ghost use Rattle.rig_model.specs.Task.Blocks as meaning;
ghost use Rattle.rig_model.specs.Task.Frame as frame;
ghost use Rattle.rig_model.specs.Task.Moves.{At, first_do};
ghost use Rattle.rig_model.specs.Task.Values.{use_value};
ghost use Rattle.task_core.specs.OpenCall.Call.{Moved, at_in};
ghost use Rattle.task_core.specs.OpenCall.Slots.{names_in};
ghost use Rattle.task_core.specs.Blocks.Steps.{IsStep};

use crate::code::Code;
use crate::open_call::{Mark, OpenCall, Wish};
use port_io::NoMemory;
use py_evaluate::attribute::Look;
use py_syntax::Expression;
use py_value::{LockNo, TaskNo};
use rig_model::task::Turned;
use std::alloc::Global;
use task_step::task_values::{Acquiring, eval_lock};

/// The trigger that acquires a lock is waited for, and then the block is opened.
fn acquire<'a, C: Code<'a>>(
    call: &mut OpenCall<'a, C>,
    acquiring: Acquiring,
    block: C,
) -> Result<Wish, NoMemory>
    ensures { IfOk result (IsStep C.reads
        (λ (a : At). waits acquiring.trig (first_do (frame.Uses (frame.Enters acquiring.lock (C.reads block).block) ∷ []) a)) call.old call.new) }
{
    call.first_mark(Mark::Enters(acquiring.lock, block))?;
    Ok(call.want(Turned::Await(acquiring.trig)))
}

/// `async with` (the language reference, 8.9.3; cocotb 1.8, "Triggers", `Lock`): its lock is evaluated, and acquired by a trigger of the task. Only
/// want of memory is an error.
pub fn do_with<'a, C: Code<'a>, V: Look>(
    alloc: Global,
    call: &mut OpenCall<'a, C>,
    lock: &'a Expression,
    block: C,
    view: &V,
    task: TaskNo,
    next: &mut u64,
) -> Result<Wish, NoMemory>
    requires { KnowsNames (V.view view.now) (names_in call.old.slots) }
    ensures moved { IfOk result (Moved C.reads
        (meaning.enter (tree.view lock.now) (C.reads block).block (at_in C.reads task (V.view view.now) call.old next.old)) call.new next.new) }
    ensures rises { next.old ≤ next.new }
{
    match eval_lock(alloc, lock, &call.slots, view, task, next) {
        Ok(acquiring) => acquire(call, acquiring, block),
        Err(fault) => call.fail(fault),
    }
}

/// The lock of an `async with` was acquired, whatever the wait gave: its block comes next, and then the lock is released. Only want of memory is an
/// error.
pub fn enter_block<'a, C: Code<'a>>(
    call: &mut OpenCall<'a, C>,
    lock: LockNo,
    block: C,
) -> Result<Wish, NoMemory>
    ensures { IfOk result (λ wish. (v : value.Value) → IsStep C.reads (use_value (frame.Enters lock (C.reads block).block) v) call.old call.new wish) }
{
    call.enter_marked(block, Mark::Holds(lock))
}
