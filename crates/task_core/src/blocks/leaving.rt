//! How blocks are left.
ghost use Rattle.std.specs.Prelude.{◌∷◌, ℕ, IfOk};
ghost use Rattle.py_value.specs.declared.trigger.TaskNo as number;
ghost use Rattle.py_evaluate.specs.Attribute.Look.{View};
ghost use Rattle.rig_model.specs.Task.Frame as frame;
ghost use Rattle.rig_model.specs.Task.Leaving as meaning;
ghost use Rattle.rig_model.specs.Task.Moves.{At};
ghost use Rattle.rig_model.specs.Task.Step.{at};
ghost use Rattle.task_core.specs.OpenCall.Call.{Moved};
ghost use Rattle.task_core.specs.OpenCall.Course.{jump_in};
ghost use Rattle.task_core.specs.OpenCall.Parts.{mark_in, stop_in, todos_in};
ghost use Rattle.task_core.specs.OpenCall.Slots.{names_in};
ghost use Rattle.task_core.specs.Blocks.Steps.{IsStep};

use crate::blocks::handlers::at_handlers;
use crate::code::Code;
use crate::open_call::{Jump, Mark, OpenCall, Stop, Wish};
use port_io::{Name, NoMemory};
use py_syntax::FaultKind;
use py_value::{Fault, LockNo, TaskNo};
use rig_model::task::Turned;
use task_step::statement_values::same_kind;

/// What leaves blocks comes to a loop: `continue` stops before its next question, `break` behind the loop. Only want of memory is an error.
fn at_loop<'a, C: Code<'a>>(
    call: &mut OpenCall<'a, C>,
    jump: Jump,
    looping: Mark<'a, C>,
) -> Result<Wish, NoMemory>
    ensures { IfOk result (IsStep C.reads
        (meaning.at_loop (jump_in jump) (mark_in C.reads looping.entry)) call.old call.new) }
{
    match jump {
        Jump::Continue => {
            call.first_mark(looping)?;
            Ok(call.go_on())
        }
        Jump::Break => Ok(call.go_on()),
        other => Ok(call.leave(other)),
    }
}

/// A fault comes to the limit of a `with_timeout` that has started this task, which is killed where the fault is SimTimeoutError.
fn fault_at_limit<'a, C: Code<'a>>(call: &mut OpenCall<'a, C>, fault: Fault, task: TaskNo) -> Wish
    ensures { IsStep C.reads (meaning.at_limit (frame.Throw fault) task) call.old call.new result }
{
    if same_kind(fault.kind, FaultKind::SimTimeoutError) {
        call.want_leaving(Jump::Throw(fault), Turned::Kill(task))
    } else {
        call.leave(Jump::Throw(fault))
    }
}

/// What leaves blocks comes to the limit of a `with_timeout` that has started this task, of which only a fault takes any notice.
fn at_limit<'a, C: Code<'a>>(call: &mut OpenCall<'a, C>, jump: Jump, task: TaskNo) -> Wish
    ensures { IsStep C.reads (meaning.at_limit (jump_in jump) task) call.old call.new result }
{
    match jump {
        Jump::Throw(fault) => fault_at_limit(call, fault, task),
        other => call.leave(other),
    }
}

/// What leaves blocks leaves that of an `except` with this name, which is unassigned.
fn at_bound<'a, C: Code<'a>>(call: &mut OpenCall<'a, C>, jump: Jump, name: &Name) -> Wish
    ensures { IsStep C.reads (λ (a : At). meaning.drop_mark (jump_in jump) (frame.Bound name.now ∷ a.rest) a) call.old call.new result }
{
    call.name(name, None);
    call.leave(jump)
}

/// What leaves blocks leaves that of an `async with`, whose lock is released.
fn at_held<'a, C: Code<'a>>(call: &mut OpenCall<'a, C>, jump: Jump, lock: LockNo) -> Wish
    ensures { IsStep C.reads (λ (a : At). meaning.drop_mark (jump_in jump) (frame.Holds lock ∷ a.rest) a) call.old call.new result }
{
    call.want_leaving(jump, Turned::Release(lock))
}

/// What leaves blocks comes to a mark that counts, which was taken off. Only want of memory is an error.
fn at_stop<'a, C: Code<'a>>(
    call: &mut OpenCall<'a, C>,
    jump: Jump,
    stop: Stop<'a, C>,
) -> Result<Wish, NoMemory>
    ensures { IfOk result (IsStep C.reads (λ (a : At). meaning.drop_mark (jump_in jump) (stop_in C.reads stop.entry ∷ a.rest) a) call.old call.new) }
{
    match stop {
        Stop::Again(condition, block) => at_loop(call, jump, Mark::Again(condition, block)),
        Stop::Each(name, left, block) => at_loop(call, jump, Mark::Each(name, left, block)),
        Stop::Limit(task) => Ok(at_limit(call, jump, task)),
        Stop::Handles(handlers) => at_handlers(call, jump, handlers),
        Stop::Bound(name) => Ok(at_bound(call, jump, name)),
        Stop::Holds(lock) => Ok(at_held(call, jump, lock)),
    }
}

/// Leaves blocks by a fault, `return`, `break` or `continue` up to the first mark that counts, and does what is to be done there (the language
/// reference, 7.6, 7.9, 7.10, 8.4, 8.9.3); behind the last one the call ends. The number of the next trigger stays, whatever the task and what it
/// sees. Only want of memory is an error.
pub fn drop_mark<'a, C: Code<'a>>(call: &mut OpenCall<'a, C>, jump: Jump) -> Result<Wish, NoMemory>
    ensures { IfOk result (λ wish. (task : number.TaskNo) (view : View) (next : ℕ)
        → Moved C.reads (meaning.drop_mark (jump_in jump) (todos_in C.reads call.old.todo) (at task next (names_in call.old.slots) view)) call.new next wish) }
{
    match call.take_mark() {
        Some(stop) => at_stop(call, jump, stop),
        None => Ok(call.end(jump)),
    }
}
