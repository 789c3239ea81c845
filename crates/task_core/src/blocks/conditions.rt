//! `if` and `while`.
ghost use Rattle.std.specs.Prelude.{◌≤◌, ◌++◌, ◌∷◌, [], IfOk};
ghost use Rattle.py_syntax.specs.ExpressionTrees as tree;
ghost use Rattle.py_evaluate.specs.Attribute.Knows.{KnowsNames};
ghost use Rattle.py_evaluate.specs.Gives.{scope};
ghost use Rattle.rig_model.specs.Task.Blocks as meaning;
ghost use Rattle.rig_model.specs.Task.Frame as frame;
ghost use Rattle.rig_model.specs.Task.Frame.{items};
ghost use Rattle.task_step.specs.TaskValues.Evaluation.{Evaluation};
ghost use Rattle.task_core.specs.OpenCall.Call.{Moved, at_in};
ghost use Rattle.task_core.specs.OpenCall.Slots.{names_in};
ghost use Rattle.task_core.specs.Blocks.Steps.{IsStep, eval_condition};

use crate::code::Code;
use crate::open_call::{Mark, OpenCall, Wish};
use port_io::NoMemory;
use py_evaluate::attribute::{Locals, Look, OperationFault};
use py_syntax::Expression;
use py_value::{TaskNo, truth};
use std::alloc::Global;
use task_step::task_values::eval;

/// Whether a condition holds. The faults are those of `task_step::task_values::eval`.
fn holds<N: Locals, V: Look>(
    alloc: Global,
    condition: &Expression,
    names: &N,
    view: &V,
    task: TaskNo,
    next: &mut u64,
) -> Result<bool, OperationFault>
    requires { KnowsNames (V.view view.now) (N.names names.now) }
    ensures { Evaluation result (λ b. b) next.old next.new
        (eval_condition (scope task (N.names names.now) (V.view view.now)) (tree.view condition.now) next.old) }
{
    let v = eval(alloc, condition, names, view, task, next)?;
    Ok(truth(&v))
}

/// A block comes next, or another.
fn choose<'a, C: Code<'a>>(
    call: &mut OpenCall<'a, C>,
    holds: bool,
    block: C,
    other: C,
) -> Result<Wish, NoMemory>
    ensures { IfOk result (IsStep C.reads
        (meaning.choose holds (items (C.reads block).block) (items (C.reads other).block)) call.old call.new) }
{
    if holds {
        call.enter(block)
    } else {
        call.enter(other)
    }
}

/// The block of a `while` comes next, and then its condition again, where that held.
fn choose_round<'a, C: Code<'a>>(
    call: &mut OpenCall<'a, C>,
    holds: bool,
    condition: &'a Expression,
    block: C,
) -> Result<Wish, NoMemory>
    ensures { IfOk result (IsStep C.reads
        (meaning.choose holds (items (C.reads block).block ++ frame.Again (tree.view condition.now) (C.reads block).block ∷ []) []) call.old call.new) }
{
    if holds {
        call.enter_marked(block, Mark::Again(condition, block))
    } else {
        Ok(call.go_on())
    }
}

/// `if` (the language reference, 8.1): its condition is asked, and its block comes next, or that of its `else`. Only want of memory is an error.
pub fn do_if<'a, C: Code<'a>, V: Look>(
    alloc: Global,
    call: &mut OpenCall<'a, C>,
    condition: &'a Expression,
    block: C,
    other: C,
    view: &V,
    task: TaskNo,
    next: &mut u64,
) -> Result<Wish, NoMemory>
    requires { KnowsNames (V.view view.now) (names_in call.old.slots) }
    ensures moved { IfOk result (Moved C.reads
        (meaning.ask (tree.view condition.now) (items (C.reads block).block) (items (C.reads other).block)
        (at_in C.reads task (V.view view.now) call.old next.old)) call.new next.new) }
    ensures rises { next.old ≤ next.new }
{
    match holds(alloc, condition, &call.slots, view, task, next) {
        Ok(holds) => choose(call, holds, block, other),
        Err(fault) => call.fail(fault),
    }
}

/// A question of a `while` (the language reference, 8.2), the first one or a later one: where its condition holds its block comes next, and then the
/// next question. Only want of memory is an error.
pub fn do_while<'a, C: Code<'a>, V: Look>(
    alloc: Global,
    call: &mut OpenCall<'a, C>,
    condition: &'a Expression,
    block: C,
    view: &V,
    task: TaskNo,
    next: &mut u64,
) -> Result<Wish, NoMemory>
    requires { KnowsNames (V.view view.now) (names_in call.old.slots) }
    ensures moved { IfOk result (Moved C.reads
        (meaning.ask (tree.view condition.now) (items (C.reads block).block ++ frame.Again (tree.view condition.now) (C.reads block).block ∷ []) []
        (at_in C.reads task (V.view view.now) call.old next.old))
        call.new next.new) }
    ensures rises { next.old ≤ next.new }
{
    match holds(alloc, condition, &call.slots, view, task, next) {
        Ok(holds) => choose_round(call, holds, condition, block),
        Err(fault) => call.fail(fault),
    }
}
