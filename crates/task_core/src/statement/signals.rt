//! Writes to signals.
ghost use Rattle.std.specs.Prelude.{◌≡◌};
ghost use Rattle.py_syntax.specs.ExpressionTrees as tree;
ghost use Rattle.py_evaluate.specs.Attribute.Knows.{KnowsNames};
ghost use Rattle.test_meaning.specs.Body.BodyTrees as body;
ghost use Rattle.test_meaning.specs.Body.Views.{view_write_action};
ghost use Rattle.rig_model.specs.Task.Moves.{with_eval};
ghost use Rattle.rig_model.specs.Task.Statements.{do_statement};
ghost use Rattle.rig_model.specs.Task.Values as meaning;
ghost use Rattle.rig_model.specs.declared.task.task.Turned.TheVariants as turned;
ghost use Rattle.task_core.specs.OpenCall.Slots.{names_in};
ghost use Rattle.task_step.specs.StatementValues.Kept.{source_in};
ghost use Rattle.task_core.specs.Statement.Step.{Stepped};

use crate::code::Code;
use crate::open_call::{OpenCall, Wish};
use crate::statement::evaluations::{eval_put, eval_put_action, eval_stage, eval_stage_action};
use port_io::NoMemory;
use py_evaluate::attribute::Look;
use py_syntax::Expression;
use py_value::TaskNo;
use rig_model::task::Turned;
use std::alloc::Global;
use task_step::statement_values::{SignalWrite, Source};
use test_meaning::body::WriteAction;

/// A write that is staged.
fn staged(write: SignalWrite) -> Turned
    ensures { result ≡ turned.Stage write.sig write.act }
{
    Turned::Stage {
        sig: write.sig,
        act: write.act,
    }
}

/// A write that is done at once.
fn put(write: SignalWrite) -> Turned
    ensures { result ≡ turned.Put write.sig write.act }
{
    Turned::Put {
        sig: write.sig,
        act: write.act,
    }
}

/// `target.value = ..` with a value that is there (cocotb 1.8, "Writing values"): the write is staged.
pub(crate) fn stage<'a, C: Code<'a>, V: Look>(
    alloc: Global,
    target: &Expression,
    source: &Source,
    call: &mut OpenCall<'a, C>,
    view: &V,
    task: TaskNo,
    next: &mut u64,
) -> Result<Wish, NoMemory>
    requires { KnowsNames (V.view view.now) (names_in call.old.slots) }
    ensures { Stepped C.reads (λ a. with_eval a (tree.view target.now) (λ v b. meaning.stage v (source_in source.now) b)) task
        (V.view view.now) call.old call.new next.old next.new result }
{
    match eval_stage(alloc, target, source, &call.slots, view, task, next) {
        Ok(write) => Ok(call.want(staged(write))),
        Err(fault) => call.fail(fault),
    }
}

/// `target.value = action` (cocotb 1.8, `cocotb.handle`): the action is evaluated before the signal, and the write is staged.
pub(crate) fn stage_action<'a, C: Code<'a>, V: Look>(
    alloc: Global,
    target: &Expression,
    action: &WriteAction,
    call: &mut OpenCall<'a, C>,
    view: &V,
    task: TaskNo,
    next: &mut u64,
) -> Result<Wish, NoMemory>
    requires { KnowsNames (V.view view.now) (names_in call.old.slots) }
    ensures { Stepped C.reads (do_statement (body.AssignAction (tree.view target.now) (view_write_action action.now))) task (V.view view.now)
        call.old call.new next.old next.new result }
{
    match eval_stage_action(alloc, target, action, &call.slots, view, task, next) {
        Ok(write) => Ok(call.want(staged(write))),
        Err(fault) => call.fail(fault),
    }
}

/// `target.setimmediatevalue(value)` (cocotb 1.8, "Writing values").
pub(crate) fn write_now<'a, C: Code<'a>, V: Look>(
    alloc: Global,
    target: &Expression,
    value: &Expression,
    call: &mut OpenCall<'a, C>,
    view: &V,
    task: TaskNo,
    next: &mut u64,
) -> Result<Wish, NoMemory>
    requires { KnowsNames (V.view view.now) (names_in call.old.slots) }
    ensures { Stepped C.reads (do_statement (body.SetImmediateValue (tree.view target.now) (tree.view value.now))) task (V.view view.now)
        call.old call.new next.old next.new result }
{
    match eval_put(alloc, target, value, &call.slots, view, task, next) {
        Ok(write) => Ok(call.want(put(write))),
        Err(fault) => call.fail(fault),
    }
}

/// `target.setimmediatevalue(action)` (cocotb 1.8, `cocotb.handle`).
pub(crate) fn act_now<'a, C: Code<'a>, V: Look>(
    alloc: Global,
    target: &Expression,
    action: &WriteAction,
    call: &mut OpenCall<'a, C>,
    view: &V,
    task: TaskNo,
    next: &mut u64,
) -> Result<Wish, NoMemory>
    requires { KnowsNames (V.view view.now) (names_in call.old.slots) }
    ensures { Stepped C.reads (do_statement (body.SetImmediateAction (tree.view target.now) (view_write_action action.now))) task (V.view view.now)
        call.old call.new next.old next.new result }
{
    match eval_put_action(alloc, target, action, &call.slots, view, task, next) {
        Ok(write) => Ok(call.want(put(write))),
        Err(fault) => call.fail(fault),
    }
}
