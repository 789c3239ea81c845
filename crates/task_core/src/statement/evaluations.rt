//! What statements evaluate, each as one outcome.
ghost use Rattle.std.specs.Prelude.{map, option_map};
ghost use Rattle.py_syntax.specs.ExpressionTrees as tree;
ghost use Rattle.py_syntax.specs.declared.expression.Operation.TheVariants as operation;
ghost use Rattle.py_evaluate.specs.Attribute.Knows.{KnowsNames};
ghost use Rattle.py_evaluate.specs.Eval as meaning;
ghost use Rattle.py_evaluate.specs.Gives.{scope};
ghost use Rattle.task_step.specs.StatementValues.Kept.{draw_in, source_in, write_in};
ghost use Rattle.rig_model.specs.Task.Values as values;
ghost use Rattle.test_meaning.specs.Body.Views.{view_logger, view_write_action};
ghost use Rattle.task_step.specs.TaskValues.Evaluation.{Evaluation};
ghost use Rattle.task_core.specs.Statement.Outcomes as outcomes;

use port_io::{Name, boxed};
use py_evaluate::attribute::{Locals, Look, OperationFault, operated};
use py_syntax::{Action, BinOp, Expression, FaultKind};
use py_value::{QueueNo, TaskNo, Value, truth};
use rig_model::task::Turned;
use std::alloc::Global;
use task_step::statement_values::{
    Draw, SignalWrite, Source, act_of, drawn, log_text, logged_for, queue_bound, queue_of, write_of,
};
use task_step::task_values::{eval, eval_all, short_text};
use test_meaning::body::{Logger, WriteAction};

/// Whether a condition holds.
pub(crate) fn eval_truth<N: Locals, V: Look>(
    alloc: Global,
    e: &Expression,
    names: &N,
    view: &V,
    task: TaskNo,
    next: &mut u64,
) -> Result<bool, OperationFault>
    requires { KnowsNames (V.view view.now) (N.names names.now) }
    ensures { Evaluation result (λ holds. holds) next.old next.new
        (outcomes.eval_truth (scope task (N.names names.now) (V.view view.now)) (tree.view e.now) next.old) }
{
    let v = eval(alloc, e, names, view, task, next)?;
    Ok(truth(&v))
}

/// What an operator gives of the value of a name and that of an expression, which is evaluated behind it.
pub(crate) fn eval_operated<N: Locals, V: Look>(
    alloc: Global,
    name: &Name,
    op: BinOp,
    e: &Expression,
    names: &N,
    view: &V,
    task: TaskNo,
    next: &mut u64,
) -> Result<Value, OperationFault>
    requires { KnowsNames (V.view view.now) (N.names names.now) }
    ensures { Evaluation result (λ v. v) next.old next.new (meaning.eval (scope task (N.names names.now) (V.view view.now))
        (tree.Infix (operation.Binary op) (tree.Name name.now) (tree.view e.now)) next.old) }
{
    match names.local(name) {
        Some(left) => {
            let right = eval(alloc, e, names, view, task, next)?;
            Ok(operated(view, op, left, &right)?)
        }
        None => Err(OperationFault::Raised(FaultKind::UnboundLocalError)),
    }
}

/// The write of a value or an action that is there: the signal is evaluated.
pub(crate) fn eval_stage<N: Locals, V: Look>(
    alloc: Global,
    target: &Expression,
    source: &Source,
    names: &N,
    view: &V,
    task: TaskNo,
    next: &mut u64,
) -> Result<SignalWrite, OperationFault>
    requires { KnowsNames (V.view view.now) (N.names names.now) }
    ensures { Evaluation result write_in next.old next.new
        (outcomes.eval_stage (scope task (N.names names.now) (V.view view.now)) (tree.view target.now) (source_in source.now) next.old) }
{
    let target = eval(alloc, target, names, view, task, next)?;
    Ok(write_of(view, &target, source)?)
}

/// An action with its operand (cocotb 1.8, `cocotb.handle`).
fn eval_action<N: Locals, V: Look>(
    alloc: Global,
    action: &WriteAction,
    names: &N,
    view: &V,
    task: TaskNo,
    next: &mut u64,
) -> Result<Source, OperationFault>
    requires { KnowsNames (V.view view.now) (N.names names.now) }
    ensures { Evaluation result source_in next.old next.new
        (values.eval_action (scope task (N.names names.now) (V.view view.now)) (view_write_action action.now) next.old) }
{
    match action {
        WriteAction::Force(e) => {
            let v = eval(alloc, e, names, view, task, next)?;
            Ok(Source::Force(v))
        }
        WriteAction::Freeze => Ok(Source::Freeze),
        WriteAction::Release => Ok(Source::Release),
    }
}

/// The write of an action, which is evaluated first, and then the signal.
pub(crate) fn eval_stage_action<N: Locals, V: Look>(
    alloc: Global,
    target: &Expression,
    action: &WriteAction,
    names: &N,
    view: &V,
    task: TaskNo,
    next: &mut u64,
) -> Result<SignalWrite, OperationFault>
    requires { KnowsNames (V.view view.now) (N.names names.now) }
    ensures { Evaluation result write_in next.old next.new (outcomes.eval_stage_action (scope task (N.names names.now) (V.view view.now))
        (tree.view target.now) (view_write_action action.now) next.old) }
{
    let source = boxed(alloc, eval_action(alloc, action, names, view, task, next)?)?;
    eval_stage(alloc, target, &source, names, view, task, next)
}

/// A write that is done at once: the signal, and then the value.
pub(crate) fn eval_put<N: Locals, V: Look>(
    alloc: Global,
    target: &Expression,
    value: &Expression,
    names: &N,
    view: &V,
    task: TaskNo,
    next: &mut u64,
) -> Result<SignalWrite, OperationFault>
    requires { KnowsNames (V.view view.now) (N.names names.now) }
    ensures { Evaluation result write_in next.old next.new
        (outcomes.eval_put (scope task (N.names names.now) (V.view view.now)) (tree.view target.now) (tree.view value.now) next.old) }
{
    let target = boxed(alloc, eval(alloc, target, names, view, task, next)?)?;
    let source = Source::Value(eval(alloc, value, names, view, task, next)?);
    Ok(write_of(view, &target, &source)?)
}

/// An action that is done at once: the signal, and then the action.
pub(crate) fn eval_put_action<N: Locals, V: Look>(
    alloc: Global,
    target: &Expression,
    action: &WriteAction,
    names: &N,
    view: &V,
    task: TaskNo,
    next: &mut u64,
) -> Result<SignalWrite, OperationFault>
    requires { KnowsNames (V.view view.now) (N.names names.now) }
    ensures { Evaluation result write_in next.old next.new (outcomes.eval_put_action (scope task (N.names names.now) (V.view view.now))
        (tree.view target.now) (view_write_action action.now) next.old) }
{
    let target = boxed(alloc, eval(alloc, target, names, view, task, next)?)?;
    let source = eval_action(alloc, action, names, view, task, next)?;
    Ok(write_of(view, &target, &source)?)
}

/// A queue (cocotb 1.8, `cocotb.queue.Queue`).
pub(crate) fn eval_queue<N: Locals, V: Look>(
    alloc: Global,
    e: &Expression,
    names: &N,
    view: &V,
    task: TaskNo,
    next: &mut u64,
) -> Result<QueueNo, OperationFault>
    requires { KnowsNames (V.view view.now) (N.names names.now) }
    ensures { Evaluation result (λ queue. queue) next.old next.new
        (outcomes.eval_queue (scope task (N.names names.now) (V.view view.now)) (tree.view e.now) next.old) }
{
    let v = eval(alloc, e, names, view, task, next)?;
    Ok(queue_of(view, &v)?)
}

/// The bound of a new queue, 0 where it has none.
pub(crate) fn eval_bound<N: Locals, V: Look>(
    alloc: Global,
    e: &Option<Expression>,
    names: &N,
    view: &V,
    task: TaskNo,
    next: &mut u64,
) -> Result<u32, OperationFault>
    requires { KnowsNames (V.view view.now) (N.names names.now) }
    ensures { Evaluation result (λ bound. bound) next.old next.new
        (outcomes.eval_bound (scope task (N.names names.now) (V.view view.now)) (option_map tree.view e.now) next.old) }
{
    match e {
        Some(e) => {
            let v = eval(alloc, e, names, view, task, next)?;
            Ok(queue_bound(&v)?)
        }
        None => Ok(0),
    }
}

/// An item, and the queue that it is put into.
#[derive(Drop)]
pub(crate) struct QueuePut {
    pub queue: QueueNo,
    pub item: Value,
}

/// A queue, and then the item that is put into it.
pub(crate) fn eval_queue_put<N: Locals, V: Look>(
    alloc: Global,
    queue: &Expression,
    item: &Expression,
    names: &N,
    view: &V,
    task: TaskNo,
    next: &mut u64,
) -> Result<QueuePut, OperationFault>
    requires { KnowsNames (V.view view.now) (N.names names.now) }
    ensures { Evaluation result outcomes.queue_put_in next.old next.new
        (outcomes.eval_queue_put (scope task (N.names names.now) (V.view view.now)) (tree.view queue.now) (tree.view item.now) next.old) }
{
    let queue = boxed(alloc, eval(alloc, queue, names, view, task, next)?)?;
    let item = eval(alloc, item, names, view, task, next)?;
    Ok(QueuePut {
        queue: queue_of(view, &queue)?,
        item,
    })
}

/// What a method that acts asks for.
pub(crate) fn eval_act<N: Locals, V: Look>(
    alloc: Global,
    e: &Expression,
    action: Action,
    names: &N,
    view: &V,
    task: TaskNo,
    next: &mut u64,
) -> Result<Turned, OperationFault>
    requires { KnowsNames (V.view view.now) (N.names names.now) }
    ensures { Evaluation result (λ turned. turned) next.old next.new
        (outcomes.eval_act (scope task (N.names names.now) (V.view view.now)) (tree.view e.now) action next.old) }
{
    let v = eval(alloc, e, names, view, task, next)?;
    Ok(act_of(action, &v)?)
}

/// The numbers of which one is drawn: both bounds, from left to right.
pub(crate) fn eval_draw<N: Locals, V: Look>(
    alloc: Global,
    low: &Expression,
    high: &Expression,
    names: &N,
    view: &V,
    task: TaskNo,
    next: &mut u64,
) -> Result<Draw, OperationFault>
    requires { KnowsNames (V.view view.now) (N.names names.now) }
    ensures { Evaluation result draw_in next.old next.new
        (outcomes.eval_draw (scope task (N.names names.now) (V.view view.now)) (tree.view low.now) (tree.view high.now) next.old) }
{
    let low = boxed(alloc, eval(alloc, low, names, view, task, next)?)?;
    let high = eval(alloc, high, names, view, task, next)?;
    Ok(drawn(&low, &high)?)
}

/// That there is something to log a line for.
fn eval_logged<N: Locals, V: Look>(
    alloc: Global,
    logger: &Logger,
    names: &N,
    view: &V,
    task: TaskNo,
    next: &mut u64,
) -> Result<(), OperationFault>
    requires { KnowsNames (V.view view.now) (N.names names.now) }
    ensures { Evaluation result (λ done. done) next.old next.new
        (outcomes.eval_logged (scope task (N.names names.now) (V.view view.now)) (view_logger logger.now) next.old) }
{
    match logger {
        Logger::Cocotb => Ok(()),
        Logger::Hierarchy(e) => {
            let v = eval(alloc, e, names, view, task, next)?;
            Ok(logged_for(&v)?)
        }
    }
}

/// The text of a log statement: what it is logged for first, then its values, from left to right.
pub(crate) fn eval_log<N: Locals, V: Look>(
    alloc: Global,
    logger: &Logger,
    e: &Expression,
    es: &[Expression],
    names: &N,
    view: &V,
    task: TaskNo,
    next: &mut u64,
) -> Result<Name, OperationFault>
    requires { KnowsNames (V.view view.now) (N.names names.now) }
    ensures { Evaluation result (λ text. text) next.old next.new (outcomes.eval_log (scope task (N.names names.now) (V.view view.now))
        (view_logger logger.now) (tree.view e.now) (map tree.view es.now) next.old) }
{
    eval_logged(alloc, logger, names, view, task, next)?;
    let v = boxed(alloc, eval(alloc, e, names, view, task, next)?)?;
    let values = eval_all(alloc, es, names, view, task, next)?;
    Ok(short_text(log_text(alloc, view, &v, &values)?)?)
}
