//! What is waited for.
ghost use Rattle.std.specs.Prelude.{◌≡◌, option_map};
ghost use Rattle.py_syntax.specs.ExpressionTrees as tree;
ghost use Rattle.py_evaluate.specs.Attribute.Knows.{KnowsNames};
ghost use Rattle.py_evaluate.specs.Gives.{scope};
ghost use Rattle.rig_model.specs.Task.Awaits as awaits;
ghost use Rattle.rig_model.specs.Task.Blocks as blocks;
ghost use Rattle.test_meaning.specs.Body.Views.{view_call};
ghost use Rattle.task_step.specs.TaskValues.Evaluation.{Evaluation};
ghost use Rattle.task_step.specs.TaskValues.Waits as waits;

use crate::statement_values::queue_of;
use crate::task_values::{Called, eval, eval_call, eval_time, time_steps};
use port_io::boxed;
use py_evaluate::attribute::{Locals, Look, OperationFault};
use py_evaluate::function::{as_trigger, is_waitable, new_tree, new_trigger};
use py_syntax::{Expression, FaultKind};
use py_value::{Form, LockNo, TaskNo, Trig, Trigs, Value};
use std::alloc::Global;
use test_meaning::body::Call;

/// A call under a limit of time.
#[derive(Drop)]
pub struct TimedCall {
    pub called: Called,
    /// How many steps it may take.
    pub steps: u64,
}

/// The acquire of a lock.
#[derive(Drop)]
pub struct Acquiring {
    pub lock: LockNo,
    /// The trigger that acquires it.
    pub trig: Trig,
}

/// What waits for a trigger or a task (the language reference, 6.4): the trigger, or the join of the task, which is a new trigger. The faults are
/// those of [`eval`], then TypeError of what is neither, and RuntimeError of a task's join where the task has made 2^63 triggers.
pub fn eval_wait<N: Locals, V: Look>(
    alloc: Global,
    e: &Expression,
    names: &N,
    view: &V,
    task: TaskNo,
    next: &mut u64,
) -> Result<Trig, OperationFault>
    requires { KnowsNames (V.view view.now) (N.names names.now) }
    ensures { Evaluation result (λ t. t) next.old next.new
        (waits.eval_wait (scope task (N.names names.now) (V.view view.now)) (tree.view e.now) next.old) }
{
    let v = eval(alloc, e, names, view, task, next)?;
    as_trigger(alloc, task, &v, next)
}

/// A trigger or a task under a limit of so many steps: a trigger of its own, behind the join of the task. What is neither is a TypeError, a
/// trigger that is too large a ValueError, and one beyond the limit of triggers a RuntimeError.
pub fn limited(
    alloc: Global,
    task: TaskNo,
    v: &Value,
    steps: u64,
    next: &mut u64,
) -> Result<Trig, OperationFault>
    ensures { Evaluation result (λ t. t) next.old next.new (awaits.limited task v.now steps next.old) }
{
    let mut inner = Trigs::new(alloc);
    inner.push(as_trigger(alloc, task, v, next)?)?;
    Ok(new_tree(task, Form::Limit { inner, steps }, next)?)
}

/// What waits for a trigger or a task under a limit of time (cocotb 1.8, `with_timeout`). The operands are evaluated first, and their faults are
/// those of [`eval`]; then come TypeError of what is neither, and the faults of the time, as [`time_steps`] has them. A trigger that is too large is
/// a ValueError, and one beyond the limit of triggers a RuntimeError.
pub fn eval_limit<N: Locals, V: Look>(
    alloc: Global,
    e: &Expression,
    time: &Expression,
    unit: &Option<Expression>,
    names: &N,
    view: &V,
    task: TaskNo,
    next: &mut u64,
) -> Result<Trig, OperationFault>
    requires { KnowsNames (V.view view.now) (N.names names.now) }
    ensures { Evaluation result (λ t. t) next.old next.new (waits.eval_limit (scope task (N.names names.now) (V.view view.now))
        (tree.view e.now) (tree.view time.now) (option_map tree.view unit.now) next.old) }
{
    let v = boxed(alloc, eval(alloc, e, names, view, task, next)?)?;
    let time = eval_time(alloc, time, unit, names, view, task, next)?;
    if !is_waitable(&v) {
        return Err(OperationFault::Raised(FaultKind::TypeError));
    }
    limited(alloc, task, &v, time_steps(view, &time)?, next)
}

/// A call that is started under a limit of time, and the steps of that limit (cocotb 1.8, `with_timeout`). The operands of the call come first, then
/// the time; the faults are those of [`eval_call`], of [`eval`], and of [`time_steps`].
pub fn eval_timed_call<N: Locals, V: Look>(
    alloc: Global,
    call: &Call,
    time: &Expression,
    unit: &Option<Expression>,
    names: &N,
    view: &V,
    task: TaskNo,
    next: &mut u64,
) -> Result<TimedCall, OperationFault>
    requires { KnowsNames (V.view view.now) (N.names names.now) }
    ensures { Evaluation result waits.timed_in next.old next.new (waits.eval_timed_call (scope task (N.names names.now) (V.view view.now))
        (view_call call.now) (tree.view time.now) (option_map tree.view unit.now) next.old) }
{
    let called = eval_call(alloc, call, names, view, task, next)?;
    let time = eval_time(alloc, time, unit, names, view, task, next)?;
    Ok(TimedCall {
        called,
        steps: time_steps(view, &time)?,
    })
}

/// What waits for room in a queue, by a new trigger (cocotb 1.8, `cocotb.queue.Queue.put`). The faults are those of [`eval`], then AttributeError of
/// what is no queue, and RuntimeError where the task has made 2^63 triggers.
pub fn eval_room<N: Locals, V: Look>(
    alloc: Global,
    e: &Expression,
    names: &N,
    view: &V,
    task: TaskNo,
    next: &mut u64,
) -> Result<Trig, OperationFault>
    requires { KnowsNames (V.view view.now) (N.names names.now) }
    ensures { Evaluation result (λ t. t) next.old next.new
        (waits.eval_queue (λ q. q.space_event) (scope task (N.names names.now) (V.view view.now)) (tree.view e.now) next.old) }
{
    let v = eval(alloc, e, names, view, task, next)?;
    let event = view.queue_space(queue_of(view, &v)?);
    Ok(new_trigger(task, Form::Event(event), next)?)
}

/// What waits for an item in a queue, likewise (cocotb 1.8, `cocotb.queue.Queue.get`).
pub fn eval_items<N: Locals, V: Look>(
    alloc: Global,
    e: &Expression,
    names: &N,
    view: &V,
    task: TaskNo,
    next: &mut u64,
) -> Result<Trig, OperationFault>
    requires { KnowsNames (V.view view.now) (N.names names.now) }
    ensures { Evaluation result (λ t. t) next.old next.new
        (waits.eval_queue (λ q. q.items_event) (scope task (N.names names.now) (V.view view.now)) (tree.view e.now) next.old) }
{
    let v = eval(alloc, e, names, view, task, next)?;
    let event = view.queue_items(queue_of(view, &v)?);
    Ok(new_trigger(task, Form::Event(event), next)?)
}

/// The lock that a value is. What is none is a TypeError. It takes no memory.
fn lock_of(v: &Value) -> Result<LockNo, FaultKind>
    ensures { result ≡ blocks.lock_of v.now }
{
    match v {
        Value::Lock(lock) => Ok(*lock),
        _ => Err(FaultKind::TypeError),
    }
}

/// A lock, and the trigger that acquires it, which is new (the language reference, 8.9.3; cocotb 1.8, "Triggers", `Lock`). The faults are those of
/// [`eval`], then TypeError of what is no lock, and RuntimeError where the task has made 2^63 triggers.
pub fn eval_lock<N: Locals, V: Look>(
    alloc: Global,
    e: &Expression,
    names: &N,
    view: &V,
    task: TaskNo,
    next: &mut u64,
) -> Result<Acquiring, OperationFault>
    requires { KnowsNames (V.view view.now) (N.names names.now) }
    ensures { Evaluation result waits.acquiring_in next.old next.new
        (waits.eval_lock (scope task (N.names names.now) (V.view view.now)) (tree.view e.now) next.old) }
{
    let v = eval(alloc, e, names, view, task, next)?;
    let lock = lock_of(&v)?;
    Ok(Acquiring {
        lock,
        trig: new_trigger(task, Form::Lock(lock), next)?,
    })
}
