//! Calls with their operands.
ghost use Rattle.std.specs.Prelude.{◌≡◌, [], ◌∷◌, IfOk, Ok, true};
ghost use Rattle.py_syntax.specs.ExpressionTrees as tree;
ghost use Rattle.py_value.specs.Integer.Integer.{truth_number};
ghost use Rattle.py_value.specs.Truth as meaning;
ghost use Rattle.py_value.specs.declared.value.Value.TheVariants as value;
ghost use Rattle.py_evaluate.specs.Attribute.Knows.{KnowsNames};
ghost use Rattle.py_evaluate.specs.Gives.{scope};
ghost use Rattle.test_meaning.specs.Body.BodyTrees.{QueueGet, QueuePut};
ghost use Rattle.test_meaning.specs.Body.Views.{view_call};
ghost use Rattle.rig_model.specs.Task.Calls as calls;
ghost use Rattle.task_step.specs.TaskValues.Evaluation.{Answers, Evaluation};
ghost use Rattle.task_step.specs.TaskValues.Arguments.{arguments_in, called_in};

use crate::task_values::eval;
use crate::task_values::operands::{
    Argument, argument_or_none, arguments, eval_operands, first_for,
};
use gpi::SigId;
use port_io::{NoMemory, Sequence, boxed};
use py_evaluate::attribute::{Locals, Look, OperationFault};
use py_syntax::{Expression, FaultKind};
use py_value::{TaskNo, Value, truth};
use std::alloc::Global;
use test_meaning::body::Call;

/// What is called.
#[derive(Drop)]
pub struct Called {
    /// The number of the function.
    pub function: u32,
    /// What its parameters are given, in their order.
    pub arguments: Sequence<Value>,
}

/// Whether a clock is high first: `start_high`, which is True where it isn't given.
#[tactic(auto, using(crate::proofs::TaskValuesLemmas::Given::found))]
fn starts_high(given: &[Argument]) -> bool
    ensures { result ≡ meaning.truth (calls.argument 1 (value.Truth true) (arguments_in given.now)) }
{
    match first_for(1, given) {
        Some(x) => truth(&x.value),
        None => true,
    }
}

/// A digit as a value: 1 where it is high.
fn digit_value(high: bool) -> Value
    ensures { result ≡ value.Whole (truth_number high) }
{
    if high {
        Value::Whole(1)
    } else {
        Value::Whole(0)
    }
}

/// What the task of a clock on this signal is given, half of whose period has so many steps.
fn clocked(
    alloc: Global,
    sig: SigId,
    half: u64,
    given: &[Argument],
) -> Result<Sequence<Value>, NoMemory>
    ensures { IfOk result (λ values. calls.clock_arguments (value.Clock sig half) (arguments_in given.now) ≡ Ok values) }
{
    let mut values = Sequence::new(alloc);
    values.push(Value::Signal(sig))?;
    values.push(Value::Whole(half as i128))?;
    values.push(digit_value(starts_high(given)))?;
    values.push(argument_or_none(alloc, 0, given)?)?;
    Ok(values)
}

/// What the task of a clock is given (cocotb 1.8, `cocotb.clock.Clock.start`): the signal, half of the period, the digit that is written first,
/// and how many cycles there are. What is no clock is an AttributeError.
fn clock_arguments(
    alloc: Global,
    clock: &Value,
    given: &[Argument],
) -> Result<Sequence<Value>, OperationFault>
    ensures { Answers (calls.clock_arguments clock.now (arguments_in given.now)) result }
{
    match clock {
        Value::Clock { sig, half } => Ok(clocked(alloc, *sig, *half, given)?),
        _ => Err(OperationFault::Raised(FaultKind::AttributeError)),
    }
}

/// What the task of a put is given: the queue, and the item. What is no queue is an AttributeError.
fn put_arguments(
    alloc: Global,
    queue: &Value,
    item: Value,
) -> Result<Sequence<Value>, OperationFault>
    ensures { Answers (calls.queue_arguments queue.now (item ∷ [])) result }
{
    match queue {
        Value::Queue(queue) => {
            let mut values = Sequence::new(alloc);
            values.push(Value::Queue(*queue))?;
            values.push(item)?;
            Ok(values)
        }
        _ => Err(OperationFault::Raised(FaultKind::AttributeError)),
    }
}

/// What the task of a get is given: the queue. What is none is an AttributeError.
fn get_arguments(alloc: Global, queue: &Value) -> Result<Sequence<Value>, OperationFault>
    ensures { Answers (calls.queue_arguments queue.now []) result }
{
    match queue {
        Value::Queue(queue) => {
            let mut values = Sequence::new(alloc);
            values.push(Value::Queue(*queue))?;
            Ok(values)
        }
        _ => Err(OperationFault::Raised(FaultKind::AttributeError)),
    }
}

/// A put into a queue: the queue, and then the item.
fn eval_put<N: Locals, V: Look>(
    alloc: Global,
    function: u32,
    queue: &Expression,
    item: &Expression,
    names: &N,
    view: &V,
    task: TaskNo,
    next: &mut u64,
) -> Result<Called, OperationFault>
    requires { KnowsNames (V.view view.now) (N.names names.now) }
    ensures { Evaluation result called_in next.old next.new (calls.eval_call (scope task (N.names names.now) (V.view view.now))
        (QueuePut function (tree.view queue.now) (tree.view item.now)) next.old) }
{
    let queue = boxed(alloc, eval(alloc, queue, names, view, task, next)?)?;
    let item = eval(alloc, item, names, view, task, next)?;
    Ok(Called {
        function,
        arguments: put_arguments(alloc, &queue, item)?,
    })
}

/// A get from a queue.
fn eval_get<N: Locals, V: Look>(
    alloc: Global,
    function: u32,
    queue: &Expression,
    names: &N,
    view: &V,
    task: TaskNo,
    next: &mut u64,
) -> Result<Called, OperationFault>
    requires { KnowsNames (V.view view.now) (N.names names.now) }
    ensures { Evaluation result called_in next.old next.new
        (calls.eval_call (scope task (N.names names.now) (V.view view.now)) (QueueGet function (tree.view queue.now)) next.old) }
{
    let queue = eval(alloc, queue, names, view, task, next)?;
    Ok(Called {
        function,
        arguments: get_arguments(alloc, &queue)?,
    })
}

/// A call with its operands, which are evaluated from left to right (the language reference, 6.3.4), those of a clock's start behind the clock,
/// and the item of a put behind the queue. The faults are those of [`eval`], and then AttributeError where a clock is to be started or a queue to be
/// used that is none.
pub fn eval_call<N: Locals, V: Look>(
    alloc: Global,
    call: &Call,
    names: &N,
    view: &V,
    task: TaskNo,
    next: &mut u64,
) -> Result<Called, OperationFault>
    requires { KnowsNames (V.view view.now) (N.names names.now) }
    ensures { Evaluation result called_in next.old next.new
        (calls.eval_call (scope task (N.names names.now) (V.view view.now)) (view_call call.now) next.old) }
{
    match call {
        Call::Function(function, operands) => {
            let given = eval_operands(alloc, operands, names, view, task, next)?;
            Ok(Called {
                function: *function,
                arguments: arguments(alloc, operands, &given)?,
            })
        }
        Call::Clock(function, clock, operands) => {
            let clock = boxed(alloc, eval(alloc, clock, names, view, task, next)?)?;
            let given = eval_operands(alloc, operands, names, view, task, next)?;
            Ok(Called {
                function: *function,
                arguments: clock_arguments(alloc, &clock, &given)?,
            })
        }
        Call::Put(function, queue, item) => {
            eval_put(alloc, *function, queue, item, names, view, task, next)
        }
        Call::Get(function, queue) => { eval_get(alloc, *function, queue, names, view, task, next) }
    }
}
