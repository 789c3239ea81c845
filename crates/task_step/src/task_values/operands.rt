//! Operands of calls, and what the parameters are given.
ghost use Rattle.std.specs.Prelude.{◌≡◌, ◌==◌, map, IfOk, option_copied};
ghost use Rattle.std.specs.List.{find};
ghost use Rattle.py_value.specs.declared.value.Value.TheVariants as value;
ghost use Rattle.py_evaluate.specs.Attribute.Knows.{KnowsNames};
ghost use Rattle.py_evaluate.specs.Gives.{scope};
ghost use Rattle.test_meaning.specs.Body.Views.{view_operand};
ghost use Rattle.rig_model.specs.Task.Calls as calls;
ghost use Rattle.task_step.specs.TaskValues.Evaluation.{Evaluation};
ghost use Rattle.task_step.specs.TaskValues.Arguments.{arguments_in};
ghost use Rattle.task_step.specs.declared.task_values.operands.Argument as code;

use crate::task_values::eval;
use port_io::{NoMemory, Sequence};
use py_evaluate::attribute::{Locals, Look, OperationFault};
use py_value::{TaskNo, Value, copy};
use std::alloc::Global;
use test_meaning::body::Operand;

/// The value of an operand.
#[derive(Drop)]
pub struct Argument {
    /// The number of the parameter that it is for, from 0.
    pub parameter: usize,
    pub value: Value,
}

/// The values of operands, from left to right (the language reference, 6.3.4). The faults are those of [`eval`], of the first operand that
/// raises one.
pub fn eval_operands<N: Locals, V: Look>(
    alloc: Global,
    operands: &[Operand],
    names: &N,
    view: &V,
    task: TaskNo,
    next: &mut u64,
) -> Result<Vec<Argument>, OperationFault>
    requires { KnowsNames (V.view view.now) (N.names names.now) }
    ensures { Evaluation result (λ given. arguments_in given.items) next.old next.new
        (calls.eval_operands (scope task (N.names names.now) (V.view view.now)) (map view_operand operands.now) next.old) }
{
    let mut given = Vec::new(alloc);
    for o in operands {
        let value = eval(alloc, &o.value, names, view, task, next)?;
        given.push(Argument {
            parameter: o.parameter,
            value,
        })?;
    }
    Ok(given)
}

/// The first argument that is for the parameter of this number, if there is one.
pub(crate) fn first_for(parameter: usize, given: &[Argument]) -> Option<&Argument>
    ensures { option_copied result ≡ find (λ (x : code.Argument). x.parameter == parameter) given.now }
{
    given.iter().find(|x| x.parameter == parameter)
}

/// A copy of what the parameter of this number is given, or None where it is given nothing.
#[tactic(auto, using(crate::proofs::TaskValuesLemmas::Given::found))]
pub(crate) fn argument_or_none(
    alloc: Global,
    parameter: usize,
    given: &[Argument],
) -> Result<Value, NoMemory>
    ensures { IfOk result (λ v. v ≡ calls.argument parameter value.Absent (arguments_in given.now)) }
{
    match first_for(parameter, given) {
        Some(x) => copy(alloc, &x.value),
        None => Ok(Value::Absent),
    }
}

/// What the parameters are given, in their order, as many as there are operands; None where one is given nothing.
pub(crate) fn arguments(
    alloc: Global,
    operands: &[Operand],
    given: &[Argument],
) -> Result<Sequence<Value>, NoMemory>
    ensures { IfOk result (λ values. values ≡ calls.arguments 0 (map view_operand operands.now) (arguments_in given.now)) }
{
    let mut values = Sequence::new(alloc);
    for parameter in 0..operands.len() {
        values.push(argument_or_none(alloc, parameter, given)?)?;
    }
    Ok(values)
}
