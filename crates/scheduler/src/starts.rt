//! What a test's own task is given.
ghost use Rattle.std.specs.Prelude.{◌≡◌, ◌<◌, ◌++◌, ◌∷◌, IfOk};
ghost use Rattle.py_value.specs.Answer.{answer_map};
ghost use Rattle.py_value.specs.declared.value.Value.TheVariants.{Place};
ghost use Rattle.py_evaluate.specs.Attribute.Knows.{KnowsAll, KnowsNode};
ghost use Rattle.py_evaluate.specs.Attribute.Look.{View};
ghost use Rattle.task_step.specs.TaskValues.Evaluation.{Answers};
ghost use Rattle.rig_model.specs.Run.Case.{values_of};

use crate::constants::constant_value;
use port_io::Sequence;
use py_evaluate::attribute::OperationFault;
use py_syntax::Const;
use py_value::Value;
use std::alloc::Global;

/// These values, and behind them those of some constants. The first constant that has no value counts.
fn with_values(
    alloc: Global,
    mut values: Sequence<Value>,
    constants: &Sequence<Const>,
) -> Result<Sequence<Value>, OperationFault>
    ensures { Answers (answer_map (λ more. values ++ more) (values_of constants.now)) result }
{
    for at in 0..constants.len() {
        values.push(constant_value(alloc, constants.get(at))?)?;
    }
    Ok(values)
}

/// The values of a test's arguments, in order. The first that has none counts: a text of over 65,536 bytes is an OverflowError. Want of memory is
/// the other error. Each view knows the values.
pub fn values(alloc: Global, arguments: &Sequence<Const>) -> Result<Sequence<Value>, OperationFault>
    ensures is { Answers (values_of arguments.now) result }
    ensures known { IfOk result (λ values. (view : View) → KnowsAll view values) }
{
    with_values(alloc, Sequence::new(alloc), arguments)
}

/// What a test's own task is given: the top of the design, and the values of the test's arguments (cocotb 1.8, `cocotb.test`). The errors are
/// those of [`values`].
pub fn task_arguments(
    alloc: Global,
    arguments: &Sequence<Const>,
) -> Result<Sequence<Value>, OperationFault>
    ensures is { Answers (answer_map (λ values. Place 0 ∷ values) (values_of arguments.now)) result }
    ensures known { IfOk result (λ values. (view : View) → KnowsNode view 0 → KnowsAll view values) }
{
    let mut values = Sequence::new(alloc);
    values.push(Value::Place(0))?;
    with_values(alloc, values, arguments)
}
