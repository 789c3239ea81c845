//! Limits of time.
ghost use Rattle.std.specs.Prelude.{◌≡◌, option_map};
ghost use Rattle.py_syntax.specs.ExpressionTrees as tree;
ghost use Rattle.py_evaluate.specs.Attribute.Knows.{KnowsNames};
ghost use Rattle.py_evaluate.specs.Gives.{scope};
ghost use Rattle.rig_model.specs.Task.Awaits as awaits;
ghost use Rattle.task_step.specs.TaskValues.Evaluation.{Evaluation};
ghost use Rattle.task_step.specs.TaskValues.Times.{time_in, eval_time};

use crate::task_values::{eval, eval_some};
use port_io::boxed;
use py_evaluate::attribute::{Locals, Look, OperationFault};
use py_evaluate::function::unit_or_step;
use py_syntax::{Expression, FaultKind};
use py_value::time::steps_of;
use py_value::{TaskNo, Value};
use std::alloc::Global;

/// The time of a limit, as it was evaluated (cocotb 1.8, `with_timeout`).
#[derive(Drop)]
pub struct Time {
    /// So many units.
    pub number: Box<Value>,
    /// The unit; a step where there is none.
    pub unit: Option<Value>,
}

/// The time of a limit, and then its unit, where there is one. The faults are those of [`eval`].
pub fn eval_time<N: Locals, V: Look>(
    alloc: Global,
    time: &Expression,
    unit: &Option<Expression>,
    names: &N,
    view: &V,
    task: TaskNo,
    next: &mut u64,
) -> Result<Time, OperationFault>
    requires { KnowsNames (V.view view.now) (N.names names.now) }
    ensures { Evaluation result time_in next.old next.new
        (eval_time (scope task (N.names names.now) (V.view view.now)) (tree.view time.now) (option_map tree.view unit.now) next.old) }
{
    let number = boxed(alloc, eval(alloc, time, names, view, task, next)?)?;
    Ok(Time {
        number,
        unit: eval_some(alloc, unit, names, view, task, next)?,
    })
}

/// The steps that a time is (cocotb 1.8, `with_timeout`), 1 to 2^62, or the fault of the time: TypeErrors, then ValueErrors, then OverflowError, as
/// `py_value::time::steps_of` says. It takes no memory.
pub fn time_steps<V: Look>(view: &V, time: &Time) -> Result<u64, FaultKind>
    ensures { result ≡ awaits.time_steps (V.view view.now) (time_in time.now) }
{
    let unit = unit_or_step(view, time.unit.as_ref());
    steps_of(view.step_fs(), &time.number, unit)
}
