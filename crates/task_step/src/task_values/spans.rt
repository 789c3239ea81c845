//! What a `for` goes over.
ghost use Rattle.py_syntax.specs.ExpressionTrees as tree;
ghost use Rattle.py_syntax.specs.StatementTrees.{StartStop, StartStopStep, view_span};
ghost use Rattle.py_evaluate.specs.Attribute.Knows.{KnowsNames};
ghost use Rattle.py_evaluate.specs.Gives.{scope};
ghost use Rattle.task_step.specs.LoopSpan.Span.{left_in};
ghost use Rattle.rig_model.specs.Task.Blocks as blocks;
ghost use Rattle.task_step.specs.TaskValues.Evaluation.{Evaluation};

use crate::loop_span::{Left, of_start_stop, of_start_stop_step, of_stop};
use crate::task_values::eval;
use port_io::boxed;
use py_evaluate::attribute::{Locals, Look, OperationFault};
use py_syntax::{Expression, Span};
use py_value::TaskNo;
use std::alloc::Global;

/// `range(start, stop)`
fn eval_start_stop<'a, N: Locals, V: Look>(
    alloc: Global,
    start: &Expression,
    stop: &Expression,
    names: &N,
    view: &V,
    task: TaskNo,
    next: &mut u64,
) -> Result<Left<'a>, OperationFault>
    requires { KnowsNames (V.view view.now) (N.names names.now) }
    ensures { Evaluation result left_in next.old next.new
        (blocks.eval_span (scope task (N.names names.now) (V.view view.now)) (StartStop (tree.view start.now) (tree.view stop.now)) next.old) }
{
    let start = boxed(alloc, eval(alloc, start, names, view, task, next)?)?;
    let stop = eval(alloc, stop, names, view, task, next)?;
    Ok(of_start_stop(&start, &stop)?)
}

/// `range(start, stop, step)`
fn eval_start_stop_step<'a, N: Locals, V: Look>(
    alloc: Global,
    start: &Expression,
    stop: &Expression,
    step: &Expression,
    names: &N,
    view: &V,
    task: TaskNo,
    next: &mut u64,
) -> Result<Left<'a>, OperationFault>
    requires { KnowsNames (V.view view.now) (N.names names.now) }
    ensures { Evaluation result left_in next.old next.new
        (blocks.eval_span (scope task (N.names names.now) (V.view view.now))
        (StartStopStep (tree.view start.now) (tree.view stop.now) (tree.view step.now)) next.old) }
{
    let start = boxed(alloc, eval(alloc, start, names, view, task, next)?)?;
    let stop = boxed(alloc, eval(alloc, stop, names, view, task, next)?)?;
    let step = eval(alloc, step, names, view, task, next)?;
    Ok(of_start_stop_step(&start, &stop, &step)?)
}

/// What a `for` goes over (the language reference, 8.3; the library reference, "Ranges"): the arguments of `range`, from left to right, or
/// constants, which aren't copied. The faults are those of [`eval`], and then those of the range: TypeError of an argument without a number, and
/// then ValueError of an x or z digit and of a step of 0.
pub fn eval_span<'a, N: Locals, V: Look>(
    alloc: Global,
    span: &'a Span,
    names: &N,
    view: &V,
    task: TaskNo,
    next: &mut u64,
) -> Result<Left<'a>, OperationFault>
    requires { KnowsNames (V.view view.now) (N.names names.now) }
    ensures { Evaluation result left_in next.old next.new
        (blocks.eval_span (scope task (N.names names.now) (V.view view.now)) (view_span span.now) next.old) }
{
    match span {
        Span::Stop(stop) => {
            let stop = eval(alloc, stop, names, view, task, next)?;
            Ok(of_stop(&stop)?)
        }
        Span::StartStop(start, stop) => {
            eval_start_stop(alloc, start, stop, names, view, task, next)
        }
        Span::StartStopStep(start, stop, step) => {
            eval_start_stop_step(alloc, start, stop, step, names, view, task, next)
        }
        Span::Constants(constants) => Ok(Left::Listed(constants)),
    }
}
