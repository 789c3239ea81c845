//! Values of expressions.
ghost use Rattle.std.specs.Prelude.{map, option_map, IfOk};
ghost use Rattle.py_syntax.specs.ExpressionTrees as tree;
ghost use Rattle.py_evaluate.specs.Attribute.Knows.{Knows, KnowsAll, KnowsNames};
ghost use Rattle.py_evaluate.specs.Eval as meaning;
ghost use Rattle.py_evaluate.specs.Gives.{scope};
ghost use Rattle.rig_model.specs.Task.Moves as moves;
ghost use Rattle.task_step.specs.TaskValues.Evaluation.{Evaluation};

use py_evaluate::attribute::{Locals, Look, OperationFault};
use py_evaluate::{EvalFault, evaluate};
use py_syntax::Expression;
use py_value::{TaskNo, Value};
use std::alloc::Global;

/// The value of an expression (the language reference, 6), where a task evaluates it that has these names and whose next trigger has this
/// number; or the kind of the fault that it raises, which is that of `py_evaluate::evaluate`. The other error is the want of memory. The next
/// number never falls, and after a fault it is behind the triggers that were made until there.
pub fn eval<N: Locals, V: Look>(
    alloc: Global,
    e: &Expression,
    names: &N,
    view: &V,
    task: TaskNo,
    next: &mut u64,
) -> Result<Value, OperationFault>
    requires { KnowsNames (V.view view.now) (N.names names.now) }
    ensures is { Evaluation result (λ v. v) next.old next.new
        (meaning.eval (scope task (N.names names.now) (V.view view.now)) (tree.view e.now) next.old) }
    ensures known { IfOk result (Knows (V.view view.now)) }
{
    match evaluate(alloc, e, names, view, task, next) {
        Ok(v) => Ok(v),
        Err(EvalFault::Raised(fault)) => Err(OperationFault::Raised(fault.kind)),
        Err(EvalFault::OutOfMemory) => Err(OperationFault::OutOfMemory),
    }
}

/// The values of expressions, from left to right. The faults are those of [`eval`], of the first expression that raises one.
pub fn eval_all<N: Locals, V: Look>(
    alloc: Global,
    es: &[Expression],
    names: &N,
    view: &V,
    task: TaskNo,
    next: &mut u64,
) -> Result<Vec<Value>, OperationFault>
    requires { KnowsNames (V.view view.now) (N.names names.now) }
    ensures is { Evaluation result (λ values. values.items) next.old next.new
        (moves.eval_all (scope task (N.names names.now) (V.view view.now)) (map tree.view es.now) next.old) }
    ensures known { IfOk result (λ values. KnowsAll (V.view view.now) values.items) }
{
    let mut values = Vec::new(alloc);
    for e in es {
        let v = eval(alloc, e, names, view, task, next)?;
        values.push(v)?;
    }
    Ok(values)
}

/// The value of an expression, where there is one. The faults are those of [`eval`].
pub fn eval_some<N: Locals, V: Look>(
    alloc: Global,
    e: &Option<Expression>,
    names: &N,
    view: &V,
    task: TaskNo,
    next: &mut u64,
) -> Result<Option<Value>, OperationFault>
    requires { KnowsNames (V.view view.now) (N.names names.now) }
    ensures { Evaluation result (λ v. v) next.old next.new
        (moves.eval_some (scope task (N.names names.now) (V.view view.now)) (option_map tree.view e.now) next.old) }
{
    match e {
        Some(e) => Ok(Some(eval(alloc, e, names, view, task, next)?)),
        None => Ok(None),
    }
}
