//! Texts that statements make of values.
ghost use Rattle.std.specs.Prelude.{◌≡◌, option_map};
ghost use Rattle.py_syntax.specs.ExpressionTrees as tree;
ghost use Rattle.py_evaluate.specs.Attribute.Knows.{KnowsNames};
ghost use Rattle.py_evaluate.specs.Gives.{scope};
ghost use Rattle.rig_model.specs.Task.Moves as moves;
ghost use Rattle.task_step.specs.TaskValues.Evaluation.{Evaluation};

use crate::task_values::eval;
use port_io::Name;
use py_evaluate::attribute::{Locals, Look, OperationFault, shown_text};
use py_syntax::{Expression, FaultKind};
use py_value::TaskNo;
use std::alloc::Global;

/// How many bytes a text may have that a value holds: `text_limit` of `py_value`.
const TEXT_LIMIT: usize = 65536;

/// The text. One of over 65,536 bytes, which no value could hold, is an OverflowError. It takes no memory.
pub fn short_text(text: Name) -> Result<Name, FaultKind>
    ensures { result ≡ moves.short_text text }
{
    if text.bytes().len() > TEXT_LIMIT {
        Err(FaultKind::OverflowError)
    } else {
        Ok(text)
    }
}

/// The text that a fault says (the language reference, 7.3 and 7.8): the expression as it is shown, or nothing where there is none. The faults
/// are those of [`eval`], and then OverflowError of a text of over 65,536 bytes.
pub fn eval_text<N: Locals, V: Look>(
    alloc: Global,
    e: &Option<Expression>,
    names: &N,
    view: &V,
    task: TaskNo,
    next: &mut u64,
) -> Result<Name, OperationFault>
    requires { KnowsNames (V.view view.now) (N.names names.now) }
    ensures { Evaluation result (λ text. text) next.old next.new
        (moves.eval_text (scope task (N.names names.now) (V.view view.now)) (option_map tree.view e.now) next.old) }
{
    match e {
        Some(e) => {
            let v = eval(alloc, e, names, view, task, next)?;
            Ok(short_text(shown_text(alloc, view, &v)?)?)
        }
        None => Ok(Name::empty()),
    }
}
