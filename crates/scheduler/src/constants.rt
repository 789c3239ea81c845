//! Values of constants.
ghost use Rattle.py_evaluate.specs.Attribute.Gives.{Gives};
ghost use Rattle.py_evaluate.specs.Eval as meaning;

use py_evaluate::attribute::{OperationFault, text_value};
use py_syntax::Const;
use py_value::Value;
use std::alloc::Global;

/// The value of a constant. A text of over 65,536 bytes is an OverflowError; want of memory is the other error.
pub(crate) fn constant_value(alloc: Global, constant: &Const) -> Result<Value, OperationFault>
    ensures { Gives (meaning.constant_value constant.now) result }
{
    match constant {
        Const::Absent => Ok(Value::Absent),
        Const::Truth(b) => Ok(Value::Truth(*b)),
        Const::Whole(n) => Ok(Value::Whole(*n)),
        Const::Text(text) => text_value(alloc, text.bytes()),
        Const::Named(_) => Ok(Value::Absent),
    }
}
