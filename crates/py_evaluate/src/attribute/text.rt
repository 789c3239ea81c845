//! Texts as values.
ghost use Rattle.py_value.specs.Shown.{IsOf};
ghost use Rattle.py_evaluate.specs.Attribute.Attribute as meaning;
ghost use Rattle.py_evaluate.specs.Attribute.Gives.{Gives, IfWant, MakesText};

use crate::attribute::OperationFault;
use port_io::Name;
use py_syntax::FaultKind;
use py_value::{Paths, Value, show};
use std::alloc::Global;

/// How many bytes a text may have that a value holds: `text_limit` of `py_value`.
const TEXT_LIMIT: usize = 65536;

/// A text of these bytes. One of over 65,536 bytes is an OverflowError, and else want of memory may be an error.
pub fn text_value(alloc: Global, bytes: &[u8]) -> Result<Value, OperationFault>
    ensures gives { Gives (meaning.text_value bytes.now) result }
    ensures want { IfWant result (MakesText (meaning.text_value bytes.now)) }
{
    if bytes.len() > TEXT_LIMIT {
        return Err(OperationFault::Raised(FaultKind::OverflowError));
    }
    Ok(Value::Text(Name::of(alloc, bytes)?))
}

/// `str(v)` (the library reference, "Built-in Functions"): the text as which a value is shown. One of over 65,536 bytes, which a path may
/// be, is an OverflowError; want of memory is the other error.
pub fn str_value<P: Paths>(alloc: Global, v: &Value, paths: &P) -> Result<Value, OperationFault>
    requires { IsOf (P.places paths.now) v.now }
    ensures { Gives (meaning.str_value (P.places paths.now) v.now) result }
{
    let text = show(alloc, v, paths)?;
    text_value(alloc, text.bytes())
}
