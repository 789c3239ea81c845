//! Attributes of signals and hierarchies that their paths tell.
ghost use Rattle.std.specs.Prelude.{◌≡◌};
ghost use Rattle.py_evaluate.specs.Attribute.Attribute as meaning;
ghost use Rattle.py_evaluate.specs.Attribute.Gives.{Gives, IfWant, MakesText};

use crate::attribute::OperationFault;
use crate::attribute::text::text_value;
use py_syntax::FaultKind;
use py_value::Value;
use std::alloc::Global;

/// The part of a path behind its last dot, or the whole path where it has none.
fn name_of_path(path: &[u8]) -> &[u8]
    ensures { result.now ≡ meaning.name_of_path path.now }
{
    let mut name = path;
    for at in 0..path.len() {
        if path[at] == b'.' {
            name = &path[at + 1..];
        }
    }
    name
}

/// `_path` and `_name` of a signal or a hierarchy (cocotb 1.8, `SimHandleBase`) with this path: the path itself, and the part of it behind
/// its last dot, or all of it where it has none. A text of over 65,536 bytes is an OverflowError, and another name an AttributeError. Want
/// of memory for a text that is no longer is the other error.
pub fn path_attribute(alloc: Global, path: &[u8], name: &[u8]) -> Result<Value, OperationFault>
    ensures gives { Gives (meaning.path_attribute path.now name.now) result }
    ensures want { IfWant result (MakesText (meaning.path_attribute path.now name.now)) }
{
    if name == b"_path".as_slice() {
        text_value(alloc, path)
    } else if name == b"_name".as_slice() {
        text_value(alloc, name_of_path(path))
    } else {
        Err(OperationFault::Raised(FaultKind::AttributeError))
    }
}
