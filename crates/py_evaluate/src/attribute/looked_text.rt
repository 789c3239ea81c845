//! Texts of values.
ghost use Rattle.std.specs.Prelude.{◌≡◌, IfOk};
ghost use Rattle.py_value.specs.Shown.{shown};
ghost use Rattle.py_evaluate.specs.Attribute.Attribute.{str_value};
ghost use Rattle.py_evaluate.specs.Attribute.Gives.{Gives};
ghost use Rattle.py_evaluate.specs.Attribute.Knows.{Knows};

use crate::attribute::{Look, OperationFault, str_value};
use port_io::{Name, NoMemory};
use py_value::{Value, show};
use std::alloc::Global;

/// The text as which a value is shown, of any length. Only want of memory is an error.
pub fn shown_text<V: Look>(alloc: Global, view: &V, v: &Value) -> Result<Name, NoMemory>
    requires { Knows (V.view view.now) v.now }
    ensures { IfOk result (λ name. name ≡ shown (V.view view.now).places v.now) }
{
    show(alloc, v, view)
}

/// `str(v)` as [`str_value`] gives it, by the paths that the view tells: a text of over 65,536 bytes is an OverflowError, and want of memory
/// is the other error.
pub fn str_text<V: Look>(alloc: Global, view: &V, v: &Value) -> Result<Value, OperationFault>
    requires { Knows (V.view view.now) v.now }
    ensures gives { Gives (str_value (V.view view.now).places v.now) result }
    ensures known { IfOk result (Knows (V.view view.now)) }
{
    str_value(alloc, v, view)
}
