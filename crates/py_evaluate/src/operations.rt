//! Expressions without parts, and what is done with the values of parts.
ghost use Rattle.std.specs.Prelude.{◌≡◌, IfOk};
ghost use Rattle.py_value.specs.Operator.Operation as operator;
ghost use Rattle.py_evaluate.specs.Attribute.Attribute as attribute;
ghost use Rattle.py_evaluate.specs.Attribute.Gives.{Gives, IfWant, MakesText};
ghost use Rattle.py_evaluate.specs.Attribute.Look as look;
ghost use Rattle.py_evaluate.specs.Attribute.Knows.{Knows, KnowsNames};
ghost use Rattle.py_evaluate.specs.Eval as meaning;
ghost use Rattle.py_evaluate.specs.Wants.{CopyTakesMemory};

use crate::attribute::{Locals, Look, OperationFault, indexed, text_value};
use port_io::Name;
use py_syntax::{Const, FaultKind, UnOp};
use py_value::operator::unary;
use py_value::{Value, copy};
use std::alloc::Global;

/// A constant. A text of over 65,536 bytes is an OverflowError.
pub(crate) fn constant_value<V: Look>(
    alloc: Global,
    view: &V,
    constant: &Const,
) -> Result<Value, OperationFault>
    ensures gives { Gives (meaning.constant_value constant.now) result }
    ensures want { IfWant result (MakesText (meaning.constant_value constant.now)) }
    ensures known { IfOk result (Knows (V.view view.now)) }
{
    match constant {
        Const::Absent => Ok(Value::Absent),
        Const::Truth(b) => Ok(Value::Truth(*b)),
        Const::Whole(n) => Ok(Value::Whole(*n)),
        Const::Text(text) => text_value(alloc, text.bytes()),
        Const::Named(_) => Ok(Value::Absent),
    }
}

/// The value of a name. One that is unassigned is an UnboundLocalError; want of memory is an error where the copy of the value takes some.
pub(crate) fn name_value<N: Locals, V: Look>(
    alloc: Global,
    names: &N,
    view: &V,
    name: &Name,
) -> Result<Value, OperationFault>
    requires { KnowsNames (V.view view.now) (N.names names.now) }
    ensures gives { Gives (look.name_value (look.local (N.names names.now) name.now)) result }
    ensures want { IfWant result (CopyTakesMemory (look.local (N.names names.now) name.now)) }
    ensures known { IfOk result (Knows (V.view view.now)) }
{
    match names.local(name) {
        Some(v) => Ok(copy(alloc, v)?),
        None => Err(OperationFault::Raised(FaultKind::UnboundLocalError)),
    }
}

/// `v[index]`. The faults are those of `indexed`.
pub(crate) fn word_value<V: Look>(view: &V, v: &Value, index: &Value) -> Result<Value, FaultKind>
    requires { Knows (V.view view.now) v.now }
    ensures is { result ≡ attribute.indexed v.now index.now }
    ensures known { IfOk result (Knows (V.view view.now)) }
{
    indexed(v, index)
}

/// The value of an operator with one operand. The faults are those of `unary`.
pub(crate) fn unary_value<V: Look>(view: &V, op: UnOp, v: Value) -> Result<Value, FaultKind>
    ensures is { result ≡ operator.unary_value op v }
    ensures known { IfOk result (Knows (V.view view.now)) }
{
    match unary(op, v) {
        Ok(v) => Ok(v),
        Err(fault) => Err(fault.kind),
    }
}
