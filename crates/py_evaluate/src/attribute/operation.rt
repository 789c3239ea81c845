//! Operators beside signals.
ghost use Rattle.std.specs.Prelude.{◌≡◌, IfOk};
ghost use Rattle.py_value.specs.Operator.Operation.{binary_value};
ghost use Rattle.py_evaluate.specs.Attribute.Look as meaning;
ghost use Rattle.py_evaluate.specs.Attribute.Knows.{Knows, KnowsSignal};

use crate::attribute::Look;
use gpi::SigId;
use py_syntax::{BinOp, FaultKind};
use py_value::Value;
use py_value::operator::operated as operated_values;

/// Whether a value is a signal, a hierarchy or a memory.
fn is_handle(v: &Value) -> bool
    ensures { result ≡ meaning.is_handle v.now }
{
    match v {
        Value::Signal(_) | Value::Place(_) | Value::Words { .. } => true,
        _ => false,
    }
}

/// An operator between a value and a signal, which gives way to its value beside what is no handle.
fn before_signal<V: Look>(view: &V, op: BinOp, a: &Value, sig: SigId) -> Result<Value, FaultKind>
    requires { KnowsSignal (V.view view.now) sig.0 }
    ensures { result ≡ binary_value op a.now (meaning.beside (V.view view.now) (meaning.is_handle a.now) (Value.Signal sig)) }
{
    if is_handle(a) {
        operated_values(op, a, &Value::Signal(sig))
    } else {
        operated_values(op, a, &Value::Vector(view.read(sig)))
    }
}

/// An operator between two values, the first of which is no signal.
fn before<V: Look>(view: &V, op: BinOp, a: &Value, b: &Value) -> Result<Value, FaultKind>
    requires { Knows (V.view view.now) b.now }
    ensures { result ≡ binary_value op a.now (meaning.beside (V.view view.now) (meaning.is_handle a.now) b.now) }
{
    match b {
        Value::Signal(sig) => before_signal(view, op, a, *sig),
        _ => operated_values(op, a, b),
    }
}

/// An operator between a signal, which gives way to its value beside what is no handle, and a value.
fn behind_signal<V: Look>(view: &V, op: BinOp, sig: SigId, b: &Value) -> Result<Value, FaultKind>
    requires { KnowsSignal (V.view view.now) sig.0 }
    ensures { result ≡ binary_value op (meaning.beside (V.view view.now) (meaning.is_handle b.now) (Value.Signal sig)) b.now }
{
    if is_handle(b) {
        operated_values(op, &Value::Signal(sig), b)
    } else {
        operated_values(op, &Value::Vector(view.read(sig)), b)
    }
}

/// `==` or `!=`: a signal beside what is no signal, hierarchy or memory stands for its value.
fn compared<V: Look>(view: &V, op: BinOp, a: &Value, b: &Value) -> Result<Value, FaultKind>
    requires left { Knows (V.view view.now) a.now }
    requires right { Knows (V.view view.now) b.now }
    ensures { result ≡ meaning.compared (V.view view.now) op a.now b.now }
{
    match a {
        Value::Signal(sig) => behind_signal(view, op, *sig, b),
        _ => before(view, op, a, b),
    }
}

/// The value of an operator with two operands, or the kind of the fault that it raises, as `py_value::operator::operated` does: TypeError,
/// ValueError, ZeroDivisionError or OverflowError, in this order; but before `==` and `!=` a signal whose other operand is no signal,
/// hierarchy or memory gives way to its value (cocotb 1.8, `NonHierarchyObject`). It takes no memory.
pub fn operated<V: Look>(view: &V, op: BinOp, a: &Value, b: &Value) -> Result<Value, FaultKind>
    requires left { Knows (V.view view.now) a.now }
    requires right { Knows (V.view view.now) b.now }
    ensures is { result ≡ meaning.operated (V.view view.now) op a.now b.now }
    ensures known { IfOk result (Knows (V.view view.now)) }
{
    match op {
        BinOp::Equal | BinOp::NotEqual => compared(view, op, a, b),
        _ => operated_values(op, a, b),
    }
}
