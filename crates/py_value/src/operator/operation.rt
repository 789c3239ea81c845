//! Operators on values.
ghost use Rattle.std.specs.Prelude.{◌≡◌};
ghost use Rattle.py_value.specs.Answer.{raised, and_then};
ghost use Rattle.py_value.specs.Operator.Operation.{binary_value, unary_value, arithmetic};
ghost use Rattle.py_value.specs.Operator.Number.{two_numbers};

use crate::operator::arithmetic::arithmetic;
use crate::operator::comparison::equal;
use crate::operator::identity::is_same;
use crate::operator::number::{one_number, two_numbers, whole};
use crate::{Fault, Value, truth};
use py_syntax::{BinOp, FaultKind, UnOp};

/// An operator that is on numbers alone: both operands need one.
fn on_numbers(op: BinOp, a: &Value, b: &Value) -> Result<Value, FaultKind>
    ensures { result ≡ and_then (two_numbers a.now b.now) (λ p. arithmetic op p.0 p.1) }
{
    let (a, b) = two_numbers(a, b)?;
    arithmetic(op, a, b)
}

/// The value of an operator with two operands (the language reference, 6.7 to 6.10), or the kind of the fault that it raises: TypeError,
/// ValueError, ZeroDivisionError and OverflowError as for `binary`, in this order. It takes no memory.
pub fn operated(op: BinOp, a: &Value, b: &Value) -> Result<Value, FaultKind>
    ensures { result ≡ binary_value op a.now b.now }
{
    match op {
        BinOp::Equal => Ok(Value::Truth(equal(a, b)?)),
        BinOp::NotEqual => Ok(Value::Truth(!equal(a, b)?)),
        BinOp::Is => Ok(Value::Truth(is_same(a, b))),
        BinOp::IsNot => Ok(Value::Truth(!is_same(a, b))),
        _ => on_numbers(op, a, b),
    }
}

/// The value of an operator with one operand, or the kind of the fault that it raises.
fn operated_alone(op: UnOp, a: &Value) -> Result<Value, FaultKind>
    ensures { result ≡ unary_value op a.now }
{
    match op {
        UnOp::Not => Ok(Value::Truth(!truth(a))),
        UnOp::Negative => whole(one_number(a)?.negative()),
        UnOp::Positive => whole(one_number(a)?.to_whole()),
        UnOp::Invert => whole(one_number(a)?.invert()),
    }
}

/// The value of an operator with two operands (the language reference, 6.7 to 6.10), or the fault that it raises, whose text is empty:
/// the first of these that holds. TypeError for an operand of a kind that the operator has no rule for; ValueError for an x or z digit
/// where a number is needed, and for a negative count of a shift; ZeroDivisionError for `//` and `%` by 0; OverflowError for a result
/// outside -2^127 .. 2^127 - 1. A signal is a value like any other here. It takes no memory.
pub fn binary(op: BinOp, a: Value, b: Value) -> Result<Value, Fault>
    ensures { result ≡ raised (binary_value op a b) }
{
    match operated(op, &a, &b) {
        Ok(v) => Ok(v),
        Err(kind) => Err(Fault::plain(kind)),
    }
}

/// The value of an operator with one operand (the language reference, 6.6 and 6.11), or the fault that it raises, whose text is
/// empty: TypeError for an operand that `-`, `+` or `~` has no rule for, then ValueError for an x or z digit in one, then OverflowError for
/// a result outside -2^127 .. 2^127 - 1. `not` raises nothing. It takes no memory.
pub fn unary(op: UnOp, a: Value) -> Result<Value, Fault>
    ensures { result ≡ raised (unary_value op a) }
{
    match operated_alone(op, &a) {
        Ok(v) => Ok(v),
        Err(kind) => Err(Fault::plain(kind)),
    }
}
