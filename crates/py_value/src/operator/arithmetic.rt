//! Operators on two numbers.
ghost use Rattle.std.specs.Prelude.{◌≡◌, Ok};
ghost use Rattle.py_value.specs.Integer.Integer.{number, held, held_shift, shifted_right, floor_quotient, floor_rest};
ghost use Rattle.py_value.specs.Operator.Operation as meaning;

use crate::Value;
use crate::integer::Integer;
use crate::operator::number::whole;
use py_syntax::{BinOp, FaultKind};

/// `a // b`, where division by 0 is a ZeroDivisionError.
fn quotient(a: Integer, b: Integer) -> Result<Value, FaultKind>
    ensures { result ≡ meaning.divided floor_quotient (number a) (number b) }
{
    if b.is_zero() {
        Err(FaultKind::ZeroDivisionError)
    } else {
        whole(a.floor_divide(b))
    }
}

/// `a % b`, where division by 0 is a ZeroDivisionError.
fn rest(a: Integer, b: Integer) -> Result<Value, FaultKind>
    ensures { result ≡ meaning.divided floor_rest (number a) (number b) }
{
    if b.is_zero() {
        Err(FaultKind::ZeroDivisionError)
    } else {
        whole(a.modulo(b))
    }
}

/// `a << b`, where a negative count is a ValueError.
fn left_shift(a: Integer, b: Integer) -> Result<Value, FaultKind>
    ensures { result ≡ meaning.shifted held_shift (number a) (number b) }
{
    match b.to_natural() {
        Some(count) => whole(a.shift_left(count)),
        None => Err(FaultKind::ValueError),
    }
}

/// `a >> b`, where a negative count is a ValueError.
fn right_shift(a: Integer, b: Integer) -> Result<Value, FaultKind>
    ensures { result ≡ meaning.shifted (λ z n. held (shifted_right z n)) (number a) (number b) }
{
    match b.to_natural() {
        Some(count) => whole(a.shift_right(count)),
        None => Err(FaultKind::ValueError),
    }
}

/// An operator on two numbers. The operators that aren't on numbers alone are TypeErrors here.
pub(crate) fn arithmetic(op: BinOp, a: Integer, b: Integer) -> Result<Value, FaultKind>
    ensures { result ≡ meaning.arithmetic op (number a) (number b) }
{
    match op {
        BinOp::Add => whole(a.add(b)),
        BinOp::Subtract => whole(a.subtract(b)),
        BinOp::Multiply => whole(a.multiply(b)),
        BinOp::FloorDivide => quotient(a, b),
        BinOp::Modulo => rest(a, b),
        BinOp::BitAnd => whole(a.bit_and(b)),
        BinOp::BitOr => whole(a.bit_or(b)),
        BinOp::BitXor => whole(a.bit_xor(b)),
        BinOp::ShiftLeft => left_shift(a, b),
        BinOp::ShiftRight => right_shift(a, b),
        BinOp::Less => Ok(Value::Truth(a.is_less(b))),
        BinOp::LessEqual => Ok(Value::Truth(!b.is_less(a))),
        BinOp::Greater => Ok(Value::Truth(b.is_less(a))),
        BinOp::GreaterEqual => Ok(Value::Truth(!a.is_less(b))),
        _ => Err(FaultKind::TypeError),
    }
}
