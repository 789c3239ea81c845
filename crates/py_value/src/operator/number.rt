//! The numbers of values.
ghost use Rattle.std.specs.Prelude.{◌≡◌, Option};
ghost use Rattle.py_value.specs.Integer.Integer.{number, held};
ghost use Rattle.py_value.specs.Answer.{answer_map, and_then};
ghost use Rattle.py_value.specs.Operator.Number as meaning;
ghost use Rattle.py_value.specs.Operator.Means.{means};

use crate::Value;
use crate::integer::Integer;
use four_value::Bits;
use py_syntax::FaultKind;

/// The number that a value has where one is needed.
#[derive(Clone, Copy, Debug)]
pub enum Number {
    /// A whole number, a truth value's 0 or 1, or a vector's unsigned number.
    Known(Integer),
    /// That of a vector with an x or z digit.
    Unknown,
    /// Values of the other kinds have none.
    Missing,
}

/// The number of a vector, read without a sign.
fn vector_number(bits: Bits) -> Number
    ensures { means result ≡ meaning.number_of (Value.Vector bits) }
{
    match bits.to_number() {
        Some(n) => Number::Known(Integer::of_natural(n)),
        None => Number::Unknown,
    }
}

/// The number of a value. True is 1 and False is 0 (the language reference, 3.2, "Booleans"), a vector's is read without a sign, and
/// other kinds have none. It takes no memory.
pub fn number_of(v: &Value) -> Number
    ensures { means result ≡ meaning.number_of v.now }
{
    match v {
        Value::Truth(b) => Number::Known(Integer::of_truth(*b)),
        Value::Whole(n) => Number::Known(Integer::of_whole(*n)),
        Value::Vector(bits) => vector_number(*bits),
        _ => Number::Missing,
    }
}

/// The number of an operand. A kind that has none is a TypeError, an x or z digit a ValueError. It takes no memory.
pub fn one_number(v: &Value) -> Result<Integer, FaultKind>
    ensures { answer_map number result ≡ meaning.one_number v.now }
{
    match number_of(v) {
        Number::Known(n) => Ok(n),
        Number::Unknown => Err(FaultKind::ValueError),
        Number::Missing => Err(FaultKind::TypeError),
    }
}

/// The numbers of two operands. Another kind of either is a TypeError, and only then an x or z digit of either a ValueError.
pub(crate) fn two_numbers(a: &Value, b: &Value) -> Result<(Integer, Integer), FaultKind>
    ensures { answer_map (λ p. (number p.0, number p.1)) result ≡ meaning.two_numbers a.now b.now }
{
    match (number_of(a), number_of(b)) {
        (Number::Missing, _) | (_, Number::Missing) => Err(FaultKind::TypeError),
        (Number::Unknown, _) | (_, Number::Unknown) => Err(FaultKind::ValueError),
        (Number::Known(a), Number::Known(b)) => Ok((a, b)),
    }
}

/// A result as a value. None, which stands for one outside -2^127 .. 2^127 - 1, is an OverflowError. It takes no memory.
pub fn whole(number: Option<i128>) -> Result<Value, FaultKind>
    ensures { result ≡ meaning.whole number }
{
    match number {
        Some(n) => Ok(Value::Whole(n)),
        None => Err(FaultKind::OverflowError),
    }
}

/// `int(..)` (the library reference, "Built-in Functions"): the whole number that a whole number, a truth value or a vector is. Another
/// kind is a TypeError, an x or z digit a ValueError, a vector's number over 2^127 - 1 an OverflowError. It takes no memory.
pub fn int(v: &Value) -> Result<Value, FaultKind>
    ensures { result ≡ and_then (meaning.one_number v.now) (λ z. meaning.whole (held z)) }
{
    whole(one_number(v)?.to_whole())
}
