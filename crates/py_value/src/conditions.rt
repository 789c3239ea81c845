//! The truth of values.
ghost use Rattle.std.specs.Prelude.{◌≡◌};
ghost use Rattle.std.specs.List.{list_any};
ghost use Rattle.py_value.specs.Truth as meaning;

use crate::Value;
use four_value::{Bits, Digit};

/// Whether a digit is 1.
fn is_one(d: Digit) -> bool
    ensures { result ≡ meaning.is_one d }
{
    d == Digit::One
}

/// Whether a digit of a vector is 1.
#[tactic(auto, using(crate::proofs::Folded::folded))]
fn has_one(bits: Bits) -> bool
    ensures { result ≡ list_any meaning.is_one bits }
{
    is_one(bits.reduce_or())
}

/// Whether a value counts as true where a condition is asked (the language reference, 6.11): None, 0, False and the empty text
/// don't, a vector does exactly where a digit of it is 1, and all other values do. It takes no memory.
pub fn truth(v: &Value) -> bool
    ensures { result ≡ meaning.truth v.now }
{
    match v {
        Value::Absent => false,
        Value::Truth(b) => *b,
        Value::Whole(n) => *n != 0,
        Value::Text(text) => !text.bytes().is_empty(),
        Value::Vector(bits) => has_one(*bits),
        _ => true,
    }
}
