//! Attributes of vectors.
ghost use Rattle.std.specs.Prelude.{◌≡◌, ◌≤◌, length};
ghost use Rattle.four_value.specs.Limits.{most_digits};
ghost use Rattle.four_value.specs.Vector.{number};
ghost use Rattle.py_value.specs.Integer.Integer.{held};
ghost use Rattle.py_evaluate.specs.Attribute.Attribute as meaning;
ghost use Rattle.py_evaluate.specs.Attribute.Gives.{Gives, IfWant, MakesText};

use crate::attribute::OperationFault;
use four_value::Bits;
use py_syntax::FaultKind;
use py_value::integer::Integer;
use py_value::operator::{int, whole};
use py_value::{Value, digits_name};
use std::alloc::Global;

/// The number in two's complement of `width` digits whose unsigned number is n.
#[tactic(auto, using(crate::proofs::AttributeLemmas::Halves::half_down))]
fn signed_number(width: u8, n: u128) -> Option<i128>
    requires low { 1 ≤ width }
    requires high { width ≤ most_digits }
    ensures { result ≡ held (meaning.signed_number width n) }
{
    let half = 1u128 << (width - 1);
    if n < half {
        Integer::of_natural(n).to_whole()
    } else {
        Integer::of_natural(n - half).subtract(Integer::of_natural(half))
    }
}

/// `signed_integer`: the vector's number in two's complement. An x or z digit is a ValueError.
fn signed_integer(bits: Bits) -> Result<Value, FaultKind>
    ensures { result ≡ meaning.signed_integer (length bits) (number bits) }
{
    match bits.to_number() {
        Some(n) => whole(signed_number(bits.width(), n)),
        None => Err(FaultKind::ValueError),
    }
}

/// An attribute of a vector (cocotb 1.8, `BinaryValue`): `integer` is its unsigned number and `signed_integer` its number in two's
/// complement, both a ValueError where a digit is x or z, the first an OverflowError over 2^127 - 1; `binstr` is the text of its
/// digits, and `is_resolvable` is True exactly where none is x or z. Another name is an AttributeError. Want of memory for the
/// text of `binstr` is the other error.
pub fn vector_attribute(alloc: Global, bits: Bits, name: &[u8]) -> Result<Value, OperationFault>
    ensures gives { Gives (meaning.vector_attribute bits name.now) result }
    ensures want { IfWant result (MakesText (meaning.vector_attribute bits name.now)) }
{
    if name == b"integer".as_slice() {
        Ok(int(&Value::Vector(bits))?)
    } else if name == b"signed_integer".as_slice() {
        Ok(signed_integer(bits)?)
    } else if name == b"binstr".as_slice() {
        Ok(Value::Text(digits_name(alloc, bits)?))
    } else if name == b"is_resolvable".as_slice() {
        Ok(Value::Truth(bits.to_number().is_some()))
    } else {
        Err(OperationFault::Raised(FaultKind::AttributeError))
    }
}
