//! The digits of a value that is written.
ghost use Rattle.std.specs.Prelude.{◌≡◌, ◌≤◌, ◌-◌, ◌^◌, pos, neg_ℤ};
ghost use Rattle.four_value.specs.Limits.{most_digits};
ghost use Rattle.run_view.specs.SignalPort.Written as meaning;

use four_value::Bits;
use py_syntax::FaultKind;
use py_value::Value;

/// How many numbers of so many digits aren't negative, with a sign.
#[tactic(auto, using(crate::proofs::SignalPortLemmas::Numbers::half_high))]
fn half_of(width: u8) -> u128
    requires low { 1 ≤ width }
    requires high { width ≤ most_digits }
    ensures is { result ≡ 2 ^ (width - 1) }
    ensures fits { result ≤ 2 ^ 127 }
{
    1 << (width - 1)
}

/// The digits of a number that isn't negative. One of more digits is an OverflowError.
#[tactic(auto, using(crate::proofs::SignalPortLemmas::Numbers::naturals))]
fn natural_bits(n: u128, width: u8) -> Result<Bits, FaultKind>
    requires low { 1 ≤ width }
    requires high { width ≤ most_digits }
    ensures { result ≡ meaning.number_bits width (pos n) }
{
    let half = half_of(width);
    if n / 2 < half {
        Ok(Bits::from_number(width, n))
    } else {
        Err(FaultKind::OverflowError)
    }
}

/// The digits in two's complement of the negative of a number. One below the least is an OverflowError.
#[tactic(auto, using(crate::proofs::SignalPortLemmas::Numbers::negatives))]
fn negative_bits(size: u128, width: u8) -> Result<Bits, FaultKind>
    requires some { 1 ≤ size }
    requires low { 1 ≤ width }
    requires high { width ≤ most_digits }
    ensures { result ≡ meaning.number_bits width (neg_ℤ (pos size)) }
{
    let half = half_of(width);
    if size <= half {
        Ok(Bits::from_number(width, half + (half - size)))
    } else {
        Err(FaultKind::OverflowError)
    }
}

/// The digits of a whole number.
fn number_bits(z: i128, width: u8) -> Result<Bits, FaultKind>
    requires low { 1 ≤ width }
    requires high { width ≤ most_digits }
    ensures { result ≡ meaning.number_bits width z }
{
    if z < 0 {
        negative_bits(z.unsigned_abs(), width)
    } else {
        natural_bits(z.unsigned_abs(), width)
    }
}

/// The digits that a signal of `width` digits, 1 to 128, gets from a value (cocotb 1.8, "Writing values"): a whole number or a truth
/// value modulo 2^width, which is an OverflowError outside -2^(width-1) .. 2^width - 1; a vector as it is, which is a ValueError where it
/// has another width. A value of another kind is a TypeError. It takes no memory.
pub fn to_bits(v: &Value, width: u8) -> Result<Bits, FaultKind>
    requires low { 1 ≤ width }
    requires high { width ≤ most_digits }
    ensures { result ≡ meaning.written_bits width v.now }
{
    match v {
        Value::Truth(b) => natural_bits(*b as u128, width),
        Value::Whole(z) => number_bits(*z, width),
        Value::Vector(bits) => vector_bits(*bits, width),
        _ => Err(FaultKind::TypeError),
    }
}

/// A vector as it is. One of another width is a ValueError.
fn vector_bits(bits: Bits, width: u8) -> Result<Bits, FaultKind>
    ensures { result ≡ meaning.written_bits width (Value.Vector bits) }
{
    if bits.width() == width {
        Ok(bits)
    } else {
        Err(FaultKind::ValueError)
    }
}
