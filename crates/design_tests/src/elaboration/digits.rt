//! Vectors, and the digits that spell them.
ghost use Rattle.std.specs.Prelude.{◌≡◌, ◌≤◌, ◌<◌, ◌∷◌, IfOk, length, map, reverse};
ghost use Rattle.four_value.specs.Limits.{most_digits};
ghost use Rattle.four_value.specs.Vector.{digit_letters};
ghost use Rattle.design_tests.specs.Elaboration.Digits.{digit_of, short_vector, vector_of};

use four_value::{Bits, Digit, MOST_DIGITS};
use std::alloc::{AllocError, Global};

/// The vector of these digits, highest first: of more than `MOST_DIGITS` the first ones, and one x where there is none. It takes no
/// memory.
pub fn vector(text: &[u8]) -> Bits
    ensures { result ≡ vector_of text.now }
{
    short_vector(&text[..(MOST_DIGITS as usize).min(text.len())])
}

/// The vector of no more than the most digits.
fn short_vector(text: &[u8]) -> Bits
    requires { length text.now ≤ most_digits }
    ensures { result ≡ short_vector text.now }
{
    match text {
        [] => Bits::all(1, Digit::X),
        [highest, rest @ ..] => joined(*highest, rest),
    }
}

/// The vector of a digit and those below it.
fn joined(highest: u8, rest: &[u8]) -> Bits
    requires { length rest.now < most_digits }
    ensures { result ≡ reverse (map digit_of (highest ∷ rest.now)) }
{
    let mut bits = Bits::all(1, digit(highest));
    for byte in rest {
        bits = bits.concat(Bits::all(1, digit(*byte)));
    }
    bits
}

/// The digit that a byte stands for.
fn digit(byte: u8) -> Digit
    ensures { result ≡ digit_of byte }
{
    match byte {
        b'0' => Digit::Zero,
        b'1' => Digit::One,
        b'z' => Digit::Z,
        _ => Digit::X,
    }
}

/// The digits of a vector, highest first. Only want of memory is an error.
pub fn letters(alloc: Global, bits: Bits) -> Result<Vec<u8>, AllocError>
    ensures { IfOk result (λ text. text.items ≡ digit_letters bits) }
{
    let text = bits.text();
    let width = bits.width() as usize;
    text[..width].to_vec(alloc)
}
