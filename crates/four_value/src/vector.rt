//! Vectors of digits.
ghost use Rattle.std.specs.Prelude.{◌≡◌, ◌≢◌, ℕ, ◌-◌, ◌^◌, ◌<◌, ◌≤◌, length, replicate, slice_set, IfSome};
ghost use Rattle.std.specs.Int.{bit_at, from_bool};
ghost use Rattle.four_value.specs.Limits.{most_digits};
ghost use Rattle.four_value.specs.Vector.{vector, number, digit_at};
ghost use Rattle.four_value.specs.Planes.{digit_of};

use crate::Digit;
use std::marker::Model;

mod arithmetic;
mod bitwise;
mod comparison;
mod display;
mod parts;
mod reduction;
mod shift;

/// A vector of 1 to 128 digits (clause 4.3), unsigned.
///
/// Contracts see the list of its digits, the least significant first. In memory it is two planes of bits, in the code
/// that the standard's programming interface uses for its `aval` and `bval` (clause 27.14): 0 has a bit in neither
/// plane, 1 in `value`, z in `unknown`, x in both. Bits from `width` on are clear.
#[derive(Clone, Copy, Debug)]
pub struct Bits {
    width: u8,
    value: u128,
    unknown: u128,
}

impl Model for Bits {
    ghost use Rattle.std.specs.Prelude.{List, length};
    ghost use Rattle.four_value.specs.declared.Digit.{Digit};

    ghost Value = { List Digit };

    ghost use Rattle.four_value.specs.Planes.{digits, value_plane, unknown_plane, ArePlanes};
    ghost use Rattle.four_value.specs.Back.{planes_back};

    ghost view = { λ s. digits s.width s.value s.unknown };

    ghost invariant = { λ s. ArePlanes s.width s.value s.unknown };

    ghost inverse = { λ ds. record { width = length ds; value = value_plane ds; unknown = unknown_plane ds } };

    ghost inverse_ok = { λ a h. planes_back a h };
}

impl Bits {
    /// `width` digits that are all `d`, as the replication `{width{d}}` (clause 5.1.14) makes them.
    #[tactic(auto, using(crate::proofs::Numbers::all_digits))]
    pub fn all(width: u8, d: Digit) -> Bits
        requires low { 1 ≤ width }
        requires high { width ≤ most_digits }
        ensures { result ≡ replicate width d }
    {
        let mask = low_mask(width);
        match d {
            Digit::Zero => Bits {
                width,
                value: 0,
                unknown: 0,
            },
            Digit::One => Bits {
                width,
                value: mask,
                unknown: 0,
            },
            Digit::X => Bits {
                width,
                value: mask,
                unknown: mask,
            },
            Digit::Z => Bits {
                width,
                value: 0,
                unknown: mask,
            },
        }
    }

    /// The number `n` modulo 2^`width`, in `width` digits: an assignment cuts what doesn't fit (clause 5.6).
    pub fn from_number(width: u8, n: u128) -> Bits
        requires low { 1 ≤ width }
        requires high { width ≤ most_digits }
        ensures { result ≡ vector width n }
    {
        Bits {
            width,
            value: n & low_mask(width),
            unknown: 0,
        }
    }

    /// How many digits the vector has, 1 to 128.
    pub fn width(self) -> u8
        ensures is { result ≡ length self }
        ensures low { 1 ≤ result }
        ensures high { result ≤ most_digits }
    {
        self.width
    }

    /// The digit at place `i`, where place 0 is the least significant (a bit-select, clause 5.2.1).
    pub fn digit(self, i: u8) -> Digit
        requires { i < length self }
        ensures { result ≡ digit_at self i }
    {
        digit_of_bits((self.value >> i) & 1, (self.unknown >> i) & 1)
    }

    /// The same vector with the digit `d` at place `i`, as an assignment to a bit-select makes it (clauses 5.2.1, 9.2.1).
    pub fn with_digit(self, i: u8, d: Digit) -> Bits
        requires { i < length self }
        ensures { result ≡ slice_set self i d }
    {
        Bits {
            width: self.width,
            value: with_bit(self.value, i, d.value_bit()),
            unknown: with_bit(self.unknown, i, d.unknown_bit()),
        }
    }

    /// The unsigned number of the vector, the sum of each digit times 2^place; `None` exactly where a digit is x or z.
    pub fn to_number(self) -> Option<u128>
        ensures is { result ≡ number self }
        ensures fits { IfSome result (λ n. n < 2 ^ length self) }
    {
        if self.unknown == 0 {
            Some(self.value)
        } else {
            None
        }
    }
}

/// The bits of places 0 to `width` - 1.
fn low_mask(width: u8) -> u128
    requires low { 1 ≤ width }
    requires high { width ≤ 128 }
    ensures { result ≡ 2 ^ width - 1 }
{
    u128::MAX >> (128 - width)
}

/// The plane with the bit of place `i` set or cleared.
fn with_bit(plane: u128, i: u8, on: bool) -> u128
    requires { i < 128 }
    ensures at { bit_at result i ≡ from_bool on }
    ensures others { (j : ℕ) → j < 128 → j ≢ i → bit_at result j ≡ bit_at plane j }
    ensures fits { (w : ℕ) → w ≤ 128 → i < w → plane < 2 ^ w → result < 2 ^ w }
{
    let bit = 1u128 << i;
    if on { plane | bit } else { plane & !bit }
}

/// The digit whose bits in the two planes are these.
fn digit_of_bits(value: u128, unknown: u128) -> Digit
    ensures { result ≡ digit_of value unknown }
{
    match (value, unknown) {
        (0, 0) => Digit::Zero,
        (_, 0) => Digit::One,
        (0, _) => Digit::Z,
        (_, _) => Digit::X,
    }
}
