//! Bit operators, which are those of two's complement (the language reference, 6.9).

ghost use Rattle.std.specs.Prelude.{◌≡◌, ◌&&◌, ◌||◌, ◌+ℤ◌, ◌^◌, pos, bit_and, bit_or, bit_xor};
ghost use Rattle.py_value.specs.Integer.Integer.{number, held, is_negative, low_bits, by_bits, differ, of_bits};

use crate::integer::Integer;
use crate::integer::integer::MIDDLE;

impl Integer {
    /// `self & other`, None exactly where no value can hold the result.
    pub fn bit_and(self, other: Integer) -> Option<i128>
        ensures { result ≡ held (by_bits bit_and ◌&&◌ (number self) (number other)) }
    {
        of_bits(
            self.is_negative() && other.is_negative(),
            self.low_bits() & other.low_bits(),
        )
    }

    /// `self | other`, None exactly where no value can hold the result.
    pub fn bit_or(self, other: Integer) -> Option<i128>
        ensures { result ≡ held (by_bits bit_or ◌||◌ (number self) (number other)) }
    {
        of_bits(
            self.is_negative() || other.is_negative(),
            self.low_bits() | other.low_bits(),
        )
    }

    /// `self ^ other`, None exactly where no value can hold the result.
    pub fn bit_xor(self, other: Integer) -> Option<i128>
        ensures { result ≡ held (by_bits bit_xor differ (number self) (number other)) }
    {
        of_bits(
            self.is_negative() != other.is_negative(),
            self.low_bits() ^ other.low_bits(),
        )
    }

    /// Whether the number is below 0.
    fn is_negative(self) -> bool
        ensures { result ≡ is_negative (number self) }
    {
        self.negative && self.size != 0
    }

    /// The lowest 128 bits in two's complement.
    fn low_bits(self) -> u128
        ensures { result ≡ low_bits (number self) }
    {
        if self.negative {
            self.size.wrapping_neg()
        } else {
            self.size
        }
    }
}

/// The number whose lowest 128 bits are these, with nothing but its sign above them; None exactly where no value can hold it.
#[tactic(auto, using(crate::proofs::IntegerLemmas::Complement::complements))]
fn of_bits(negative: bool, low: u128) -> Option<i128>
    ensures { result ≡ held (of_bits negative low) }
{
    if negative {
        if low < MIDDLE {
            None
        } else {
            Some(low.cast_signed())
        }
    } else if low < MIDDLE {
        Some(low.cast_signed())
    } else {
        None
    }
}
