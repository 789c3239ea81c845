//! Reductions to one digit (clause 5.1.11).
ghost use Rattle.std.specs.Prelude.{◌≡◌};
ghost use Rattle.four_value.specs.Vector.{reduce, and_digit, or_digit, xor_digit};

use super::{Bits, low_mask};
use crate::Digit;

/// The unary reduction operators (clause 5.1.11): a table of a bitwise operator, folded over all digits.
impl Bits {
    /// Unary `&`: 0 if a digit is 0, else x if one is x or z, else 1.
    pub fn reduce_and(self) -> Digit
        ensures { result ≡ reduce and_digit Digit.One self }
    {
        let zeros = (self.value | self.unknown) ^ low_mask(self.width);
        if zeros > 0 {
            Digit::Zero
        } else if self.unknown > 0 {
            Digit::X
        } else {
            Digit::One
        }
    }

    /// Unary `|`: 1 if a digit is 1, else x if one is x or z, else 0. So it is the truth of a condition (clause 9.4).
    pub fn reduce_or(self) -> Digit
        ensures { result ≡ reduce or_digit Digit.Zero self }
    {
        let ones = self.value ^ (self.value & self.unknown);
        if ones > 0 {
            Digit::One
        } else if self.unknown > 0 {
            Digit::X
        } else {
            Digit::Zero
        }
    }

    /// Unary `^`: x if a digit is x or z, else the parity of the digits.
    pub fn reduce_xor(self) -> Digit
        ensures { result ≡ reduce xor_digit Digit.Zero self }
    {
        if self.unknown > 0 {
            Digit::X
        } else if self.value.count_ones() % 2 == 0 {
            Digit::Zero
        } else {
            Digit::One
        }
    }
}
