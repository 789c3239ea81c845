//! Operators digit by digit (clause 5.1.10), and the digits of `?:` under an unknown condition.
ghost use Rattle.std.specs.Prelude.{◌≡◌, map, length};
ghost use Rattle.four_value.specs.Vector.{map2, and_digit, or_digit, xor_digit, not_digit, merge_digit};

use super::{Bits, low_mask};

/// Operators that go digit by digit, each by a table of the standard, on all digits of both planes at once.
impl Bits {
    /// `&` (clause 5.1.10, the table of binary AND): 0 where one digit is 0, 1 where both are 1, else x.
    pub fn and(self, other: Bits) -> Bits
        requires { length self ≡ length other }
        ensures { result ≡ map2 and_digit self other }
    {
        let value = (self.value | self.unknown) & (other.value | other.unknown);
        Bits {
            width: self.width,
            value,
            unknown: value & (self.unknown | other.unknown),
        }
    }

    /// `|` (clause 5.1.10, the table of binary OR): 1 where one digit is 1, 0 where both are 0, else x.
    pub fn or(self, other: Bits) -> Bits
        requires { length self ≡ length other }
        ensures { result ≡ map2 or_digit self other }
    {
        let value = self.value | self.unknown | other.value | other.unknown;
        let one = (self.value ^ (self.value & self.unknown))
            | (other.value ^ (other.value & other.unknown));
        Bits {
            width: self.width,
            value,
            unknown: value ^ one,
        }
    }

    /// `^` (clause 5.1.10, the table of binary exclusive OR): x where a digit is x or z, else their sum modulo 2.
    pub fn xor(self, other: Bits) -> Bits
        requires { length self ≡ length other }
        ensures { result ≡ map2 xor_digit self other }
    {
        let unknown = self.unknown | other.unknown;
        Bits {
            width: self.width,
            value: (self.value ^ other.value) | unknown,
            unknown,
        }
    }

    /// `~` (clause 5.1.10, the table of unary negation): 0 and 1 change places, x and z give x.
    pub fn not(self) -> Bits
        ensures is { result ≡ map not_digit self }
        ensures wide { length result ≡ length self }
    {
        Bits {
            width: self.width,
            value: (self.value ^ low_mask(self.width)) | self.unknown,
            unknown: self.unknown,
        }
    }

    /// What `?:` gives of its two branches where the condition is unknown (clause 5.1.13, the table of ambiguous
    /// conditions): a digit that is 0 in both or 1 in both stays, any other is x. So z in both gives x.
    pub fn merge(self, other: Bits) -> Bits
        requires { length self ≡ length other }
        ensures { result ≡ map2 merge_digit self other }
    {
        let unknown = self.unknown | other.unknown;
        Bits {
            width: self.width,
            value: (self.value | other.value) | unknown,
            unknown: (self.value ^ other.value) | unknown,
        }
    }
}
