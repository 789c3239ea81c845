//! Comparisons (clauses 5.1.7 and 5.1.8), and whether two vectors are the same.
ghost use Rattle.std.specs.Prelude.{◌≡◌, length, IsTrue, ◌↔◌};
ghost use Rattle.four_value.specs.Vector.{less, equal, case_equal};

use super::Bits;
use crate::Digit;

/// Relational and equality operators, on vectors of one width. The digit is the comparison's value: 0, 1 or x.
impl Bits {
    /// `<` of two unsigned numbers (clause 5.1.7); x where a digit of either is x or z.
    pub fn lt(self, other: Bits) -> Digit
        requires { length self ≡ length other }
        ensures { result ≡ less self other }
    {
        match self.numbers(other) {
            Some((m, n)) => if m < n { Digit::One } else { Digit::Zero },
            None => Digit::X,
        }
    }

    /// `==` (clause 5.1.8): 0 where two known digits differ, else x where a digit is x or z, else 1.
    #[tactic(auto, using(crate::proofs::Equality::equal_is))]
    pub fn eq(self, other: Bits) -> Digit
        requires { length self ≡ length other }
        ensures { result ≡ equal self other }
    {
        self.xor(other).not().reduce_and()
    }

    /// `===` (clause 5.1.8): 1 where both have the same digits, x and z included, else 0.
    pub fn case_eq(self, other: Bits) -> Digit
        requires { length self ≡ length other }
        ensures { result ≡ case_equal self other }
    {
        if self.value == other.value && self.unknown == other.unknown {
            Digit::One
        } else {
            Digit::Zero
        }
    }

    /// Whether both are one vector: of the same width, with the same digits.
    #[tactic(auto, using(crate::proofs::Equality::case_equals))]
    pub fn is_same(self, other: Bits) -> bool
        ensures { IsTrue result ↔ (self ≡ other) }
    {
        self.width() == other.width() && self.case_eq(other) == Digit::One
    }
}
