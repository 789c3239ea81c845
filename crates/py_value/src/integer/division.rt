//! Quotients that are rounded down, and what is left then (the language reference, 6.7).

ghost use Rattle.std.specs.Prelude.{◌≡◌, ◌≢◌, pos};
ghost use Rattle.py_value.specs.Integer.Integer.{number, held, is_zero, floor_quotient, floor_rest};

use crate::integer::Integer;
use crate::integer::arithmetic::signed;

impl Integer {
    /// Whether the number is 0.
    pub fn is_zero(self) -> bool
        ensures { result ≡ is_zero (number self) }
    {
        self.size == 0
    }

    /// `self // other`, None exactly where no value can hold the quotient.
    #[tactic(auto, using(crate::proofs::IntegerLemmas::Quotients::quotients))]
    pub fn floor_divide(self, other: Integer) -> Option<i128>
        requires { number other ≢ pos 0 }
        ensures { result ≡ held (floor_quotient (number self) (number other)) }
    {
        let quotient = self.size / other.size;
        if self.negative == other.negative {
            signed(false, quotient)
        } else if self.size % other.size == 0 {
            signed(true, quotient)
        } else {
            signed(true, quotient + 1)
        }
    }

    /// `self % other`, None exactly where no value can hold the rest.
    #[tactic(auto, using(crate::proofs::IntegerLemmas::Quotients::rests))]
    pub fn modulo(self, other: Integer) -> Option<i128>
        requires { number other ≢ pos 0 }
        ensures { result ≡ held (floor_rest (number self) (number other)) }
    {
        let rest = self.size % other.size;
        if self.negative == other.negative || rest == 0 {
            signed(other.negative, rest)
        } else {
            signed(other.negative, other.size - rest)
        }
    }
}
