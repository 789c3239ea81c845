//! An operand, and the results that a value can hold.

ghost use Rattle.std.specs.Prelude.{◌≡◌, ℤ, pos};
ghost use Rattle.std.specs.Prelude.{neg_ℤ};
ghost use Rattle.py_value.specs.Integer.Integer.{number, held, truth_number};

/// A whole number from -(2^128 - 1) to 2^128 - 1: its sign, and its absolute value.
#[derive(Clone, Copy, Debug)]
pub struct Integer {
    /// Whether it is the negative of its size; 0 may have either sign.
    pub(crate) negative: bool,
    /// The absolute value.
    pub(crate) size: u128,
}

impl Integer {
    /// The number of an unsigned one, as a vector's is.
    pub fn of_natural(size: u128) -> Integer
        ensures { number result ≡ pos size }
    {
        Integer {
            negative: false,
            size,
        }
    }

    /// The number of a value.
    pub fn of_whole(z: i128) -> Integer
        ensures { number result ≡ z }
    {
        Integer {
            negative: z < 0,
            size: z.unsigned_abs(),
        }
    }

    /// True is 1, and False is 0 (the language reference, 3.2, "Booleans").
    pub fn of_truth(b: bool) -> Integer
        ensures { number result ≡ truth_number b }
    {
        Integer {
            negative: false,
            size: b as u128,
        }
    }

    /// The negative of the number.
    pub(crate) fn negated(self) -> Integer
        ensures { number result ≡ neg_ℤ (number self) }
    {
        Integer {
            negative: !self.negative,
            size: self.size,
        }
    }

    /// Unary `+`: the number, None exactly where no value can hold it.
    #[tactic(auto, using(crate::proofs::IntegerLemmas::Held::held_results))]
    pub fn to_whole(self) -> Option<i128>
        ensures { result ≡ held (number self) }
    {
        if self.size < MIDDLE {
            let z = self.size as i128;
            Some(if self.negative { -z } else { z })
        } else if self.negative && self.size == MIDDLE {
            Some(i128::MIN)
        } else {
            None
        }
    }
}

/// 2^127, where the numbers end that a value holds.
pub(crate) const MIDDLE: u128 = 1 << 127;
