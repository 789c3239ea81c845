//! Shifts (the language reference, 6.8).

ghost use Rattle.std.specs.Prelude.{◌≡◌, ℕ};
ghost use Rattle.py_value.specs.Integer.Integer.{number, held, held_shift, shifted_right, natural};

use crate::integer::Integer;
use crate::integer::arithmetic::signed;

impl Integer {
    /// The number where it isn't negative, as a count of places.
    pub fn to_natural(self) -> Option<u128>
        ensures { result ≡ natural (number self) }
    {
        if self.negative && self.size != 0 {
            None
        } else {
            Some(self.size)
        }
    }

    /// `self << count`, None exactly where no value can hold the result, as where a number other than 0 is shifted by more than 127.
    pub fn shift_left(self, count: u128) -> Option<i128>
        ensures { result ≡ held_shift (number self) count }
    {
        if self.size == 0 {
            Some(0)
        } else if count < 128 {
            self.multiply(Integer::of_natural(1 << count))
        } else {
            None
        }
    }

    /// `self >> count`, rounded down, None exactly where no value can hold the result.
    #[tactic(auto, using(crate::proofs::IntegerLemmas::Quotients::far_shifts))]
    pub fn shift_right(self, count: u128) -> Option<i128>
        ensures { result ≡ held (shifted_right (number self) count) }
    {
        if count < 128 {
            self.floor_divide(Integer::of_natural(1 << count))
        } else if self.negative && self.size != 0 {
            Some(-1)
        } else {
            Some(0)
        }
    }
}
