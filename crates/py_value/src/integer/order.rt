//! Comparisons by number.

ghost use Rattle.std.specs.Prelude.{◌≡◌, int_lt};
ghost use Rattle.py_value.specs.Integer.Integer.{number, same_number};

use crate::integer::Integer;

impl Integer {
    /// Whether `self` is less than `other`.
    pub fn is_less(self, other: Integer) -> bool
        ensures { result ≡ int_lt (number self) (number other) }
    {
        match (self.negative, other.negative) {
            (false, false) => self.size < other.size,
            (false, true) => false,
            (true, false) => self.size != 0 || other.size != 0,
            (true, true) => other.size < self.size,
        }
    }

    /// Whether both are one number.
    pub fn is_same(self, other: Integer) -> bool
        ensures { result ≡ same_number (number self) (number other) }
    {
        self.size == other.size && (self.size == 0 || self.negative == other.negative)
    }
}
