//! Sums and products.

ghost use Rattle.std.specs.Prelude.{◌≡◌, ◌+ℤ◌, ◌-ℤ◌, ◌*ℤ◌, neg_ℤ, pos};
ghost use Rattle.py_value.specs.Integer.Integer as meaning;
ghost use Rattle.py_value.specs.Integer.Integer.{number, held};

use crate::integer::Integer;

impl Integer {
    /// `self + other`, None exactly where no value can hold the sum.
    #[tactic(auto, using(crate::proofs::IntegerLemmas::Held::held_results, crate::proofs::IntegerLemmas::Held::sum_far))]
    pub fn add(self, other: Integer) -> Option<i128>
        ensures { result ≡ held (number self +ℤ number other) }
    {
        if self.negative == other.negative {
            let size = self.size.checked_add(other.size)?;
            signed(self.negative, size)
        } else if self.size < other.size {
            signed(other.negative, other.size - self.size)
        } else {
            signed(self.negative, self.size - other.size)
        }
    }

    /// `self - other`, None exactly where no value can hold the difference.
    pub fn subtract(self, other: Integer) -> Option<i128>
        ensures { result ≡ held (number self -ℤ number other) }
    {
        self.add(other.negated())
    }

    /// `self * other`, None exactly where no value can hold the product.
    #[tactic(auto, using(crate::proofs::IntegerLemmas::Held::held_results))]
    pub fn multiply(self, other: Integer) -> Option<i128>
        ensures { result ≡ held (number self *ℤ number other) }
    {
        let size = self.size.checked_mul(other.size)?;
        signed(self.negative != other.negative, size)
    }

    /// `-self`, None exactly where no value can hold it.
    pub fn negative(self) -> Option<i128>
        ensures { result ≡ held (neg_ℤ (number self)) }
    {
        self.negated().to_whole()
    }

    /// `~self`, which is `-1 - self`, None exactly where no value can hold it.
    pub fn invert(self) -> Option<i128>
        ensures { result ≡ held (neg_ℤ (number self) -ℤ pos 1) }
    {
        self.negated().subtract(Integer::of_natural(1))
    }
}

/// The number of that sign and size, None exactly where no value can hold it.
pub(crate) fn signed(negative: bool, size: u128) -> Option<i128>
    ensures { result ≡ held (meaning.signed negative size) }
{
    Integer { negative, size }.to_whole()
}
