//! Concatenations, parts and other widths (clauses 5.1.14, 5.2.1 and 5.6).
ghost use Rattle.std.specs.Prelude.{◌≡◌, ◌≤◌, ◌+◌, ◌++◌, length};
ghost use Rattle.four_value.specs.Limits.{most_digits};
ghost use Rattle.four_value.specs.Vector as meaning;

use super::{Bits, low_mask};

/// Vectors put together, taken apart, and brought to another width.
impl Bits {
    /// `{self, low}` (clause 5.1.14): the digits of `self` stand above those of `low`.
    #[tactic(auto, using(crate::proofs::Parts::long_view))]
    pub fn concat(self, low: Bits) -> Bits
        requires { length self + length low ≤ most_digits }
        ensures is { result ≡ low ++ self }
        ensures wide { length result ≡ length self + length low }
    {
        Bits {
            width: self.width + low.width,
            value: (self.value << low.width) | low.value,
            unknown: (self.unknown << low.width) | low.unknown,
        }
    }

    /// The `width` digits from place `low` upwards, the part-select `[low +: width]` (clause 5.2.1).
    pub fn slice(self, low: u8, width: u8) -> Bits
        requires some { 1 ≤ width }
        requires inside { low + width ≤ length self }
        ensures is { result ≡ meaning.slice self low width }
        ensures wide { length result ≡ width }
    {
        let mask = low_mask(width);
        Bits {
            width,
            value: (self.value >> low) & mask,
            unknown: (self.unknown >> low) & mask,
        }
    }

    /// The same number in `width` digits: zeros stand above (clause 5.5.2, for unsigned operands), or the highest digits
    /// are cut (clause 5.6).
    pub fn resize(self, width: u8) -> Bits
        requires low { 1 ≤ width }
        requires high { width ≤ most_digits }
        ensures { result ≡ meaning.resize self width }
    {
        let mask = low_mask(width);
        Bits {
            width,
            value: self.value & mask,
            unknown: self.unknown & mask,
        }
    }
}
