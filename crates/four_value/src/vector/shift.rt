//! Shifts (clause 5.1.12).
ghost use Rattle.std.specs.Prelude.{◌≡◌, ◌<◌, length};
ghost use Rattle.four_value.specs.Vector as meaning;

use super::{Bits, low_mask};
use crate::Digit;

/// Shift operators (clause 5.1.12). The count is an unsigned number of any width; where a digit of it is x or z, the whole
/// result is x. Vacated places get 0, also for `<<<` and `>>>`, since every vector here is unsigned.
impl Bits {
    /// `<<` and `<<<`: each digit moves up by the count; those that pass the highest place are lost.
    #[tactic(auto, using(crate::proofs::Parts::past_shifts))]
    pub fn shl(self, count: Bits) -> Bits
        ensures { result ≡ meaning.shl self count }
    {
        let width = self.width();
        match count.to_number() {
            Some(n) if n < width as u128 => self.shifted_up(n as u8),
            Some(_) => Bits::all(width, Digit::Zero),
            None => Bits::all(width, Digit::X),
        }
    }

    /// `>>` and `>>>`: each digit moves down by the count; those that pass place 0 are lost.
    #[tactic(auto, using(crate::proofs::Parts::past_shifts))]
    pub fn shr(self, count: Bits) -> Bits
        ensures { result ≡ meaning.shr self count }
    {
        let width = self.width();
        match count.to_number() {
            Some(n) if n < width as u128 => self.shifted_down(n as u8),
            Some(_) => Bits::all(width, Digit::Zero),
            None => Bits::all(width, Digit::X),
        }
    }

    fn shifted_up(self, n: u8) -> Bits
        requires { n < length self }
        ensures { result ≡ meaning.shift_up self n }
    {
        let mask = low_mask(self.width);
        Bits {
            width: self.width,
            value: (self.value << n) & mask,
            unknown: (self.unknown << n) & mask,
        }
    }

    fn shifted_down(self, n: u8) -> Bits
        requires { n < length self }
        ensures { result ≡ meaning.shift_down self n }
    {
        Bits {
            width: self.width,
            value: self.value >> n,
            unknown: self.unknown >> n,
        }
    }
}
