//! Sums, differences, products, quotients and remainders (IEEE 1364-2005, clause 5.1.5).
ghost use Rattle.std.specs.Prelude.{◌≡◌, ◌<◌, ◌^◌, length, IfSome};
ghost use Rattle.four_value.specs.Vector as meaning;
ghost use Rattle.four_value.specs.Vector.{number, both};

use super::Bits;
use crate::Digit;

/// Arithmetic operators on unsigned numbers of one width (clause 5.1.5), modulo 2^width. Where a digit of either operand
/// is x or z, the whole result is x.
impl Bits {
    /// Binary `+`, modulo 2^width.
    #[tactic(auto, using(crate::proofs::Numbers::vector_wrap))]
    pub fn add(self, other: Bits) -> Bits
        requires { length self ≡ length other }
        ensures { result ≡ meaning.add self other }
    {
        let width = self.width();
        match self.numbers(other) {
            Some((m, n)) => Bits::from_number(width, m.wrapping_add(n)),
            None => Bits::all(width, Digit::X),
        }
    }

    /// Binary `-`, modulo 2^width.
    #[tactic(auto, using(crate::proofs::Numbers::vector_wrap_sub))]
    pub fn sub(self, other: Bits) -> Bits
        requires { length self ≡ length other }
        ensures { result ≡ meaning.sub self other }
    {
        let width = self.width();
        match self.numbers(other) {
            Some((m, n)) => Bits::from_number(width, m.wrapping_sub(n)),
            None => Bits::all(width, Digit::X),
        }
    }

    /// `*`, modulo 2^width.
    #[tactic(auto, using(crate::proofs::Numbers::vector_wrap))]
    pub fn mul(self, other: Bits) -> Bits
        requires { length self ≡ length other }
        ensures { result ≡ meaning.mul self other }
    {
        let width = self.width();
        match self.numbers(other) {
            Some((m, n)) => Bits::from_number(width, m.wrapping_mul(n)),
            None => Bits::all(width, Digit::X),
        }
    }

    /// `/`, rounded towards zero; all x where the divisor is 0.
    pub fn div(self, other: Bits) -> Bits
        requires { length self ≡ length other }
        ensures { result ≡ meaning.div self other }
    {
        let width = self.width();
        match self.numbers(other) {
            Some((m, n)) if n > 0 => Bits::from_number(width, m / n),
            _ => Bits::all(width, Digit::X),
        }
    }

    /// `%`, the remainder of `/`; all x where the divisor is 0.
    pub fn rem(self, other: Bits) -> Bits
        requires { length self ≡ length other }
        ensures { result ≡ meaning.rem self other }
    {
        let width = self.width();
        match self.numbers(other) {
            Some((m, n)) if n > 0 => Bits::from_number(width, m % n),
            _ => Bits::all(width, Digit::X),
        }
    }

    /// The numbers of both vectors, where both are known.
    pub(super) fn numbers(self, other: Bits) -> Option<(u128, u128)>
        ensures is { result ≡ both (number self) (number other) }
        ensures fits { IfSome result (λ p. (p.0 < 2 ^ length self) × (p.1 < 2 ^ length other)) }
    {
        let m = self.to_number()?;
        let n = other.to_number()?;
        Some((m, n))
    }
}
