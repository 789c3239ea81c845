//! Vectors of four-valued digits, as a simulator of Verilog (IEEE 1364-2005) computes with them.
//!
//! A digit is 0, 1, x (unknown) or z (high impedance). A vector has 1 to 128 digits, and contracts see it as the list of
//! its digits, the least significant first. No call takes memory, and each answers exactly what the definition in
//! `specs/Vector.antt` says that its clause cites. Clauses of the standard are named at each call.
#![tactic(auto)]

ghost use Rattle.std.specs.Prelude.{◌≡◌};
ghost use Rattle.std.specs.Int.{from_bool};
ghost use Rattle.four_value.specs.Vector.{not_digit, digit_byte};
ghost use Rattle.four_value.specs.Planes.{value_bit, unknown_bit};

pub use edges::Edge;
pub use events::edge;
pub use vector::Bits;

mod edges;
mod events;
mod vector;

/// The most digits that a vector may have. The standard asks for at least 65,536 (IEEE 1364-2005, clause 4.3.1).
pub const MOST_DIGITS: u8 = 128;

/// One of the four values of a net or a variable (clause 4.1).
#[derive(Clone, Copy, Debug, PartialEq, Eq)]
pub enum Digit {
    /// A logic zero, or a false condition.
    Zero,
    /// A logic one, or a true condition.
    One,
    /// An unknown value.
    X,
    /// High impedance. Every operator but `===` reads it as unknown.
    Z,
}

impl Digit {
    /// `~` of one digit (clause 5.1.10, the table of unary negation): 0 and 1 change places, x and z give x.
    pub fn negated(self) -> Digit
        ensures { result ≡ not_digit self }
    {
        match self {
            Digit::Zero => Digit::One,
            Digit::One => Digit::Zero,
            Digit::X | Digit::Z => Digit::X,
        }
    }

    /// Whether the plane of values has a bit for this digit.
    fn value_bit(self) -> bool
        ensures { from_bool result ≡ value_bit self }
    {
        match self {
            Digit::One | Digit::X => true,
            Digit::Zero | Digit::Z => false,
        }
    }

    /// Whether the plane of unknown digits has a bit for this digit.
    fn unknown_bit(self) -> bool
        ensures { from_bool result ≡ unknown_bit self }
    {
        match self {
            Digit::X | Digit::Z => true,
            Digit::Zero | Digit::One => false,
        }
    }

    /// The ASCII byte that stands for this digit in a text.
    fn byte(self) -> u8
        ensures { result ≡ digit_byte self }
    {
        match self {
            Digit::Zero => b'0',
            Digit::One => b'1',
            Digit::X => b'x',
            Digit::Z => b'z',
        }
    }
}
