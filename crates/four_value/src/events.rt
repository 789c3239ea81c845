//! The edge from one digit to another.
ghost use Rattle.std.specs.Prelude.{◌≡◌};
ghost use Rattle.four_value.specs.Vector.{edge_of};

use crate::{Digit, Edge};

/// The edge from an old digit to a new one (clause 9.7.2, the table of posedge and negedge).
///
/// From 0 to 1, x or z, and from x or z to 1, is a `posedge`; from 1 to 0, x or z, and from x or z to 0, is a `negedge`.
/// From x to z or back is neither. Of a vector only the least significant digit makes edges.
pub fn edge(old: Digit, new: Digit) -> Edge
    ensures { result ≡ edge_of old new }
{
    match (old, new) {
        (Digit::Zero, Digit::Zero) | (Digit::One, Digit::One) => Edge::None,
        (Digit::Zero, _) | (_, Digit::One) => Edge::Pos,
        (Digit::One, _) | (_, Digit::Zero) => Edge::Neg,
        (Digit::X | Digit::Z, Digit::X | Digit::Z) => Edge::None,
    }
}
