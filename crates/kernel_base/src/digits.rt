//! Tests of digits and edges.
ghost use Rattle.std.specs.Prelude.{◌≡◌, true, false};
ghost use Rattle.four_value.specs.Vector.{same_digits, digit_at};
ghost use Rattle.gpi.specs.State.{edge_fits};

use four_value::{Bits, Digit, Edge};
use gpi::WakeEdge;

/// Whether both are the same vector.
pub fn are_same(a: Bits, b: Bits) -> bool
    ensures { result ≡ same_digits a b }
{
    a.is_same(b)
}

/// The least significant digit, which alone makes edges (IEEE 1364-2005, clause 9.7.2).
pub fn low_digit(bits: Bits) -> Digit
    ensures { result ≡ digit_at bits 0 }
{
    let _width = bits.width();
    bits.digit(0)
}

/// Whether an edge is one that is waited for (clause 9.7.2).
pub fn meets_edge(wanted: WakeEdge, got: Edge) -> bool
    ensures { result ≡ edge_fits wanted got }
{
    match (wanted, got) {
        (WakeEdge::Any, _) => true,
        (WakeEdge::Pos, Edge::Pos) => true,
        (WakeEdge::Pos, _) => false,
        (WakeEdge::Neg, Edge::Neg) => true,
        (WakeEdge::Neg, _) => false,
    }
}
