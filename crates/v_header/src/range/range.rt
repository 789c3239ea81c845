//! The bounds of a range.

ghost use Rattle.std.specs.Prelude.{◌≡◌, IfOk};
ghost use Rattle.v_flat.specs.Scope.Found.{each};
ghost use Rattle.v_flat.specs.Scope.Scope.{means};
ghost use Rattle.v_syntax.specs.SourceTrees.{view_range};
ghost use Rattle.v_flat.specs.Declarations.{bound, bounds_in};
ghost use Rattle.v_check.specs.Names.Proper.{AreProper};
ghost use Rattle.v_header.specs.Range.Pairs.{pair_bounds};

use four_value::Bits;
use port_io::NoMemory;
use std::alloc::Global;
use v_check::constant;
use v_check::constants::number_or_zero;
use v_flat::scope::{Bounds, Found, Scope};
use v_syntax::Range;

/// A bound, modulo 2^32, from the value of its expression.
fn bound(value: Bits) -> u32
    ensures { result ≡ bound value }
{
    (number_or_zero(value) % 4_294_967_296) as u32
}

/// Both bounds, from the values of their expressions.
fn paired(found: Found<(Bits, Bits)>) -> Found<Bounds>
    ensures { result ≡ each pair_bounds found }
{
    match found {
        Found::Sound((left, right)) => Found::Sound(Bounds {
            left: bound(left),
            right: bound(right),
        }),
        Found::Noted(fault, (left, right)) => Found::Noted(
            fault,
            Bounds {
                left: bound(left),
                right: bound(right),
            },
        ),
        Found::Lost(fault) => Found::Lost(fault),
    }
}

/// The bounds of a range (IEEE 1364-2005, clauses 4.3.1 and 4.9), each of which is a constant, taken modulo 2^32: or the rule that is
/// broken first in them. Only want of memory is an error.
pub fn bounds(alloc: Global, scope: &Scope, range: &Range) -> Result<Found<Bounds>, NoMemory>
    requires { AreProper (means scope.now) }
    ensures { IfOk result (λ found. found ≡ bounds_in (view_range range.now) (means scope.now)) }
{
    let left = constant(alloc, scope, &range.left)?;
    let right = constant(alloc, scope, &range.right)?;
    Ok(paired(left.both(right)))
}
