//! The range of a vector.

ghost use Rattle.std.specs.Prelude.{◌≡◌, IfOk, nat_le, option_map};
ghost use Rattle.v_flat.specs.Scope.Found.{and_then};
ghost use Rattle.v_flat.specs.Scope.Limits.{most_digits};
ghost use Rattle.v_flat.specs.Scope.Scope.{means, width_of};
ghost use Rattle.v_syntax.specs.SourceTrees.{view_range};
ghost use Rattle.v_flat.specs.Declarations.{vector_bounds};
ghost use Rattle.v_check.specs.Names.Proper.{AreProper};
ghost use Rattle.v_header.specs.Range.Narrow.{IsVectorRange, narrowed};

use crate::range::bounds;
use port_io::NoMemory;
use std::alloc::Global;
use v_check::names::range_size;
use v_flat::scope::{Bounds, ElabRule, Found, MOST_DIGITS, Scope};
use v_syntax::{Range, TokenNumber};

/// Whether a vector with these bounds has at most 128 digits.
fn is_narrow(bounds: Bounds) -> bool
    ensures { result ≡ nat_le (width_of bounds) most_digits }
{
    range_size(bounds) <= u64::from(MOST_DIGITS)
}

/// At most 128 digits, or else TooWide is broken at this token.
fn narrow(place: TokenNumber, bounds: Bounds) -> Found<Bounds>
    ensures is { result ≡ narrowed place bounds }
    ensures narrow { IsVectorRange result }
{
    Found::Sound(bounds).needs(is_narrow(bounds), ElabRule::TooWide, place)
}

/// The same, from what was found in the range.
fn all_narrow(place: TokenNumber, found: Found<Bounds>) -> Found<Bounds>
    ensures is { result ≡ and_then found (narrowed place) }
    ensures narrow { IsVectorRange result }
{
    match found {
        Found::Sound(bounds) => narrow(place, bounds),
        Found::Noted(fault, bounds) => narrow(place, bounds).noted(fault),
        Found::Lost(fault) => Found::Lost(fault),
    }
}

/// The bounds of a vector that is declared with this range (IEEE 1364-2005, clause 4.3.1): those of one digit, `[0:0]`, where none is
/// written. More than 128 digits break TooWide at the range's `[`. Bounds that are found have 1 to 128 digits, even where another rule
/// is broken. Only want of memory is an error.
pub fn vector_bounds(
    alloc: Global,
    scope: &Scope,
    range: Option<&Range>,
) -> Result<Found<Bounds>, NoMemory>
    requires { AreProper (means scope.now) }
    ensures is { IfOk result (λ found. found ≡ vector_bounds (option_map (λ r. view_range r.now) range.entry) (means scope.now)) }
    ensures narrow { IfOk result IsVectorRange }
{
    match range {
        None => Ok(Found::Sound(Bounds { left: 0, right: 0 })),
        Some(range) => Ok(all_narrow(range.at, bounds(alloc, scope, range)?)),
    }
}
