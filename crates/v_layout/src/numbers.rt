//! The numbers of signals.

ghost use Rattle.std.specs.Prelude.{◌≡◌, ◌+◌, ℕ, List};
ghost use Rattle.v_check.specs.Names.Proper.{HasFewWords};
ghost use Rattle.v_flat.specs.Objects.{count_of};
ghost use Rattle.v_flat.specs.Declarations.{signals_in};
ghost use Rattle.v_flat.specs.Design.{object_of};
ghost use Rattle.v_layout.specs.Kept.{named_declared};
ghost use Rattle.v_layout.specs.Order.{lines_in};
ghost use Rattle.v_layout.specs.Fits.{Fit};

use crate::details::{Declared, Line};
use v_check::names::word_count;
use v_flat::scope::DataObject;

/// How many signals it has: one, or as many as a memory has words.
pub(crate) fn signal_count(declared: Declared) -> u32
    requires { HasFewWords declared.words }
    ensures { result ≡ count_of declared.words }
{
    match declared.words {
        None => 1,
        Some(words) => word_count(words),
    }
}

/// The number behind the last signal of these names, the first of which has the number `first`.
pub(crate) fn end_of(lines: &[Line<'_>], first: u32) -> u32
    requires { Fit first (lines_in lines.now) }
    ensures { result ≡ first + signals_in (lines_in lines.now) }
{
    let mut end = first;
    for line in lines {
        end += signal_count(line.declared);
    }
    end
}

/// The net, register or memory whose first signal has this number.
pub(crate) fn object(declared: Declared, first: u32) -> DataObject
    ensures { (n : List ℕ) → result ≡ object_of first (named_declared n declared) }
{
    DataObject {
        kind: declared.kind(),
        first,
        bounds: declared.bounds,
        words: declared.words,
    }
}
