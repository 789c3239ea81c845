//! The names of an instance, with the signals that they stand for.

ghost use Rattle.std.specs.Prelude.{◌≡◌, ℕ, List, IfOk};
ghost use Rattle.v_check.specs.Names.Proper.{HasFewWords};
ghost use Rattle.v_flat.specs.Design.{children, object_of, spot_of};
ghost use Rattle.v_layout.specs.Kept.{named_declared};
ghost use Rattle.v_layout.specs.Order.{lines_in};
ghost use Rattle.v_layout.specs.Fits.{Fit};

use crate::details::{Declared, Line};
use crate::numbers::signal_count;
use gpi::{SigId, Spot};
use port_io::{Name, NoMemory, Sequence};
use std::alloc::Global;
use v_check::names::words;

/// The signal of what is declared, or the words of a memory, from the number of its first signal on.
fn spot(declared: Declared, first: u32) -> Spot
    requires { HasFewWords declared.words }
    ensures { (n : List ℕ) → result ≡ spot_of (object_of first (named_declared n declared)) declared.words }
{
    match declared.words {
        None => Spot::Sig(SigId(first)),
        Some(bounds) => {
            let words = words(first, bounds);
            Spot::Words {
                first: words.first,
                low: words.low,
                count: words.count,
            }
        }
    }
}

/// The declared names of an instance, in order, each with its signal or with the words of its memory (IEEE 1364-2005, clause 12.5). The
/// first signal has the number `first`. Only want of memory is an error.
pub fn children(
    alloc: Global,
    lines: &[Line<'_>],
    first: u32,
) -> Result<Sequence<(Name, Spot)>, NoMemory>
    requires { Fit first (lines_in lines.now) }
    ensures { IfOk result (λ found. found ≡ children first (lines_in lines.now)) }
{
    let mut found = Sequence::new(alloc);
    let mut next = first;
    for line in lines {
        let name = Name::of(alloc, line.name)?;
        found.push((name, spot(line.declared, next)))?;
        next += signal_count(line.declared);
    }
    Ok(found)
}
