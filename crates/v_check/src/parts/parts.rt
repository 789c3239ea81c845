//! Parts of braces that were checked.

ghost use Rattle.std.specs.Prelude.{◌≡◌, ◌+◌, IfOk};
ghost use Rattle.v_flat.specs.Scope.Limits.{counted_width};
ghost use Rattle.v_check.specs.Parts.Made.{AreMore, MakesMore};
ghost use Rattle.v_check.specs.Parts.Parts.{ChecksMore, ChecksNone};

use crate::constants::Checked;
use gpi::Term;
use port_io::NoMemory;
use std::alloc::Global;
use v_flat::scope::{Found, TOO_WIDE};

/// Parts of braces that were checked (IEEE 1364-2005, clause 5.1.14). Where no rule is broken in them, they have the digits of
/// the expressions; where one is, only the width counts.
#[derive(Drop)]
pub struct Parts {
    /// The number of digits of all together, where [`TOO_WIDE`] stands for all beyond 128.
    pub width: u8,
    /// Each part by itself, the last one first.
    pub terms: Vec<Term>,
}

/// The sum of two widths, where [`TOO_WIDE`] stands for all beyond 128.
pub fn sum(a: u8, b: u8) -> u8
    ensures { result ≡ counted_width (a + b) }
{
    a.saturating_add(b).min(TOO_WIDE)
}

/// A part before others. Only want of memory is an error.
fn with_part(alloc: Global, part: Checked, rest: Parts) -> Result<Parts, NoMemory>
    ensures { IfOk result (MakesMore part rest) }
{
    let Parts { width, mut terms } = rest;
    let width = sum(part.width, width);
    let term = part.form.lower(alloc, part.width)?;
    terms.push(term)?;
    Ok(Parts { width, terms })
}

/// What is made of a part and others. Only want of memory is an error.
fn of_both(alloc: Global, found: Found<(Checked, Parts)>) -> Result<Found<Parts>, NoMemory>
    ensures { IfOk result (AreMore found) }
{
    match found {
        Found::Sound((part, rest)) => Ok(Found::Sound(with_part(alloc, part, rest)?)),
        Found::Noted(fault, (part, rest)) => {
            Ok(Found::Noted(fault, with_part(alloc, part, rest)?))
        }
        Found::Lost(fault) => Ok(Found::Lost(fault)),
    }
}

impl Parts {
    /// No part.
    pub fn none(alloc: Global) -> Found<Parts>
        ensures { ChecksNone result }
    {
        Found::Sound(Parts {
            width: 0,
            terms: Vec::new(alloc),
        })
    }

    /// A part before those that stand behind it. Only want of memory is an error.
    pub fn before(
        alloc: Global,
        part: Found<Checked>,
        rest: Found<Parts>,
    ) -> Result<Found<Parts>, NoMemory>
        ensures { IfOk result (ChecksMore part rest) }
    {
        of_both(alloc, part.both(rest))
    }
}
