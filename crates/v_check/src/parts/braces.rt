//! Concatenations and replications.

ghost use Rattle.std.specs.Prelude.{◌≡◌, ◌*◌, IfOk};
ghost use Rattle.v_flat.specs.Scope.Limits.{counted_width};
ghost use Rattle.v_check.specs.Parts.Made.{AreCopies, AreOnce, MakesAll, MakesCopies, MakesOnce, filled_at};
ghost use Rattle.v_check.specs.Parts.Parts.{ChecksConcatenation, ChecksReplication};

use crate::constants::{Checked, sized};
use crate::contextual::Contextual;
use crate::parts::Parts;
use four_value::{Bits, Digit};
use gpi::Term;
use port_io::NoMemory;
use std::alloc::Global;
use v_flat::scope::{ElabRule, Found, TOO_WIDE};
use v_syntax::TokenNumber;

/// Something stands in the braces, or else BadRange is broken at this token.
fn filled(place: TokenNumber, parts: Found<Parts>) -> Found<Parts>
    ensures { result ≡ filled_at place parts }
{
    match parts {
        Found::Sound(x) => {
            let some = 0 < x.width;
            Found::Sound(x).needs(some, ElabRule::BadRange, place)
        }
        Found::Noted(fault, x) => {
            let some = 0 < x.width;
            let whole = Found::Sound(x).needs(some, ElabRule::BadRange, place);
            whole.noted(fault)
        }
        Found::Lost(fault) => Found::Lost(fault),
    }
}

/// All parts as one term; a zero where there is none. Only want of memory is an error.
fn joined(alloc: Global, terms: Vec<Term>) -> Result<Term, NoMemory>
    ensures { IfOk result (MakesAll terms.items) }
{
    if terms.is_empty() {
        Ok(Term::Const(Bits::all(1, Digit::Zero)))
    } else {
        crate::contextual::concatenation(alloc, terms)
    }
}

/// All parts together. Only want of memory is an error.
fn once(alloc: Global, parts: Parts) -> Result<Checked, NoMemory>
    ensures { IfOk result (MakesOnce parts) }
{
    let Parts { width, terms } = parts;
    Ok(Checked {
        width,
        form: Contextual::Settled(joined(alloc, terms)?),
    })
}

/// What is made of all parts. Only want of memory is an error.
fn of_parts(alloc: Global, parts: Found<Parts>) -> Result<Found<Checked>, NoMemory>
    ensures { IfOk result (AreOnce parts) }
{
    match parts {
        Found::Sound(x) => Ok(Found::Sound(once(alloc, x)?)),
        Found::Noted(fault, x) => Ok(Found::Noted(fault, once(alloc, x)?)),
        Found::Lost(fault) => Ok(Found::Lost(fault)),
    }
}

/// The product of a count and a width, where [`TOO_WIDE`] stands for all beyond 128 digits.
fn product(count: u8, width: u8) -> u8
    ensures { result ≡ counted_width (count * width) }
{
    count.saturating_mul(width).min(TOO_WIDE)
}

/// So many copies of all parts. Only want of memory is an error.
fn copied(alloc: Global, count: u8, parts: Parts) -> Result<Checked, NoMemory>
    ensures { IfOk result (MakesCopies count parts) }
{
    let Parts { width, terms } = parts;
    let term = joined(alloc, terms)?;
    Ok(Checked {
        width: product(count, width),
        form: Contextual::Settled(Term::repeat(alloc, count, term)?),
    })
}

/// What is made of a count and all parts. Only want of memory is an error.
fn of_copies(alloc: Global, found: Found<(u8, Parts)>) -> Result<Found<Checked>, NoMemory>
    ensures { IfOk result (AreCopies found) }
{
    match found {
        Found::Sound((count, x)) => Ok(Found::Sound(copied(alloc, count, x)?)),
        Found::Noted(fault, (count, x)) => Ok(Found::Noted(fault, copied(alloc, count, x)?)),
        Found::Lost(fault) => Ok(Found::Lost(fault)),
    }
}

/// `{ part , .. }`, where `place` is the number of its first token (clause 5.1.14). Only want of memory is an error.
pub fn concatenation(
    alloc: Global,
    place: TokenNumber,
    parts: Found<Parts>,
) -> Result<Found<Checked>, NoMemory>
    ensures { IfOk result (ChecksConcatenation place parts) }
{
    Ok(sized(place, of_parts(alloc, filled(place, parts))?))
}

/// `{ count { part , .. } }`, where `place` is the number of its first token (clause 5.1.14), and [`TOO_WIDE`] stands for a count
/// of more than 128. Only want of memory is an error.
pub fn replication(
    alloc: Global,
    place: TokenNumber,
    count: Found<u8>,
    parts: Found<Parts>,
) -> Result<Found<Checked>, NoMemory>
    ensures { IfOk result (ChecksReplication place count parts) }
{
    let both = count.both(filled(place, parts));
    Ok(sized(place, of_copies(alloc, both)?))
}
