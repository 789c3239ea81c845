//! Selects whose expressions were checked.

ghost use Rattle.std.specs.Prelude.{◌≡◌, IfOk};
ghost use Rattle.gpi.specs.declared.terms.Term.TheVariants.{Const};
ghost use Rattle.v_flat.specs.Scope.Found.{each};
ghost use Rattle.v_check.specs.Names.Made.{AreAlone};
ghost use Rattle.v_check.specs.Names.Selects.{ChecksFixedIndex, ChecksIndex, place_of};

use crate::constants::Checked;
use four_value::Bits;
use gpi::Term;
use port_io::NoMemory;
use std::alloc::Global;
use v_flat::scope::Found;
use v_syntax::TokenNumber;

/// A select whose expressions were checked (IEEE 1364-2005, clause 5.2). Each `at` is the number of its `[`.
#[derive(Drop)]
pub enum CheckedSelect {
    /// `[ index ]`
    Bit {
        at: TokenNumber,
        index: Found<Term>,
    },
    /// `[ left : right ]`, with the values of both constants.
    Part {
        at: TokenNumber,
        left: Found<Bits>,
        right: Found<Bits>,
    },
    /// `[ base +: width ]`, where `TOO_WIDE` of `v_flat::scope` stands for a width of more than 128.
    IndexedPart {
        at: TokenNumber,
        base: Found<Term>,
        width: Found<u8>,
    },
}

/// The selects behind a name, whose expressions were checked.
#[derive(Drop)]
pub enum CheckedSelects {
    /// None: all of the name.
    Whole,
    /// A bit or a part of a vector, or a word of a memory.
    One(CheckedSelect),
    /// A word of a memory by its index, and a bit or a part of it.
    OfWord(Found<Term>, CheckedSelect),
}

impl CheckedSelect {
    /// The number of its `[`.
    pub fn place(&self) -> TokenNumber
        ensures { result ≡ place_of self.now }
    {
        match self {
            CheckedSelect::Bit { at, .. }
            | CheckedSelect::Part { at, .. }
            | CheckedSelect::IndexedPart { at, .. } => *at,
        }
    }
}

/// What stands by itself, as an index does (clause 5.4.1), from what was found in it. Only want of memory is an error.
pub fn by_itself(alloc: Global, found: Found<Checked>) -> Result<Found<Term>, NoMemory>
    ensures { IfOk result (ChecksIndex found) }
{
    Ok(lowered(alloc, found)?)
}

/// An index that has to be a constant, from its value, as those in the target of a continuous assignment (IEEE 1364-2005, clause
/// 6.1): the term of that constant, with all that is broken in it.
pub fn fixed_index(value: Found<Bits>) -> Found<Term>
    ensures is { result ≡ each Const value }
    ensures checks { ChecksFixedIndex value result }
{
    match value {
        Found::Sound(value) => Found::Sound(Term::Const(value)),
        Found::Noted(fault, value) => Found::Noted(fault, Term::Const(value)),
        Found::Lost(fault) => Found::Lost(fault),
    }
}

/// Each in a context of its own width. Only want of memory is an error.
fn lowered(alloc: Global, found: Found<Checked>) -> Result<Found<Term>, NoMemory>
    ensures { IfOk result (AreAlone found) }
{
    match found {
        Found::Sound(Checked { width, form }) => Ok(Found::Sound(form.lower(alloc, width)?)),
        Found::Noted(fault, Checked { width, form }) => {
            Ok(Found::Noted(fault, form.lower(alloc, width)?))
        }
        Found::Lost(fault) => Ok(Found::Lost(fault)),
    }
}
