//! What is found in a name with selects.

ghost use Rattle.std.specs.Prelude.{◌≡◌, Some, IfOk};
ghost use Rattle.gpi.specs.Terms.{IsWidth};
ghost use Rattle.v_flat.specs.Scope.Scope.{means, width_of};
ghost use Rattle.v_flat.specs.declared.scope.meaning.Meaning.TheVariants.{Object};
ghost use Rattle.v_check.specs.Names.Proper.{AreProper, IsProper};
ghost use Rattle.v_check.specs.Names.Made.{
  AreParts,
  AreWordParts,
  AreWordsOf,
  MakesPart,
  MakesWord,
  MakesWordPart,
  MemoryMade,
  NamesObject,
  VectorMade,
  WordMade,
};
ghost use Rattle.v_check.specs.Names.Selects.{ChecksName, twice_at};

use crate::constants::Checked;
use crate::contextual::Contextual;
use crate::names::bounds::{range, width, words};
use crate::names::choice::{Choice, chosen};
use crate::names::waiting::beside;
use crate::names::{CheckedSelect, CheckedSelects};
use gpi::{Range, SigId, Term, Words};
use port_io::NoMemory;
use std::alloc::Global;
use v_flat::scope::{Bounds, DataObject, ElabRule, Found, Meaning, Scope};
use v_syntax::TokenNumber;

/// Digits of a vector. Only want of memory is an error.
fn chosen_digits(
    alloc: Global,
    from: Term,
    range: Range,
    choice: Choice,
) -> Result<Checked, NoMemory>
    ensures { IfOk result (MakesPart from range choice) }
{
    let Choice { index, width } = choice;
    Ok(Checked {
        width,
        form: Contextual::Settled(Term::select(alloc, from, range, index, width)?),
    })
}

/// What is chosen from a vector. Only want of memory is an error.
fn chosen_from_vector(
    alloc: Global,
    from: Term,
    range: Range,
    found: Found<Choice>,
) -> Result<Found<Checked>, NoMemory>
    ensures { IfOk result (AreParts from range found) }
{
    match found {
        Found::Sound(choice) => Ok(Found::Sound(chosen_digits(alloc, from, range, choice)?)),
        Found::Noted(fault, choice) => Ok(Found::Noted(
            fault,
            chosen_digits(alloc, from, range, choice)?,
        )),
        Found::Lost(fault) => {
            drop(from);
            Ok(Found::Lost(fault))
        }
    }
}

/// Two selects on what is no memory: BadRange is broken at the second one, at `place`, unless there is no value of the first.
pub fn second_select<A: Drop, B: Drop>(word: Found<A>, place: TokenNumber) -> Found<B>
    ensures { result ≡ twice_at word place }
{
    match word {
        Found::Sound(_value) => Found::broken(ElabRule::BadRange, place),
        Found::Noted(fault, _value) => Found::broken(ElabRule::BadRange, place).noted(fault),
        Found::Lost(fault) => Found::Lost(fault),
    }
}

/// A vector with selects, where `place` is the number of its name. Only want of memory is an error.
fn vector(
    alloc: Global,
    place: TokenNumber,
    from: Term,
    width: u8,
    bounds: Bounds,
    selects: CheckedSelects,
) -> Result<Found<Checked>, NoMemory>
    ensures { IfOk result (VectorMade place from width bounds selects) }
{
    match selects {
        CheckedSelects::Whole => Ok(Found::Sound(Checked {
            width,
            form: Contextual::Settled(from),
        })),
        CheckedSelects::One(select) => {
            Ok(chosen_from_vector(alloc, from, range(bounds), chosen(place, bounds, select))?)
        }
        CheckedSelects::OfWord(word, select) => {
            let found = second_select(word, select.place());
            drop((from, select));
            Ok(found)
        }
    }
}

/// A word of a memory. Only want of memory is an error.
fn indexed_word(alloc: Global, words: Words, width: u8, index: Term) -> Result<Checked, NoMemory>
    ensures { IfOk result (MakesWord words width index) }
{
    Ok(Checked {
        width,
        form: Contextual::Settled(Term::word(alloc, words, index, width)?),
    })
}

/// What is found in an index to a memory. Only want of memory is an error.
fn found_word(
    alloc: Global,
    words: Words,
    width: u8,
    found: Found<Term>,
) -> Result<Found<Checked>, NoMemory>
    ensures { IfOk result (AreWordsOf words width found) }
{
    match found {
        Found::Sound(index) => Ok(Found::Sound(indexed_word(alloc, words, width, index)?)),
        Found::Noted(fault, index) => Ok(Found::Noted(
            fault,
            indexed_word(alloc, words, width, index)?,
        )),
        Found::Lost(fault) => Ok(Found::Lost(fault)),
    }
}

/// One select on a memory: it has to be an index, or else BadRange is broken at it. Only want of memory is an error.
fn word_select(
    alloc: Global,
    words: Words,
    width: u8,
    select: CheckedSelect,
) -> Result<Found<Checked>, NoMemory>
    ensures { IfOk result (WordMade words width select) }
{
    match select {
        CheckedSelect::Bit { index, .. } => Ok(found_word(alloc, words, width, index)?),
        other => {
            let place = other.place();
            drop(other);
            Ok(Found::broken(ElabRule::BadRange, place))
        }
    }
}

/// Digits of a word of a memory. Only want of memory is an error.
fn digits_of_word(
    alloc: Global,
    words: Words,
    width: u8,
    bounds: Bounds,
    found: (Term, Choice),
) -> Result<Checked, NoMemory>
    ensures { IfOk result (MakesWordPart words width bounds found) }
{
    let (index, choice) = found;
    let (word, choice) = beside(Term::word(alloc, words, index, width), choice)?;
    chosen_digits(alloc, word, range(bounds), choice)
}

/// What is chosen from a word of a memory. Only want of memory is an error.
fn chosen_from_word(
    alloc: Global,
    words: Words,
    width: u8,
    bounds: Bounds,
    found: Found<(Term, Choice)>,
) -> Result<Found<Checked>, NoMemory>
    ensures { IfOk result (AreWordParts words width bounds found) }
{
    match found {
        Found::Sound(both) => Ok(Found::Sound(digits_of_word(alloc, words, width, bounds, both)?)),
        Found::Noted(fault, both) => {
            Ok(Found::Noted(fault, digits_of_word(alloc, words, width, bounds, both)?))
        }
        Found::Lost(fault) => Ok(Found::Lost(fault)),
    }
}

/// A memory with selects, where `place` is the number of its name. Only want of memory is an error.
fn memory(
    alloc: Global,
    place: TokenNumber,
    words: Words,
    width: u8,
    bounds: Bounds,
    selects: CheckedSelects,
) -> Result<Found<Checked>, NoMemory>
    ensures { IfOk result (MemoryMade place words width bounds selects) }
{
    match selects {
        CheckedSelects::Whole => Ok(Found::broken(ElabRule::BadRange, place)),
        CheckedSelects::One(select) => Ok(word_select(alloc, words, width, select)?),
        CheckedSelects::OfWord(index, select) => {
            let found = index.followed_by(chosen(place, bounds, select));
            Ok(chosen_from_word(alloc, words, width, bounds, found)?)
        }
    }
}

/// A net, a register or a memory with selects, where `place` is the number of its name. Only want of memory is an error.
fn object(
    alloc: Global,
    place: TokenNumber,
    object: DataObject,
    selects: CheckedSelects,
) -> Result<Found<Checked>, NoMemory>
    requires { IsProper (Some (Object object)) }
    ensures { IfOk result (NamesObject place object selects) }
{
    let bounds = object.bounds;
    let width = width(bounds);
    match object.words {
        None => {
            let signal = Term::Signal(SigId(object.first), width);
            Ok(vector(alloc, place, signal, width, bounds, selects)?)
        }
        Some(range) => {
            let words = words(object.first, range);
            Ok(memory(alloc, place, words, width, bounds, selects)?)
        }
    }
}

/// A name with selects whose expressions were checked, where `place` is the number of the name (IEEE 1364-2005, clause 5.2). Only
/// want of memory is an error.
pub fn named(
    alloc: Global,
    scope: &Scope,
    name: &[u8],
    place: TokenNumber,
    selects: CheckedSelects,
) -> Result<Found<Checked>, NoMemory>
    requires { AreProper (means scope.now) }
    ensures { IfOk result (ChecksName (means scope.now) name.now place selects) }
{
    match scope.find(name) {
        None => {
            drop(selects);
            Ok(Found::broken(ElabRule::UnknownName, place))
        }
        Some(Meaning::Later) => {
            drop(selects);
            Ok(Found::broken(ElabRule::NotConstant, place))
        }
        Some(Meaning::Constant(value, bounds)) => {
            let width = value.width();
            Ok(vector(alloc, place, Term::Const(*value), width, *bounds, selects)?)
        }
        Some(Meaning::Object(data)) => Ok(object(alloc, place, *data, selects)?),
    }
}
