//! What is found in a name with selects, where it is assigned to.

ghost use Rattle.std.specs.Prelude.{◌≡◌, Some};
ghost use Rattle.gpi.specs.declared.targets.Object.TheVariants.{Signal};
ghost use Rattle.v_flat.specs.Scope.Scope.{means};
ghost use Rattle.v_flat.specs.declared.scope.meaning.Meaning.TheVariants as meant;
ghost use Rattle.v_flat.specs.Objects.{range_of};
ghost use Rattle.v_check.specs.Names.Proper.{AreProper, IsProper};
ghost use Rattle.v_process.specs.Target.Made.{MemoryMade, ObjectMade, VectorMade, part_target, whole_target, word_target};
ghost use Rattle.v_process.specs.Target.Targets.{ChecksTargetName};

use crate::target::{CheckedTarget, Manner};
use gpi::{Object, SigId, Target, Words};
use v_check::names::{
    CheckedSelect, CheckedSelects, Choice, chosen, range, second_select, width, words,
};
use v_flat::scope::{Bounds, DataObject, ElabRule, Found, Meaning, Scope};
use v_syntax::TokenNumber;

/// All digits of an object.
fn whole(object: Object) -> CheckedTarget
    ensures { result ≡ whole_target object }
{
    CheckedTarget {
        width: object.width(),
        target: Target::Whole(object),
    }
}

/// Digits of an object that has this range.
fn digits(object: Object, bounds: Bounds, choice: Choice) -> CheckedTarget
    ensures { result ≡ part_target object (range_of bounds) choice }
{
    let Choice { index, width } = choice;
    CheckedTarget {
        width,
        target: Target::Select(object, range(bounds), index, width),
    }
}

/// A vector of `width` digits with selects, where `place` is the number of its name.
fn vector(
    place: TokenNumber,
    signal: SigId,
    width: u8,
    bounds: Bounds,
    selects: CheckedSelects,
) -> Found<CheckedTarget>
    ensures { VectorMade place (Signal signal width) bounds selects result }
{
    match selects {
        CheckedSelects::Whole => Found::Sound(whole(Object::Signal(signal, width))),
        CheckedSelects::One(select) => {
            chosen(place, bounds, select).each(|choice| {
                digits(Object::Signal(signal, width), bounds, choice)
            })
        }
        CheckedSelects::OfWord(word, select) => {
            let found = second_select(word, select.place());
            drop(select);
            found
        }
    }
}

/// One select on a memory: it has to be an index, or else BadRange is broken at it.
fn word_select(words: Words, width: u8, select: CheckedSelect) -> Found<CheckedTarget>
    ensures { result ≡ word_target words width select }
{
    match select {
        CheckedSelect::Bit { index, .. } => {
            index.each(|index| whole(Object::Word(words, index, width)))
        }
        other => {
            let place = other.place();
            drop(other);
            Found::broken(ElabRule::BadRange, place)
        }
    }
}

/// A memory with selects, where `place` is the number of its name.
fn memory(
    place: TokenNumber,
    words: Words,
    width: u8,
    bounds: Bounds,
    selects: CheckedSelects,
) -> Found<CheckedTarget>
    ensures { MemoryMade place words width bounds selects result }
{
    match selects {
        CheckedSelects::Whole => Found::broken(ElabRule::BadRange, place),
        CheckedSelects::One(select) => word_select(words, width, select),
        CheckedSelects::OfWord(index, select) => {
            index.followed_by(chosen(place, bounds, select)).each(|(index, choice)| {
                digits(Object::Word(words, index, width), bounds, choice)
            })
        }
    }
}

/// A net, a register or a memory with selects, where `place` is the number of its name.
fn object(place: TokenNumber, object: DataObject, selects: CheckedSelects) -> Found<CheckedTarget>
    requires { IsProper (Some (meant.Object object)) }
    ensures { ObjectMade place object object.words selects result }
{
    let bounds = object.bounds;
    let width = width(bounds);
    match object.words {
        None => vector(place, SigId(object.first), width, bounds, selects),
        Some(range) => memory(place, words(object.first, range), width, bounds, selects),
    }
}

/// A name that is assigned to, with selects whose expressions were checked, where `place` is the number of the name (IEEE 1364-2005,
/// clauses 6.1 and 9.2). Where it is not of the right kind, BadTarget is broken at it, and there is no target; but what is broken in its
/// selects counts too, also in those of a constant, which has no target.
pub fn named(
    scope: &Scope,
    manner: Manner,
    name: &[u8],
    place: TokenNumber,
    selects: CheckedSelects,
) -> Found<CheckedTarget>
    requires { AreProper (means scope.now) }
    ensures { ChecksTargetName manner (means scope.now) name.now place selects result }
{
    match scope.find(name) {
        None => {
            drop(selects);
            Found::broken(ElabRule::UnknownName, place)
        }
        Some(Meaning::Later) => {
            drop(selects);
            Found::broken(ElabRule::NotConstant, place)
        }
        Some(Meaning::Constant(value, bounds)) => {
            let width = value.width();
            let found = vector(place, SigId(0), width, *bounds, selects);
            found.needs(false, ElabRule::BadTarget, place)
        }
        Some(Meaning::Object(declared)) => {
            let found = object(place, *declared, selects);
            found.needs(manner.fits(declared.kind), ElabRule::BadTarget, place)
        }
    }
}
