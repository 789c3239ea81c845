//! One declaration more.

ghost use Rattle.std.specs.Prelude.{◌≡◌, ℕ, List, IfOk};
ghost use Rattle.v_flat.specs.Scope.Found.{ForValue, each};
ghost use Rattle.v_flat.specs.declared.scope.found.Found.TheVariants as found_kind;
ghost use Rattle.v_syntax.specs.SourceTrees.{view_range};
ghost use Rattle.v_flat.specs.Declarations.{declare, declare_memory, find_declared, is_new};
ghost use Rattle.v_layout.specs.Counted.{KeepsWords};
ghost use Rattle.v_layout.specs.Kept.{named_declared};
ghost use Rattle.v_header.specs.Parameter.Constants.{AreConstants};
ghost use Rattle.v_layout.specs.Place.{place_in};
ghost use Rattle.v_layout.specs.DeclareSteps.{again_found, either_found, first_found, name_found, sized_found};

use crate::details::{Declared, Sort};
use crate::place::Place;
use crate::so_far::DeclaredNames;
use port_io::NoMemory;
use std::alloc::Global;
use v_flat::scope::{Bounds, ElabRule, Found};
use v_syntax::{Identifier, Range, TokenNumber};

/// What is found in the first declaration of a name.
fn first(
    place: &Place<'_>,
    at: TokenNumber,
    name: &[u8],
    declared: Declared,
    so_far: &DeclaredNames,
) -> Found<Declared>
    ensures { each (named_declared name.now) result ≡ first_found (place_in place.now) at (named_declared name.now declared) so_far.now }
{
    let has_room = so_far.has_room(place.first, declared);
    let may_be = place.may_be(name, declared);
    Found::Sound(declared)
        .wants(has_room, ElabRule::TooMany, at)
        .wants(may_be, ElabRule::BadPort, at)
}

/// What is found in a further declaration of a name.
fn again(
    place: &Place<'_>,
    at: TokenNumber,
    name: &[u8],
    old: Declared,
    declared: Declared,
) -> Found<Declared>
    ensures is { each (named_declared name.now) result
        ≡ again_found (place_in place.now) at (named_declared name.now old) (named_declared name.now declared) }
    ensures words { ForValue (λ d. old.words ≡ d.words) result }
{
    let whole = old.whole(declared);
    let may_be = place.may_be(name, whole);
    Found::Sound(whole)
        .wants(may_be, ElabRule::BadPort, at)
        .needs(old.goes_with(declared), ElabRule::DuplicateName, at)
}

/// What is found in a declaration of a name that is no memory, as far as other declarations go.
fn either(
    place: &Place<'_>,
    at: TokenNumber,
    name: &[u8],
    declared: Declared,
    so_far: &DeclaredNames,
) -> Found<Declared>
    ensures is { each (named_declared name.now) result
        ≡ either_found (place_in place.now) at (named_declared name.now declared) so_far.now (find_declared name.now so_far.now) }
    ensures words { ForValue (λ d. KeepsWords (named_declared name.now d) so_far.now) result }
{
    match so_far.find(name) {
        None => first(place, at, name, declared, so_far),
        Some(old) => again(place, at, name, old, declared),
    }
}

/// What is found in a declaration of a name that is no memory.
fn found(
    place: &Place<'_>,
    at: TokenNumber,
    name: &[u8],
    declared: Declared,
    so_far: &DeclaredNames,
) -> Found<Declared>
    requires { AreConstants place.now.constants.now }
    ensures is { each (named_declared name.now) result ≡ name_found (place_in place.now) at (named_declared name.now declared) so_far.now }
    ensures words { ForValue (λ d. KeepsWords (named_declared name.now d) so_far.now) result }
{
    let is_free = place.is_free(name);
    either(place, at, name, declared, so_far).needs(is_free, ElabRule::DuplicateName, at)
}

/// Declares a name that is no memory. A name of a parameter or of another declaration breaks DuplicateName at it, but for a port, whose
/// direction and `wire` or `reg` may be declared apart; a direction of what is no port, and a `reg` that is an input, break BadPort; and
/// more than 65,536 signals TooMany. Only want of memory is an error.
pub(crate) fn declare(
    alloc: Global,
    place: &Place<'_>,
    name: &Identifier,
    declared: Declared,
    so_far: DeclaredNames,
) -> Result<Found<DeclaredNames>, NoMemory>
    requires { AreConstants place.now.constants.now }
    ensures { IfOk result (λ more. more ≡ declare (place_in place.now) name.now.at (named_declared name.now.name declared) so_far) }
{
    let bytes = name.name.bytes();
    let found = found(place, name.at, bytes, declared, &so_far);
    so_far.with(alloc, bytes, found)
}

/// What is found in a memory, from what was found in the range of its words.
fn sized(
    place: &Place<'_>,
    at: TokenNumber,
    bounds: Bounds,
    so_far: &DeclaredNames,
    words: Found<Bounds>,
) -> Found<Declared>
    ensures { (n : List ℕ) → each (named_declared n) result ≡ sized_found (place_in place.now) at bounds n so_far.now words }
{
    match words {
        Found::Sound(words) => memory_of(place, at, bounds, so_far, words),
        Found::Noted(fault, words) => memory_of(place, at, bounds, so_far, words).noted(fault),
        Found::Lost(fault) => Found::Lost(fault),
    }
}

/// A memory with these words, for which there has to be room.
fn memory_of(
    place: &Place<'_>,
    at: TokenNumber,
    bounds: Bounds,
    so_far: &DeclaredNames,
    words: Bounds,
) -> Found<Declared>
    ensures { (n : List ℕ) → each (named_declared n) result ≡ sized_found (place_in place.now) at bounds n so_far.now (found_kind.Sound words) }
{
    let memory = Declared {
        direction: None,
        sort: Some(Sort::Reg),
        bounds,
        words: Some(words),
    };
    let has_room = so_far.has_room(place.first, memory);
    Found::Sound(memory).wants(has_room, ElabRule::TooMany, at)
}

/// Whether a name is neither that of a parameter nor declared.
fn is_new(place: &Place<'_>, name: &[u8], so_far: &DeclaredNames) -> bool
    requires { AreConstants place.now.constants.now }
    ensures { result ≡ is_new name.now (place_in place.now) so_far.now }
{
    match so_far.find(name) {
        None => place.is_free(name),
        Some(_) => false,
    }
}

/// Declares a memory (IEEE 1364-2005, clause 4.9), whose words are signals. A name that is declared already breaks DuplicateName at it,
/// and more than 65,536 signals TooMany. Only want of memory is an error.
pub(crate) fn declare_memory(
    alloc: Global,
    place: &Place<'_>,
    bounds: Bounds,
    name: &Identifier,
    words: &Range,
    so_far: DeclaredNames,
) -> Result<Found<DeclaredNames>, NoMemory>
    requires { AreConstants place.now.constants.now }
    ensures { IfOk result (λ more. more ≡ declare_memory (place_in place.now) bounds name.now (view_range words.now) so_far) }
{
    let bytes = name.name.bytes();
    let is_new = is_new(place, bytes, &so_far);
    let words = place.bounds(alloc, words)?;
    let found = sized(place, name.at, bounds, &so_far, words);
    let found = found.needs(is_new, ElabRule::DuplicateName, name.at);
    so_far.with(alloc, bytes, found)
}
