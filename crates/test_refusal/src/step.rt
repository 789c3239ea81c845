//! The pass at one item.

ghost use Rattle.std.specs.Prelude.{◌≡◌, ◌||◌, ◌&&◌, not, IfOk};
ghost use Rattle.std.specs.List.{flat_map, list_any};
ghost use Rattle.test_names.specs.Duplicates.Twice.{AreNames};
ghost use Rattle.test_refusal.specs.Items.Functions.{function_name};
ghost use Rattle.test_refusal.specs.Items.OwnLine.{own_rule};
ghost use Rattle.test_refusal.specs.Makers.SoFar.{StandsFor, cut};
ghost use Rattle.test_meaning.specs.Rules.File.{file_of, is_function, is_made_name, is_test, line_of, names_of, places};
ghost use Rattle.test_meaning.specs.Rules.Rules.{first_broken, is_generation, refused_at, tests_among};
ghost use Rattle.test_meaning.specs.Rules.Uses.{inner_lines};
ghost use Rattle.test_refusal.specs.Pass.{IsSeen, IsStepTo, defined_rule, first_of_item};
ghost use Rattle.test_refusal.specs.Places.{Stands, file_of_whole, items_to, place_of};

use crate::item::is_generation;
use crate::items::{is_decorator, of_inner_lines};
use crate::makers::{Makers, cut};
use crate::own::{is_test, later_rule, placed_rule};
use crate::{Place, Seen, Step};
use name_table::Names;
use port_io::NoMemory;
use std::alloc::Global;
use test_meaning::rules::FileRule;
use test_names::duplicates::with_item;

/// How many tests stand at an item and above it, where one above the limit stands for all that are more.
fn tests_so_far(place: &Place<'_, '_>, seen: &Seen) -> usize
    requires stands { Stands place.now }
    requires seen { IsSeen (file_of_whole place.now.whole.now) (place_of place.now).above seen.now }
    ensures { result ≡ cut (tests_among (file_of_whole place.now.whole.now) (places (items_to place.now))) }
{
    let is_test = is_test(place, seen.is_decorated);
    cut(seen.tests + seen.makers.tests_at(is_test, place.item))
}

/// Whether a test outside of factories stands at an item or above it, or tests are generated there, if only none.
fn has_tests_so_far(place: &Place<'_, '_>, seen: &Seen) -> bool
    ensures { result ≡ ((seen.now.has_tests || (is_function (place_of place.now).item
        && (seen.now.is_decorated && not (is_made_name (file_of_whole place.now.whole.now) (function_name (place_of place.now).item)))))
        || is_generation (place_of place.now).item) }
{
    seen.has_tests || is_test(place, seen.is_decorated) || is_generation(place.item)
}

/// What stands above the next item, from what this one adds to it. Only want of memory is an error.
fn below(
    alloc: Global,
    place: &Place<'_, '_>,
    names: Names,
    makers: Makers,
    tests: usize,
    has_tests: bool,
) -> Result<Seen, NoMemory>
    requires names { AreNames (flat_map names_of (items_to place.now)) names }
    requires makers { StandsFor (place_of place.now).above makers }
    requires tests { tests ≡ cut (tests_among (file_of_whole place.now.whole.now) (places (items_to place.now))) }
    requires has_tests { has_tests ≡ (list_any (is_test (file_of_whole place.now.whole.now)) (file_of (items_to place.now)).functions
        || list_any is_generation (items_to place.now)) }
    ensures { IfOk result (IsSeen (file_of_whole place.now.whole.now) (items_to place.now)) }
{
    let makers = makers.with_item(alloc, place.item)?;
    Ok(Seen {
        names,
        makers,
        tests,
        has_tests,
        is_decorated: is_decorator(place.item),
    })
}

/// The first rule that an item's own line breaks by what it defines, by its options and by the number of tests; and what stands above the next
/// item, where it breaks none. Only want of memory is an error.
fn defined_step(alloc: Global, place: &Place<'_, '_>, seen: Seen) -> Result<Step, NoMemory>
    requires stands { Stands place.now }
    requires seen { IsSeen (file_of_whole place.now.whole.now) (place_of place.now).above seen }
    ensures { IfOk result (IsStepTo (file_of_whole place.now.whole.now) (items_to place.now)
        (refused_at (line_of (place_of place.now).item) (defined_rule (file_of_whole place.now.whole.now) (place_of place.now)))) }
{
    let tests = tests_so_far(place, &seen);
    let later = later_rule(alloc, place, &seen, tests)?;
    let has_tests = has_tests_so_far(place, &seen);
    let Seen {
        names,
        makers,
        tests: _,
        has_tests: _,
        is_decorated: _,
    } = seen;
    let more = with_item(alloc, names, place.item)?;
    let Some(names) = more else {
        return Ok(Step::Refused(place.refusal(FileRule::DuplicateName)));
    };
    if let Some(rule) = later {
        return Ok(Step::Refused(place.refusal(rule)));
    }
    let next = below(alloc, place, names, makers, tests, has_tests)?;
    Ok(Step::On(next))
}

/// The first rule that an item's own line breaks; and what stands above the next item, where it breaks none. Only want of memory is an error.
fn own_step(alloc: Global, place: &Place<'_, '_>, seen: Seen) -> Result<Step, NoMemory>
    requires stands { Stands place.now }
    requires seen { IsSeen (file_of_whole place.now.whole.now) (place_of place.now).above seen }
    ensures { IfOk result (IsStepTo (file_of_whole place.now.whole.now) (items_to place.now)
        (refused_at (line_of (place_of place.now).item) (own_rule (file_of_whole place.now.whole.now) (place_of place.now)))) }
{
    let found = placed_rule(alloc, place, seen.is_decorated)?;
    match found {
        Some(rule) => Ok(Step::Refused(place.refusal(rule))),
        None => defined_step(alloc, place, seen),
    }
}

/// The first line of an item's block that breaks a rule; and this, where there is none. Only want of memory is an error.
fn inner_step(alloc: Global, place: &Place<'_, '_>, seen: Seen) -> Result<Step, NoMemory>
    requires { IsSeen (file_of_whole place.now.whole.now) (items_to place.now) seen }
    ensures { IfOk result (IsStepTo (file_of_whole place.now.whole.now) (items_to place.now)
        (first_broken (file_of_whole place.now.whole.now) (inner_lines (file_of (place_of place.now).above) (place_of place.now).item))) }
{
    let found = of_inner_lines(alloc, &place.scope(), place.item)?;
    match found {
        Some(refusal) => Ok(Step::Refused(refusal)),
        None => Ok(Step::On(seen)),
    }
}

/// The first line of an item that breaks a rule, its own or one of its block; and what stands above the next item, where there is none. Only want
/// of memory is an error.
pub(crate) fn step(alloc: Global, place: &Place<'_, '_>, seen: Seen) -> Result<Step, NoMemory>
    requires stands { Stands place.now }
    requires seen { IsSeen (file_of_whole place.now.whole.now) (place_of place.now).above seen }
    ensures { IfOk result (IsStepTo (file_of_whole place.now.whole.now) (items_to place.now)
        (first_of_item (file_of_whole place.now.whole.now) (place_of place.now))) }
{
    let own = own_step(alloc, place, seen)?;
    match own {
        Step::On(next) => inner_step(alloc, place, next),
        Step::Refused(refusal) => Ok(Step::Refused(refusal)),
    }
}
