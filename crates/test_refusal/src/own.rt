//! What an item's own line breaks.

ghost use Rattle.std.specs.Prelude.{◌≡◌, ◌&&◌, ◌||◌, not, IfOk};
ghost use Rattle.test_refusal.specs.Items.Functions.{function_name, is_decorated_behind};
ghost use Rattle.test_refusal.specs.Makers.SoFar.{cut};
ghost use Rattle.test_meaning.specs.Rules.File.{is_function, is_made_name, parameters_of, places};
ghost use Rattle.test_meaning.specs.Rules.Rules.{has_misfit, is_stray, lacks_parameters, tests_among};
ghost use Rattle.test_refusal.specs.Pass.{IsSeen, later_rule, placed_rule};
ghost use Rattle.test_refusal.specs.Places.{Stands, file_of_whole, items_to, place_of};

use crate::item::{function_name, is_function, parameters_of};
use crate::items::{imports_unknown, is_stray, lacks_parameters, of_own_uses};
use crate::makers::TEST_LIMIT;
use crate::options::has_right_options;
use crate::{Place, Seen};
use port_io::NoMemory;
use std::alloc::Global;
use test_meaning::rules::FileRule;
use test_names::uses::first_of;

/// Whether an item is a function that lacks parameters, where a decorator stands directly above it or doesn't.
fn has_misfit(place: &Place<'_, '_>, is_decorated: bool) -> bool
    ensures { result ≡ (is_function (place_of place.now).item
        && lacks_parameters is_decorated (is_made_name (file_of_whole place.now.whole.now) (function_name (place_of place.now).item))
        (parameters_of (place_of place.now).item)) }
{
    is_function(place.item)
        && lacks_parameters(
            is_decorated,
            place.whole.is_made(function_name(place.item)),
            parameters_of(place.item),
        )
}

/// Whether an item stands where it can't: a decorator without a function, or a function without the parameters that it needs.
fn is_misplaced(place: &Place<'_, '_>, is_decorated: bool) -> bool
    requires stands { Stands place.now }
    requires decorated { is_decorated ≡ is_decorated_behind (place_of place.now).above }
    ensures { result ≡ (is_stray (place_of place.now) || has_misfit (file_of_whole place.now.whole.now) (place_of place.now)) }
{
    is_stray(place.item, place.below) || has_misfit(place, is_decorated)
}

/// Whether an item is a function that is a test outside of factories, where a decorator stands directly above it or doesn't.
pub(crate) fn is_test(place: &Place<'_, '_>, is_decorated: bool) -> bool
    ensures { result ≡ (is_function (place_of place.now).item
        && (is_decorated && not (is_made_name (file_of_whole place.now.whole.now) (function_name (place_of place.now).item)))) }
{
    is_function(place.item) && (is_decorated && !place.whole.is_made(function_name(place.item)))
}

/// The first rule that an item's own line breaks by what it imports, by what it uses and by where it stands. Only want of memory is an error.
pub(crate) fn placed_rule(
    alloc: Global,
    place: &Place<'_, '_>,
    is_decorated: bool,
) -> Result<Option<FileRule>, NoMemory>
    requires stands { Stands place.now }
    requires decorated { is_decorated ≡ is_decorated_behind (place_of place.now).above }
    ensures { IfOk result (λ found. found ≡ placed_rule (file_of_whole place.now.whole.now) (place_of place.now)) }
{
    if imports_unknown(alloc, place.item)? {
        return Ok(Some(FileRule::UnknownImport));
    }
    let misplaced = is_misplaced(place, is_decorated).then_some(FileRule::Misplaced);
    Ok(first_of(of_own_uses(&place.scope(), place.item), misplaced))
}

/// The first rule that an item's own line breaks by its options and by the number of tests, with those at this item. Only want of memory is an
/// error.
pub(crate) fn later_rule(
    alloc: Global,
    place: &Place<'_, '_>,
    seen: &Seen,
    tests: usize,
) -> Result<Option<FileRule>, NoMemory>
    requires seen { IsSeen (file_of_whole place.now.whole.now) (place_of place.now).above seen.now }
    requires tests { tests ≡ cut (tests_among (file_of_whole place.now.whole.now) (places (items_to place.now))) }
    ensures { IfOk result (λ found. found ≡ later_rule (file_of_whole place.now.whole.now) (place_of place.now)) }
{
    if !has_right_options(alloc, place, &seen.makers)? {
        return Ok(Some(FileRule::BadOption));
    }
    Ok((tests > TEST_LIMIT).then_some(FileRule::TooManyCases))
}
