//! Whether the options of an item are right.

ghost use Rattle.std.specs.Prelude.{◌≡◌, IfOk};
ghost use Rattle.test_meaning.specs.Rules.File.{file_of};
ghost use Rattle.test_meaning.specs.Rules.Rules.{has_right_options};
ghost use Rattle.test_refusal.specs.Makers.SoFar.{StandsFor};
ghost use Rattle.test_refusal.specs.Places.{file_of_whole, place_of};

use crate::Place;
use crate::item::settings;
use crate::makers::Makers;
use crate::settings::are_right_settings;
use crate::values::ModuleValues;
use port_io::NoMemory;
use std::alloc::Global;

/// Whether the options of a decorator or of a factory are right (else BadOption). Only want of memory is an error.
pub(crate) fn has_right_options(
    alloc: Global,
    place: &Place<'_, '_>,
    makers: &Makers,
) -> Result<bool, NoMemory>
    requires { StandsFor (place_of place.now).above makers.now }
    ensures { IfOk result
        (λ yes. yes ≡ has_right_options (file_of_whole place.now.whole.now) (file_of (place_of place.now).above) (place_of place.now).item) }
{
    let values = ModuleValues {
        items: &place.whole.file.items,
        places: place.whole.places,
    };
    match settings(place.item) {
        Some(settings) => are_right_settings(alloc, &values, settings),
        None => Ok(makers.has_right_options(&place.scope(), place.item)),
    }
}
