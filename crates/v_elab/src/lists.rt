//! The elements of an item, one after the other.

ghost use Rattle.std.specs.Prelude.{◌≡◌, ◌+◌, ◌<◌, ◌^◌, IfOk, cond, count_by};
ghost use Rattle.v_flat.specs.Scope.Found.{ForValue};
ghost use Rattle.v_flat.specs.Design.{in_turn};
ghost use Rattle.v_elab.specs.States.{IsReady};
ghost use Rattle.v_elab.specs.ItemsSteps.{GoesThrough, IsStep};

use crate::state::State;
use crate::steps::Step;
use port_io::NoMemory;
use std::alloc::Global;
use v_flat::scope::Found;

/// How many processes so many are with that of an element, if it gives one.
fn with_element<T: Step>(count: usize, element: &T) -> usize
    requires { count + 1 < 2 ^ 64 }
    ensures { result ≡ cond (T.gives element.now) (count + 1) count }
{
    if element.gives_process() {
        count + 1
    } else {
        count
    }
}

/// How many processes the elements give.
pub(crate) fn process_count<T: Step>(elements: &[T]) -> usize
    ensures { result ≡ count_by T.gives elements.now }
{
    let mut count = 0;
    for element in elements {
        count = with_element(count, element);
    }
    count
}

/// What is found in an element behind others. Only want of memory is an error.
#[tactic(auto, using(crate::proofs::Turns::after_lost))]
fn then<T: Step>(alloc: Global, element: &T, found: Found<State>) -> Result<Found<State>, NoMemory>
    requires { ForValue IsReady found }
    ensures { IfOk result (GoesThrough (T.step element.now) found) }
{
    match found {
        Found::Sound(state) => element.found(alloc, state),
        Found::Noted(fault, state) => Ok(element.found(alloc, state)?.noted(fault)),
        Found::Lost(fault) => Ok(Found::Lost(fault)),
    }
}

/// What is found in each element, one after the other. Only want of memory is an error.
#[tactic(auto, using(crate::proofs::Turns::no_step, crate::proofs::Turns::turns_done))]
pub(crate) fn in_turn<T: Step>(
    alloc: Global,
    elements: &[T],
    state: State,
) -> Result<Found<State>, NoMemory>
    requires { IsReady state }
    ensures { IfOk result (IsStep (in_turn T.step elements.now) state) }
{
    let mut found = Found::Sound(state);
    for element in elements {
        found = then(alloc, element, found)?;
    }
    Ok(found)
}
