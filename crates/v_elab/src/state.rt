//! An instance between two of its items.

ghost use Rattle.std.specs.Prelude.{◌≡◌, ◌≤◌, length, IfOk};
ghost use Rattle.v_flat.specs.Scope.Limits.{most_parts};
ghost use Rattle.v_elab.specs.ItemsSteps.{AddsFound};

use gpi::{Process, Spot};
use port_io::{Name, NoMemory, Sequence};
use v_flat::scope::{Found, Scope};
use v_layout::build::Parts;
use v_process::drive::DrivenDigits;

/// An instance between two of its items.
#[derive(Drop)]
pub struct State {
    /// What its names mean.
    pub scope: Scope,
    /// What is built of the whole design so far.
    pub parts: Parts,
    /// Which digits of its nets are driven already.
    pub driven: DrivenDigits,
    /// The names that are known in it so far, each with what has it.
    pub children: Sequence<(Name, Spot)>,
}

/// How many signals there are so far.
pub(crate) fn signal_count(parts: &Parts) -> u32
    requires { length parts.now.signals ≤ most_parts }
    ensures { result ≡ length parts.now.signals }
{
    parts.signals.len() as u32
}

/// The instance with a process more, from what was found of it. Only want of memory is an error.
pub(crate) fn with_found(
    process: Found<Process>,
    mut state: State,
) -> Result<Found<State>, NoMemory>
    ensures { IfOk result (AddsFound state process) }
{
    match process {
        Found::Sound(process) => {
            state.parts.processes.push(process)?;
            Ok(Found::Sound(state))
        }
        Found::Noted(fault, _process) => Ok(Found::Noted(fault, state)),
        Found::Lost(fault) => Ok(Found::Lost(fault)),
    }
}
