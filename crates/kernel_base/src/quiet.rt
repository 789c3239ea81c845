//! What an event answers that tells nothing, and whom an activation doesn't wake.
ghost use Rattle.std.specs.Prelude.{◌≡◌, [], None};
ghost use Rattle.gpi.specs.Keys.{fired_of};
ghost use Rattle.kernel_base.specs.Lists.{own_of};

use gpi::{Fired, Kind, Moved};

/// Nothing is told, and no key fires.
pub fn unseen() -> Moved
    ensures { result ≡ record { change = None; fired = fired_of [] } }
{
    Moved {
        change: None,
        fired: Fired {
            first: None,
            second: None,
        },
    }
}

/// The process that an activation of it doesn't wake: an `always` isn't woken by itself (IEEE 1364-2005, clause 9.9.2).
pub fn own_of(kind: Kind, process: u32) -> Option<u32>
    ensures { result ≡ own_of kind process }
{
    match kind {
        Kind::Always => Some(process),
        _ => None,
    }
}
