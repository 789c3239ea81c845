//! Which of several broken rules counts.

ghost use Rattle.std.specs.Prelude.{◌≡◌};
ghost use Rattle.v_laws.specs.Least.{Counts};
ghost use Rattle.v_laws.specs.Steps.{with_fault};

use v_flat::scope::{Broken, earlier};

/// Of the rules that are broken in one item the one that counts: the first by its place, and at one place the one that stands first in the
/// table of rules. None where none is broken.
pub fn first_broken(faults: &[Broken]) -> Option<Broken>
    ensures { Counts faults.now result }
{
    let mut first = None;
    for fault in faults {
        first = Some(counted(first, *fault));
    }
    first
}

/// With one more broken rule.
fn counted(first: Option<Broken>, fault: Broken) -> Broken
    ensures { result ≡ with_fault first fault }
{
    match first {
        None => fault,
        Some(other) => earlier(other, fault),
    }
}
