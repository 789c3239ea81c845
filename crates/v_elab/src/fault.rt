//! Why a text has no flat design.

ghost use Rattle.std.specs.Prelude.{◌≡◌};
ghost use Rattle.v_flat.specs.Design.{byte_of};

use v_flat::scope::{Broken, ElabRule};

/// Why a text has no flat design.
#[derive(Clone, Copy, Debug, PartialEq, Eq)]
pub enum ElabFault {
    /// The rule that is broken first, and the byte at which it is.
    Rule(ElabRule, u32),
    /// Memory has run out.
    OutOfMemory,
}

/// The byte at which a rule is broken: that of its token, or 0 where there is no such place; NoTop is broken at the text's beginning.
pub(crate) fn byte_of(places: &[u32], fault: Broken) -> u32
    ensures { result ≡ byte_of fault.rule places.now fault.place }
{
    match fault.rule {
        ElabRule::NoTop => 0,
        _ => places.get(fault.place.number()).copied().unwrap_or(0),
    }
}
