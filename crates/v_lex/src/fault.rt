//! Why a text is refused.

ghost use Rattle.std.specs.Prelude.{◌≡◌};
ghost use Rattle.v_lex.specs.Faults.{fault_of};
ghost use Rattle.v_lex.specs.declared.fault.LexFault.TheVariants.{OutOfMemory};

use crate::directive::{BrokenRule, LexRule};
use port_io::NoMemory;
use std::alloc::AllocFailed;

/// The first rule that a text breaks, with its byte place, counted from 0.
#[derive(Clone, Copy, Debug, PartialEq, Eq)]
pub enum LexFault {
    /// A byte that begins no token.
    BadByte(u32),
    /// A number whose size is 0 or over 128, with no digit or a digit that isn't of its base, or whose decimal value is
    /// over 2 to the power of 128, less 1 (IEEE 1364-2005, clause 3.5). The place is its first byte.
    BadNumber(u32),
    /// A text that isn't closed on its line, or a comment that isn't closed (clauses 3.3 and 3.6). The place is its first
    /// byte.
    UnclosedText(u32),
    /// A directive that isn't known, is broken, or stands where it may not, or a conditional that stays open (clause 19).
    /// The place is its backquote; of a conditional that stays open, that of its opening directive.
    Directive(u32),
    /// Memory ran out.
    OutOfMemory,
}

impl From<BrokenRule> for LexFault {
    ghost from_gives = { λ b f. f ≡ fault_of b };

    fn from(broken: BrokenRule) -> LexFault {
        match broken.rule {
            LexRule::BadByte => LexFault::BadByte(broken.place),
            LexRule::BadNumber => LexFault::BadNumber(broken.place),
            LexRule::UnclosedText => LexFault::UnclosedText(broken.place),
            LexRule::Directive => LexFault::Directive(broken.place),
        }
    }
}

impl From<NoMemory> for LexFault {
    ghost from_gives = { λ _ f. f ≡ OutOfMemory };

    fn from(_: NoMemory) -> LexFault {
        LexFault::OutOfMemory
    }
}

impl<T: Drop> From<AllocFailed<T>> for LexFault {
    ghost from_gives = { λ _ f. f ≡ OutOfMemory };

    fn from(_: AllocFailed<T>) -> LexFault {
        LexFault::OutOfMemory
    }
}
