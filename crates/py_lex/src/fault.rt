//! Why a text has no logical lines.

ghost use Rattle.std.specs.Prelude.{◌≡◌};
ghost use Rattle.py_lex.specs.Answer.{fault_of};
ghost use Rattle.py_lex.specs.declared.fault.LineFault.TheVariants.{OutOfMemory};

use port_io::NoMemory;
use py_syntax::{Broken, LineRule};

/// Why a text has no logical lines. The number is that of the first line that breaks a rule, from 1; where it breaks several
/// rules, the one that stands first here counts.
#[derive(Clone, Copy, Debug, PartialEq, Eq)]
pub enum LineFault {
    /// A tab stands before the line's first token.
    Tab(u32),
    /// The line is indented less than the one before it, at an indentation that is none of the open blocks'.
    Dedent(u32),
    /// A bracket or a text that begins on the line stays open, or a text meets the line's end.
    UnclosedText(u32),
    /// A byte of the line has no place there, or a closing bracket closes nothing.
    BadByte(u32),
    /// Memory ran out.
    OutOfMemory,
}

impl From<NoMemory> for LineFault {
    ghost from_gives = { λ _ e. e ≡ OutOfMemory };

    fn from(_: NoMemory) -> Self {
        LineFault::OutOfMemory
    }
}

pub fn fault_of(broken: Broken) -> LineFault
    ensures { result ≡ fault_of broken }
{
    match broken.rule {
        LineRule::Tab => LineFault::Tab(broken.line.0),
        LineRule::Dedent => LineFault::Dedent(broken.line.0),
        LineRule::UnclosedText => LineFault::UnclosedText(broken.line.0),
        LineRule::BadByte => LineFault::BadByte(broken.line.0),
    }
}
