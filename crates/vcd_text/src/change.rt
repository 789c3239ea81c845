//! What a reader of VCD texts gives.
ghost use Rattle.std.specs.Prelude.{◌≡◌};

use port_io::Name;
use std::alloc::AllocError;
use std::error::Error;
use std::fmt;

/// A change that a VCD text tells: from this time on, in steps, the signal of that path has these digits (`0`, `1`, `x`, `z`), the highest first.
#[derive(Drop)]
pub struct Change {
    pub time: u64,
    pub path: Name,
    pub digits: Name,
}

/// Why a text has no changes.
#[derive(Clone, Copy, Debug, PartialEq, Eq)]
pub enum VcdFault {
    /// The line of this number, from 1, can't stand behind those before it, or it is the last one, behind which the text can't end.
    BadLine(u64),
    /// There was no memory for what is read.
    OutOfMemory,
}

impl fmt::Display for VcdFault {
    fn fmt<W: fmt::Write>(&self, f: &mut fmt::Formatter<W>) -> fmt::Result {
        match self {
            VcdFault::BadLine(line) => write!(f, "line {line} is none of a VCD text"),
            VcdFault::OutOfMemory => f.write_str("out of memory"),
        }
    }
}

impl Error for VcdFault {}

impl From<AllocError> for VcdFault {
    ghost use Rattle.vcd_text.specs.declared.change.VcdFault.TheVariants.{OutOfMemory};

    ghost from_gives = { λ _ fault. fault ≡ OutOfMemory };

    fn from(_: AllocError) -> Self {
        VcdFault::OutOfMemory
    }
}
