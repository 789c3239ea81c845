//! Why a text is refused.

ghost use Rattle.py_parse.specs.declared.fault.PyFault.TheVariants.{OutOfMemory};
ghost use Rattle.std.specs.Prelude.{◌≡◌};

use port_io::NoMemory;

/// Why lines are no module, with the number of the first physical line of the first logical line that is at fault. On one line the
/// first of these that holds counts.
#[derive(Clone, Copy, Debug, PartialEq, Eq)]
pub enum PyFault {
    /// A line that has no form in its place.
    BadLine(u32),
    /// A header without a block, or a `try` without an `except` behind its block.
    NoBlock(u32),
    /// A line in more than 32 blocks, or with a height over 64.
    TooDeep(u32),
    /// Memory ran out.
    OutOfMemory,
}

impl From<NoMemory> for PyFault {
    ghost from_gives = { λ _ e. e ≡ OutOfMemory };

    fn from(_: NoMemory) -> Self {
        PyFault::OutOfMemory
    }
}

/// Why a line says nothing.
#[derive(Clone, Copy, Debug, PartialEq, Eq)]
pub enum ContentFault {
    /// It has no form, of any height.
    Nothing,
    /// Its form is over the limit on heights.
    TooHigh,
    /// Memory ran out.
    OutOfMemory,
}
