//! Why tokens are refused.

ghost use Rattle.py_expression.specs.declared.phrase.fault.ReadError.TheVariants.{OutOfMemory};
ghost use Rattle.std.specs.Prelude.{◌≡◌};

use port_io::NoMemory;

/// Why a phrase was not read.
#[derive(Clone, Copy, Debug, PartialEq, Eq)]
pub enum ReadError {
    /// None of any height stands at the front of the tokens.
    Wrong,
    /// Memory ran out.
    OutOfMemory,
}

impl From<NoMemory> for ReadError {
    ghost from_gives = { λ _ e. e ≡ OutOfMemory };

    fn from(_: NoMemory) -> Self {
        ReadError::OutOfMemory
    }
}
