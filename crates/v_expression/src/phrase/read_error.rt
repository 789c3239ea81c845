//! Why reading stopped.

ghost use Rattle.std.specs.Prelude.{◌≡◌};
ghost use Rattle.v_expression.specs.declared.phrase.read_error.ReadError.TheVariants.{OutOfMemory};

use port_io::NoMemory;
use std::alloc::{AllocError, AllocFailed};

/// Why a text was not read. A number is that of the tokens that are left, with the refused one.
#[derive(Clone, Copy, Debug, PartialEq, Eq)]
pub enum ReadError {
    /// No tree goes through the token.
    Syntax(usize),
    /// Only trees that are too high go through the token.
    TooDeep(usize),
    /// Memory ran out; nothing is said of the text.
    OutOfMemory,
}

impl<T: Drop> From<AllocFailed<T>> for ReadError {
    ghost from_gives = { λ _ e. e ≡ OutOfMemory };

    fn from(_e: AllocFailed<T>) -> ReadError {
        ReadError::OutOfMemory
    }
}

impl From<AllocError> for ReadError {
    ghost from_gives = { λ _ e. e ≡ OutOfMemory };

    fn from(_e: AllocError) -> ReadError {
        ReadError::OutOfMemory
    }
}

impl From<NoMemory> for ReadError {
    ghost from_gives = { λ _ e. e ≡ OutOfMemory };

    fn from(_e: NoMemory) -> ReadError {
        ReadError::OutOfMemory
    }
}
