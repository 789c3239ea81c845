//! Why a line is refused.

/// Why a line of a function's body was not read.
#[derive(Clone, Copy, Debug, PartialEq, Eq)]
pub enum LineError {
    /// No statement and no header of any height is spelled so.
    NoForm,
    /// The line has a form, but its height is over 64.
    TooHigh,
    /// Memory ran out.
    OutOfMemory,
}
