//! Signals that follow one another.

/// So many signals, from the first one on: one for a net or a register, and all words of a memory.
#[derive(Clone, Copy, Debug, PartialEq, Eq)]
pub struct Span {
    /// The number of the first signal in the design.
    pub first: u32,
    /// How many signals.
    pub count: u32,
}
