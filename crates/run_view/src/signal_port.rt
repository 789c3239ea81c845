//! Values that are written to signals, and the writes that are staged.
//!
//! [`to_bits`] gives the digits that a signal of some width gets from a value, or the fault that the write raises. A [`WriteStage`] keeps
//! the writes that are to go out in the next read-write phase.
mod queue;
mod stage;
mod staged;
mod tally;
mod written;

pub use stage::WriteStage;
pub use staged::Staged;
pub use written::to_bits;
