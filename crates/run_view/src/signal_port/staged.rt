//! A staged write.
use gpi::{SigId, Write};

/// A write that is staged: it goes out in the read-write phase (cocotb 1.8, "Triggers", `ReadWrite`).
#[derive(Clone, Copy, Debug)]
pub struct Staged {
    /// The signal to be written.
    pub sig: SigId,
    /// What is written: the digits of a value are as many as the signal has.
    pub act: Write,
}
