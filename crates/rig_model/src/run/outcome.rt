//! How tests end.

use gpi::SigId;
use py_value::Fault;

/// How a test ended.
#[derive(Drop)]
pub enum Outcome {
    /// Its own task returned.
    Normal,
    /// A fault that no task caught or joined, a time limit of the test that was refused, or SimTimeoutError where that limit was reached.
    Raised(Fault),
    /// A task wrote this signal in the read-only phase (cocotb 1.8, "Triggers", `ReadOnly`).
    ReadOnlyWrite(SigId),
    /// No task was ready, and nothing was left that the simulator could do.
    Stalled,
}

/// What the report says of a test.
#[derive(Clone, Copy, Debug, PartialEq, Eq)]
pub enum Verdict {
    Pass,
    Fail,
    /// The test has `skip=True` (cocotb 1.8, `cocotb.test`).
    Skip,
}
