//! The law of separate tests, over the definition of a run: a test knows nothing of those before it but the state of the simulator, the random
//! numbers and the time of its start.
//!
//! Begin with `specs/Separate.antt`. There is no code that runs.
mod laws;

pub use laws::{nothing_is_left_between_tests, runs_are_separate, tests_are_separate};
