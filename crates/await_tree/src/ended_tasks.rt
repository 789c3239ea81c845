//! How the tasks of a test have ended (cocotb 1.8, "Coroutines and Tasks").
//!
//! [`EndedTasks`] keeps of each task that was started in the test whether it lives, and else with what it has ended: the value that it
//! returned, the fault that it failed with, or that it was killed. [`EndedTasks::told`] puts what an ended task gives in the place of
//! `Given::Joined`. The live tasks themselves, and who waits for them, are left to the crates above.
mod ended;
mod ending;

pub use ended::EndedTasks;
pub use ending::Ending;
