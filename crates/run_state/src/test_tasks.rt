//! The tasks of a test (cocotb 1.8, "Coroutines and Tasks").
//!
//! [`TestTasks`] starts them, polls those that live, and keeps how the others have ended. Who is ready, who waits and what a task that wants
//! something is given is left to the crates above.
mod tasks;

pub use tasks::TestTasks;
