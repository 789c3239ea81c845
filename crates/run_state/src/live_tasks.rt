//! The live tasks of a test (cocotb 1.8, "Coroutines and Tasks").
//!
//! [`LiveTasks`] keeps them by number, polls them and drops them, for any `Flow` of `rig_model::task`. How they are made and how they have
//! ended, who is ready and who waits is left to the crates above.
mod place;
mod tasks;

pub use tasks::LiveTasks;
