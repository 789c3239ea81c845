//! What a running test holds: its tasks, the tasks that are ready or wait with the staged writes, and the lines that it writes.
//!
//! [`live_tasks`] and [`test_tasks`] keep the tasks of a test, [`queue`] is who has a turn, who waits and what is staged, and [`lines`] are the
//! lines of a run.
#![tactic(auto)]

pub mod lines;
pub mod live_tasks;
pub mod queue;
pub mod test_tasks;
