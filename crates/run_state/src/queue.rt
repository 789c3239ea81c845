//! What is ready, what waits, and what the runner itself awaits.
//!
//! A [`RunQueue`] keeps the ready tasks, the waiting ones by any `Awaits`, the staged writes, the deadline of the test that runs and the planned
//! start of the next one, so that the awaited keys are registered at a simulator, each once. Each call does one effect of `rig_model::run`'s
//! definition:
//! a task begins to wait or is killed, a write is staged, an event that is set or a task that has ended wakes its waiters, a lock is handed on, a
//! time is awaited, all is dropped. Events of the simulator and deposits are left to the crates above.
mod clear;
mod queue;
mod times;
mod waits;
mod writes;

pub use queue::RunQueue;
