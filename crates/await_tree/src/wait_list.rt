//! Who waits for what.
//!
//! [`Awaits`] keeps the tasks that wait, each with its tree of triggers, and the keys that the runner itself holds. It wakes those whom a key, an
//! event, the end of a task or a lock reaches, and keeps the keys of all trees registered at a simulator, each once. Whom it wakes goes into
//! [`Ready`], the ring of ready tasks. [`Steps`] counts the steps of work that this takes.
//!
//! Trees stand in `await_tree`, and the simulator in `gpi`. Events, locks and ended tasks, and what a task does in its turn, are left to the
//! crates above.
mod awaits;
mod ready;
mod steps;

pub use awaits::Awaits;
pub use ready::{Entry, Ready};
pub use steps::Steps;
