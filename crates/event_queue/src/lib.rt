//! What a simulator has still to do: the active processes, and the updates that are due or wait (IEEE 1364-2005, clause 11).
//!
//! A [`Queue`] holds them: the active processes as a ring in which each stands once at most, updates that are due, later ones, which wait for the
//! running processes, and delayed ones, which wait for their time. Begin with [`Queue::new`].
#![tactic(auto)]

mod delayed;
mod queue;
mod ring;
mod updates;

pub use queue::Queue;
