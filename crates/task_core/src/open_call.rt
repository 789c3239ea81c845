//! An open call of a task: its names with their values, where it stands, and what it has still to do.
//!
//! [`OpenCall`] is such a call, which contracts see as the `Frame` of `rig_model::task` ([`OpenCall::entered`] opens one). It has its names
//! ([`Slots`]), its [`Course`], and a stack of statements and marks ([`TodoStack`]), on which nothing grows with what stands before or behind
//! the place where the call is. A step of a call takes the first thing to do off ([`OpenCall::take`]), changes the call, and answers what is
//! wanted ([`Wish`]). What statements do is left to the crates above.
mod call;
mod course;
mod slots;
mod todo;

pub use call::OpenCall;
pub use course::{Course, Jump, Wish};
pub use slots::Slots;
pub use todo::{Mark, Stop, Todo, TodoStack, Use};
