//! What processes wait for.
//!
//! [`wakes`] are those of a process that waits for all that it reads, a continuous assignment or one with `@*`: any change of each signal.
//! [`events`] are those that an event control lists.
mod control;
mod sensitivity;

pub use control::events;
pub use sensitivity::wakes;
