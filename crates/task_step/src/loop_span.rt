//! What a `for` of a task goes over, and its questions (the language reference, 8.3).
//!
//! [`Left`] is what a `for` has still to go over. [`of_stop`], [`of_start_stop`] and [`of_start_stop_step`] make it of the operands of
//! `range`; of constants it is their list. [`ask_next`] is the question of a `for`: its next element, and what is left then. The numbers
//! of a range may go beyond those that a value holds, which is told at the question that comes to one.
mod laws;
mod left;
mod question;
mod range;

pub use laws::questions_find;
pub use left::{Left, Upcoming};
pub use question::{Element, ask_next};
pub use range::{of_start_stop, of_start_stop_step, of_stop};
