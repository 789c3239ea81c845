//! The code of functions, as a task goes through it.
//!
//! A task keeps places: a block from some statement on, or the handlers of a `try` from one on. What such a place is made of is left to the trait
//! [`Code`], so tasks that keep trees and tasks that keep numbers of states are one.
mod first;
mod function;
mod places;

pub use first::{Begun, First, FirstHandler, Head};
pub use function::Callable;
pub use places::Code;
