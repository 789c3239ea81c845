//! The turns of a `for`.
//!
//! A loop is unrolled while its text is elaborated (IEEE 1364-2005, clause 9.6): [`counter`] finds the register that it counts in, and
//! [`turns`] the values that the register has in its turns, and the last one. In a turn the register's name is that of a constant:
//! [`enter_turn`] and [`leave_turn`] put it there and take it away, with no memory. [`Unrolled`] counts the nodes of a design's statements, and
//! the turns.
//!
//! Modules that the crates above use too:
//! - [`reads`]: the signals that an expression reads;
//! - [`sensitivity`]: the signals that a statement of a procedure reads;
//! - [`wakes`]: what processes wait for.
#![tactic(auto)]

mod in_turn;
mod loop_turns;
mod nodes;
pub mod reads;
mod register;
pub mod sensitivity;
mod step;
mod unroll;
mod unrolled;
pub mod wakes;

pub use in_turn::{enter_turn, leave_turn};
pub use loop_turns::LoopTurns;
pub use register::counter;
pub use unroll::turns;
pub use unrolled::Unrolled;
