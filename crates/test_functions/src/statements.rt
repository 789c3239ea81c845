//! Statements of an accepted tests file, which call functions by number, with an operand for each parameter.
//!
//! [`statement`] makes a statement of one line, and [`call`] a call that is started.
mod calls;
mod operands;
mod statements;

pub use calls::call;
pub use statements::statement;
