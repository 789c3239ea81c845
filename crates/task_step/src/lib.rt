//! The values that the statements of a task evaluate, whatever keeps these statements.
//!
//! [`loop_span`] is the elements that a `for` goes over, [`task_values`] what expressions and the operands of triggers give a task, and
//! [`statement_values`] what statements make of values.
#![tactic(auto)]

pub mod loop_span;
pub mod statement_values;
pub mod task_values;
