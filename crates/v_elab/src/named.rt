//! Laws of what is written in an instance: where each name of the scope is a signal of the design with its width (`AreSignals` of
//! `v_layout`), so is each name in an expression, a target or a statement.
//!
//! The functions here carry the laws, and have no other use.
mod laws;

pub use laws::{expressions_name_signals, statements_name_signals, targets_name_signals};
