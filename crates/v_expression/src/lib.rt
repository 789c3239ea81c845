//! Reading Verilog expressions and the targets of assignments.
//!
//! [`expression`] reads an expression at the front of some tokens, and [`target`] the target of an assignment. Each keeps the
//! height of what it read beside it, so that no tree is measured twice. Both give what they read behind a `Box`.
//!
//! Modules that the crates above use too:
//! - [`phrase`]: the front of a list of tokens, and readers of the phrases of the grammar, with lists of anything that is an `Element`.
#![tactic(auto)]

mod measured;
mod operators;
pub mod phrase;
mod primaries;
mod reader;
mod selects;
mod targets;

pub use reader::{ExpressionPhrase, expression, one_expression, one_target, target};
