//! Reading Verilog statements.
//!
//! [`statement`] reads the statement at the front of some tokens. A statement is told by its first token (`forms`); what it
//! holds but for statements is read by functions of their own (`simple`, `tasks`, `heads`), and `statements` reads those that
//! hold others. The crates above also ask here whether an expression begins at a token.
#![tactic(auto)]

mod expressions;
mod forms;
mod heads;
mod kinds;
mod levels;
mod reader;
mod simple;
mod statements;
mod tasks;
mod trees;

pub use expressions::{begins_expression, starts_expression};
pub use reader::{one_statement, statement};
