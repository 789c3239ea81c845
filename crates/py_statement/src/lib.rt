//! Reads the lines of a function's body: statements and the headers of blocks.
//!
//! Modules that the crates above use too:
//! - [`call`]: the calls that are started, what is awaited, the right sides of assignments, and writes that are no values.
#![tactic(auto)]

pub mod call;
mod fault;
mod header;
mod laws;
mod line;
mod method;
mod plain;
mod statement;
mod tree;
mod words;

pub use fault::LineError;
pub use laws::{lines_have_their_forms, one_form};
pub use line::statement_line;
