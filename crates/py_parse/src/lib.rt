//! Reads a Python text as a module: `parse` gives the tree of its logical lines, or the first line that breaks a rule.
//!
//! `outline` puts the lines into their blocks, and `module_of` makes the tree of lines in their places, from the last to the first,
//! so that a deep text costs no stack. What a line says is left to `py_statement` and `py_parse::module_line`.
//!
//! Modules that the crates above use too:
//! - [`module_line`]: the lines of a module that stand outside of its functions.
#![tactic(auto)]

mod blocks;
mod content;
mod fault;
mod laws;
mod list;
pub mod module_line;
mod nest;
mod parser;
mod partial_block;
mod place;
mod reader;
mod words;

pub use fault::PyFault;
pub use laws::{one_module, one_module_of_bytes, one_outline, one_tree};
pub use nest::module_of;
pub use parser::parse;
pub use reader::outline;
