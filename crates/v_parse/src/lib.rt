//! Reading Verilog texts.
//!
//! [`parse`] reads the tokens of a whole text as modules, or tells the first token that no tree spells, as a
//! [`ParseFault`]. The items of modules, their statements and expressions are read by the crates below.
//!
//! Modules that the crates above use too:
//! - [`item`]: the readers of the items of a module: declarations, assignments, procedures and instances.
#![tactic(auto)]

mod fault;
mod headers;
pub mod item;
mod modules;
mod parser;

pub use fault::ParseFault;
pub use parser::{one_source, one_source_of_bytes, parse};
