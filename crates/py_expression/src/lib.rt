//! Reads the expressions of a Python text.
//!
//! Modules that the crates above use too:
//! - [`phrase`]: marks, words, names, texts, constants, and lists of these.
#![tactic(auto)]

mod arguments;
mod attribute;
mod begin;
mod close;
mod follow;
mod frame;
mod laws;
mod measured;
mod parts;
pub mod phrase;
mod reader;
mod tokens;

pub use attribute::split;
pub use laws::one_expression;
pub use measured::{KEPT, Measured};
pub use reader::{expression, primary};
