//! The functions of an accepted tests file.
//!
//! [`functions`] makes those of a module, by number, with those of the library behind them. [`function_numbers`] has the number of each by its
//! name. The tests of the file, and whether it breaks a rule, are left to others.
//!
//! Modules that the crates above use too:
//! - [`blocks`]: the bodies of functions, made from the back of each block;
//! - [`expressions`]: expressions with the values of constants in place of their names;
//! - [`statements`]: statements, which call functions by number, with an operand for each parameter.
#![tactic(auto)]

pub mod blocks;
mod clock;
pub mod expressions;
mod file;
mod function;
mod meanings;
mod numbers;
mod queue;
pub mod statements;
mod whole;

pub use file::functions;
use meanings::ModuleMeanings;
pub use numbers::{FunctionNumbers, function_numbers};
use whole::Whole;
