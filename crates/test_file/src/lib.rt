//! The check of a tests file.
//!
//! [`check`] gives the functions and the tests that a module stands for, or the first line that breaks a rule, with the rule ([`FileFault`]).
//!
//! Modules that the crates above use too:
//! - [`cases`]: the names, options and arguments of tests;
//! - [`list`]: the tests in order;
//! - [`sound`]: the law that accepted tests files are sound;
//! - [`text`]: the bytes of a text: `read_tests` is the one call to begin with.
#![tactic(auto)]

pub mod cases;
mod fault;
pub mod list;
pub mod sound;
pub mod text;
mod whole;

pub use fault::FileFault;
pub use whole::check;
