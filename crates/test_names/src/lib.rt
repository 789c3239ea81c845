//! The names of a tests file: where each is defined, what each line uses, and what is defined twice.
//!
//! [`definitions`] and [`arguments`] look up what a module defines, [`scope`] and [`locals`] what is known around an item and inside of a
//! function, [`uses`]
//! what a line asks for, [`duplicates`] what is defined twice, and [`last_line`] where a block ends. Which rule counts is left to `test_refusal`.
#![tactic(auto)]

pub mod arguments;
pub mod definitions;
pub mod duplicates;
pub mod last_line;
pub mod locals;
pub mod scope;
pub mod uses;
