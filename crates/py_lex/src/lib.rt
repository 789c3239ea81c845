//! The logical lines of a Python text.
#![tactic(auto)]

mod bytes;
mod fault;
mod front;
mod gather;
mod marks;
mod numbers;
mod place;
mod reader;
mod rules;
mod scan;
mod texts;
mod words;

pub use fault::LineFault;
pub use reader::{logical_lines, one_reading, some_reading};
