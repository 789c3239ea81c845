//! The texts of generated work: a small design, and tests of it for each number of 32 bits.
//!
//! [`made_tests`] is the text of the tests of a number; begin with it. [`made_design`] is the text of their design, which is the same for all
//! numbers. Both are texts as a file may hold them, for the crates that read designs and tests.
mod texts;

pub use texts::{made_design, made_tests};
