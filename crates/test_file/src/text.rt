//! The text of a tests file: the functions and the tests that it stands for, or the rule by which it is refused, with its line.
//!
//! Begin with [`read_tests`]. A text is a tests file where it has logical lines (`py_lex`), a module spells them (`py_parse`), and this
//! breaks no rule of a file (`test_file`). Otherwise a [`TestsRefusal`] tells the [`TestsRule`] that is broken first, and where.
mod fault;
mod laws;
mod reader;
mod rule;

pub use fault::{TestsFault, TestsRefusal};
pub use laws::{one_answer, starts_are_right, tests_are_sound};
pub use reader::read_tests;
pub use rule::TestsRule;
