//! What an accepted tests file stands for: its functions, whose bodies call functions by number, and its tests.
//!
//! [`TestFile`] is such a file. A [`Function`] has the names of its own and a body of [`Item`]s, in which compound statements stand in
//! place of their clauses; a [`Call`] names its function by number and has one [`Operand`] for each parameter; a [`TestCase`] is one
//! test with the values of its arguments. Expressions, spans and what an `except` catches are those of `py_syntax`.
//!
//! How a file is made of a module, and when, is left to the crates above.
mod call;
mod file;
mod item;
mod laws;
mod statement;

pub use call::{Awaited, Call, Operand, RightSide, Timed, WriteAction};
pub use file::{Function, TestCase, TestFile};
pub use item::{Branch, Handler, Item};
pub use laws::{call_rows, test_rows};
pub use statement::{Logger, Statement};
