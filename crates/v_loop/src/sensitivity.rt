//! The signals that a statement of a procedure reads.
//!
//! [`statement_reads`] tells them as spans of numbers, in the order of the text: a process with `@*` waits for all of them. A loop reads what
//! its body reads in each turn.
mod added;
mod targets;
mod walk;

pub use walk::statement_reads;
