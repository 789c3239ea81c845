//! The physical lines of a text, by number.

/// A physical line of a text (the language reference, 2.1.2), by its number from 1.
#[derive(Clone, Copy, Debug, PartialEq, Eq)]
pub struct LineNumber(pub u32);
