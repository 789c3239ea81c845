//! The lines of a text with the blocks in which they stand.

use crate::{BodyLine, Keyword, LineNumber, ModuleLine};

/// What a logical line says.
#[derive(Drop)]
pub enum Content {
    /// A text alone: it says nothing.
    Docstring,
    /// A line of a module, outside of its functions.
    Module(ModuleLine),
    /// A line of a function's body.
    Body(BodyLine),
}

/// A logical line in its place.
#[derive(Drop)]
pub struct PlacedLine {
    /// How many blocks it stands in: 0 in the module, 1 in a function's body.
    pub depth: u32,
    /// The number of its first physical line, from 1.
    pub number: LineNumber,
    pub content: Content,
}

/// A block that is open before a line.
#[derive(Clone, Copy, Debug, PartialEq, Eq)]
pub struct OpenBlock {
    /// The indentation of its lines.
    pub indentation: u32,
    /// The reserved word with which the last line directly in it begins, if there is such a line and it begins with one.
    pub last: Option<Keyword>,
}
