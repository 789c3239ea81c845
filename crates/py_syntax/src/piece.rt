//! What a text is made of, piece by piece, and the rules that a piece can break.

use crate::{Bracket, LineNumber, Token};

/// What stands next in a text.
#[derive(Drop)]
pub enum Piece {
    /// A space.
    Space,
    /// A tab in front of a physical line's first token.
    Tab,
    /// `#` and what follows it on its line.
    Comment,
    /// A line feed, or a carriage return and a line feed.
    LineEnd,
    /// A token, and whether all its bytes are printable ASCII.
    Token(Token, bool),
    /// `f` and the quote that begins an f-string.
    FormatStart(u8),
    /// `{` of an f-string's part.
    FormatOpen,
    /// `}` of an f-string's part.
    FormatClose,
    /// The quote that ends an f-string.
    FormatEnd,
    /// The quote that ends an f-string whose part is still open.
    FormatCut,
    /// A text that is a logical line by itself, and how many line feeds lie in it.
    Docstring(u32),
    /// A docstring that isn't closed, and so all that is left.
    OpenDocstring,
    /// A text that meets the end of its line.
    OpenText,
    /// A byte that has no place in a text.
    BadByte,
}

/// Where a place lies: outside of f-strings, where an f-string stands for itself, or in a part `{..}` of one. The byte is the
/// f-string's quote.
#[derive(Clone, Copy, Debug, PartialEq, Eq)]
pub enum Mode {
    Code,
    Format(u8),
    Expression(u8),
}

/// What decides which piece stands at a place, besides the bytes from there on.
#[derive(Clone, Copy, Debug, PartialEq, Eq)]
pub struct Context {
    pub mode: Mode,
    /// Whether no token stands before the place on its physical line.
    pub at_front: bool,
    /// Whether no token stands before the place in its logical line.
    pub is_fresh: bool,
}

/// A bracket that is open, and the line on which it stands.
#[derive(Clone, Copy, Debug, PartialEq, Eq)]
pub struct OpenBracket {
    pub bracket: Bracket,
    pub line: LineNumber,
}

/// A rule of lines.
#[derive(Clone, Copy, Debug, PartialEq, Eq)]
pub enum LineRule {
    /// A tab stands before a line's first token.
    Tab,
    /// A line is indented less than the one before it, at an indentation that is none of the open blocks'.
    Dedent,
    /// A bracket or a text stays open, or a text meets the end of its line.
    UnclosedText,
    /// A byte that has no place there, or a closing bracket that closes nothing.
    BadByte,
}

/// A rule, and the line that breaks it. Lines count from 1.
#[derive(Clone, Copy, Debug, PartialEq, Eq)]
pub struct Broken {
    pub line: LineNumber,
    pub rule: LineRule,
}
