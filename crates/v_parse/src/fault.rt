//! Why a text is refused.

/// The first token through which no partial tree within the height spells the text, by its number counted from 0. The end
/// of the text counts as a token.
#[derive(Clone, Copy, Debug, PartialEq, Eq)]
pub enum ParseFault {
    /// No partial tree of any height goes through the token.
    Syntax(u32),
    /// Only partial trees that are too high go through the token.
    TooDeep(u32),
    /// Memory ran out.
    OutOfMemory,
}
