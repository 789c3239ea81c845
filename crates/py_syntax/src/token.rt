//! Tokens.

use crate::{Bracket, Keyword, Operator};
use port_io::Name;

/// A token of a logical line.
///
/// An f-string stands as its parts: `FormatStart`, then `FormatText` for what stands for itself, and `FormatOpen`, the tokens
/// of the expression, `FormatClose` for each `{..}`, and at the end `FormatEnd`.
#[derive(Drop)]
pub enum Token {
    /// A name that is no reserved word.
    Name(Name),
    /// A reserved word.
    Keyword(Keyword),
    /// A whole number, at most 2^127 - 1.
    Number(u128),
    /// A text: its bytes, with `\\`, `\'` and `\"` read.
    Text(Name),
    /// An opening bracket.
    Open(Bracket),
    /// A closing bracket.
    Close(Bracket),
    Operator(Operator),
    FormatStart,
    FormatText(Name),
    FormatOpen,
    FormatClose,
    FormatEnd,
    /// What no form takes: a number that is none or too great, a text with another escape, a part of an f-string out of place,
    /// a byte that begins no token.
    Invalid,
}
