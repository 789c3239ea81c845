//! The logical line that is being read.

ghost use Rattle.std.specs.Prelude.{◌≡◌, ◌++◌, OnOk, Option, None, Some};
ghost use Rattle.std.specs.Option.{option_to_list};
ghost use Rattle.py_syntax.specs.Places;
ghost use Rattle.py_syntax.specs.Logical;
ghost use Rattle.py_lex.specs.Scan.{nothing_gathered, gathered_after, gathered_line};

use port_io::NoMemory;
use py_syntax::{LineNumber, LogicalLine, Piece, Token};
use std::alloc::Global;
use std::marker::Model;

/// What the first token of a line tells of it.
#[derive(Clone, Copy, Debug, PartialEq, Eq)]
pub struct Start {
    pub indentation: u32,
    pub number: LineNumber,
    pub is_docstring: bool,
}

/// What is known of the logical line that is being read.
#[derive(Drop)]
pub struct Gather {
    start: Option<Start>,
    tokens: Vec<Token>,
}

impl Model for Gather {
    ghost use Rattle.py_lex.specs.Scan.{Gathered};

    ghost Value = { Gathered };

    ghost view = { λ a. record { start = a.start; tokens = a.tokens.items } };
}

/// Whether a piece is a token, or counts as one.
pub fn is_token(piece: &Piece) -> bool
    ensures { result ≡ Places.is_token piece.now }
{
    !matches!(
        piece,
        Piece::Space | Piece::Tab | Piece::Comment | Piece::LineEnd
    )
}

fn is_docstring(piece: &Piece) -> bool
    ensures { result ≡ Logical.is_docstring piece.now }
{
    matches!(piece, Piece::Docstring(_) | Piece::OpenDocstring)
}

/// The token that a piece is. A docstring is dropped.
fn token_of(piece: Piece) -> Option<Token>
    ensures { option_to_list result ≡ Logical.tokens_of piece }
{
    match piece {
        Piece::Token(token, _) => Some(token),
        Piece::FormatStart(_) => Some(Token::FormatStart),
        Piece::FormatOpen => Some(Token::FormatOpen),
        Piece::FormatClose => Some(Token::FormatClose),
        Piece::FormatEnd => Some(Token::FormatEnd),
        Piece::FormatCut | Piece::OpenText | Piece::BadByte => Some(Token::Invalid),
        Piece::Space
        | Piece::Tab
        | Piece::Comment
        | Piece::LineEnd
        | Piece::Docstring(_)
        | Piece::OpenDocstring => None,
    }
}

impl Gather {
    pub fn new(alloc: Global) -> Self
        ensures { result ≡ nothing_gathered }
    {
        Gather {
            start: None,
            tokens: Vec::new(alloc),
        }
    }

    /// Adds the piece that stands behind so many spaces on that line.
    pub fn add(&mut self, spaces: u32, line: LineNumber, piece: Piece) -> Result<(), NoMemory>
        ensures { OnOk result (self.new ≡ gathered_after self.old spaces line.0 piece) }
    {
        if self.start.is_none() && is_token(&piece) {
            self.start = Some(Start {
                indentation: spaces,
                number: line,
                is_docstring: is_docstring(&piece),
            });
        }
        if let Some(token) = token_of(piece) {
            self.tokens.push(token)?;
        }
        Ok(())
    }

    /// The line, if it has a token.
    pub fn into_line(self) -> Option<LogicalLine>
        ensures { result ≡ gathered_line self }
    {
        let Gather { start, tokens } = self;
        let start = start?;
        Some(LogicalLine::new(start.indentation, start.number, start.is_docstring, tokens))
    }
}
