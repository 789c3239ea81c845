//! Logical lines.

ghost use Rattle.std.specs.Prelude.{◌≡◌, ℕ, ◌<◌, length, slice_get, Some};
ghost use Rattle.py_syntax.specs.Line.{Line, physical_line};

use crate::{LineNumber, Token};
use std::marker::Model;

/// A logical line (the language reference, 2.1.1).
#[derive(Drop)]
pub struct LogicalLine {
    indentation: u32,
    number: LineNumber,
    is_docstring: bool,
    tokens: Vec<Token>,
}

impl Model for LogicalLine {
    ghost use Rattle.py_syntax.specs.Line.{Line};

    ghost Value = { Line };

    ghost use Rattle.py_syntax.specs.LineView.{line_view};

    ghost view = { line_view };
}

impl LogicalLine {
    /// A line with these parts.
    pub fn new(indentation: u32, number: LineNumber, is_docstring: bool, tokens: Vec<Token>) -> Self
        ensures { result ≡ record { indentation = indentation; number = number.0; is_docstring = is_docstring; tokens = tokens.items } }
    {
        LogicalLine {
            indentation,
            number,
            is_docstring,
            tokens,
        }
    }

    /// How many spaces stand before the first token.
    pub fn indentation(&self) -> u32
        ensures { result ≡ self.now.indentation }
    {
        self.indentation
    }

    /// The number of the physical line on which the first token stands, from 1.
    pub fn number(&self) -> LineNumber
        ensures { result ≡ physical_line self.now.number }
    {
        self.number
    }

    /// Whether the line is one text alone, which is dropped: such a line has no tokens.
    pub fn is_docstring(&self) -> bool
        ensures { result ≡ self.now.is_docstring }
    {
        self.is_docstring
    }

    /// The tokens of the line.
    pub fn tokens(&self) -> &[Token]
        ensures { result.now ≡ self.now.tokens }
    {
        &self.tokens
    }
}

/// The logical lines of a text, in order.
#[derive(Drop)]
pub struct Lines {
    lines: Vec<LogicalLine>,
}

impl Model for Lines {
    ghost use Rattle.std.specs.Prelude.{List};
    ghost use Rattle.py_syntax.specs.Line.{Line};

    ghost Value = { List Line };

    ghost use Rattle.py_syntax.specs.LineView.{lines_view};

    ghost view = { lines_view };
}

impl Lines {
    /// These lines, in this order.
    pub fn new(lines: Vec<LogicalLine>) -> Self
        ensures { result ≡ lines.items }
    {
        Lines { lines }
    }

    /// How many lines there are.
    pub fn len(&self) -> usize
        ensures { result ≡ length self.now }
    {
        self.lines.len()
    }

    /// The line of that number in the list, from 0.
    pub fn line(&self, at: usize) -> &LogicalLine
        requires { at < length self.now }
        ensures { slice_get self.now at ≡ Some result.now }
    {
        &self.lines[at]
    }

    /// All lines.
    pub fn as_slice(&self) -> &[LogicalLine]
        ensures { result.now ≡ self.now }
    {
        &self.lines
    }
}
