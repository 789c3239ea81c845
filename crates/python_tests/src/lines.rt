//! Logical lines as text.
//!
//! A line is shown as its number, `:`, its indentation and its tokens; `doc` is a docstring.
ghost use Rattle.std.specs.Prelude.{◌≡◌, IfOk};
ghost use Rattle.std.specs.List.{flat_map};
ghost use Rattle.python_tests.specs.Shown.{docstring_mark, line_text, lines_text, next_line, next_token, start_text};

use crate::tokens::token_text;
use py_syntax::{Lines, LogicalLine, Token};
use std::alloc::{AllocError, Global};

/// What marks a docstring.
fn docstring_mark(is_docstring: bool) -> &'static str
    ensures { result.now ≡ docstring_mark is_docstring }
{
    if is_docstring { " doc" } else { "" }
}

/// Tokens, each behind a blank. Only want of memory is an error, here and below.
fn tokens_text(alloc: Global, tokens: &[Token]) -> Result<Vec<u8>, AllocError>
    ensures { IfOk result (λ text. text.items ≡ flat_map next_token tokens.now) }
{
    let mut text = Vec::new(alloc);
    for token in tokens {
        text.extend_from_slice(b" ")?;
        text.extend_from_slice(&token_text(alloc, token)?)?;
    }
    Ok(text)
}

/// A line.
fn line_text(alloc: Global, line: &LogicalLine) -> Result<Vec<u8>, AllocError>
    ensures { IfOk result (λ text. text.items ≡ line_text line.now) }
{
    let mark = docstring_mark(line.is_docstring());
    let head = format!(in alloc; "{}:{}{mark}", line.number().0, line.indentation())?;
    let mut text = head.into_bytes();
    text.extend_from_slice(&tokens_text(alloc, line.tokens())?)?;
    Ok(text)
}

/// Lines, each behind another one.
fn others_text(alloc: Global, lines: &[LogicalLine]) -> Result<Vec<u8>, AllocError>
    ensures { IfOk result (λ text. text.items ≡ flat_map next_line lines.now) }
{
    let mut text = Vec::new(alloc);
    for line in lines {
        text.extend_from_slice(b"; ")?;
        text.extend_from_slice(&line_text(alloc, line)?)?;
    }
    Ok(text)
}

/// All lines, with `; ` between them.
pub fn lines_text(alloc: Global, lines: &Lines) -> Result<Vec<u8>, AllocError>
    ensures { IfOk result (λ text. text.items ≡ lines_text lines.now) }
{
    let [first, others @ ..] = lines.as_slice() else {
        return Ok(Vec::new(alloc));
    };
    let mut text = line_text(alloc, first)?;
    text.extend_from_slice(&others_text(alloc, others)?)?;
    Ok(text)
}

/// Where a line begins: its number, `:`, its indentation and `;`.
fn start_text(alloc: Global, line: &LogicalLine) -> Result<Vec<u8>, AllocError>
    ensures { IfOk result (λ text. text.items ≡ start_text line.now) }
{
    Ok(format!(in alloc; "{}:{};", line.number().0, line.indentation())?.into_bytes())
}

/// Where all lines begin, one behind the other.
pub fn starts_text(alloc: Global, lines: &Lines) -> Result<Vec<u8>, AllocError>
    ensures { IfOk result (λ text. text.items ≡ flat_map start_text lines.now) }
{
    let mut text = Vec::new(alloc);
    for line in lines.as_slice() {
        text.extend_from_slice(&start_text(alloc, line)?)?;
    }
    Ok(text)
}
