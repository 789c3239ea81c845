//! The answer for a row.
ghost use Rattle.std.specs.Prelude.{◌≡◌, ℕ, List, IfOk};
ghost use Rattle.py_syntax.specs.BlockTrees.{view_module};
ghost use Rattle.py_syntax.specs.Line.{Line};
ghost use Rattle.py_lex.specs.Answer.{IsAnswered};
ghost use Rattle.py_parse.specs.Found.{IsBroken};
ghost use Rattle.table_rows.specs.Rows.{part_at};
ghost use Rattle.python_tests.specs.Answers.{
  ShowsAsked,
  ShowsBroken,
  ShowsLines,
  ShowsParsed,
  ShowsRefusal,
  ShowsRow,
  ShowsSource,
  asked_by,
  at_line,
  shown_module,
  source_of,
};

use crate::lines::{lines_text, starts_text};
use crate::row::repeated;
use crate::trees::module_text;
use port_io::MOST_BYTES;
use py_lex::{LineFault, logical_lines};
use py_parse::{PyFault, parse};
use py_syntax::{Lines, Module};
use std::alloc::{AllocError, Global};
use table_rows::Row;

/// What is asked.
#[derive(Clone, Copy, Debug, PartialEq, Eq)]
enum Asked {
    Lines,
    Starts,
    Tree,
    Read,
    Repeat,
}

/// What a word asks, if anything.
fn asked_by(word: &[u8]) -> Option<Asked>
    ensures { result ≡ asked_by word.now }
{
    if word == b"lines".as_slice() {
        Some(Asked::Lines)
    } else if word == b"starts".as_slice() {
        Some(Asked::Starts)
    } else if word == b"tree".as_slice() {
        Some(Asked::Tree)
    } else if word == b"read".as_slice() {
        Some(Asked::Read)
    } else if word == b"repeat".as_slice() {
        Some(Asked::Repeat)
    } else {
        None
    }
}

/// A rule's name, with the number of a line in brackets. Only want of memory is an error, here and below.
fn at_line(alloc: Global, name: &str, line: u32) -> Result<Vec<u8>, AllocError>
    ensures { IfOk result (λ text. text.items ≡ at_line name.now line) }
{
    Ok(format!(in alloc; "{name}({line})")?.into_bytes())
}

/// The rule that a text breaks which has no logical lines.
fn of_line_fault(alloc: Global, fault: LineFault) -> Result<Vec<u8>, AllocError>
    ensures { IfOk result (λ text. (source : List ℕ) → IsAnswered source (Err fault) → ShowsBroken source text.items) }
{
    match fault {
        LineFault::Tab(line) => at_line(alloc, "Tab", line),
        LineFault::Dedent(line) => at_line(alloc, "Dedent", line),
        LineFault::UnclosedText(line) => at_line(alloc, "UnclosedText", line),
        LineFault::BadByte(line) => at_line(alloc, "BadByte", line),
        LineFault::OutOfMemory => Err(AllocError),
    }
}

/// The rule that lines break which are no module.
fn of_fault(alloc: Global, fault: PyFault) -> Result<Vec<u8>, AllocError>
    ensures { IfOk result (λ text. (lines : List Line) → IsBroken lines fault → ShowsRefusal lines text.items) }
{
    match fault {
        PyFault::BadLine(line) => at_line(alloc, "BadLine", line),
        PyFault::NoBlock(line) => at_line(alloc, "NoBlock", line),
        PyFault::TooDeep(line) => at_line(alloc, "TooDeep", line),
        PyFault::OutOfMemory => Err(AllocError),
    }
}

/// The tree of a module, or that there is one.
fn of_module(alloc: Global, asked: Asked, module: &Module) -> Result<Vec<u8>, AllocError>
    ensures { IfOk result (λ text. text.items ≡ shown_module asked (view_module module.now)) }
{
    match asked {
        Asked::Tree => module_text(alloc, module),
        Asked::Lines | Asked::Starts | Asked::Read | Asked::Repeat => b"a tree".to_vec(alloc),
    }
}

/// What is read of logical lines, or the rule that they break.
fn of_parsed(alloc: Global, asked: Asked, lines: &Lines) -> Result<Vec<u8>, AllocError>
    ensures { IfOk result (λ text. ShowsParsed asked lines.now text.items) }
{
    match parse(alloc, lines) {
        Ok(module) => of_module(alloc, asked, &module),
        Err(fault) => of_fault(alloc, fault),
    }
}

/// Logical lines, or what is read of them.
fn of_lines(alloc: Global, asked: Asked, lines: &Lines) -> Result<Vec<u8>, AllocError>
    ensures { IfOk result (λ text. ShowsLines asked lines.now text.items) }
{
    match asked {
        Asked::Lines => lines_text(alloc, lines),
        Asked::Starts => starts_text(alloc, lines),
        Asked::Tree | Asked::Read | Asked::Repeat => of_parsed(alloc, asked, lines),
    }
}

/// What is read of a text, or the rule that it breaks.
fn of_text(alloc: Global, asked: Asked, text: &[u8]) -> Result<Vec<u8>, AllocError>
    ensures { IfOk result (λ shown. ShowsSource asked text.now shown.items) }
{
    if text.len() > MOST_BYTES {
        return b"too long".to_vec(alloc);
    }
    match logical_lines(alloc, text) {
        Ok(lines) => of_lines(alloc, asked, &lines),
        Err(fault) => of_line_fault(alloc, fault),
    }
}

/// The text that a row asks about.
fn source_of(alloc: Global, asked: Asked, row: &Row<'_>) -> Result<Vec<u8>, AllocError>
    ensures { IfOk result (λ text. text.items ≡ source_of asked row.now) }
{
    match asked {
        Asked::Repeat => repeated(alloc, row),
        Asked::Lines | Asked::Starts | Asked::Tree | Asked::Read => row.text(alloc, 2),
    }
}

/// What is shown of a row's text.
fn shown(alloc: Global, row: &Row<'_>) -> Result<Vec<u8>, AllocError>
    ensures { IfOk result (λ shown. ShowsAsked (asked_by (part_at 0 row.now)) row.now shown.items) }
{
    match asked_by(row.part(0)) {
        Some(asked) => of_text(alloc, asked, &source_of(alloc, asked, row)?),
        None => b"not asked".to_vec(alloc),
    }
}

/// The rule of a row, and what is shown of its text.
pub fn answer(alloc: Global, line: &[u8]) -> Result<Vec<u8>, AllocError>
    ensures { IfOk result (λ out. ShowsRow line.now out.items) }
{
    let row = Row::of(line);
    let mut out = row.part(1).to_vec(alloc)?;
    out.extend_from_slice(b": ")?;
    out.extend_from_slice(&shown(alloc, &row)?)?;
    Ok(out)
}
