//! The answer for a row.

ghost use Rattle.std.specs.Prelude.{◌≡◌, ℕ, List, Ok, Err, IfOk};
ghost use Rattle.py_syntax.specs.BlockTrees.{ModuleItem, view_module};
ghost use Rattle.py_syntax.specs.Line.{Line};
ghost use Rattle.py_lex.specs.Answer.{IsAnswered};
ghost use Rattle.py_parse.specs.Found.{IsBroken};
ghost use Rattle.test_file.specs.Checks.{Checks};
ghost use Rattle.test_meaning.specs.Check.{check};
ghost use Rattle.check_tests.specs.Answers.{ShowsBroken, ShowsLines, ShowsRefusal, ShowsRow, ShowsSource, at_line, checked_text, file_rule_name};

use crate::file::file_text;
use port_io::MOST_BYTES;
use py_lex::{LineFault, logical_lines};
use py_parse::{PyFault, parse};
use py_syntax::{Lines, Module};
use std::alloc::{AllocError, Global};
use table_rows::Row;
use test_file::{FileFault, check};
use test_meaning::rules::FileRule;

/// A rule's name, with the number of a line in brackets.
fn at_line(alloc: Global, name: &str, line: u32) -> Result<Vec<u8>, AllocError>
    ensures { IfOk result (λ text. text.items ≡ at_line name.now line) }
{
    Ok(format!(in alloc; "{name}({line})")?.into_bytes())
}

/// The rule that a text breaks which has no logical lines.
fn of_line_fault(alloc: Global, fault: LineFault) -> Result<Vec<u8>, AllocError>
    ensures { IfOk result (λ text. (source : List ℕ) → IsAnswered source (Err fault) → ShowsBroken source text.items) }
{
    match fault {
        LineFault::Tab(line) => at_line(alloc, "Tab", line),
        LineFault::Dedent(line) => at_line(alloc, "Dedent", line),
        LineFault::UnclosedText(line) => at_line(alloc, "UnclosedText", line),
        LineFault::BadByte(line) => at_line(alloc, "BadByte", line),
        LineFault::OutOfMemory => Err(AllocError),
    }
}

/// The rule that lines break which are no module.
fn of_fault(alloc: Global, fault: PyFault) -> Result<Vec<u8>, AllocError>
    ensures { IfOk result (λ text. (lines : List Line) → IsBroken lines fault → ShowsRefusal lines text.items) }
{
    match fault {
        PyFault::BadLine(line) => at_line(alloc, "BadLine", line),
        PyFault::NoBlock(line) => at_line(alloc, "NoBlock", line),
        PyFault::TooDeep(line) => at_line(alloc, "TooDeep", line),
        PyFault::OutOfMemory => Err(AllocError),
    }
}

/// The name of a rule of a file.
fn rule_name(rule: FileRule) -> &'static str
    ensures { result.now ≡ file_rule_name rule }
{
    match rule {
        FileRule::UnknownImport => "UnknownImport",
        FileRule::UnknownName => "UnknownName",
        FileRule::Misplaced => "Misplaced",
        FileRule::DuplicateName => "DuplicateName",
        FileRule::BadOption => "BadOption",
        FileRule::TooManyCases => "TooManyCases",
        FileRule::NoTests => "NoTests",
    }
}

/// The rule that a module breaks, of which the check answers so.
fn of_file_fault(alloc: Global, fault: FileFault) -> Result<Vec<u8>, AllocError>
    ensures { IfOk result (λ text. (items : List ModuleItem) → Checks items (Err fault) → text.items ≡ checked_text (check items)) }
{
    match fault {
        FileFault::Rule(rule, line) => at_line(alloc, rule_name(rule), line),
        FileFault::OutOfMemory => Err(AllocError),
    }
}

/// What a module stands for, or the rule that it breaks.
fn of_module(alloc: Global, tree: Module) -> Result<Vec<u8>, AllocError>
    ensures { IfOk result (λ text. text.items ≡ checked_text (check (view_module tree))) }
{
    match check(alloc, tree) {
        Ok(file) => file_text(alloc, &file),
        Err(fault) => of_file_fault(alloc, fault),
    }
}

/// What logical lines are, or the rule that they break.
fn of_lines(alloc: Global, lines: &Lines) -> Result<Vec<u8>, AllocError>
    ensures { IfOk result (λ text. ShowsLines lines.now text.items) }
{
    match parse(alloc, lines) {
        Ok(tree) => of_module(alloc, tree),
        Err(fault) => of_fault(alloc, fault),
    }
}

/// What a text is, or the rule that it breaks.
fn of_text(alloc: Global, text: &[u8]) -> Result<Vec<u8>, AllocError>
    ensures { IfOk result (λ shown. ShowsSource text.now shown.items) }
{
    if text.len() > MOST_BYTES {
        return b"too long".to_vec(alloc);
    }
    match logical_lines(alloc, text) {
        Ok(lines) => of_lines(alloc, &lines),
        Err(fault) => of_line_fault(alloc, fault),
    }
}

/// The name of a row, and what is shown of its text.
pub fn answer(alloc: Global, line: &[u8]) -> Result<Vec<u8>, AllocError>
    ensures { IfOk result (λ out. ShowsRow line.now out.items) }
{
    let row = Row::of(line);
    let mut out = row.part(0).to_vec(alloc)?;
    out.extend_from_slice(b": ")?;
    out.extend_from_slice(&of_text(alloc, &row.text(alloc, 1)?)?)?;
    Ok(out)
}
