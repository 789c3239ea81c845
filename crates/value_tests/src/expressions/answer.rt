//! The answer for a row.
ghost use Rattle.std.specs.Prelude.{◌≡◌, IfOk, Some, None, option_map, nat_le, if◌then◌else◌};
ghost use Rattle.py_syntax.specs.ExpressionTrees.{view};
ghost use Rattle.py_expression.specs.Kept.{measured};
ghost use Rattle.py_expression.specs.Shown.{height_limit};
ghost use Rattle.value_tests.specs.Expressions.Row.{tree_text, IsReading, TokensGive, TextGives, Replies, RowGives};

use crate::expressions::scene::Scene;
use crate::expressions::shown::value_text;
use crate::expressions::variables::task_names;
use port_io::{MOST_BYTES, NoMemory};
use py_evaluate::{EvalFault, evaluate};
use py_expression::phrase::ReadError;
use py_expression::{Measured, expression};
use py_lex::{LineFault, logical_lines};
use py_syntax::{Expression, Token};
use py_value::TaskNo;
use std::alloc::Global;
use table_rows::cut;

/// The greatest height of an expression.
const HEIGHT_LIMIT: usize = 64;

/// The value of an expression or the kind of its fault, where a task evaluates it that has made no trigger yet. Only want of memory is an
/// error.
fn expression_text(alloc: Global, e: &Expression) -> Result<Vec<u8>, NoMemory>
    ensures { IfOk result (λ text. text.items ≡ tree_text (view e.now)) }
{
    let names = task_names(alloc)?;
    let mut next = 0;
    match evaluate(alloc, e, &names, &Scene, TaskNo(4), &mut next) {
        Ok(v) => value_text(alloc, &v),
        Err(EvalFault::Raised(fault)) => Ok(fault.kind.name().to_vec(alloc)?),
        Err(EvalFault::OutOfMemory) => Err(NoMemory),
    }
}

/// The expression that was read, if it isn't too high.
fn low(read: Measured) -> Option<Box<Expression>>
    ensures { option_map (λ e. view e.value) result ≡ (if nat_le read.height height_limit then Some (measured read).tree else None) }
{
    if read.height <= HEIGHT_LIMIT {
        Some(read.tree)
    } else {
        None
    }
}

/// The expression that the tokens are; None where they aren't one, of a height of at most 64. Only want of memory is an error.
fn read(alloc: Global, tokens: &[Token]) -> Result<Option<Box<Expression>>, NoMemory>
    ensures { IfOk result (λ read. IsReading tokens.now (option_map (λ e. view e.value) read)) }
{
    match expression(alloc, tokens) {
        Ok((read, [])) => Ok(low(read)),
        Ok((_, [_, ..])) => Ok(None),
        Err(ReadError::Wrong) => Ok(None),
        Err(ReadError::OutOfMemory) => Err(NoMemory),
    }
}

/// What the tokens of a line give. Only want of memory is an error.
fn tokens_text(alloc: Global, tokens: &[Token]) -> Result<Vec<u8>, NoMemory>
    ensures { IfOk result (λ text. TokensGive tokens.now text.items) }
{
    match read(alloc, tokens)? {
        Some(e) => expression_text(alloc, &e),
        None => Ok(b"no expression".to_vec(alloc)?),
    }
}

/// What a text gives, which has to be one logical line. Only want of memory is an error.
fn reply(alloc: Global, text: &[u8]) -> Result<Vec<u8>, NoMemory>
    ensures { IfOk result (λ reply. Replies text.now reply.items) }
{
    if text.len() > MOST_BYTES {
        return Ok(Vec::new(alloc));
    }
    match logical_lines(alloc, text) {
        Ok(lines) if lines.len() == 1 => tokens_text(alloc, lines.line(0).tokens()),
        Err(LineFault::OutOfMemory) => Err(NoMemory),
        _ => Ok(b"no line".to_vec(alloc)?),
    }
}

/// The rule of a row, and behind `: ` the reply to its expression. Only want of memory is an error.
pub fn answer(alloc: Global, line: &[u8]) -> Result<Vec<u8>, NoMemory>
    ensures { IfOk result (λ text. RowGives line.now text.items) }
{
    let (rule, text) = cut(line, b'\t');
    let reply = reply(alloc, text)?;
    let mut out = rule.to_vec(alloc)?;
    out.extend_from_slice(b": ")?;
    out.extend_from_slice(&reply)?;
    Ok(out)
}
