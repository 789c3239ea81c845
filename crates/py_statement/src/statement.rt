//! Statements that begin with a reserved word.

ghost use Rattle.py_expression.specs.Shown.{height_limit};
ghost use Rattle.std.specs.Prelude.{◌≡◌, Some, None};
ghost use Rattle.py_syntax.specs.ExpressionTrees.{view};
ghost use Rattle.py_syntax.specs.StatementTrees.{optional, view_statement};
ghost use Rattle.py_expression.specs.Phrase.Gives.{Gives};
ghost use Rattle.py_expression.specs.Boxes.{inside};
ghost use Rattle.py_statement.specs.Call.Chosen.{ended};
ghost use Rattle.py_statement.specs.Call.Views.{tall};
ghost use Rattle.py_statement.specs.Reading;

use crate::call::{await_operand, only_value, right_side, value, whole_value};
use crate::words::kind_at;
use port_io::boxed;
use py_expression::phrase::{Mark, ReadError, after, end_of_line};
use py_syntax::{Bracket, Expression, Operator, Statement, Token};
use std::alloc::Global;

/// A statement of this height, on the heap.
pub fn built(
    alloc: Global,
    statement: Statement,
    height: usize,
) -> Result<(Box<Statement>, usize), ReadError>
    ensures { Gives (tall (inside view_statement)) result (Some (view_statement statement, height)) }
{
    Ok((boxed(alloc, statement)?, height))
}

/// A statement of this height, where nothing follows.
pub fn ending(
    statement: Box<Statement>,
    height: usize,
    tokens: &[Token],
) -> Result<(Box<Statement>, usize), ReadError>
    ensures { Gives (tall (inside view_statement)) result (ended (view_statement statement.value, height) tokens.now) }
{
    match end_of_line(tokens) {
        Ok(()) => Ok((statement, height)),
        Err(error) => Err(error),
    }
}

/// A statement of a word alone, behind the word.
#[tactic(auto, unfolding(crate::specs::Reading::only))]
pub fn only(
    alloc: Global,
    statement: Statement,
    tokens: &[Token],
) -> Result<(Box<Statement>, usize), ReadError>
    ensures { Gives (tall (inside view_statement)) result (Reading.only (view_statement statement) tokens.now) }
{
    ending(boxed(alloc, statement)?, 0, tokens)
}

/// Behind `return`.
#[tactic(auto, unfolding(crate::specs::Reading::return_of))]
pub fn returning(alloc: Global, tokens: &[Token]) -> Result<(Box<Statement>, usize), ReadError>
    ensures { Gives (tall (inside view_statement)) result (Reading.return_of height_limit tokens.now) }
{
    if tokens.is_empty() {
        return built(alloc, Statement::Return(None), 0);
    }
    let (side, height) = right_side(alloc, tokens)?;
    let statement = Statement::Return(Some(Box::into_inner(side)));
    built(alloc, statement, height)
}

/// One expression and `)` at the end of the line, behind a `(`.
#[tactic(auto, unfolding(crate::specs::Reading::one_value_of))]
pub fn one_value(alloc: Global, tokens: &[Token]) -> Result<(Box<Expression>, usize), ReadError>
    ensures { Gives (tall (inside view)) result (Reading.one_value_of height_limit tokens.now) }
{
    let (value, rest) = only_value(alloc, tokens)?;
    end_of_line(rest)?;
    Ok(value)
}

/// A fault's value in brackets, if there is one.
#[tactic(auto, unfolding(crate::specs::Reading::raised_of))]
fn raised(alloc: Global, tokens: &[Token]) -> Result<(Option<Expression>, usize), ReadError>
    ensures { Gives (tall (optional view)) result (Reading.raised_of height_limit tokens.now) }
{
    match after(Mark::Open(Bracket::Round), tokens) {
        Some(rest) => {
            let (value, height) = one_value(alloc, rest)?;
            Ok((Some(Box::into_inner(value)), height))
        }
        None => {
            end_of_line(tokens)?;
            Ok((None, 0))
        }
    }
}

/// Behind `raise`.
#[tactic(auto, unfolding(crate::specs::Reading::raise_of))]
pub fn raising(alloc: Global, tokens: &[Token]) -> Result<(Box<Statement>, usize), ReadError>
    ensures { Gives (tall (inside view_statement)) result (Reading.raise_of height_limit tokens.now) }
{
    let Some((kind, rest)) = kind_at(tokens) else {
        return Err(ReadError::Wrong);
    };
    let (value, height) = raised(alloc, rest)?;
    built(alloc, Statement::Raise(kind, value), height)
}

/// The value behind an assertion's condition, if there is one.
#[tactic(auto, unfolding(crate::specs::Reading::message_of))]
fn message(alloc: Global, tokens: &[Token]) -> Result<(Option<Expression>, usize), ReadError>
    ensures { Gives (tall (optional view)) result (Reading.message_of height_limit tokens.now) }
{
    match after(Mark::Operator(Operator::Comma), tokens) {
        Some(rest) => {
            let (value, height) = whole_value(alloc, rest)?;
            Ok((Some(Box::into_inner(value)), height))
        }
        None => {
            end_of_line(tokens)?;
            Ok((None, 0))
        }
    }
}

/// Behind `assert`.
#[tactic(auto, unfolding(crate::specs::Reading::assert_of))]
pub fn asserting(alloc: Global, tokens: &[Token]) -> Result<(Box<Statement>, usize), ReadError>
    ensures { Gives (tall (inside view_statement)) result (Reading.assert_of height_limit tokens.now) }
{
    let ((condition, height), rest) = value(alloc, tokens)?;
    let (message, message_height) = message(alloc, rest)?;
    let statement = Statement::Assert(Box::into_inner(condition), message);
    built(alloc, statement, height.max(message_height))
}

/// Behind `await`.
#[tactic(auto, unfolding(crate::specs::Reading::await_of))]
pub fn awaiting(alloc: Global, tokens: &[Token]) -> Result<(Box<Statement>, usize), ReadError>
    ensures { Gives (tall (inside view_statement)) result (Reading.await_of height_limit tokens.now) }
{
    let (awaited, height) = await_operand(alloc, tokens)?;
    let statement = Statement::Await(Box::into_inner(awaited));
    built(alloc, statement, height)
}
