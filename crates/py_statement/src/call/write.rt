//! Writes that are no values.

ghost use Rattle.py_expression.specs.Shown.{height_limit};
ghost use Rattle.std.specs.Prelude.{◌≡◌, codes, Some, None};
ghost use Rattle.py_syntax.specs.StatementTrees.{view_write_action};
ghost use Rattle.py_expression.specs.Phrase.Gives.{Gives};
ghost use Rattle.py_expression.specs.Boxes.{inside};
ghost use Rattle.py_statement.specs.Call.Chosen.{made};
ghost use Rattle.py_statement.specs.Call.Reading;
ghost use Rattle.py_statement.specs.Call.Views.{tall, ahead};

use crate::call::placed::only_value;
use crate::call::tokens::{after_call, close_of_line};
use port_io::boxed;
use py_expression::phrase::{Mark, ReadError, after, end_of_line};
use py_syntax::{Bracket, Token, WriteAction};
use std::alloc::Global;

/// `Force(value)`, behind the bracket.
fn force(
    alloc: Global,
    tokens: &[Token],
) -> Result<((Box<WriteAction>, usize), &[Token]), ReadError>
    ensures { Gives (ahead (inside view_write_action)) result (made Reading.as_force (Reading.only_value_of height_limit tokens.now)) }
{
    let ((value, height), rest) = only_value(alloc, tokens)?;
    let write = WriteAction::Force(Box::into_inner(value));
    Ok(((boxed(alloc, write)?, height), rest))
}

/// `Freeze()` or `Release()`, behind the bracket.
fn bare(
    write: Box<WriteAction>,
    tokens: &[Token],
) -> Result<((Box<WriteAction>, usize), &[Token]), ReadError>
    ensures { Gives (ahead (inside view_write_action)) result (Reading.bare (view_write_action write.value) tokens.now) }
{
    match after(Mark::Close(Bracket::Round), tokens) {
        Some(rest) => Ok(((write, 0), rest)),
        None => Err(ReadError::Wrong),
    }
}

/// The write at the front, with its height, and the tokens after it.
#[tactic(auto, unfolding(crate::specs::Call::Reading::write_action_of))]
fn write_action(
    alloc: Global,
    tokens: &[Token],
) -> Result<((Box<WriteAction>, usize), &[Token]), ReadError>
    ensures { Gives (ahead (inside view_write_action)) result (Reading.write_action_of height_limit tokens.now) }
{
    if let Some(rest) = after_call(b"Force", tokens) {
        return force(alloc, rest);
    }
    if let Some(rest) = after_call(b"Freeze", tokens) {
        return bare(boxed(alloc, WriteAction::Freeze)?, rest);
    }
    if let Some(rest) = after_call(b"Release", tokens) {
        return bare(boxed(alloc, WriteAction::Release)?, rest);
    }
    Err(ReadError::Wrong)
}

/// The write that these tokens are, with its height.
#[tactic(auto, unfolding(crate::specs::Call::Reading::whole_write_action_of))]
pub fn whole_write_action(
    alloc: Global,
    tokens: &[Token],
) -> Result<(Box<WriteAction>, usize), ReadError>
    ensures { Gives (tall (inside view_write_action)) result (Reading.whole_write_action_of height_limit tokens.now) }
{
    let (write, rest) = write_action(alloc, tokens)?;
    end_of_line(rest)?;
    Ok(write)
}

/// The write that stands before `)` at the end of the line, before which a comma may stand, with its height.
#[tactic(auto, unfolding(crate::specs::Call::Reading::closed_write_action_of))]
pub fn closed_write_action(
    alloc: Global,
    tokens: &[Token],
) -> Result<(Box<WriteAction>, usize), ReadError>
    ensures { Gives (tall (inside view_write_action)) result (Reading.closed_write_action_of height_limit tokens.now) }
{
    let (write, rest) = write_action(alloc, tokens)?;
    close_of_line(rest)?;
    Ok(write)
}
