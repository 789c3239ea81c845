//! Arguments that are given by their places alone.

ghost use Rattle.py_expression.specs.Shown.{height_limit};
ghost use Rattle.std.specs.Prelude.{◌≡◌, map, Some, None, IfOk, MatchOption};
ghost use Rattle.py_syntax.specs.ExpressionTrees.{view};
ghost use Rattle.py_syntax.specs.declared.call.Argument as argument;
ghost use Rattle.py_syntax.specs.StatementTrees.{view_argument};
ghost use Rattle.py_expression.specs.Phrase.Gives.{Gives};
ghost use Rattle.py_expression.specs.Boxes.{inside};
ghost use Rattle.py_statement.specs.Call.Reading;
ghost use Rattle.py_statement.specs.Call.Views.{ahead, values_ahead};

use crate::call::arguments::argument_list;
use port_io::{NoMemory, boxed};
use py_expression::phrase::ReadError;
use py_syntax::{Argument, Expression, Token};
use std::alloc::Global;

/// Whether all are given by their places.
#[tactic(auto, unfolding(crate::specs::Call::Reading::are_placed))]
fn are_placed(list: &[Argument]) -> bool
    ensures { result ≡ Reading.are_placed (map view_argument list.now) }
{
    for argument in list {
        if argument.name.is_some() {
            return false;
        }
    }
    true
}

/// The values of arguments.
fn values(alloc: Global, list: Vec<Argument>) -> Result<Vec<Expression>, NoMemory>
    ensures { IfOk result (λ all. all.items ≡ map (λ (x : argument.Argument). x.value) list.items) }
{
    Ok(
        list.into_iter()
            .map(|argument| argument.value)
            .collect(alloc)?,
    )
}

/// The expressions behind an opening bracket with their greatest height, and the tokens after the closing one, before which a comma
/// may stand.
#[tactic(auto, using(crate::proofs::CallLemmas::Lists::values_seen), unfolding(crate::specs::Call::Reading::values_of))]
pub fn value_list(
    alloc: Global,
    tokens: &[Token],
) -> Result<((Vec<Expression>, usize), &[Token]), ReadError>
    ensures { Gives values_ahead result (Reading.values_of height_limit tokens.now) }
{
    let (arguments, rest) = argument_list(alloc, tokens)?;
    if !are_placed(&arguments.list) {
        return Err(ReadError::Wrong);
    }
    let height = arguments.height;
    Ok(((values(alloc, arguments.list)?, height), rest))
}

/// The only element of a list.
fn one<T: Drop>(mut list: Vec<T>) -> Option<T>
    ensures { MatchOption result (Reading.one_of list.items ≡ None) (λ x. Reading.one_of list.items ≡ Some x) }
{
    let only = list.pop()?;
    if list.is_empty() { Some(only) } else { None }
}

/// The value of the only argument behind an opening bracket, which is given by its place, with its height, and the tokens after the
/// closing bracket.
#[tactic(auto, using(crate::proofs::CallLemmas::Lists::one_seen), unfolding(crate::specs::Call::Reading::only_value_of))]
pub fn only_value(
    alloc: Global,
    tokens: &[Token],
) -> Result<((Box<Expression>, usize), &[Token]), ReadError>
    ensures { Gives (ahead (inside view)) result (Reading.only_value_of height_limit tokens.now) }
{
    let ((list, height), rest) = value_list(alloc, tokens)?;
    match one(list) {
        Some(value) => Ok(((boxed(alloc, value)?, height), rest)),
        None => Err(ReadError::Wrong),
    }
}
