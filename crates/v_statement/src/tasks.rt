//! The two system tasks and their arguments (IEEE 1364-2005, clause 18.1).

ghost use Rattle.std.specs.Prelude.{◌≡◌, ◌<◌, map, option_map};
ghost use Rattle.v_syntax.specs.StatementTrees.{view, ArgumentTree, view_argument};
ghost use Rattle.v_expression.specs.Phrase.Stops.{Gives};
ghost use Rattle.v_statement.specs.Firsts;
ghost use Rattle.v_statement.specs.Reading.{argument_of, arguments_of, task_of_room};

use crate::expressions::{begins_expression, expression_below, starts_expression};
use port_io::boxed;
use std::alloc::Global;
use v_expression::phrase::{
    Element, ReadError, after, listed, next, starts_mark, system_task, text,
};
use v_syntax::{Mark, Statement, TaskArgument, Token};

/// Whether an argument of a system task begins with the first token.
fn starts_argument(tokens: &[Token]) -> bool
    ensures { result ≡ Firsts.starts_argument tokens.now }
{
    match next(tokens) {
        Some((Token::Text(_) | Token::Name(_) | Token::Number(_), _)) => true,
        Some((Token::Mark(mark), _)) => begins_expression(*mark),
        _ => false,
    }
}

/// An expression or a text.
#[tactic(auto, unfolding(crate::specs::Reading::argument_of))]
fn argument(
    alloc: Global,
    total: usize,
    room: usize,
    tokens: &[Token],
) -> Result<(TaskArgument, &[Token]), ReadError>
    requires { room < 1000 }
    ensures { Gives (λ x. (view_argument x.0, x.1.now)) result (argument_of total room tokens.now) }
{
    if starts_expression(tokens) {
        let (value, rest) = expression_below(alloc, total, room, tokens)?;
        let value = Box::into_inner(value);
        return Ok((TaskArgument::Expression(value), rest));
    }
    let (text, rest) = text(alloc, tokens)?;
    Ok((TaskArgument::Text(text), rest))
}

/// The phrase [`argument`].
enum ArgumentPhrase {}

impl Element for ArgumentPhrase {
    type Value = TaskArgument;

    ghost Tree = { ArgumentTree };

    ghost tree = { view_argument };

    ghost reading = { argument_of };

    fn read<'a>(
        alloc: Global,
        total: usize,
        room: usize,
        tokens: &'a [Token],
    ) -> Result<(TaskArgument, &'a [Token]), ReadError> {
        argument(alloc, total, room, tokens)
    }
}

/// `( [argument , ..] )`, without arguments `None`
#[tactic(auto, unfolding(crate::specs::Reading::arguments_of))]
fn bracketed_arguments(
    alloc: Global,
    total: usize,
    room: usize,
    tokens: &[Token],
) -> Result<(Option<Vec<TaskArgument>>, &[Token]), ReadError>
    requires { room < 1000 }
    ensures { Gives (λ x. (option_map (λ v. map view_argument v.items) x.0, x.1.now)) result (arguments_of total room tokens.now) }
{
    let rest = after(Mark::OpenParenthesis, tokens)?;
    if !starts_argument(rest) {
        let rest = after(Mark::CloseParenthesis, rest)?;
        return Ok((None, rest));
    }
    let (all, rest) = listed::<ArgumentPhrase>(alloc, total, room, rest)?;
    let rest = after(Mark::CloseParenthesis, rest)?;
    Ok((Some(all), rest))
}

/// `$dumpfile` or `$dumpvars`, its arguments, and `;`
#[tactic(auto, unfolding(crate::specs::Reading::task_of_room))]
pub fn task_enable(
    alloc: Global,
    total: usize,
    room: usize,
    tokens: &[Token],
) -> Result<(Box<Statement>, &[Token]), ReadError>
    requires { room < 1000 }
    ensures { Gives (λ x. (view x.0.value, x.1.now)) result (task_of_room total room tokens.now) }
{
    let (task, rest) = system_task(tokens)?;
    if !starts_mark(Mark::OpenParenthesis, rest) {
        let rest = after(Mark::Semicolon, rest)?;
        let arguments = Vec::new(alloc);
        return Ok((
            boxed(alloc, Statement::TaskEnable { task, arguments })?,
            rest,
        ));
    }
    let (given, rest) = bracketed_arguments(alloc, total, room, rest)?;
    let rest = after(Mark::Semicolon, rest)?;
    let arguments = given.unwrap_or(Vec::new(alloc));
    Ok((
        boxed(alloc, Statement::TaskEnable { task, arguments })?,
        rest,
    ))
}
