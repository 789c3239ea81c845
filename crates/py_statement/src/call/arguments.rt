//! The arguments of a call.

ghost use Rattle.py_expression.specs.Shown.{height_limit};
ghost use Rattle.std.specs.Prelude.{◌≡◌, [], map, Some, None, IfOk, MatchOption};
ghost use Rattle.py_syntax.specs.ExpressionTrees.{view};
ghost use Rattle.py_syntax.specs.StatementTrees.{view_argument};
ghost use Rattle.py_syntax.specs.CallForms.{in_order, starts_clock};
ghost use Rattle.py_expression.specs.Phrase.Gives.{Gives};
ghost use Rattle.py_statement.specs.Call.Reading;
ghost use Rattle.py_statement.specs.Call.Views.{tall, ahead, arguments_in, arguments_ahead, step_in};

use crate::call::values::value;
use port_io::{Name, NoMemory};
use py_expression::phrase::{Mark, ReadError, after, after_last, named_at};
use py_syntax::{Argument, Bracket, Operator, Token};
use std::alloc::Global;

/// Arguments, and the greatest height of their values.
#[derive(Drop)]
pub struct Arguments {
    pub list: Vec<Argument>,
    /// 0 where there is no argument.
    pub height: usize,
}

impl Arguments {
    /// No arguments.
    fn new(alloc: Global) -> Self
        ensures { arguments_in result ≡ ([], 0) }
    {
        Arguments {
            list: Vec::new(alloc),
            height: 0,
        }
    }

    /// These and one more, of this height.
    #[tactic(auto, unfolding(crate::specs::Call::Reading::joined))]
    fn with(mut self, argument: Argument, height: usize) -> Result<Arguments, NoMemory>
        ensures { IfOk result (λ all. arguments_in all ≡ Reading.joined (arguments_in self) (view_argument argument, height)) }
    {
        self.height = self.height.max(height);
        self.list.push(argument)?;
        Ok(self)
    }
}

/// Behind an argument: before another one, or behind the last.
#[derive(Drop)]
enum Step<'a> {
    Going(Arguments, &'a [Token]),
    Done(Arguments, &'a [Token]),
}

/// The name by which an argument is given, and the tokens of its value.
#[tactic(auto, unfolding(crate::specs::Call::Reading::begin_of))]
fn begin<'a>(alloc: Global, tokens: &'a [Token]) -> Result<(Option<Name>, &'a [Token]), NoMemory>
    ensures { IfOk result (λ x. (x.0, x.1.now) ≡ Reading.begin_of tokens.now) }
{
    match named_at(tokens) {
        Some((name, rest)) => Ok((Some(Name::of(alloc, name.bytes())?), rest)),
        None => Ok((None, tokens)),
    }
}

/// One argument with the height of its value, and the tokens after it.
#[tactic(auto, unfolding(crate::specs::Call::Reading::argument_of))]
fn argument(alloc: Global, tokens: &[Token]) -> Result<((Argument, usize), &[Token]), ReadError>
    ensures { Gives (ahead view_argument) result (Reading.argument_of height_limit tokens.now) }
{
    let (name, rest) = begin(alloc, tokens)?;
    let ((value, height), rest) = value(alloc, rest)?;
    let value = Box::into_inner(value);
    Ok(((Argument { name, value }, height), rest))
}

/// Behind an argument.
#[tactic(auto, unfolding(crate::specs::Call::Reading::behind_of))]
fn behind<'a>(all: Arguments, tokens: &'a [Token]) -> Result<Step<'a>, ReadError>
    ensures { Gives step_in result (Reading.behind_of (arguments_in all) tokens.now) }
{
    match (
        after_last(tokens),
        after(Mark::Operator(Operator::Comma), tokens),
    ) {
        (Some(rest), _) => Ok(Step::Done(all, rest)),
        (None, Some(rest)) => Ok(Step::Going(all, rest)),
        (None, None) => Err(ReadError::Wrong),
    }
}

/// One argument more.
#[tactic(auto, unfolding(crate::specs::Call::Reading::step_of))]
fn advance<'a>(alloc: Global, all: Arguments, tokens: &'a [Token]) -> Result<Step<'a>, ReadError>
    ensures { Gives step_in result (Reading.step_of height_limit (arguments_in all) tokens.now) }
{
    let ((argument, height), rest) = argument(alloc, tokens)?;
    behind(all.with(argument, height)?, rest)
}

/// One argument at least.
fn some_arguments(alloc: Global, tokens: &[Token]) -> Result<(Arguments, &[Token]), ReadError>
    ensures { Gives arguments_ahead result (Reading.some_arguments_of height_limit tokens.now) }
{
    let mut all = Arguments::new(alloc);
    let mut rest = tokens;
    for _ in 0..tokens.len() {
        match advance(alloc, all, rest)? {
            Step::Going(more, after) => {
                all = more;
                rest = after;
            }
            Step::Done(found, after) => return Ok((found, after)),
        }
    }
    Err(ReadError::Wrong)
}

/// The arguments behind an opening bracket, and the tokens after the closing one, before which a comma may stand.
#[tactic(auto, unfolding(crate::specs::Call::Reading::arguments_of))]
pub fn argument_list(alloc: Global, tokens: &[Token]) -> Result<(Arguments, &[Token]), ReadError>
    ensures { Gives arguments_ahead result (Reading.arguments_of height_limit tokens.now) }
{
    match after(Mark::Close(Bracket::Round), tokens) {
        Some(rest) => Ok((Arguments::new(alloc), rest)),
        None => some_arguments(alloc, tokens),
    }
}
