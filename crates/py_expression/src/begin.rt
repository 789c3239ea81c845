//! How an operand begins.

ghost use Rattle.py_expression.specs.Shown.{height_limit};
ghost use Rattle.std.specs.Prelude.{◌≡◌, ◌∷◌};
ghost use Rattle.py_expression.specs.Phrase.Gives.{Gives};
ghost use Rattle.py_expression.specs.Kept.{arguments_in};
ghost use Rattle.py_expression.specs.Spots.{stack_in, spot_in};
ghost use Rattle.py_expression.specs.Reading;

use crate::arguments::FunctionArguments;
use crate::frame::{Frame, Opened, Point, Spot, behind_primary, open};
use crate::measured::Measured;
use crate::parts::Parts;
use crate::phrase::{Mark, ReadError, after, after_name, constant_of};
use crate::tokens::prefix_of;
use port_io::Name;
use py_syntax::{Bracket, Function, Token};
use std::alloc::Global;

/// Where an argument behind so many others begins, which may be given by its name.
fn argument_begin<'a>(function: Function, others: usize, tokens: &'a [Token]) -> &'a [Token]
    ensures { result.now ≡ Reading.argument_begin function others tokens.now }
{
    match function.name_at(others) {
        Some(name) => after_name(name, tokens),
        None => tokens,
    }
}

/// One more argument of a call.
#[tactic(auto, unfolding(crate::specs::Reading::argument_of))]
pub fn argument<'a>(
    stack: Vec<Frame>,
    least: usize,
    function: Function,
    arguments: FunctionArguments,
    tokens: &'a [Token],
) -> Result<Spot<'a>, ReadError>
    ensures { Gives spot_in result (Reading.argument_of (stack_in stack.items) least function (arguments_in arguments) tokens.now) }
{
    let others = arguments.len();
    if !function.takes_argument(others) {
        return Err(ReadError::Wrong);
    }
    let rest = argument_begin(function, others, tokens);
    let opened = Opened::Call(function, arguments);
    Ok(open(stack, Frame { opened, least }, 1, rest)?)
}

/// The end of a call.
#[tactic(auto, unfolding(crate::specs::Reading::call_end))]
pub fn call_end<'a>(
    alloc: Global,
    stack: Vec<Frame>,
    least: usize,
    function: Function,
    arguments: FunctionArguments,
    tokens: &'a [Token],
) -> Result<Spot<'a>, ReadError>
    ensures { Gives spot_in result (Reading.call_end height_limit (stack_in stack.items) least function (arguments_in arguments) tokens.now) }
{
    if !function.has_enough(arguments.len()) {
        return Err(ReadError::Wrong);
    }
    let call = Measured::call(alloc, function, arguments)?;
    Ok(behind_primary(stack, least, call, tokens))
}

/// A call, behind its opening bracket.
#[tactic(auto, unfolding(crate::specs::Reading::call_of))]
fn call<'a>(
    alloc: Global,
    stack: Vec<Frame>,
    least: usize,
    function: Function,
    tokens: &'a [Token],
) -> Result<Spot<'a>, ReadError>
    ensures { Gives spot_in result (Reading.call_of height_limit (stack_in stack.items) least function tokens.now) }
{
    match after(Mark::Close(Bracket::Round), tokens) {
        Some(rest) => call_end(
            alloc,
            stack,
            least,
            function,
            FunctionArguments::new(alloc),
            rest,
        ),
        None => argument(
            stack,
            least,
            function,
            FunctionArguments::new(alloc),
            tokens,
        ),
    }
}

/// What a name begins: a call, or the name alone.
#[tactic(auto, unfolding(crate::specs::Reading::name_of))]
fn name<'a>(
    alloc: Global,
    stack: Vec<Frame>,
    least: usize,
    name: &Name,
    tokens: &'a [Token],
) -> Result<Spot<'a>, ReadError>
    ensures { Gives spot_in result (Reading.name_of height_limit (stack_in stack.items) least name.now tokens.now) }
{
    match (
        Function::of(name.bytes()),
        after(Mark::Open(Bracket::Round), tokens),
    ) {
        (Some(function), Some(rest)) => call(alloc, stack, least, function, rest),
        _ => {
            let name = Measured::name(alloc, Name::of(alloc, name.bytes())?)?;
            Ok(behind_primary(stack, least, name, tokens))
        }
    }
}

/// A primary that begins with this token.
#[tactic(auto, unfolding(crate::specs::Reading::begin_of))]
fn begin<'a>(
    alloc: Global,
    stack: Vec<Frame>,
    least: usize,
    first: &Token,
    rest: &'a [Token],
) -> Result<Spot<'a>, ReadError>
    ensures { Gives spot_in result (Reading.begin_of height_limit (stack_in stack.items) least first.now rest.now) }
{
    match first {
        Token::Open(Bracket::Round) => {
            let opened = Opened::Brackets;
            Ok(open(stack, Frame { opened, least }, 1, rest)?)
        }
        Token::FormatStart => Ok(Spot {
            stack,
            least,
            point: Point::Parts(Parts::new(alloc)),
            rest,
        }),
        Token::Name(word) => name(alloc, stack, least, word, rest),
        _ => {
            let constant = Measured::constant(alloc, constant_of(alloc, first)?)?;
            Ok(behind_primary(stack, least, constant, rest))
        }
    }
}

/// An operand that binds so tightly at least.
#[tactic(auto, unfolding(crate::specs::Reading::wanted_of))]
pub fn wanted<'a>(
    alloc: Global,
    stack: Vec<Frame>,
    least: usize,
    tokens: &'a [Token],
) -> Result<Spot<'a>, ReadError>
    ensures { Gives spot_in result (Reading.wanted_of height_limit (stack_in stack.items) least tokens.now) }
{
    let Some((first, rest)) = tokens.split_first() else {
        return Err(ReadError::Wrong);
    };
    match prefix_of(first) {
        Some(op) if least <= op.level() => {
            let opened = Opened::Prefix(op);
            Ok(open(stack, Frame { opened, least }, op.level(), rest)?)
        }
        Some(_) => Err(ReadError::Wrong),
        None => begin(alloc, stack, least, first, rest),
    }
}
