//! What may stand behind an operand: an operator, or the end of the innermost node.

ghost use Rattle.py_expression.specs.Shown.{height_limit};
ghost use Rattle.std.specs.Prelude.{◌≡◌, ◌∷◌, Some};
ghost use Rattle.py_expression.specs.Phrase.Gives.{Gives};
ghost use Rattle.py_expression.specs.Kept.{measured, arguments_in, parts_in};
ghost use Rattle.py_expression.specs.Spots.{stack_in, spot_in, step_in, opened_in};
ghost use Rattle.py_expression.specs.Reading;

use crate::arguments::FunctionArguments;
use crate::begin::{argument, call_end};
use crate::frame::{Frame, Opened, Point, Spot, Step, behind_primary, innermost, open};
use crate::measured::Measured;
use crate::parts::Parts;
use crate::phrase::{Mark, ReadError, after, after_last};
use crate::tokens::{after_format_close, operation_at};
use port_io::Name;
use py_syntax::{Bracket, Function, Operator, Token};
use std::alloc::Global;

/// What stands behind the arguments of a call that were read so far: its end, or a comma and one more.
#[tactic(auto, unfolding(crate::specs::Reading::behind_argument))]
fn behind_argument<'a>(
    alloc: Global,
    stack: Vec<Frame>,
    least: usize,
    function: Function,
    arguments: FunctionArguments,
    tokens: &'a [Token],
) -> Result<Spot<'a>, ReadError>
    ensures { Gives spot_in result (Reading.behind_argument height_limit (stack_in stack.items) least function (arguments_in arguments) tokens.now) }
{
    if let Some(rest) = after_last(tokens) {
        return call_end(alloc, stack, least, function, arguments, rest);
    }
    match after(Mark::Operator(Operator::Comma), tokens) {
        Some(rest) => argument(stack, least, function, arguments, rest),
        None => Err(ReadError::Wrong),
    }
}

/// `(inner)`, behind what stands in the brackets.
#[tactic(auto, unfolding(crate::specs::Reading::close_of))]
fn brackets<'a>(
    alloc: Global,
    stack: Vec<Frame>,
    least: usize,
    inner: Measured,
    tokens: &'a [Token],
) -> Result<Spot<'a>, ReadError>
    ensures { Gives spot_in result
        (Reading.close_of height_limit (stack_in stack.items) least (opened_in Opened.Brackets) (measured inner) tokens.now) }
{
    match after(Mark::Close(Bracket::Round), tokens) {
        Some(rest) => {
            let primary = Measured::bracketed(alloc, inner)?;
            Ok(behind_primary(stack, least, primary, rest))
        }
        None => Err(ReadError::Wrong),
    }
}

/// `base[index]`, behind the index.
#[tactic(auto, unfolding(crate::specs::Reading::close_of))]
fn subscript<'a>(
    alloc: Global,
    stack: Vec<Frame>,
    least: usize,
    base: Measured,
    index: Measured,
    tokens: &'a [Token],
) -> Result<Spot<'a>, ReadError>
    ensures { Gives spot_in result
        (Reading.close_of height_limit (stack_in stack.items) least (opened_in (Opened.Subscript base)) (measured index) tokens.now) }
{
    match after(Mark::Close(Bracket::Square), tokens) {
        Some(rest) => {
            let primary = Measured::subscript(alloc, base, index)?;
            Ok(behind_primary(stack, least, primary, rest))
        }
        None => Err(ReadError::Wrong),
    }
}

/// `{expression}` of an f-string, behind the expression.
#[tactic(auto, unfolding(crate::specs::Reading::close_of))]
fn formatted<'a>(
    stack: Vec<Frame>,
    least: usize,
    parts: Parts,
    expression: Measured,
    tokens: &'a [Token],
) -> Result<Spot<'a>, ReadError>
    ensures { Gives spot_in result
        (Reading.close_of height_limit (stack_in stack.items) least (opened_in (Opened.Format parts)) (measured expression) tokens.now) }
{
    match after_format_close(tokens) {
        Some(rest) => Ok(Spot {
            stack,
            least,
            point: Point::Parts(parts.with_formatted(expression)?),
            rest,
        }),
        None => Err(ReadError::Wrong),
    }
}

/// The innermost node takes the operand.
#[tactic(auto, unfolding(crate::specs::Reading::close_of))]
fn close<'a>(
    alloc: Global,
    stack: Vec<Frame>,
    frame: Frame,
    operand: Measured,
    rest: &'a [Token],
) -> Result<Spot<'a>, ReadError>
    ensures { Gives spot_in result
        (Reading.close_of height_limit (stack_in stack.items) frame.least (opened_in frame.opened) (measured operand) rest.now) }
{
    let Frame { opened, least } = frame;
    let (operand, level) = match opened {
        Opened::Prefix(op) => (Measured::unary(alloc, op, operand)?, op.level()),
        Opened::Infix(op, left) => (Measured::infix_of(alloc, op, left, operand)?, op.level()),
        Opened::Brackets => return brackets(alloc, stack, least, operand, rest),
        Opened::Subscript(base) => return subscript(alloc, stack, least, base, operand, rest),
        Opened::Call(function, arguments) => {
            let arguments = arguments.with(operand)?;
            return behind_argument(alloc, stack, least, function, arguments, rest);
        }
        Opened::Format(parts) => return formatted(stack, least, parts, operand, rest),
    };
    Ok(Spot {
        stack,
        least,
        point: Point::Operand(operand, level),
        rest,
    })
}

/// Behind an operand that no operator takes.
#[tactic(auto, unfolding(crate::specs::Reading::leave_of))]
fn leave<'a>(
    alloc: Global,
    mut stack: Vec<Frame>,
    operand: Measured,
    rest: &'a [Token],
) -> Result<Step<'a>, ReadError>
    ensures { Gives step_in result (Reading.leave_of height_limit (stack_in stack.items) (measured operand) rest.now) }
{
    match innermost(&mut stack) {
        Some(frame) => Ok(Step::Going(close(alloc, stack, frame, operand, rest)?)),
        None => Ok(Step::Done(operand, rest)),
    }
}

/// Behind an operand that binds so tightly.
#[tactic(auto, unfolding(crate::specs::Reading::operand_of))]
pub fn behind_operand<'a>(
    alloc: Global,
    stack: Vec<Frame>,
    least: usize,
    operand: Measured,
    level: usize,
    tokens: &'a [Token],
) -> Result<Step<'a>, ReadError>
    ensures { Gives step_in result (Reading.operand_of height_limit (stack_in stack.items) least (measured operand) level tokens.now) }
{
    match operation_at(tokens) {
        Some((op, rest)) if least <= op.level() && op.left_level() <= level => {
            let opened = Opened::Infix(op, operand);
            let frame = Frame { opened, least };
            Ok(Step::Going(open(stack, frame, op.level() + 1, rest)?))
        }
        _ => leave(alloc, stack, operand, tokens),
    }
}

/// In an f-string, outside of its expressions.
#[tactic(auto, unfolding(crate::specs::Reading::parts_of))]
pub fn in_format<'a>(
    alloc: Global,
    stack: Vec<Frame>,
    least: usize,
    parts: Parts,
    tokens: &'a [Token],
) -> Result<Spot<'a>, ReadError>
    ensures { Gives spot_in result (Reading.parts_of height_limit (stack_in stack.items) least (parts_in parts) tokens.now) }
{
    match tokens.split_first() {
        Some((Token::FormatText(text), rest)) => Ok(Spot {
            stack,
            least,
            point: Point::Parts(parts.with_text(Name::of(alloc, text.bytes())?)?),
            rest,
        }),
        Some((Token::FormatOpen, rest)) => {
            let opened = Opened::Format(parts);
            Ok(open(stack, Frame { opened, least }, 1, rest)?)
        }
        Some((Token::FormatEnd, rest)) => {
            let primary = Measured::format_string(alloc, parts)?;
            Ok(behind_primary(stack, least, primary, rest))
        }
        _ => Err(ReadError::Wrong),
    }
}
