//! What stands behind `await`.

ghost use Rattle.py_expression.specs.Shown.{height_limit};
ghost use Rattle.std.specs.Prelude.{◌≡◌, codes, Some, None, MatchOption};
ghost use Rattle.py_syntax.specs.ExpressionTrees.{view};
ghost use Rattle.py_syntax.specs.StatementTrees.{optional, view_started, view_timed, view_awaited};
ghost use Rattle.py_expression.specs.Phrase.Gives.{Gives};
ghost use Rattle.py_expression.specs.Boxes.{inside};
ghost use Rattle.py_statement.specs.Call.Reading;
ghost use Rattle.py_statement.specs.Call.Views.{tall, ahead, times_in};

use crate::call::call::started;
use crate::call::tokens::{after_call, after_member, close_of_line};
use crate::call::values::{value, whole_primary};
use port_io::boxed;
use py_expression::phrase::{Mark, ReadError, after, after_last, after_name, end_of_line};
use py_syntax::{Awaited, Expression, Operator, StartedCall, Timed, Token};
use std::alloc::Global;

/// A time and perhaps its unit.
type Times = (Expression, Option<Expression>);

/// A started call, and then `)` at the end of the line, before which a comma may stand.
#[tactic(auto, unfolding(crate::specs::Call::Reading::closed_start_of))]
pub fn closed_start(alloc: Global, tokens: &[Token]) -> Result<(Box<StartedCall>, usize), ReadError>
    ensures { Gives (tall (inside view_started)) result (Reading.closed_start_of height_limit tokens.now) }
{
    let (call, rest) = started(alloc, tokens)?;
    close_of_line(rest)?;
    Ok(call)
}

/// `cocotb.start(call)`
#[tactic(auto, unfolding(crate::specs::Call::Reading::awaited_start_of))]
fn awaited_start(alloc: Global, tokens: &[Token]) -> Result<(Box<Awaited>, usize), ReadError>
    ensures { Gives (tall (inside view_awaited)) result (Reading.awaited_start_of height_limit tokens.now) }
{
    let Some(rest) = after_member(b"cocotb", b"start", tokens) else {
        return Err(ReadError::Wrong);
    };
    let (call, height) = closed_start(alloc, rest)?;
    let awaited = Awaited::Start(Box::into_inner(call));
    Ok((boxed(alloc, awaited)?, height))
}

/// An expression before a comma.
#[tactic(auto, unfolding(crate::specs::Call::Reading::timed_value_of, crate::specs::Call::Reading::before_comma))]
fn timed_value(
    alloc: Global,
    tokens: &[Token],
) -> Result<((Box<Timed>, usize), &[Token]), ReadError>
    ensures { Gives (ahead (inside view_timed)) result (Reading.timed_value_of height_limit tokens.now) }
{
    let ((value, height), rest) = value(alloc, tokens)?;
    match after(Mark::Operator(Operator::Comma), rest) {
        Some(rest) => {
            let timed = Timed::Value(Box::into_inner(value));
            Ok(((boxed(alloc, timed)?, height), rest))
        }
        None => Err(ReadError::Wrong),
    }
}

/// A started call before a comma.
#[tactic(auto, unfolding(crate::specs::Call::Reading::timed_call_of, crate::specs::Call::Reading::before_comma))]
fn timed_call(alloc: Global, tokens: &[Token]) -> Result<((Box<Timed>, usize), &[Token]), ReadError>
    ensures { Gives (ahead (inside view_timed)) result (Reading.timed_call_of height_limit tokens.now) }
{
    let ((call, height), rest) = started(alloc, tokens)?;
    match after(Mark::Operator(Operator::Comma), rest) {
        Some(rest) => {
            let timed = Timed::Call(Box::into_inner(call));
            Ok(((boxed(alloc, timed)?, height), rest))
        }
        None => Err(ReadError::Wrong),
    }
}

/// What `with_timeout` waits for, and the tokens after its comma.
#[tactic(auto, unfolding(crate::specs::Call::Reading::timed_of))]
fn timed(alloc: Global, tokens: &[Token]) -> Result<((Box<Timed>, usize), &[Token]), ReadError>
    ensures { Gives (ahead (inside view_timed)) result (Reading.timed_of height_limit tokens.now) }
{
    match timed_value(alloc, tokens) {
        Err(ReadError::Wrong) => timed_call(alloc, tokens),
        answer => answer,
    }
}

/// The tokens after a comma behind which an argument stands.
#[tactic(auto, unfolding(crate::specs::Call::Reading::after_argument_comma))]
fn after_argument_comma(tokens: &[Token]) -> Option<&[Token]>
    ensures { MatchOption result (Reading.after_argument_comma tokens.now ≡ None) (λ x. Reading.after_argument_comma tokens.now ≡ Some x.now) }
{
    match after_last(tokens) {
        Some(_) => None,
        None => after(Mark::Operator(Operator::Comma), tokens),
    }
}

/// The unit, by its place or by its name, if there is one, and `)` at the end of the line.
#[tactic(auto, unfolding(crate::specs::Call::Reading::unit_of))]
fn unit(alloc: Global, tokens: &[Token]) -> Result<(Option<Expression>, usize), ReadError>
    ensures { Gives (tall (optional view)) result (Reading.unit_of height_limit tokens.now) }
{
    match after_argument_comma(tokens) {
        Some(rest) => {
            let ((unit, height), rest) = value(alloc, after_name(b"timeout_unit", rest))?;
            close_of_line(rest)?;
            Ok((Some(Box::into_inner(unit)), height))
        }
        None => {
            close_of_line(tokens)?;
            Ok((None, 0))
        }
    }
}

/// A time and perhaps its unit, up to the end of the line.
#[tactic(auto, unfolding(crate::specs::Call::Reading::times_of))]
fn times(alloc: Global, tokens: &[Token]) -> Result<(Times, usize), ReadError>
    ensures { Gives (tall times_in) result (Reading.times_of height_limit tokens.now) }
{
    let ((time, height), rest) = value(alloc, tokens)?;
    let (unit, unit_height) = unit(alloc, rest)?;
    let times = (Box::into_inner(time), unit);
    Ok((times, height.max(unit_height)))
}

/// `with_timeout(value, timeout_time, timeout_unit)`
#[tactic(auto, unfolding(crate::specs::Call::Reading::with_timeout_of))]
fn with_timeout(alloc: Global, tokens: &[Token]) -> Result<(Box<Awaited>, usize), ReadError>
    ensures { Gives (tall (inside view_awaited)) result (Reading.with_timeout_of height_limit tokens.now) }
{
    let Some(rest) = after_call(b"with_timeout", tokens) else {
        return Err(ReadError::Wrong);
    };
    let ((timed, height), rest) = timed(alloc, rest)?;
    let ((time, unit), times_height) = times(alloc, rest)?;
    let awaited = Awaited::WithTimeout(Box::into_inner(timed), time, unit);
    Ok((boxed(alloc, awaited)?, height.max(times_height)))
}

/// A started call up to the end of the line.
#[tactic(auto, unfolding(crate::specs::Call::Reading::awaited_call_of))]
fn awaited_call(alloc: Global, tokens: &[Token]) -> Result<(Box<Awaited>, usize), ReadError>
    ensures { Gives (tall (inside view_awaited)) result (Reading.awaited_call_of height_limit tokens.now) }
{
    let ((call, height), rest) = started(alloc, tokens)?;
    end_of_line(rest)?;
    let awaited = Awaited::Call(Box::into_inner(call));
    Ok((boxed(alloc, awaited)?, height))
}

/// A primary up to the end of the line.
#[tactic(auto, unfolding(crate::specs::Call::Reading::awaited_value_of))]
fn awaited_value(alloc: Global, tokens: &[Token]) -> Result<(Box<Awaited>, usize), ReadError>
    ensures { Gives (tall (inside view_awaited)) result (Reading.awaited_value_of height_limit tokens.now) }
{
    let (value, height) = whole_primary(alloc, tokens)?;
    let awaited = Awaited::Value(Box::into_inner(value));
    Ok((boxed(alloc, awaited)?, height))
}

/// `with_timeout` or a started call.
#[tactic(auto, unfolding(crate::specs::Call::Reading::timeout_or_call_of))]
fn timeout_or_call(alloc: Global, tokens: &[Token]) -> Result<(Box<Awaited>, usize), ReadError>
    ensures { Gives (tall (inside view_awaited)) result (Reading.timeout_or_call_of height_limit tokens.now) }
{
    match with_timeout(alloc, tokens) {
        Err(ReadError::Wrong) => awaited_call(alloc, tokens),
        answer => answer,
    }
}

/// A call up to the end of the line that is no expression.
#[tactic(auto, unfolding(crate::specs::Call::Reading::calls_of))]
fn calls(alloc: Global, tokens: &[Token]) -> Result<(Box<Awaited>, usize), ReadError>
    ensures { Gives (tall (inside view_awaited)) result (Reading.calls_of height_limit tokens.now) }
{
    match awaited_start(alloc, tokens) {
        Err(ReadError::Wrong) => timeout_or_call(alloc, tokens),
        answer => answer,
    }
}

/// What these tokens, which stand behind `await`, stand for, with its height.
#[tactic(auto, unfolding(crate::specs::Call::Reading::awaited_of))]
pub fn await_operand(alloc: Global, tokens: &[Token]) -> Result<(Box<Awaited>, usize), ReadError>
    ensures { Gives (tall (inside view_awaited)) result (Reading.awaited_of height_limit tokens.now) }
{
    match awaited_value(alloc, tokens) {
        Err(ReadError::Wrong) => calls(alloc, tokens),
        answer => answer,
    }
}
