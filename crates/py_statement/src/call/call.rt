//! Calls that are started.

ghost use Rattle.py_expression.specs.Shown.{height_limit};
ghost use Rattle.std.specs.Prelude.{◌≡◌, [], map, List, Some, None};
ghost use Rattle.py_syntax.specs.ExpressionTrees.{view};
ghost use Rattle.py_syntax.specs.StatementTrees.{view_argument, view_started};
ghost use Rattle.py_syntax.specs.CallForms;
ghost use Rattle.py_syntax.specs.CallForms.{in_order, starts_clock};
ghost use Rattle.py_expression.specs.Phrase.Gives.{Gives};
ghost use Rattle.py_statement.specs.Call.Reading;
ghost use Rattle.py_expression.specs.Boxes.{inside};
ghost use Rattle.py_statement.specs.Call.Views.{tall, ahead, arguments_in};

use crate::call::arguments::{Arguments, argument_list};
use crate::call::method::method_at;
use crate::call::placed::only_value;
use crate::call::tokens::{call_at, is_end};
use port_io::{Name, boxed};
use py_expression::phrase::{Mark, ReadError, after};
use py_syntax::{Argument, Bracket, Expression, StartedCall, Token};
use std::alloc::Global;

/// Whether no argument that is given by its place stands behind one that is given by its name.
#[tactic(auto, unfolding(py_syntax::specs::CallForms::in_order_behind))]
fn is_in_order(list: &[Argument]) -> bool
    ensures { result ≡ in_order (map view_argument list.now) }
{
    let mut named = false;
    for argument in list {
        if argument.name.is_some() {
            named = true;
        } else if named {
            return false;
        }
    }
    true
}

/// Whether an argument is given by this name.
fn is_named(name: &Option<Name>, wanted: &[u8]) -> bool
    ensures { result ≡ CallForms.is_named wanted.now name.now }
{
    match name {
        Some(name) => name.bytes() == wanted,
        None => false,
    }
}

/// Whether a clock's start takes these arguments: `cycles` and then `start_high`, each of which may be left out or be given by its
/// name.
#[tactic(auto, unfolding(py_syntax::specs::CallForms::starts_clock))]
fn is_clock_start(list: &[Argument]) -> bool
    ensures { result ≡ starts_clock (map view_argument list.now) }
{
    match list {
        [] => true,
        [one] => {
            one.name.is_none()
                || is_named(&one.name, b"cycles")
                || is_named(&one.name, b"start_high")
        }
        [one, two] => {
            (one.name.is_none() && (two.name.is_none() || is_named(&two.name, b"start_high")))
                || (is_named(&one.name, b"cycles") && is_named(&two.name, b"start_high"))
                || (is_named(&one.name, b"start_high") && is_named(&two.name, b"cycles"))
        }
        _ => false,
    }
}

/// The call of a function with these arguments, if the call ends before these tokens.
#[tactic(auto, unfolding(crate::specs::Call::Reading::function_call_by))]
fn called(
    alloc: Global,
    name: Name,
    arguments: Arguments,
    rest: &[Token],
) -> Result<((Box<StartedCall>, usize), &[Token]), ReadError>
    ensures { Gives (ahead (inside view_started)) result (Reading.function_call_by name (arguments_in arguments, rest.now)) }
{
    if is_in_order(&arguments.list) && is_end(rest) {
        let call = boxed(alloc, StartedCall::Function(name, arguments.list))?;
        Ok(((call, arguments.height), rest))
    } else {
        Err(ReadError::Wrong)
    }
}

/// The call of a function at the front.
#[tactic(auto, unfolding(crate::specs::Call::Reading::function_call_of))]
fn function_call(
    alloc: Global,
    tokens: &[Token],
) -> Result<((Box<StartedCall>, usize), &[Token]), ReadError>
    ensures { Gives (ahead (inside view_started)) result (Reading.function_call_of height_limit tokens.now) }
{
    let Some((name, rest)) = call_at(tokens) else {
        return Err(ReadError::Wrong);
    };
    let name = Name::of(alloc, name.bytes())?;
    let (arguments, rest) = argument_list(alloc, rest)?;
    called(alloc, name, arguments, rest)
}

/// The start of this clock with these arguments.
#[tactic(auto, unfolding(crate::specs::Call::Reading::clock_start_by))]
fn clock_started(
    alloc: Global,
    clock: (Box<Expression>, usize),
    arguments: Arguments,
    rest: &[Token],
) -> Result<((Box<StartedCall>, usize), &[Token]), ReadError>
    ensures { Gives (ahead (inside view_started)) result (Reading.clock_start_by (tall (inside view) clock) (arguments_in arguments, rest.now)) }
{
    if is_clock_start(&arguments.list) {
        let height = clock.1.max(arguments.height);
        let call = StartedCall::Clock(Box::into_inner(clock.0), arguments.list);
        Ok(((boxed(alloc, call)?, height), rest))
    } else {
        Err(ReadError::Wrong)
    }
}

/// The start of this clock, behind the bracket.
#[tactic(auto, unfolding(crate::specs::Call::Reading::clock_start_of))]
fn clock_start(
    alloc: Global,
    clock: (Box<Expression>, usize),
    tokens: &[Token],
) -> Result<((Box<StartedCall>, usize), &[Token]), ReadError>
    ensures { Gives (ahead (inside view_started)) result (Reading.clock_start_of height_limit (tall (inside view) clock) tokens.now) }
{
    let (arguments, rest) = argument_list(alloc, tokens)?;
    clock_started(alloc, clock, arguments, rest)
}

/// A put into this queue, behind the bracket.
#[tactic(auto, unfolding(crate::specs::Call::Reading::queue_put_of))]
fn queue_put(
    alloc: Global,
    queue: (Box<Expression>, usize),
    tokens: &[Token],
) -> Result<((Box<StartedCall>, usize), &[Token]), ReadError>
    ensures { Gives (ahead (inside view_started)) result (Reading.queue_put_of height_limit (tall (inside view) queue) tokens.now) }
{
    let ((item, height), rest) = only_value(alloc, tokens)?;
    let height = queue.1.max(height);
    let call = StartedCall::Put(Box::into_inner(queue.0), Box::into_inner(item));
    Ok(((boxed(alloc, call)?, height), rest))
}

/// A get from this queue, behind the bracket.
#[tactic(auto, unfolding(crate::specs::Call::Reading::queue_get_of))]
fn queue_get(
    alloc: Global,
    queue: (Box<Expression>, usize),
    tokens: &[Token],
) -> Result<((Box<StartedCall>, usize), &[Token]), ReadError>
    ensures { Gives (ahead (inside view_started)) result (Reading.queue_get_of (tall (inside view) queue) tokens.now) }
{
    match after(Mark::Close(Bracket::Round), tokens) {
        Some(rest) => {
            let call = StartedCall::Get(Box::into_inner(queue.0));
            Ok(((boxed(alloc, call)?, queue.1), rest))
        }
        None => Err(ReadError::Wrong),
    }
}

/// What the method of this name starts, behind the bracket.
#[tactic(auto, unfolding(crate::specs::Call::Reading::method_start_by))]
fn started_by<'a>(
    alloc: Global,
    object: (Box<Expression>, usize),
    name: &[u8],
    tokens: &'a [Token],
) -> Result<((Box<StartedCall>, usize), &'a [Token]), ReadError>
    ensures { Gives (ahead (inside view_started)) result
        (Reading.method_start_by height_limit (tall (inside view) object) name.now tokens.now) }
{
    if name == b"start".as_slice() {
        return clock_start(alloc, object, tokens);
    }
    if name == b"put".as_slice() {
        return queue_put(alloc, object, tokens);
    }
    if name == b"get".as_slice() {
        return queue_get(alloc, object, tokens);
    }
    Err(ReadError::Wrong)
}

/// The method's call at the front.
#[tactic(auto, unfolding(crate::specs::Call::Reading::method_start_of))]
fn method_start(
    alloc: Global,
    tokens: &[Token],
) -> Result<((Box<StartedCall>, usize), &[Token]), ReadError>
    ensures { Gives (ahead (inside view_started)) result (Reading.method_start_of height_limit tokens.now) }
{
    let (object, (name, rest)) = method_at(alloc, tokens)?;
    started_by(alloc, object, name.bytes(), rest)
}

/// The started call at the front with its height, and the tokens after it. It ends at the end of the line, before a comma or before
/// `)`.
#[tactic(auto, unfolding(crate::specs::Call::Reading::started_of))]
pub fn started(
    alloc: Global,
    tokens: &[Token],
) -> Result<((Box<StartedCall>, usize), &[Token]), ReadError>
    ensures { Gives (ahead (inside view_started)) result (Reading.started_of height_limit tokens.now) }
{
    match function_call(alloc, tokens) {
        Err(ReadError::Wrong) => method_start(alloc, tokens),
        answer => answer,
    }
}
