//! Right sides.

ghost use Rattle.py_expression.specs.Shown.{height_limit};
ghost use Rattle.std.specs.Prelude.{◌≡◌, codes, Some, None, MatchOption};
ghost use Rattle.py_syntax.specs.ExpressionTrees.{view};
ghost use Rattle.py_syntax.specs.StatementTrees.{optional, view_right};
ghost use Rattle.py_expression.specs.Phrase.Gives.{Gives};
ghost use Rattle.py_expression.specs.Boxes.{inside};
ghost use Rattle.py_statement.specs.Call.Reading;
ghost use Rattle.py_statement.specs.Call.Words;
ghost use Rattle.py_statement.specs.Call.Views.{tall};

use crate::call::awaited::{await_operand, closed_start};
use crate::call::method::method_at;
use crate::call::placed::value_list;
use crate::call::tokens::{after_call, after_member, after_text, close_of_line};
use crate::call::values::{value, whole_value};
use port_io::boxed;
use py_expression::phrase::{Mark, ReadError, after, after_last, after_name, end_of_line};
use py_syntax::{Bracket, Expression, Keyword, RightSide, Token};
use std::alloc::Global;

/// The two elements of a list.
fn two<T: Drop>(mut list: Vec<T>) -> Option<(T, T)>
    ensures { MatchOption result (Reading.two_of list.items ≡ None) (λ x. Reading.two_of list.items ≡ Some x) }
{
    let second = list.pop()?;
    let first = list.pop()?;
    if list.is_empty() {
        Some((first, second))
    } else {
        None
    }
}

/// `random.randint(low, high)`, behind the bracket.
#[tactic(auto, using(crate::proofs::CallLemmas::Lists::two_seen), unfolding(crate::specs::Call::Reading::random_int_of))]
fn random_int(alloc: Global, tokens: &[Token]) -> Result<(Box<RightSide>, usize), ReadError>
    ensures { Gives (tall (inside view_right)) result (Reading.random_int_of height_limit tokens.now) }
{
    let ((list, height), rest) = value_list(alloc, tokens)?;
    match two(list) {
        Some((low, high)) => {
            let side = boxed(alloc, RightSide::RandomInt(low, high))?;
            end_of_line(rest)?;
            Ok((side, height))
        }
        None => Err(ReadError::Wrong),
    }
}

/// The tokens after the bracket that closes `Event(` or `Lock(`.
#[tactic(auto, unfolding(crate::specs::Call::Reading::after_new))]
fn after_new(tokens: &[Token]) -> Option<&[Token]>
    ensures { MatchOption result (Reading.after_new tokens.now ≡ None) (λ x. Reading.after_new tokens.now ≡ Some x.now) }
{
    match after_text(tokens) {
        Some(rest) => after_last(rest),
        None => after(Mark::Close(Bracket::Round), tokens),
    }
}

/// `Event()` or `Lock()`, behind the bracket.
#[tactic(auto, unfolding(crate::specs::Call::Reading::new_of))]
fn new(side: Box<RightSide>, tokens: &[Token]) -> Result<(Box<RightSide>, usize), ReadError>
    ensures { Gives (tall (inside view_right)) result (Reading.new_of (view_right side.value) tokens.now) }
{
    match after_new(tokens) {
        Some(rest) => {
            end_of_line(rest)?;
            Ok((side, 0))
        }
        None => Err(ReadError::Wrong),
    }
}

/// `cocotb.start_soon(call)`, behind the bracket.
#[tactic(auto, unfolding(crate::specs::Call::Reading::start_soon_of))]
fn start_soon(alloc: Global, tokens: &[Token]) -> Result<(Box<RightSide>, usize), ReadError>
    ensures { Gives (tall (inside view_right)) result (Reading.start_soon_of height_limit tokens.now) }
{
    let (call, height) = closed_start(alloc, tokens)?;
    let side = RightSide::StartSoon(Box::into_inner(call));
    Ok((boxed(alloc, side)?, height))
}

/// An expression.
#[tactic(auto, unfolding(crate::specs::Call::Reading::right_value_of))]
fn right_value(alloc: Global, tokens: &[Token]) -> Result<(Box<RightSide>, usize), ReadError>
    ensures { Gives (tall (inside view_right)) result (Reading.right_value_of height_limit tokens.now) }
{
    let (value, height) = whole_value(alloc, tokens)?;
    let side = RightSide::Value(Box::into_inner(value));
    Ok((boxed(alloc, side)?, height))
}

/// The bound of a queue, by its place or by its name, if there is one, and `)` at the end of the line.
#[tactic(auto, unfolding(crate::specs::Call::Reading::bound_of))]
fn bound(alloc: Global, tokens: &[Token]) -> Result<(Option<Expression>, usize), ReadError>
    ensures { Gives (tall (optional view)) result (Reading.bound_of height_limit tokens.now) }
{
    match after(Mark::Close(Bracket::Round), tokens) {
        Some(rest) => {
            end_of_line(rest)?;
            Ok((None, 0))
        }
        None => {
            let ((bound, height), rest) = value(alloc, after_name(b"maxsize", tokens))?;
            close_of_line(rest)?;
            Ok((Some(Box::into_inner(bound)), height))
        }
    }
}

/// `Queue(maxsize)`, behind the bracket.
#[tactic(auto, unfolding(crate::specs::Call::Reading::queue_of))]
fn queue(alloc: Global, tokens: &[Token]) -> Result<(Box<RightSide>, usize), ReadError>
    ensures { Gives (tall (inside view_right)) result (Reading.queue_of height_limit tokens.now) }
{
    let (bound, height) = bound(alloc, tokens)?;
    Ok((boxed(alloc, RightSide::Queue(bound))?, height))
}

/// The item that a method of this name takes out of a queue, behind the bracket.
#[tactic(auto, unfolding(crate::specs::Call::Reading::get_now_by))]
fn taken_by(
    alloc: Global,
    queue: (Box<Expression>, usize),
    name: &[u8],
    tokens: &[Token],
) -> Result<(Box<RightSide>, usize), ReadError>
    ensures { Gives (tall (inside view_right)) result (Reading.get_now_by (tall (inside view) queue) name.now tokens.now) }
{
    if name != b"get_nowait".as_slice() {
        return Err(ReadError::Wrong);
    }
    match after(Mark::Close(Bracket::Round), tokens) {
        Some(rest) => {
            end_of_line(rest)?;
            let side = RightSide::GetNow(Box::into_inner(queue.0));
            Ok((boxed(alloc, side)?, queue.1))
        }
        None => Err(ReadError::Wrong),
    }
}

/// `queue.get_nowait()`
#[tactic(auto, unfolding(crate::specs::Call::Reading::get_now_of))]
fn get_now(alloc: Global, tokens: &[Token]) -> Result<(Box<RightSide>, usize), ReadError>
    ensures { Gives (tall (inside view_right)) result (Reading.get_now_of height_limit tokens.now) }
{
    let (queue, (name, rest)) = method_at(alloc, tokens)?;
    taken_by(alloc, queue, name.bytes(), rest)
}

/// An expression, or an item of a queue.
#[tactic(auto, unfolding(crate::specs::Call::Reading::value_or_get_of))]
fn value_or_get(alloc: Global, tokens: &[Token]) -> Result<(Box<RightSide>, usize), ReadError>
    ensures { Gives (tall (inside view_right)) result (Reading.value_or_get_of height_limit tokens.now) }
{
    match right_value(alloc, tokens) {
        Err(ReadError::Wrong) => get_now(alloc, tokens),
        answer => answer,
    }
}

/// A new event, lock or queue, an expression, or an item of a queue.
#[tactic(auto, unfolding(crate::specs::Call::Reading::object_or_value_of))]
fn object_or_value(alloc: Global, tokens: &[Token]) -> Result<(Box<RightSide>, usize), ReadError>
    ensures { Gives (tall (inside view_right)) result (Reading.object_or_value_of height_limit tokens.now) }
{
    if let Some(rest) = after_call(b"Event", tokens) {
        return new(boxed(alloc, RightSide::Event)?, rest);
    }
    if let Some(rest) = after_call(b"Lock", tokens) {
        return new(boxed(alloc, RightSide::Lock)?, rest);
    }
    if let Some(rest) = after_call(b"Queue", tokens) {
        return queue(alloc, rest);
    }
    value_or_get(alloc, tokens)
}

/// A right side that begins with no `await`.
#[tactic(auto, unfolding(crate::specs::Call::Reading::call_or_value_of))]
fn call_or_value(alloc: Global, tokens: &[Token]) -> Result<(Box<RightSide>, usize), ReadError>
    ensures { Gives (tall (inside view_right)) result (Reading.call_or_value_of height_limit tokens.now) }
{
    if let Some(rest) = after_member(b"cocotb", b"start_soon", tokens) {
        return start_soon(alloc, rest);
    }
    if let Some(rest) = after_member(b"random", b"randint", tokens) {
        return random_int(alloc, rest);
    }
    object_or_value(alloc, tokens)
}

/// The right side that these tokens are, with its height.
#[tactic(auto, unfolding(crate::specs::Call::Reading::right_of))]
pub fn right_side(alloc: Global, tokens: &[Token]) -> Result<(Box<RightSide>, usize), ReadError>
    ensures { Gives (tall (inside view_right)) result (Reading.right_of height_limit tokens.now) }
{
    match after(Mark::Keyword(Keyword::Await), tokens) {
        Some(rest) => {
            let (awaited, height) = await_operand(alloc, rest)?;
            let side = RightSide::Await(Box::into_inner(awaited));
            Ok((boxed(alloc, side)?, height))
        }
        None => call_or_value(alloc, tokens),
    }
}
