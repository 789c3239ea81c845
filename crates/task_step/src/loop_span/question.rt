//! The question of a `for`.
ghost use Rattle.std.specs.Prelude.{◌≡◌, ◌+ℤ◌, pos, int_lt, true, false};
ghost use Rattle.py_value.specs.Integer.Integer.{number, held};
ghost use Rattle.py_evaluate.specs.Attribute.Gives.{Gives, IfWant, MakesText};
ghost use Rattle.py_evaluate.specs.Eval as eval;
ghost use Rattle.rig_model.specs.Task.Blocks as meaning;
ghost use Rattle.task_step.specs.LoopSpan.Question.{Finds, found};
ghost use Rattle.task_step.specs.LoopSpan.Span.{left_in, upcoming};

use crate::loop_span::{Left, Upcoming};
use py_evaluate::attribute::{OperationFault, text_value};
use py_syntax::{Const, FaultKind};
use py_value::Value;
use py_value::integer::Integer;
use std::alloc::Global;

/// The next element of a `for`.
#[derive(Drop)]
pub struct Element<'a> {
    /// What is left behind it.
    pub left: Left<'a>,
    pub value: Value,
}

/// Whether a number stands before the bound, in the direction of the step.
fn is_first_before(first: Integer, stop: Integer, step: Integer) -> bool
    ensures { result ≡ meaning.is_before (number first) (number stop) (number step) }
{
    if step.is_less(Integer::of_natural(0)) {
        stop.is_less(first)
    } else {
        first.is_less(stop)
    }
}

/// Whether one number is below another.
fn is_below(a: i128, b: i128) -> bool
    ensures { result ≡ int_lt a b }
{
    a < b
}

/// Whether the number behind this, further by a negative step, stands before the bound. It may be one that no operand is, so the step is
/// taken from the bound.
#[tactic(auto, using(crate::proofs::LoopSpanLemmas::Steps::falls))]
fn falls_before(last: i128, stop: Integer, step: Integer) -> bool
    requires { int_lt (number step) (pos 0) ≡ true }
    ensures { result ≡ meaning.is_before (last +ℤ number step) (number stop) (number step) }
{
    match stop.subtract(step) {
        Some(bound) => is_below(bound, last),
        None => stop.is_less(step),
    }
}

/// The same for a step that isn't negative.
#[tactic(auto, using(crate::proofs::LoopSpanLemmas::Steps::rises))]
fn rises_before(last: i128, stop: Integer, step: Integer) -> bool
    requires { int_lt (number step) (pos 0) ≡ false }
    ensures { result ≡ meaning.is_before (last +ℤ number step) (number stop) (number step) }
{
    match stop.subtract(step) {
        Some(bound) => is_below(last, bound),
        None => step.is_less(stop),
    }
}

/// Whether the number behind this, further by the step, stands before the bound.
fn is_behind_before(last: i128, stop: Integer, step: Integer) -> bool
    ensures { result ≡ meaning.is_before (last +ℤ number step) (number stop) (number step) }
{
    if step.is_less(Integer::of_natural(0)) {
        falls_before(last, stop, step)
    } else {
        rises_before(last, stop, step)
    }
}

/// Whether the next number stands before the bound.
fn is_before(next: Upcoming, stop: Integer, step: Integer) -> bool
    ensures { result ≡ meaning.is_before (upcoming next (number step)) (number stop) (number step) }
{
    match next {
        Upcoming::First(first) => is_first_before(first, stop, step),
        Upcoming::Behind(last) => is_behind_before(last, stop, step),
    }
}

/// The next number, where a value can hold it.
fn next_number(next: Upcoming, step: Integer) -> Option<i128>
    ensures { result ≡ held (upcoming next (number step)) }
{
    match next {
        Upcoming::First(first) => first.to_whole(),
        Upcoming::Behind(last) => Integer::of_whole(last).add(step),
    }
}

/// The next number of a range, where it has one. One that no value can hold is an OverflowError.
fn next_of_range<'a>(
    next: Upcoming,
    stop: Integer,
    step: Integer,
) -> Result<Option<Element<'a>>, OperationFault>
    ensures { Finds result (found (left_in (Left.Numbers next stop step))) }
{
    if !is_before(next, stop, step) {
        return Ok(None);
    }
    match next_number(next, step) {
        Some(n) => Ok(Some(Element {
            left: Left::Numbers {
                next: Upcoming::Behind(n),
                stop,
                step,
            },
            value: Value::Whole(n),
        })),
        None => Err(OperationFault::Raised(FaultKind::OverflowError)),
    }
}

/// The value of a constant. A text of over 65,536 bytes is an OverflowError.
fn constant_value(alloc: Global, constant: &Const) -> Result<Value, OperationFault>
    ensures gives { Gives (eval.constant_value constant.now) result }
    ensures want { IfWant result (MakesText (eval.constant_value constant.now)) }
{
    match constant {
        Const::Absent => Ok(Value::Absent),
        Const::Truth(b) => Ok(Value::Truth(*b)),
        Const::Whole(n) => Ok(Value::Whole(*n)),
        Const::Text(text) => text_value(alloc, text.bytes()),
        Const::Named(_) => Ok(Value::Absent),
    }
}

/// The question of a `for` (the language reference, 8.3): its next element and what is left behind it, or None where there is none. A number
/// that no value can hold, and a text of over 65,536 bytes, are OverflowErrors. Only the copy of a text takes memory, whose want is the
/// other error.
pub fn ask_next<'a>(alloc: Global, left: Left<'a>) -> Result<Option<Element<'a>>, OperationFault>
    ensures { Finds result (found (left_in left.entry)) }
{
    match left {
        Left::Numbers { next, stop, step } => next_of_range(next, stop, step),
        Left::Listed([]) => Ok(None),
        Left::Listed([constant, rest @ ..]) => {
            let value = constant_value(alloc, constant)?;
            Ok(Some(Element {
                left: Left::Listed(rest),
                value,
            }))
        }
    }
}
