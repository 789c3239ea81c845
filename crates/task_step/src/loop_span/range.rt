//! The spans that operands of `range` make (the library reference, "Ranges").
ghost use Rattle.std.specs.Prelude.{◌≡◌, pos};
ghost use Rattle.py_value.specs.Integer.Integer as integer;
ghost use Rattle.py_value.specs.Answer.{answer_map, and_then};
ghost use Rattle.py_value.specs.Operator.Means.{means};
ghost use Rattle.py_value.specs.Operator.Number as number;
ghost use Rattle.rig_model.specs.Task.Blocks as meaning;
ghost use Rattle.task_step.specs.LoopSpan.Span.{left_in};

use crate::loop_span::{Left, Upcoming};
use py_syntax::FaultKind;
use py_value::Value;
use py_value::integer::Integer;
use py_value::operator::{Number, number_of};

/// The numbers from `start` on. A step of 0 is a ValueError.
fn numbers<'a>(start: Integer, stop: Integer, step: Integer) -> Result<Left<'a>, FaultKind>
    ensures { answer_map left_in result ≡ meaning.numbers (integer.number start) (integer.number stop) (integer.number step) }
{
    if step.is_zero() {
        Err(FaultKind::ValueError)
    } else {
        Ok(Left::Numbers {
            next: Upcoming::First(start),
            stop,
            step,
        })
    }
}

/// The span of three operands by their numbers. A kind without a number is a TypeError, and only then an x or z digit or a step of 0 a
/// ValueError.
fn of_numbers<'a>(start: Number, stop: Number, step: Number) -> Result<Left<'a>, FaultKind>
    ensures { answer_map left_in result
        ≡ and_then (meaning.three_numbers (means start) (means stop) (means step)) (λ p. meaning.numbers p.0 p.1 p.2) }
{
    match (start, stop, step) {
        (Number::Missing, _, _) | (_, Number::Missing, _) | (_, _, Number::Missing) => {
            Err(FaultKind::TypeError)
        }
        (Number::Known(start), Number::Known(stop), Number::Known(step)) => {
            numbers(start, stop, step)
        }
        _ => Err(FaultKind::ValueError),
    }
}

/// A number that is written in a text.
fn known(n: u128) -> Number
    ensures { means result ≡ number.known (pos n) }
{
    Number::Known(Integer::of_natural(n))
}

/// `range(stop)`: the numbers from 0 on. A stop without a number is a TypeError, one with an x or z digit a ValueError. It takes no memory.
pub fn of_stop<'a>(stop: &Value) -> Result<Left<'a>, FaultKind>
    ensures { answer_map left_in result ≡ and_then (number.one_number stop.now) (λ n. meaning.numbers (pos 0) n (pos 1)) }
{
    of_numbers(known(0), number_of(stop), known(1))
}

/// `range(start, stop)`: the numbers from `start` on. An operand without a number is a TypeError, and only then one with an x or z digit a
/// ValueError. It takes no memory.
pub fn of_start_stop<'a>(start: &Value, stop: &Value) -> Result<Left<'a>, FaultKind>
    ensures { answer_map left_in result ≡ and_then (number.two_numbers start.now stop.now) (λ p. meaning.numbers p.0 p.1 (pos 1)) }
{
    of_numbers(number_of(start), number_of(stop), known(1))
}

/// `range(start, stop, step)`: the numbers from `start` on, each further by `step`. An operand without a number is a TypeError, and only
/// then one with an x or z digit, or a step of 0, a ValueError. It takes no memory.
pub fn of_start_stop_step<'a>(
    start: &Value,
    stop: &Value,
    step: &Value,
) -> Result<Left<'a>, FaultKind>
    ensures { answer_map left_in result
        ≡ and_then (meaning.three_numbers (number.number_of start.now) (number.number_of stop.now) (number.number_of step.now))
        (λ p. meaning.numbers p.0 p.1 p.2) }
{
    of_numbers(number_of(start), number_of(stop), number_of(step))
}
