//! Numbers that are drawn.
ghost use Rattle.std.specs.Prelude.{◌≡◌, ◌≤◌, ◌-ℤ◌, ◌+ℤ◌, pos, IfOk, IsTrue};
ghost use Rattle.py_value.specs.Integer.Integer.{number, is_whole};
ghost use Rattle.py_value.specs.Answer.{and_then, answer_map};
ghost use Rattle.py_value.specs.Operator.Means.{means};
ghost use Rattle.py_value.specs.Operator.Number as numbers;
ghost use Rattle.rig_model.specs.Task.Values as meaning;
ghost use Rattle.task_step.specs.StatementValues.Kept.{draw_in};

use py_syntax::FaultKind;
use py_value::Value;
use py_value::integer::Integer;
use py_value::operator::{Number, number_of};

/// The numbers of which one is drawn.
#[derive(Clone, Copy)]
pub struct Draw {
    /// The least.
    pub low: i128,
    /// How many there are, from the least on: at least one.
    pub span: u64,
}

/// How many numbers a draw may have to choose from.
const SPAN_LIMIT: i128 = 1 << 32;

/// How many numbers there are from one on that ends so far behind: 1 to 2^32, or a ValueError.
#[tactic(auto, using(crate::proofs::StatementValuesLemmas::Spans::counts))]
fn count(behind: i128) -> Result<u64, FaultKind>
    ensures { result ≡ meaning.span_of (behind +ℤ pos 1) }
{
    if behind < 0 {
        Err(FaultKind::ValueError)
    } else if behind < SPAN_LIMIT {
        Ok(behind as u64 + 1)
    } else {
        Err(FaultKind::ValueError)
    }
}

/// How many numbers there are from one to another, both counted: 1 to 2^32, or a ValueError.
fn span_of(low: Integer, high: Integer) -> Result<u64, FaultKind>
    ensures { result ≡ meaning.span_of (number high -ℤ number low +ℤ pos 1) }
{
    match high.subtract(low) {
        Some(behind) => count(behind),
        None => Err(FaultKind::ValueError),
    }
}

/// The numbers from one to another. The span's ValueError comes before the OverflowError of a number that no value can hold.
fn draw_of(low: Integer, high: Integer) -> Result<Draw, FaultKind>
    ensures { answer_map draw_in result ≡ meaning.draw_of (number low, number high) }
{
    let span = span_of(low, high)?;
    match (high.to_whole(), low.to_whole()) {
        (Some(_), Some(low)) => Ok(Draw { low, span }),
        _ => Err(FaultKind::OverflowError),
    }
}

/// The numbers of two operands.
fn operand_draw(low: Number, high: Number) -> Result<Draw, FaultKind>
    ensures { answer_map draw_in result ≡ and_then (numbers.the_numbers (means low) (means high)) meaning.draw_of }
{
    match (low, high) {
        (Number::Missing, _) | (_, Number::Missing) => Err(FaultKind::TypeError),
        (Number::Unknown, _) | (_, Number::Unknown) => Err(FaultKind::ValueError),
        (Number::Known(low), Number::Known(high)) => draw_of(low, high),
    }
}

/// The numbers of which `random.randint(low, high)` draws one (the library reference, `random.randint`), both bounds among them. A bound
/// without a number is a TypeError, and only then one with an x or z digit a ValueError; then a span below 1 or over 2^32 is a ValueError,
/// and a bound that no value can hold an OverflowError. It takes no memory.
pub fn drawn(low: &Value, high: &Value) -> Result<Draw, FaultKind>
    ensures is { answer_map draw_in result ≡ meaning.drawn low.now high.now }
    ensures known { IfOk result (λ d. (1 ≤ d.span) × IsTrue (is_whole d.low) × IsTrue (is_whole (d.low +ℤ pos d.span -ℤ pos 1))) }
{
    operand_draw(number_of(low), number_of(high))
}
