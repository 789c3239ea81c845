//! What the triggers wait for that functions make, and clocks.
ghost use Rattle.std.specs.Prelude.{◌≡◌, ◌<◌, length};
ghost use Rattle.gpi.specs.declared.types.SigId.{SigId};
ghost use Rattle.py_value.specs.Integer.Integer.{number};
ghost use Rattle.py_value.specs.Answer.{answer_map};
ghost use Rattle.py_value.specs.Trigger as trigger;
ghost use Rattle.py_value.specs.TriggerView.{view_form};
ghost use Rattle.py_evaluate.specs.Attribute.Knows.{KnowsAll};
ghost use Rattle.py_evaluate.specs.Function.Functions as meaning;

use crate::attribute::{Look, one_bit, signal_of};
use crate::function::argument::{argument, truth_argument, unit_argument};
use py_syntax::FaultKind;
use py_value::integer::Integer;
use py_value::operator::one_number;
use py_value::time::{half_steps, steps_of};
use py_value::{Form, Value};

/// `Timer(time, units)`: a time without a number and a unit that is no text are TypeErrors; then a time that is no positive whole number
/// of steps and a unit that isn't known are ValueErrors; then over 2^62 steps are an OverflowError.
pub(crate) fn timer<V: Look>(view: &V, values: &[Value]) -> Result<Form, FaultKind>
    ensures { answer_map view_form result ≡ meaning.timer (V.view view.now) values.now }
{
    let time = argument(values, 0)?;
    let steps = steps_of(view.step_fs(), time, unit_argument(view, values, 1))?;
    Ok(Form::Time(steps))
}

/// `Edge(signal)`: what is no signal is a TypeError.
pub(crate) fn change(values: &[Value]) -> Result<Form, FaultKind>
    ensures { answer_map view_form result ≡ meaning.change values.now }
{
    let sig = signal_of(argument(values, 0)?)?;
    Ok(Form::Change(sig))
}

/// `RisingEdge(signal)`: what is no signal of one digit is a TypeError.
pub(crate) fn rise<V: Look>(view: &V, values: &[Value]) -> Result<Form, FaultKind>
    requires { KnowsAll (V.view view.now) values.now }
    ensures { answer_map view_form result ≡ meaning.one_bit_edge trigger.Rise (V.view view.now) values.now }
{
    let sig = one_bit(view, argument(values, 0)?)?;
    Ok(Form::Rise(sig))
}

/// `FallingEdge(signal)`: what is no signal of one digit is a TypeError.
pub(crate) fn fall<V: Look>(view: &V, values: &[Value]) -> Result<Form, FaultKind>
    requires { KnowsAll (V.view view.now) values.now }
    ensures { answer_map view_form result ≡ meaning.one_bit_edge trigger.Fall (V.view view.now) values.now }
{
    let sig = one_bit(view, argument(values, 0)?)?;
    Ok(Form::Fall(sig))
}

/// How many cycles a number is: below 1 a ValueError, over 2^64 - 1 an OverflowError.
fn cycle_count(count: Integer) -> Result<u64, FaultKind>
    ensures { result ≡ meaning.cycle_count (number count) }
{
    match count.to_natural() {
        None | Some(0) => Err(FaultKind::ValueError),
        Some(count) if count <= u64::MAX as u128 => Ok(count as u64),
        Some(_) => Err(FaultKind::OverflowError),
    }
}

/// `ClockCycles(signal, num_cycles, rising)`: what is no signal of one digit and a count without a number are TypeErrors; then an x or
/// z digit in the count and a count below 1 are ValueErrors; then one over 2^64 - 1 is an OverflowError.
pub(crate) fn cycles<V: Look>(view: &V, values: &[Value]) -> Result<Form, FaultKind>
    requires { KnowsAll (V.view view.now) values.now }
    ensures { answer_map view_form result ≡ meaning.cycles (V.view view.now) values.now }
{
    let sig = argument(values, 0)?;
    let count = argument(values, 1)?;
    let sig = one_bit(view, sig)?;
    let count = cycle_count(one_number(count)?)?;
    Ok(Form::Cycles {
        sig,
        count,
        rising: truth_argument(values, 2),
    })
}

/// `Join(task)`: what is no task is a TypeError.
pub(crate) fn join(values: &[Value]) -> Result<Form, FaultKind>
    ensures { answer_map view_form result ≡ meaning.join values.now }
{
    match argument(values, 0)? {
        Value::Task(task) => Ok(Form::Join(*task)),
        _ => Err(FaultKind::TypeError),
    }
}

/// `Clock(signal, period, units)`: what is no signal of one digit is a TypeError; then the faults of the period are those of a time, and
/// a period of an odd number of steps is a ValueError.
pub(crate) fn clock<V: Look>(view: &V, values: &[Value]) -> Result<Value, FaultKind>
    requires { KnowsAll (V.view view.now) values.now }
    ensures { result ≡ meaning.clock (V.view view.now) values.now }
{
    let sig = argument(values, 0)?;
    let period = argument(values, 1)?;
    let sig = one_bit(view, sig)?;
    let half = half_steps(view.step_fs(), period, unit_argument(view, values, 2))?;
    Ok(Value::Clock { sig, half })
}
