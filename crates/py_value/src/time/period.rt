//! Times and periods of clocks.
ghost use Rattle.std.specs.Prelude.{◌≡◌, ◌≤◌};
ghost use Rattle.py_value.specs.Answer.{answer_map};
ghost use Rattle.py_value.specs.Operator.Means.{means};
ghost use Rattle.py_value.specs.Operator.Number.{number_of};
ghost use Rattle.py_value.specs.Time.Times as meaning;
ghost use Rattle.py_value.specs.Time.Counts.{kept};

use crate::Value;
use crate::operator::{Number, number_of};
use crate::time::steps::{Steps, whole_steps};
use py_syntax::FaultKind;

/// The steps that a number of units is, where a unit has so many femtoseconds or is refused. What has no number, and a unit that is no
/// text, are TypeErrors; only then a number that isn't known, is negative, or isn't a whole number of steps, is a ValueError.
fn exact_steps(
    step_fs: u64,
    number: Number,
    unit: Result<u64, FaultKind>,
) -> Result<Steps, FaultKind>
    requires { 1 ≤ step_fs }
    ensures { result ≡ answer_map kept (meaning.exact_steps step_fs (means number) unit) }
{
    match (number, unit) {
        (Number::Missing, _) | (_, Err(FaultKind::TypeError)) => Err(FaultKind::TypeError),
        (Number::Unknown, _) => Err(FaultKind::ValueError),
        (Number::Known(n), unit) => match n.to_natural() {
            Some(n) => whole_steps(step_fs, n, unit?),
            None => Err(FaultKind::ValueError),
        },
    }
}

/// The steps that a time in a unit is (cocotb 1.8, `Timer`), where a step has `step_fs` femtoseconds, and the unit has so many
/// femtoseconds or is refused, as `unit_of` says: 1 to 2^62 steps. A time without a number and a unit that is no text are TypeErrors; then
/// a time with an x or z digit, one that is no positive whole number of steps, and a unit that isn't known, are ValueErrors; then over 2^62
/// steps are an OverflowError. It takes no memory.
pub fn steps_of(step_fs: u64, time: &Value, unit: Result<u64, FaultKind>) -> Result<u64, FaultKind>
    requires { 1 ≤ step_fs }
    ensures { result ≡ meaning.steps_of step_fs time.now unit }
{
    match exact_steps(step_fs, number_of(time), unit)?.few {
        Some(steps) => Ok(steps),
        None => Err(FaultKind::OverflowError),
    }
}

/// Half of a clock's period (cocotb 1.8, `Clock`), in steps. The faults are those of `steps_of`, and an odd number of steps is a
/// ValueError, also where it is over 2^62. It takes no memory.
pub fn half_steps(
    step_fs: u64,
    period: &Value,
    unit: Result<u64, FaultKind>,
) -> Result<u64, FaultKind>
    requires { 1 ≤ step_fs }
    ensures { result ≡ meaning.half_steps step_fs period.now unit }
{
    let steps = exact_steps(step_fs, number_of(period), unit)?;
    if steps.odd {
        return Err(FaultKind::ValueError);
    }
    match steps.few {
        Some(steps) => Ok(steps / 2),
        None => Err(FaultKind::OverflowError),
    }
}
