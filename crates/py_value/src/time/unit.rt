//! Units of time.
ghost use Rattle.std.specs.Prelude.{◌≡◌, ◌≤◌, IfOk, IfSome};
ghost use Rattle.py_value.specs.Time.Times as meaning;

use crate::Value;
use crate::integer::Integer;
use crate::operator::whole;
use py_syntax::FaultKind;

/// The femtoseconds of a unit of this name, where a step has so many; None where there is no such unit.
fn unit_fs(step_fs: u64, name: &[u8]) -> Option<u64>
    requires { 1 ≤ step_fs }
    ensures is { result ≡ meaning.unit_fs step_fs name.now }
    ensures some { IfSome result (λ fs. 1 ≤ fs) }
{
    if name == b"step".as_slice() {
        Some(step_fs)
    } else if name == b"fs".as_slice() {
        Some(1)
    } else if name == b"ps".as_slice() {
        Some(1_000)
    } else if name == b"ns".as_slice() {
        Some(1_000_000)
    } else if name == b"us".as_slice() {
        Some(1_000_000_000)
    } else if name == b"ms".as_slice() {
        Some(1_000_000_000_000)
    } else if name == b"sec".as_slice() {
        Some(1_000_000_000_000_000)
    } else {
        None
    }
}

/// The femtoseconds of the unit that a value names (cocotb 1.8, `Timer`), where a step has `step_fs` femtoseconds: `step`, `fs`, `ps`,
/// `ns`, `us`, `ms` or `sec`. What is no text is a TypeError, and another text a ValueError. It takes no memory.
pub fn unit_of(step_fs: u64, unit: &Value) -> Result<u64, FaultKind>
    requires { 1 ≤ step_fs }
    ensures is { result ≡ meaning.unit_of step_fs unit.now }
    ensures some { IfOk result (λ fs. 1 ≤ fs) }
{
    match unit {
        Value::Text(name) => match unit_fs(step_fs, name.bytes()) {
            Some(fs) => Ok(fs),
            None => Err(FaultKind::ValueError),
        },
        _ => Err(FaultKind::TypeError),
    }
}

/// So many femtoseconds in a unit that has so many. A time that is no whole number of units is a ValueError, and one that no value can
/// hold an OverflowError.
fn in_unit(fs: u128, unit: u64) -> Result<Value, FaultKind>
    requires { 1 ≤ unit }
    ensures { result ≡ meaning.in_unit fs unit }
{
    let unit = unit as u128;
    if fs % unit == 0 {
        whole(Integer::of_natural(fs / unit).to_whole())
    } else {
        Err(FaultKind::ValueError)
    }
}

/// `get_sim_time(unit)` (cocotb 1.8, `get_sim_time`): the simulated time of `now` steps in a unit, where a step has `step_fs` femtoseconds,
/// and the unit has so many femtoseconds or is refused, by TypeError or ValueError as `unit_of` says. A unit that doesn't divide the time is
/// a ValueError, and a time over 2^127 - 1 units an OverflowError. It takes no memory.
pub fn time_in(step_fs: u64, now: u64, unit: Result<u64, FaultKind>) -> Result<Value, FaultKind>
    requires { IfOk unit (λ fs. 1 ≤ fs) }
    ensures { result ≡ meaning.time_in step_fs now unit }
{
    in_unit(now as u128 * step_fs as u128, unit?)
}
