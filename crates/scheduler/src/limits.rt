//! Limits of time (cocotb 1.8, `cocotb.test`: `timeout_time`, `timeout_unit`).
ghost use Rattle.std.specs.Prelude.{◌≡◌, ◌≤◌, ◌+◌};
ghost use Rattle.test_meaning.specs.Body.Views.{view_limit};
ghost use Rattle.task_step.specs.TaskValues.Evaluation.{Answers};
ghost use Rattle.rig_model.specs.Run.Case as meaning;

use crate::constants::constant_value;
use port_io::boxed;
use py_evaluate::attribute::OperationFault;
use py_syntax::{Const, FaultKind};
use py_value::Value;
use py_value::time::{steps_of, unit_of};
use std::alloc::Global;

/// The latest time that is waited for: `last_time` of `await_tree`.
const LAST_TIME: u64 = 1 << 62;

/// The steps of a limit of a test's time, where a step has so many femtoseconds: 1 to 2^62. A text of over 65,536 bytes is an OverflowError, in the
/// number and then in the unit; other faults are those of `steps_of` and `unit_of` of `py_value::time`. Want of memory is the other error.
pub fn limit_steps(
    alloc: Global,
    step_fs: u64,
    limit: &(Const, Const),
) -> Result<u64, OperationFault>
    requires { 1 ≤ step_fs }
    ensures { Answers (meaning.limit_steps step_fs (view_limit limit.now)) result }
{
    let number = boxed(alloc, constant_value(alloc, &limit.0)?)?;
    let unit = constant_value(alloc, &limit.1)?;
    Ok(steps_of(step_fs, &number, unit_of(step_fs, &unit))?)
}

/// When a test is given up whose limit is so many steps from that time on; never where that is later than 2^62. It takes no memory.
pub fn deadline_at(time: u64, steps: u64) -> Option<u64>
    ensures { result ≡ meaning.deadline_at (time + steps) }
{
    match time.checked_add(steps) {
        Some(due) if due <= LAST_TIME => Some(due),
        _ => None,
    }
}
