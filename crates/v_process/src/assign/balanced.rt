//! Many targets as one.

ghost use Rattle.std.specs.Prelude.{ℕ, ◌≤◌, length, IfOk};
ghost use Rattle.v_process.specs.Assign.Braces.{MakesAll};

use gpi::Target;
use port_io::{NoMemory, boxed_both};
use std::alloc::Global;

/// Some targets as one, of which the lowest is the first. They are put together by halves, so that the whole is no deeper than
/// `k` steps above its deepest part where there are at most 2^k. Only want of memory is an error.
pub fn joined(alloc: Global, mut targets: Vec<Target>) -> Result<Target, NoMemory>
    requires { 1 ≤ length targets.items }
    ensures { IfOk result (MakesAll targets.items) }
{
    let count = targets.len();
    if count == 1 {
        return match targets.pop() {
            Some(target) => Ok(target),
            None => unreachable!(),
        };
    }
    let high = targets.split_off(count / 2)?;
    let high = joined(alloc, high)?;
    let low = joined(alloc, targets)?;
    let (high, low) = boxed_both(alloc, high, low)?;
    Ok(Target::Join(high, low))
}
