//! Concatenations of many parts.

ghost use Rattle.std.specs.Prelude.{ℕ, ◌≤◌, length, IfOk};
ghost use Rattle.v_check.specs.Contextual.Concatenations.{MakesConcatenation};

use gpi::Term;
use port_io::NoMemory;
use std::alloc::Global;

/// The concatenation of some parts, of which the lowest is the first (clause 5.1.14). Only want of memory is an
/// error. They are put together by halves, so that the whole is only as much higher than its highest part as the logarithm of
/// their number; no clause says so.
pub fn concatenation(alloc: Global, mut parts: Vec<Term>) -> Result<Term, NoMemory>
    requires { 1 ≤ length parts.items }
    ensures { IfOk result (MakesConcatenation parts.items) }
{
    let count = parts.len();
    if count == 1 {
        return match parts.pop() {
            Some(part) => Ok(part),
            None => unreachable!(),
        };
    }
    let high = parts.split_off(count / 2)?;
    let high = concatenation(alloc, high)?;
    let low = concatenation(alloc, parts)?;
    Term::concat(alloc, high, low)
}
