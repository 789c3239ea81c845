//! Statements without effect, and conditional statements.

ghost use Rattle.std.specs.Prelude.{IfOk};
ghost use Rattle.v_process.specs.Act.Made.{AreChoices};
ghost use Rattle.v_process.specs.Act.Statements.{ChecksIf, ChecksIfElse, ChecksNull};

use crate::act::waiting::beside;
use gpi::{Act, Term};
use port_io::NoMemory;
use std::alloc::Global;
use v_check::constants::Checked;
use v_check::names::by_itself;
use v_flat::scope::Found;

/// A statement without effect: `;`, a system task, or a delay where it stands for no statement of its own.
pub fn without_effect() -> Found<Act>
    ensures { ChecksNull result }
{
    Found::Sound(Act::Empty)
}

/// What is made of a condition and both branches. Only want of memory is an error.
fn of_branches(alloc: Global, found: Found<(Term, (Act, Act))>) -> Result<Found<Act>, NoMemory>
    ensures { IfOk result (AreChoices found) }
{
    match found {
        Found::Sound((test, (yes, no))) => Ok(Found::Sound(Act::choice(alloc, test, yes, no)?)),
        Found::Noted(fault, (test, (yes, no))) => {
            Ok(Found::Noted(fault, Act::choice(alloc, test, yes, no)?))
        }
        Found::Lost(fault) => Ok(Found::Lost(fault)),
    }
}

/// `if ( condition ) yes else no` (IEEE 1364-2005, clause 9.4), from what was found in its parts. Only want of memory is an error.
pub fn if_else(
    alloc: Global,
    condition: Found<Checked>,
    yes: Found<Act>,
    no: Found<Act>,
) -> Result<Found<Act>, NoMemory>
    ensures { IfOk result (ChecksIfElse condition yes no) }
{
    let (test, branches) = beside(by_itself(alloc, condition), yes.both(no))?;
    of_branches(alloc, test.both(branches))
}

/// `if ( condition ) yes` (IEEE 1364-2005, clause 9.4), from what was found in its parts. Only want of memory is an error.
pub fn if_then(
    alloc: Global,
    condition: Found<Checked>,
    yes: Found<Act>,
) -> Result<Found<Act>, NoMemory>
    ensures { IfOk result (ChecksIf condition yes) }
{
    if_else(alloc, condition, yes, without_effect())
}
