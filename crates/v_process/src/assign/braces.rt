//! Targets in braces.

ghost use Rattle.std.specs.Prelude.{ℕ, ◌≤◌, length, IfOk};
ghost use Rattle.v_process.specs.Assign.Made.{IsClosed, IsOne};
ghost use Rattle.v_process.specs.Assign.Targets.{ChecksBraces};

use crate::assign::TargetParts;
use crate::assign::balanced::joined;
use crate::target::CheckedTarget;
use gpi::{Object, SigId, Target};
use port_io::NoMemory;
use std::alloc::Global;
use v_flat::scope::{ElabRule, Found, MOST_DIGITS};
use v_syntax::TokenNumber;

/// All parts as one target; where there is none, one that is dropped. Only want of memory is an error.
fn one(alloc: Global, targets: Vec<Target>) -> Result<Target, NoMemory>
    ensures { IfOk result (IsOne targets.items) }
{
    if targets.is_empty() {
        Ok(Target::Whole(Object::Signal(SigId(0), 1)))
    } else {
        joined(alloc, targets)
    }
}

/// The whole of some parts: BadRange is broken at this token where there is none, and TooWide where there are more than 128 digits. Only
/// want of memory is an error.
fn closed(
    alloc: Global,
    place: TokenNumber,
    parts: TargetParts,
) -> Result<Found<CheckedTarget>, NoMemory>
    ensures { IfOk result (IsClosed place parts) }
{
    let TargetParts { width, targets } = parts;
    let target = one(alloc, targets)?;
    let whole = Found::Sound(CheckedTarget { width, target });
    let whole = whole.wants(width <= MOST_DIGITS, ElabRule::TooWide, place);
    Ok(whole.needs(0 < width, ElabRule::BadRange, place))
}

/// `{ part , .. }`, where `place` is the number of its first token (IEEE 1364-2005, annex A.8.5). Only want of memory is an error.
pub fn braced(
    alloc: Global,
    place: TokenNumber,
    parts: Found<TargetParts>,
) -> Result<Found<CheckedTarget>, NoMemory>
    ensures { IfOk result (ChecksBraces place parts) }
{
    match parts {
        Found::Sound(x) => closed(alloc, place, x),
        Found::Noted(fault, x) => Ok(closed(alloc, place, x)?.noted(fault)),
        Found::Lost(fault) => Ok(Found::Lost(fault)),
    }
}
