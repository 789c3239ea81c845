//! Parts of braces that are assigned to.

ghost use Rattle.std.specs.Prelude.{IfOk};
ghost use Rattle.v_process.specs.Assign.Made.{AreMoreTargets, HasPart};
ghost use Rattle.v_process.specs.Assign.Targets.{ChecksMoreTargets, ChecksNoTarget};

use crate::target::CheckedTarget;
use gpi::Target;
use port_io::NoMemory;
use std::alloc::Global;
use v_check::parts::sum;
use v_flat::scope::Found;

/// Parts of braces that are assigned to (IEEE 1364-2005, annex A.8.5), whose names and selects were checked. Where a rule is broken in
/// them, only the width counts.
#[derive(Drop)]
pub struct TargetParts {
    /// The number of digits of all together, where 129 stands for all beyond 128.
    pub width: u8,
    /// Each part, the last one first.
    pub targets: Vec<Target>,
}

/// A part before others. Only want of memory is an error.
fn with_part(part: CheckedTarget, rest: TargetParts) -> Result<TargetParts, NoMemory>
    ensures { IfOk result (HasPart part rest) }
{
    let TargetParts { width, mut targets } = rest;
    let width = sum(part.width, width);
    targets.push(part.target)?;
    Ok(TargetParts { width, targets })
}

/// What is made of a part and others. Only want of memory is an error.
fn of_both(found: Found<(CheckedTarget, TargetParts)>) -> Result<Found<TargetParts>, NoMemory>
    ensures { IfOk result (AreMoreTargets found) }
{
    match found {
        Found::Sound((part, rest)) => Ok(Found::Sound(with_part(part, rest)?)),
        Found::Noted(fault, (part, rest)) => Ok(Found::Noted(fault, with_part(part, rest)?)),
        Found::Lost(fault) => Ok(Found::Lost(fault)),
    }
}

impl TargetParts {
    /// No part.
    pub fn none(alloc: Global) -> Found<TargetParts>
        ensures { ChecksNoTarget result }
    {
        Found::Sound(TargetParts {
            width: 0,
            targets: Vec::new(alloc),
        })
    }

    /// A part before those that stand behind it. Only want of memory is an error.
    pub fn before(
        part: Found<CheckedTarget>,
        rest: Found<TargetParts>,
    ) -> Result<Found<TargetParts>, NoMemory>
        ensures { IfOk result (ChecksMoreTargets part rest) }
    {
        of_both(part.both(rest))
    }
}
