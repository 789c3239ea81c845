//! The walk over the target of an assignment in a procedure.

ghost use Rattle.std.specs.Prelude.{IfOk};
ghost use Rattle.v_flat.specs.Scope.Scope.{means};
ghost use Rattle.v_syntax.specs.ExpressionTrees.{view_target, view_targets};
ghost use Rattle.v_check.specs.Names.Proper.{AreProper};
ghost use Rattle.v_process.specs.Assign.Targets.{AreProcedural, IsProcedural};

use crate::assign::{TargetParts, braced};
use crate::target::{CheckedTarget, Manner, named};
use port_io::NoMemory;
use std::alloc::Global;
use v_check::selects;
use v_flat::scope::{Found, Scope};
use v_syntax::Target;

/// What is found in the target of an assignment in a procedure: what is broken first, its width where that is known, and the target that
/// gets its updates (IEEE 1364-2005, clause 9.2). Only want of memory is an error.
#[cycle(walking)]
pub fn target(
    alloc: Global,
    scope: &Scope,
    target: &Target,
) -> Result<Found<CheckedTarget>, NoMemory>
    requires { AreProper (means scope.now) }
    ensures { IfOk result (IsProcedural (means scope.now) (view_target target.now)) }
{
    match target {
        Target::Operand(operand) => {
            let selects = selects(alloc, scope, &operand.selects)?;
            Ok(named(
                scope,
                Manner::Procedural,
                operand.name.bytes(),
                operand.at,
                selects,
            ))
        }
        Target::Concatenation { at, parts } => braced(alloc, *at, all(alloc, scope, parts)?),
    }
}

/// The parts of braces, from the last one to the first. Only want of memory is an error.
#[cycle(walking)]
fn all(alloc: Global, scope: &Scope, targets: &[Target]) -> Result<Found<TargetParts>, NoMemory>
    requires { AreProper (means scope.now) }
    ensures { IfOk result (AreProcedural (means scope.now) (view_targets targets.now)) }
{
    let mut found = TargetParts::none(alloc);
    for at in (0..targets.len()).rev() {
        let part = target(alloc, scope, &targets[at])?;
        found = TargetParts::before(part, found)?;
    }
    Ok(found)
}
