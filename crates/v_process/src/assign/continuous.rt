//! The walk over the target of a continuous assignment.

ghost use Rattle.std.specs.Prelude.{IfOk, OnErr};
ghost use Rattle.v_flat.specs.Scope.Scope.{means};
ghost use Rattle.v_syntax.specs.ExpressionTrees.{view_target, view_targets};
ghost use Rattle.v_check.specs.Names.Proper.{AreProper};
ghost use Rattle.v_process.specs.Assign.Continuous.{AreContinuous, AreTogether, IsContinuous, KeepsOrGrows};

use crate::assign::{TargetParts, braced, net_name};
use crate::drive::DrivenDigits;
use crate::target::CheckedTarget;
use port_io::NoMemory;
use std::alloc::Global;
use v_flat::scope::{Found, Scope};
use v_syntax::{Target, TokenNumber};

/// What is found in all parts of braces together, put together from the last one to the first. Only want of memory is an error.
pub fn together(
    alloc: Global,
    mut parts: Vec<Found<CheckedTarget>>,
) -> Result<Found<TargetParts>, NoMemory>
    ensures { IfOk result (AreTogether parts.items) }
{
    let mut found = TargetParts::none(alloc);
    while let Some(part) = parts.pop() {
        found = TargetParts::before(part, found)?;
    }
    Ok(found)
}

/// What is found in the target of a continuous assignment: what is broken first, its width where that is known, and the target that gets
/// its updates; and which digits of nets are driven then (IEEE 1364-2005, clause 6.1). `place` is that of a connection, which stands for
/// those of all its parts. Only want of memory is an error, and then some more digits may be driven already.
#[cycle(driving)]
pub fn net_target(
    alloc: Global,
    scope: &Scope,
    place: Option<TokenNumber>,
    target: &Target,
    driven: &mut DrivenDigits,
) -> Result<Found<CheckedTarget>, NoMemory>
    requires { AreProper (means scope.now) }
    ensures ok { IfOk result (λ found. IsContinuous place (means scope.now) (view_target target.now) driven.old found driven.new) }
    ensures err { OnErr result (KeepsOrGrows driven.old driven.new) }
{
    match target {
        Target::Operand(operand) => net_name(alloc, scope, place, operand, driven),
        Target::Concatenation { at, parts } => {
            let found = each_part(alloc, scope, place, parts, driven)?;
            braced(alloc, *at, together(alloc, found)?)
        }
    }
}

/// What is found in each part of braces, from left to right. Only want of memory is an error, and then some more digits may be driven
/// already.
#[cycle(driving)]
fn each_part(
    alloc: Global,
    scope: &Scope,
    place: Option<TokenNumber>,
    targets: &[Target],
    driven: &mut DrivenDigits,
) -> Result<Vec<Found<CheckedTarget>>, NoMemory>
    requires { AreProper (means scope.now) }
    ensures ok { IfOk result (λ found. AreContinuous place (means scope.now) (view_targets targets.now) driven.old found.items driven.new) }
    ensures err { OnErr result (KeepsOrGrows driven.old driven.new) }
{
    let mut found = Vec::new(alloc);
    for target in targets {
        found.push(net_target(alloc, scope, place, target, driven)?)?;
    }
    Ok(found)
}
