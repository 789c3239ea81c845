//! The walk over an expression that spells a target.

ghost use Rattle.std.specs.Prelude.{IfOk};
ghost use Rattle.v_flat.specs.Scope.Scope.{means};
ghost use Rattle.v_syntax.specs.ExpressionTrees.{view, views};
ghost use Rattle.v_flat.specs.Targets.{as_target, as_targets};
ghost use Rattle.v_check.specs.Names.Proper.{AreProper};
ghost use Rattle.v_process.specs.Assign.Continuous.{KeepsOrGrows};
ghost use Rattle.v_process.specs.Outputs.Spelled.{AreSpelled, IsSpelled};

use crate::assign::{braced, net_name, together};
use crate::drive::DrivenDigits;
use crate::target::CheckedTarget;
use port_io::NoMemory;
use std::alloc::Global;
use v_flat::scope::{ElabRule, Found, Scope};
use v_syntax::{Expression, TokenNumber};

/// What is found in the target that an expression spells, and which digits of nets are driven then, all whose parts have this place. Only
/// want of memory is an error. Whatever the answer, those digits that were driven are.
#[cycle(driving)]
pub(crate) fn spelled_target(
    alloc: Global,
    scope: &Scope,
    place: TokenNumber,
    expression: &Expression,
    driven: &mut DrivenDigits,
) -> Result<Found<CheckedTarget>, NoMemory>
    requires { AreProper (means scope.now) }
    ensures ok { IfOk result (λ found. IsSpelled place (means scope.now) (as_target (view expression.now)) driven.old found driven.new) }
    ensures grows { KeepsOrGrows driven.old driven.new }
{
    match expression {
        Expression::Operand(operand) => net_name(alloc, scope, Some(place), operand, driven),
        Expression::Concatenation { at, parts } => {
            let found = each_part(alloc, scope, place, parts, driven)?;
            braced(alloc, *at, together(alloc, found)?)
        }
        _ => Ok(Found::broken(ElabRule::BadTarget, place)),
    }
}

/// What is found in each part of braces, from left to right. Only want of memory is an error.
#[cycle(driving)]
fn each_part(
    alloc: Global,
    scope: &Scope,
    place: TokenNumber,
    expressions: &[Expression],
    driven: &mut DrivenDigits,
) -> Result<Vec<Found<CheckedTarget>>, NoMemory>
    requires { AreProper (means scope.now) }
    ensures ok { IfOk result (λ found. AreSpelled place (means scope.now) (as_targets (views expressions.now)) driven.old found.items driven.new) }
    ensures grows { KeepsOrGrows driven.old driven.new }
{
    let mut found = Vec::new(alloc);
    for expression in expressions {
        found.push(spelled_target(alloc, scope, place, expression, driven)?)?;
    }
    Ok(found)
}
