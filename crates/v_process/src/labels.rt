//! The labels of an item of a case statement.

ghost use Rattle.std.specs.Prelude.{IfOk, map};
ghost use Rattle.v_flat.specs.Scope.Scope.{means};
ghost use Rattle.v_syntax.specs.ExpressionTrees.{view};
ghost use Rattle.v_check.specs.Names.Proper.{AreProper};
ghost use Rattle.v_process.specs.Act.Cases.{AreLabels};

use crate::act::CaseLabels;
use port_io::NoMemory;
use std::alloc::Global;
use v_check::check;
use v_flat::scope::{Found, Scope};
use v_syntax::Expression;

/// The labels of an item, from the last one to the first (IEEE 1364-2005, clause 9.5). Only want of memory is an error.
pub(crate) fn labels(
    alloc: Global,
    scope: &Scope,
    expressions: &[Expression],
) -> Result<Found<CaseLabels>, NoMemory>
    requires { AreProper (means scope.now) }
    ensures { IfOk result (AreLabels (means scope.now) (map view expressions.now)) }
{
    let mut found = CaseLabels::none(alloc);
    for at in (0..expressions.len()).rev() {
        let label = check(alloc, scope, &expressions[at])?;
        found = CaseLabels::before(label, found)?;
    }
    Ok(found)
}
