//! What an output is connected to, if that is a target.

ghost use Rattle.std.specs.Prelude.{IfOk};
ghost use Rattle.v_flat.specs.Scope.Scope.{means};
ghost use Rattle.v_syntax.specs.ExpressionTrees.{view};
ghost use Rattle.v_flat.specs.Targets.{as_target};
ghost use Rattle.v_check.specs.Names.Proper.{AreProper};
ghost use Rattle.v_process.specs.Assign.Continuous.{KeepsOrGrows};
ghost use Rattle.v_process.specs.Outputs.Outputs.{IsOutput};

use crate::drive::DrivenDigits;
use crate::outputs::spells_target;
use crate::outputs::walk::spelled_target;
use crate::target::CheckedTarget;
use port_io::NoMemory;
use std::alloc::Global;
use v_flat::scope::{Found, Scope};
use v_syntax::{Expression, TokenNumber};

/// What is found in the target that an expression spells, to which an output is connected: what is broken first, its width where that is
/// known, and the target that gets its updates; and which digits of nets are driven then (IEEE 1364-2005, clauses 6.1 and 12.3.9.2).
/// `place` is that of the connection, which stands for those of all parts where they are driven twice. An expression that spells none gives
/// nothing, and nothing of it is checked. Only want of memory is an error. Whatever the answer, those digits that were driven are.
pub fn output(
    alloc: Global,
    scope: &Scope,
    place: TokenNumber,
    expression: &Expression,
    driven: &mut DrivenDigits,
) -> Result<Option<Found<CheckedTarget>>, NoMemory>
    requires { AreProper (means scope.now) }
    ensures ok { IfOk result (λ found. IsOutput place (means scope.now) (as_target (view expression.now)) driven.old found driven.new) }
    ensures grows { KeepsOrGrows driven.old driven.new }
{
    if spells_target(expression) {
        Ok(Some(spelled_target(alloc, scope, place, expression, driven)?))
    } else {
        Ok(None)
    }
}
