//! What an expression is in one context.

ghost use Rattle.std.specs.Prelude.{IfOk};
ghost use Rattle.gpi.specs.Terms.{IsWidth};
ghost use Rattle.v_flat.specs.Scope.Scope.{means};
ghost use Rattle.v_syntax.specs.ExpressionTrees.{view};
ghost use Rattle.v_check.specs.Names.Proper.{AreProper};
ghost use Rattle.v_check.specs.Terms.{IsTerm};

use crate::check;
use gpi::Term;
use port_io::NoMemory;
use std::alloc::Global;
use v_flat::scope::{Broken, Scope};
use v_syntax::Expression;

/// An expression in a context of `width` digits, or the rule that is broken first in it: of all that are broken the one at the least
/// token, and at one token the one that stands first in the table of rules. Only want of memory is an error.
///
/// `width` is that of the whole context (IEEE 1364-2005, clause 5.4.1). In an assignment it is the greater one of the target's width
/// and the expression's own, so there, and in a `case`, [`check`] comes first and then `lower` of what it found.
pub fn term(
    alloc: Global,
    scope: &Scope,
    expression: &Expression,
    width: u8,
) -> Result<Result<Term, Broken>, NoMemory>
    requires proper { AreProper (means scope.now) }
    requires width { IsWidth width }
    ensures { IfOk result (IsTerm (means scope.now) (view expression.now) width) }
{
    match check(alloc, scope, expression)?.ended() {
        Ok(checked) => Ok(Ok(checked.form.lower(alloc, width)?)),
        Err(fault) => Ok(Err(fault)),
    }
}
