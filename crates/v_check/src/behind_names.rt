//! The selects behind a name.

ghost use Rattle.std.specs.Prelude.{false, true, IfOk};
ghost use Rattle.v_flat.specs.Scope.Scope.{means};
ghost use Rattle.v_syntax.specs.ExpressionTrees.{view_selects};
ghost use Rattle.v_check.specs.Names.Proper.{AreProper};
ghost use Rattle.v_check.specs.Names.Selects.{AreSelects};

use crate::names::CheckedSelects;
use crate::walk::selects_by;
use port_io::NoMemory;
use std::alloc::Global;
use v_flat::scope::Scope;
use v_syntax::Selects;

/// The selects behind a name, all of whose expressions are checked, whatever the name is (IEEE 1364-2005, clause 5.2). Only want of
/// memory is an error.
pub fn selects(alloc: Global, scope: &Scope, selects: &Selects) -> Result<CheckedSelects, NoMemory>
    requires { AreProper (means scope.now) }
    ensures { IfOk result (AreSelects false (means scope.now) (view_selects selects.now)) }
{
    selects_by(alloc, scope, false, selects)
}

/// The selects behind a name, all of whose indices have to be constants, whatever the name is, as in the target of a continuous
/// assignment (IEEE 1364-2005, clause 6.1). Only want of memory is an error.
pub fn fixed_selects(
    alloc: Global,
    scope: &Scope,
    selects: &Selects,
) -> Result<CheckedSelects, NoMemory>
    requires { AreProper (means scope.now) }
    ensures { IfOk result (AreSelects true (means scope.now) (view_selects selects.now)) }
{
    selects_by(alloc, scope, true, selects)
}
