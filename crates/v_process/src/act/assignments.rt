//! Assignments in procedures.

ghost use Rattle.std.specs.Prelude.{IfOk};
ghost use Rattle.v_flat.specs.Scope.Scope.{means};
ghost use Rattle.v_syntax.specs.ExpressionTrees.{view, view_target};
ghost use Rattle.v_syntax.specs.StatementTrees.{Assignment};
ghost use Rattle.v_check.specs.Names.Proper.{AreProper};
ghost use Rattle.v_process.specs.Act.Assignments.{MakesAssignment};
ghost use Rattle.v_process.specs.Act.Made.{AreAssignments, IsCut};
ghost use Rattle.v_process.specs.Act.Statements.{ChecksAssignment, IsFoundStatement};

use crate::act::moment::{Moment, delayed, moment_of};
use crate::act::waiting::beside;
use crate::assign::target as checked_target;
use crate::target::CheckedTarget;
use gpi::{Act, Term};
use port_io::NoMemory;
use std::alloc::Global;
use v_check::check;
use v_check::constants::Checked;
use v_flat::Timing;
use v_flat::scope::{Found, Scope};
use v_syntax::{AssignmentKind, Expression, Target};

/// A value at the greater one of this width and its own, and then cut to this width. Only want of memory is an error.
fn cut(alloc: Global, value: Checked, width: u8) -> Result<Term, NoMemory>
    ensures { IfOk result (IsCut value width) }
{
    let term = value.form.lower(alloc, width.max(value.width))?;
    Term::resize(alloc, term, width)
}

/// `target = value` or `target <= value` of a target and a value in which no rule is broken, whatever scopes they were found in. The value
/// is evaluated at the greater one of both widths, and then cut to the target's (IEEE 1364-2005, clause 5.4.1). Only want of memory is an
/// error.
pub fn assign(
    alloc: Global,
    moment: Moment,
    target: CheckedTarget,
    value: Checked,
) -> Result<Act, NoMemory>
    ensures { IfOk result (MakesAssignment moment target value) }
{
    let (term, target) = beside(cut(alloc, value, target.width), target.target)?;
    match moment {
        Moment::AtOnce => Ok(Act::Blocking(target, term)),
        Moment::Later(delay) => Ok(Act::Nonblocking(target, term, delay)),
    }
}

/// What is made of a target and a value. Only want of memory is an error.
fn of_both(
    alloc: Global,
    moment: Moment,
    found: Found<(CheckedTarget, Checked)>,
) -> Result<Found<Act>, NoMemory>
    ensures { IfOk result (AreAssignments moment found) }
{
    match found {
        Found::Sound((target, value)) => Ok(Found::Sound(assign(alloc, moment, target, value)?)),
        Found::Noted(fault, (target, value)) => {
            Ok(Found::Noted(fault, assign(alloc, moment, target, value)?))
        }
        Found::Lost(fault) => Ok(Found::Lost(fault)),
    }
}

/// `target = value` or `target <= value` (IEEE 1364-2005, clause 9.2), from what was found in both. Only want of memory is an error.
pub fn assigned(
    alloc: Global,
    moment: Moment,
    target: Found<CheckedTarget>,
    value: Found<Checked>,
) -> Result<Found<Act>, NoMemory>
    ensures { IfOk result (ChecksAssignment moment target value) }
{
    of_both(alloc, moment, target.both(value))
}

/// What is found in an assignment of a procedure in a module of this timing: what is broken first, or else the statement that it is (IEEE
/// 1364-2005, clause 9.2). Only want of memory is an error.
pub fn assignment(
    alloc: Global,
    scope: &Scope,
    timing: Timing,
    kind: &AssignmentKind,
    target: &Target,
    value: &Expression,
) -> Result<Found<Act>, NoMemory>
    requires { AreProper (means scope.now) }
    ensures { IfOk result (IsFoundStatement timing (means scope.now) (Assignment kind.now (view_target target.now) (view value.now))) }
{
    let target = checked_target(alloc, scope, target)?;
    let (value, target) = beside(check(alloc, scope, value), target)?;
    let found = assigned(alloc, moment_of(timing, *kind), target, value)?;
    Ok(delayed(timing, *kind, found))
}
