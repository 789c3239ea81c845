//! Opening values of registers.

ghost use Rattle.std.specs.Prelude.{◌≡◌, IfOk, []};
ghost use Rattle.gpi.specs.declared.design.Kind.TheVariants.{Initial};
ghost use Rattle.gpi.specs.Terms.{IsWidth};
ghost use Rattle.v_flat.specs.Scope.Scope.{find, means, width_of};
ghost use Rattle.v_syntax.specs.declared.statement.AssignmentKind.TheVariants.{Blocking};
ghost use Rattle.v_syntax.specs.ExpressionTrees.{view};
ghost use Rattle.v_syntax.specs.StatementTrees.{Assignment};
ghost use Rattle.v_flat.specs.Checks.{checked};
ghost use Rattle.v_flat.specs.Design.{whole_of};
ghost use Rattle.v_flat.specs.Statements.{done};
ghost use Rattle.v_check.specs.Names.Proper.{AreProper};
ghost use Rattle.v_process.specs.Made.{OpensWith, whole_object, whole_target};
ghost use Rattle.v_process.specs.Processes.{IsFoundProcess, untimed};

use crate::act::{Moment, assigned};
use crate::drivers::of_kind;
use crate::target::CheckedTarget;
use gpi::{Act, Kind, Object, Process, SigId, Target};
use port_io::{NoMemory, Sequence};
use std::alloc::Global;
use v_check::check;
use v_check::constants::Checked;
use v_check::names::width;
use v_flat::scope::{DataObject, Found, Meaning, Scope};
use v_syntax::{Expression, Identifier};

/// All digits of a net or a register that is no memory.
pub(crate) fn all_digits(object: DataObject) -> CheckedTarget
    requires { IsWidth (width_of object.bounds) }
    ensures { result ≡ whole_object object }
{
    let width = width(object.bounds);
    CheckedTarget {
        width,
        target: Target::Whole(Object::Signal(SigId(object.first), width)),
    }
}

/// All digits of a net or a register of that name; none where the name means anything else.
fn whole(scope: &Scope, name: &[u8]) -> Option<CheckedTarget>
    requires { AreProper (means scope.now) }
    ensures { result ≡ whole_target (find name.now (means scope.now)) }
{
    match scope.find(name) {
        Some(Meaning::Object(object)) => match object.words {
            None => Some(all_digits(*object)),
            Some(_) => None,
        },
        Some(Meaning::Constant(_, _) | Meaning::Later) | None => None,
    }
}

/// The assignment of a value where there is a target, and nothing where there is none. Only want of memory is an error.
fn opening(
    alloc: Global,
    target: Option<CheckedTarget>,
    value: Found<Checked>,
) -> Result<Found<Act>, NoMemory>
    ensures { IfOk result (OpensWith target value) }
{
    match target {
        Some(target) => assigned(alloc, Moment::AtOnce, Found::Sound(target), value),
        None => Ok(value.each(|_value| Act::Empty)),
    }
}

/// What is found in the `name = value` of a `reg` (IEEE 1364-2005, clause 6.2.1): what is broken first in the value, or else the process
/// that assigns it to the whole register once, at the start. Only want of memory is an error.
pub fn register(
    alloc: Global,
    scope: &Scope,
    name: &Identifier,
    value: &Expression,
) -> Result<Found<Process>, NoMemory>
    requires { AreProper (means scope.now) }
    ensures { IfOk result (IsFoundProcess untimed Initial [] (means scope.now)
        (Assignment Blocking (whole_of name.now) (view value.now)) (done (checked (means scope.now) (view value.now)))) }
{
    let value = check(alloc, scope, value)?;
    let target = whole(scope, name.name.bytes());
    let body = opening(alloc, target, value)?;
    Ok(of_kind(Kind::Initial, Sequence::new(alloc), body))
}
