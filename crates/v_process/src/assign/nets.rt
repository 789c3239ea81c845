//! Names that are assigned to continuously.

ghost use Rattle.std.specs.Prelude.{IfOk, OnErr};
ghost use Rattle.v_syntax.specs.ExpressionTrees.{NamedTarget, view_selects};
ghost use Rattle.v_flat.specs.Scope.Scope.{means};
ghost use Rattle.v_check.specs.Names.Proper.{AreProper};
ghost use Rattle.v_process.specs.Drive.Digits.{KeepsSame};
ghost use Rattle.v_process.specs.Assign.Continuous.{IsContinuous};
ghost use Rattle.v_process.specs.Assign.Made.{AreFixed, IsNet};

use crate::drive::DrivenDigits;
use crate::target::{CheckedTarget, Manner, driven_digits, named};
use port_io::NoMemory;
use std::alloc::Global;
use v_check::fixed_selects;
use v_flat::scope::{DataKind, DataObject, ElabRule, Found, Meaning, Scope};
use v_syntax::{Operand, TokenNumber};

/// Digits of a net: TwoDrivers is broken at `place` where one of them is driven already, and from now on they are driven where none is.
/// Only want of memory is an error.
fn net(
    object: DataObject,
    place: TokenNumber,
    found: Found<CheckedTarget>,
    driven: &mut DrivenDigits,
) -> Result<Found<CheckedTarget>, NoMemory>
    requires { AreFixed found }
    ensures ok { IfOk result (λ answer. IsNet object place found driven.old answer driven.new) }
    ensures err { OnErr result (KeepsSame driven.old driven.new) }
{
    match found {
        Found::Sound(target) => {
            let drive = driven_digits(object, &target.target);
            if driven.has(drive) {
                return Ok(Found::broken(ElabRule::TwoDrivers, place));
            }
            driven.add(drive)?;
            Ok(Found::Sound(target))
        }
        Found::Noted(_fault, _target) => unreachable!(),
        Found::Lost(fault) => Ok(Found::Lost(fault)),
    }
}

/// What is found in a name that is assigned to continuously, and which digits are driven then. `place` is that of a connection, which
/// stands for those of all its parts. Only want of memory is an error, and then nothing more is driven.
pub fn net_name(
    alloc: Global,
    scope: &Scope,
    place: Option<TokenNumber>,
    operand: &Operand,
    driven: &mut DrivenDigits,
) -> Result<Found<CheckedTarget>, NoMemory>
    requires { AreProper (means scope.now) }
    ensures ok { IfOk result (λ found. IsContinuous place (means scope.now)
        (NamedTarget operand.now.at operand.now.name (view_selects operand.now.selects)) driven.old found driven.new) }
    ensures err { OnErr result (KeepsSame driven.old driven.new) }
{
    let selects = fixed_selects(alloc, scope, &operand.selects)?;
    let name = operand.name.bytes();
    let found = named(scope, Manner::Continuous, name, operand.at, selects);
    let at = place.unwrap_or(operand.at);
    match scope.find(name) {
        Some(Meaning::Object(object)) => match object.kind {
            DataKind::Input => Ok(found.needs(false, ElabRule::TwoDrivers, at)),
            DataKind::Net => net(*object, at, found, driven),
            DataKind::Register => Ok(found),
        },
        Some(Meaning::Constant(_, _) | Meaning::Later) | None => Ok(found),
    }
}
