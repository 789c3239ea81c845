//! Continuous assignments.

ghost use Rattle.std.specs.Prelude.{◌≡◌, IfOk, OnErr};
ghost use Rattle.v_flat.specs.Scope.Found.{each};
ghost use Rattle.v_flat.specs.Scope.Scope.{means};
ghost use Rattle.v_syntax.specs.ExpressionTrees.{NamedTarget, view, view_selects, view_target};
ghost use Rattle.v_flat.specs.Design.{whole_of};
ghost use Rattle.v_check.specs.Names.Proper.{AreProper};
ghost use Rattle.v_process.specs.Assign.Continuous.{KeepsOrGrows};
ghost use Rattle.v_process.specs.Made.{IsAssigning, process};
ghost use Rattle.v_process.specs.Processes.{IsDriver};

use crate::act::{Moment, assigned};
use crate::assign::{net_name, net_target};
use crate::drive::DrivenDigits;
use crate::target::CheckedTarget;
use gpi::{Act, Kind, Process, Wake};
use port_io::{Name, NoMemory, Sequence};
use std::alloc::Global;
use v_check::check;
use v_check::constants::Checked;
use v_flat::scope::{Found, Scope};
use v_syntax::{Expression, Identifier, Operand, Selects, Target};

/// A process of that kind, from what was found in its statement.
pub(crate) fn of_kind(kind: Kind, wakes: Sequence<Wake>, body: Found<Act>) -> Found<Process>
    ensures { result ≡ each (process kind wakes) body }
{
    body.each(|body| Process { kind, wakes, body })
}

/// A continuous assignment, from what was found in its target and in its value. Only want of memory is an error.
fn assigning(
    alloc: Global,
    target: Found<CheckedTarget>,
    value: Found<Checked>,
    wakes: Sequence<Wake>,
) -> Result<Found<Process>, NoMemory>
    ensures { IfOk result (IsAssigning target value wakes) }
{
    let body = assigned(alloc, Moment::AtOnce, target, value)?;
    Ok(of_kind(Kind::Assign, wakes, body))
}

/// What is found in `assign target = value` (IEEE 1364-2005, clause 6.1.2): what is broken first, or else its process, which waits for
/// `wakes`, the changes of the signals that the value reads; and which digits of nets are driven then. Only want of memory is an error,
/// and then some more digits may be driven already.
pub fn continuous(
    alloc: Global,
    scope: &Scope,
    target: &Target,
    value: &Expression,
    wakes: Sequence<Wake>,
    driven: &mut DrivenDigits,
) -> Result<Found<Process>, NoMemory>
    requires { AreProper (means scope.now) }
    ensures ok { IfOk result (λ found. IsDriver (means scope.now) (view_target target.now) (view value.now) wakes driven.old found driven.new) }
    ensures err { OnErr result (KeepsOrGrows driven.old driven.new) }
{
    let value = check(alloc, scope, value)?;
    let target = net_target(alloc, scope, None, target, driven)?;
    assigning(alloc, target, value, wakes)
}

/// All of a net, as the operand of that name. Only want of memory is an error.
fn whole_net(alloc: Global, name: &Identifier) -> Result<Operand, NoMemory>
    ensures { IfOk result (λ operand. NamedTarget operand.at operand.name (view_selects operand.selects) ≡ whole_of name.now) }
{
    Ok(Operand {
        at: name.at,
        name: Name::of(alloc, name.name.bytes())?,
        selects: Selects::Whole,
    })
}

/// What is found in the `name = value` of a `wire` (IEEE 1364-2005, clause 6.1.1), which assigns continuously to the whole net: what is
/// broken first, or else its process, which waits for `wakes`, the changes of the signals that the value reads; and which digits of nets
/// are driven then. Only want of memory is an error, and then some more digits may be driven already.
pub fn net(
    alloc: Global,
    scope: &Scope,
    name: &Identifier,
    value: &Expression,
    wakes: Sequence<Wake>,
    driven: &mut DrivenDigits,
) -> Result<Found<Process>, NoMemory>
    requires { AreProper (means scope.now) }
    ensures ok { IfOk result (λ found. IsDriver (means scope.now) (whole_of name.now) (view value.now) wakes driven.old found driven.new) }
    ensures err { OnErr result (KeepsOrGrows driven.old driven.new) }
{
    let operand = whole_net(alloc, name)?;
    let value = check(alloc, scope, value)?;
    let target = net_name(alloc, scope, None, &operand, driven)?;
    assigning(alloc, target, value, wakes)
}
