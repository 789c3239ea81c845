//! What one port is joined to.

ghost use Rattle.std.specs.Prelude.{◌≡◌, IfOk};
ghost use Rattle.v_flat.specs.Scope.Found.{EachIs};
ghost use Rattle.v_flat.specs.Scope.Scope.{means};
ghost use Rattle.v_syntax.specs.ExpressionTrees.{view};
ghost use Rattle.v_check.specs.Names.Proper.{AreProper};
ghost use Rattle.v_process.specs.Assign.Continuous.{KeepsOrGrows};
ghost use Rattle.v_elab.specs.declared.connect.joint.Joined.TheVariants as joined_kind;
ghost use Rattle.v_elab.specs.Connect.Found.{IsFoundJoined, IsFoundOutput, IsFoundValue};

use crate::connect::Joined;
use port_io::NoMemory;
use std::alloc::Global;
use v_check::check;
use v_check::constants::Checked;
use v_flat::scope::{Broken, ElabRule, Found, Scope};
use v_loop::reads::{Span, reads};
use v_process::drive::DrivenDigits;
use v_process::outputs::output;
use v_process::target::CheckedTarget;
use v_syntax::{Direction, Expression, TokenNumber};

/// What is found in an expression, with the signals that it reads.
fn with_reads(found: Found<Checked>, reads: Vec<Span>) -> Found<Joined>
    ensures { EachIs (λ checked joined. joined ≡ joined_kind.Value checked reads) found result }
{
    match found {
        Found::Sound(checked) => Found::Sound(Joined::Value(checked, reads)),
        Found::Noted(fault, checked) => Found::Noted(fault, Joined::Value(checked, reads)),
        Found::Lost(fault) => Found::Lost(fault),
    }
}

/// What is found in the expression that a port is assigned. Only want of memory is an error.
fn value(alloc: Global, scope: &Scope, expression: &Expression) -> Result<Found<Joined>, NoMemory>
    requires { AreProper (means scope.now) }
    ensures { IfOk result (IsFoundValue (means scope.now) (view expression.now)) }
{
    let reads = reads(alloc, scope, expression)?;
    let found = check(alloc, scope, expression)?;
    Ok(with_reads(found, reads))
}

/// What is found in a target.
fn of_target(found: Found<CheckedTarget>) -> Found<Joined>
    ensures { EachIs (λ target joined. joined ≡ joined_kind.Target target) found result }
{
    match found {
        Found::Sound(target) => Found::Sound(Joined::Target(target)),
        Found::Noted(fault, target) => Found::Noted(fault, Joined::Target(target)),
        Found::Lost(fault) => Found::Lost(fault),
    }
}

/// What is found in what an output is connected to: one that is no target breaks BadTarget at the connection's first token, and is checked
/// too. Only want of memory is an error. Whatever the answer, those digits that were driven are.
fn target(
    alloc: Global,
    scope: &Scope,
    place: TokenNumber,
    expression: &Expression,
    driven: &mut DrivenDigits,
) -> Result<Found<Joined>, NoMemory>
    requires { AreProper (means scope.now) }
    ensures ok { IfOk result (λ found. IsFoundOutput place (means scope.now) (view expression.now) driven.old found driven.new) }
    ensures grows { KeepsOrGrows driven.old driven.new }
{
    match output(alloc, scope, place, expression, driven)? {
        Some(found) => Ok(of_target(found)),
        None => {
            let fault = Broken {
                rule: ElabRule::BadTarget,
                place,
            };
            Ok(value(alloc, scope, expression)?.lost(fault))
        }
    }
}

/// What is found in what a port is connected to. Only want of memory is an error. Whatever the answer, those digits that were driven are.
pub(crate) fn joined(
    alloc: Global,
    scope: &Scope,
    place: TokenNumber,
    direction: Option<Direction>,
    expression: &Expression,
    driven: &mut DrivenDigits,
) -> Result<Found<Joined>, NoMemory>
    requires { AreProper (means scope.now) }
    ensures ok { IfOk result (λ found. IsFoundJoined place (means scope.now) direction (view expression.now) driven.old found driven.new) }
    ensures grows { KeepsOrGrows driven.old driven.new }
{
    match direction {
        Some(Direction::Output) => target(alloc, scope, place, expression, driven),
        Some(Direction::Input) => value(alloc, scope, expression),
        None => value(alloc, scope, expression),
    }
}
