//! The expressions of a loop's header, in the scope of a turn.

ghost use Rattle.std.specs.Prelude.{◌≡◌, length, IfOk, IfSome};
ghost use Rattle.gpi.specs.Operators.{truth};
ghost use Rattle.gpi.specs.Terms.{IsWidth};
ghost use Rattle.v_flat.specs.Scope.Found.{ended};
ghost use Rattle.v_flat.specs.Scope.Scope.{means};
ghost use Rattle.v_syntax.specs.ExpressionTrees.{view};
ghost use Rattle.v_flat.specs.Statements.{step_checked};
ghost use Rattle.v_check.specs.Names.Proper.{AreProper};
ghost use Rattle.v_loop.specs.Steps.{condition_of, is_one, next_value, value_for};

use four_value::{Bits, Digit};
use port_io::NoMemory;
use std::alloc::Global;
use v_check::constants::{given_to, is_made};
use v_check::{check, constant};
use v_flat::scope::{Broken, ElabRule, Scope};
use v_syntax::{Expression, ForHeader};

/// A condition with this value holds: a digit is 1 (clause 9.4).
fn is_true(value: Bits) -> bool
    ensures { result ≡ is_one (truth value) }
{
    match value.reduce_or() {
        Digit::One => true,
        Digit::Zero | Digit::X | Digit::Z => false,
    }
}

/// Whether a constant condition holds, or the rule that is broken first in it. Only want of memory is an error.
pub(crate) fn holds(
    alloc: Global,
    scope: &Scope,
    condition: &Expression,
) -> Result<Result<bool, Broken>, NoMemory>
    requires { AreProper (means scope.now) }
    ensures { IfOk result (λ answer. answer ≡ condition_of (means scope.now) (view condition.now)) }
{
    match constant(alloc, scope, condition)?.ended() {
        Ok(value) => Ok(Ok(is_true(value))),
        Err(fault) => Ok(Err(fault)),
    }
}

/// What a register of `width` digits has after a constant is assigned to it (clause 5.6), or the rule that is broken first. Only want of
/// memory is an error.
pub(crate) fn value_for(
    alloc: Global,
    scope: &Scope,
    width: u8,
    expression: &Expression,
) -> Result<Result<Bits, Broken>, NoMemory>
    requires proper { AreProper (means scope.now) }
    requires width { IsWidth width }
    ensures value { IfOk result (λ answer. answer ≡ value_for width (means scope.now) (view expression.now)) }
    ensures width { IfOk result (λ answer. IfOk answer (λ value. length value ≡ width)) }
{
    let found = check(alloc, scope, expression)?;
    match given_to(alloc, scope, expression, width, found)?.ended() {
        Ok(value) => Ok(Ok(value.resize(width))),
        Err(fault) => Ok(Err(fault)),
    }
}

/// The value that a register of `width` digits has behind a turn, in the scope of that turn; none where the condition doesn't hold. Or the
/// rule that is broken first. Only want of memory is an error.
pub(crate) fn next_value(
    alloc: Global,
    scope: &Scope,
    width: u8,
    header: &ForHeader,
) -> Result<Result<Option<Bits>, Broken>, NoMemory>
    requires proper { AreProper (means scope.now) }
    requires width { IsWidth width }
    ensures value { IfOk result (λ answer. answer ≡ next_value width (view header.now.condition) (view header.now.step.value) (means scope.now)) }
    ensures width { IfOk result (λ answer. IfOk answer (λ next. IfSome next (λ value. length value ≡ width))) }
{
    match holds(alloc, scope, &header.condition)? {
        Ok(true) => match value_for(alloc, scope, width, &header.step.value)? {
            Ok(value) => Ok(Ok(Some(value))),
            Err(fault) => Ok(Err(fault)),
        },
        Ok(false) => Ok(Ok(None)),
        Err(fault) => Ok(Err(fault)),
    }
}

/// What each turn ends with has to be a constant, also where there is no turn: nothing, or the rule that is broken first, in the scope of a
/// turn. Only want of memory is an error.
pub(crate) fn step_checked(
    alloc: Global,
    scope: &Scope,
    step: &Expression,
) -> Result<Result<(), Broken>, NoMemory>
    requires { AreProper (means scope.now) }
    ensures { IfOk result (λ answer. answer ≡ ended (step_checked (means scope.now) (view step.now))) }
{
    let place = step.first();
    let made = is_made(scope, step);
    let found = check(alloc, scope, step)?;
    match found.needs(made, ElabRule::NotConstant, place).ended() {
        Ok(_checked) => Ok(Ok(())),
        Err(fault) => Ok(Err(fault)),
    }
}
