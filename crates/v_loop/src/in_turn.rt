//! The scope of a turn.

ghost use Rattle.std.specs.Prelude.{◌≡◌, length, IfOk, IfSome, Some};
ghost use Rattle.v_flat.specs.declared.scope.meaning.Meaning.TheVariants.{Object};
ghost use Rattle.v_flat.specs.Scope.Found.{ended};
ghost use Rattle.v_flat.specs.Scope.Scope.{find, means, renamed, width_of};
ghost use Rattle.v_syntax.specs.ExpressionTrees.{view};
ghost use Rattle.v_flat.specs.Statements.{step_checked, turn};
ghost use Rattle.v_check.specs.Names.Proper.{AreProper};
ghost use Rattle.v_loop.specs.Steps.{condition_of, next_value};
ghost use Rattle.v_loop.specs.Turns.{LeavesTurn};

use crate::step::{holds, next_value, step_checked};
use four_value::Bits;
use port_io::NoMemory;
use std::alloc::Global;
use v_check::names::width;
use v_flat::scope::{Broken, DataObject, Meaning, Scope};
use v_syntax::{Expression, ForHeader};

/// From now on the name of a loop's register is that of a constant, which has the register's value in this turn, and its range. It takes
/// no memory.
pub fn enter_turn(scope: &mut Scope, name: &[u8], object: DataObject, value: Bits)
    requires { find name.now (means scope.old) ≡ Some (Object object) }
    ensures is { means scope.new ≡ turn name.now object value (means scope.old) }
    ensures proper { AreProper (means scope.old) → length value ≡ width_of object.bounds → AreProper (means scope.new) }
{
    scope.replace(name, Meaning::Constant(value, object.bounds));
}

/// From now on the name of a loop's register is that of the register: behind a turn each name means what it meant before it. It takes no
/// memory.
pub fn leave_turn(scope: &mut Scope, name: &[u8], object: DataObject)
    ensures is { means scope.new ≡ renamed name.now (Object object) (means scope.old) }
    ensures back { LeavesTurn name.now object (means scope.old) (means scope.new) }
{
    scope.replace(name, Meaning::Object(object));
}

/// Whether a constant condition holds in the turn with this value, or the rule that is broken first in it. Only want of memory is an error.
/// Whatever the answer, each name means what it meant.
pub(crate) fn holds_in_turn(
    alloc: Global,
    scope: &mut Scope,
    name: &[u8],
    object: DataObject,
    value: Bits,
    condition: &Expression,
) -> Result<Result<bool, Broken>, NoMemory>
    requires proper { AreProper (means scope.old) }
    requires counter { find name.now (means scope.old) ≡ Some (Object object) }
    requires width { length value ≡ width_of object.bounds }
    ensures value { IfOk result (λ answer. answer ≡ condition_of (turn name.now object value (means scope.old)) (view condition.now)) }
    ensures scope { means scope.new ≡ means scope.old }
{
    enter_turn(scope, name, object, value);
    let answer = holds(alloc, scope, condition);
    leave_turn(scope, name, object);
    answer
}

/// The value that the register has behind the turn with this value; none where the condition doesn't hold. Or the rule that is broken
/// first. Only want of memory is an error. Whatever the answer, each name means what it meant.
pub(crate) fn next_in_turn(
    alloc: Global,
    scope: &mut Scope,
    header: &ForHeader,
    object: DataObject,
    value: Bits,
) -> Result<Result<Option<Bits>, Broken>, NoMemory>
    requires proper { AreProper (means scope.old) }
    requires counter { find header.now.initial.name.name (means scope.old) ≡ Some (Object object) }
    requires width { length value ≡ width_of object.bounds }
    ensures value { IfOk result (λ answer. answer ≡ next_value (width_of object.bounds) (view header.now.condition)
        (view header.now.step.value) (turn header.now.initial.name.name object value (means scope.old))) }
    ensures width { IfOk result (λ answer. IfOk answer (λ next. IfSome next (λ value. length value ≡ width_of object.bounds))) }
    ensures scope { means scope.new ≡ means scope.old }
{
    let name = header.initial.name.name.bytes();
    let digits = width(object.bounds);
    enter_turn(scope, name, object, value);
    let next = next_value(alloc, scope, digits, header);
    leave_turn(scope, name, object);
    next
}

/// What each turn ends with has to be a constant: nothing, or the rule that is broken first, in the turn with this value. Only want of
/// memory is an error. Whatever the answer, each name means what it meant.
pub(crate) fn step_in_turn(
    alloc: Global,
    scope: &mut Scope,
    header: &ForHeader,
    object: DataObject,
    value: Bits,
) -> Result<Result<(), Broken>, NoMemory>
    requires proper { AreProper (means scope.old) }
    requires counter { find header.now.initial.name.name (means scope.old) ≡ Some (Object object) }
    requires width { length value ≡ width_of object.bounds }
    ensures value { IfOk result
        (λ answer. answer ≡ ended (step_checked (turn header.now.initial.name.name object value (means scope.old)) (view header.now.step.value))) }
    ensures scope { means scope.new ≡ means scope.old }
{
    let name = header.initial.name.name.bytes();
    enter_turn(scope, name, object, value);
    let answer = step_checked(alloc, scope, &header.step.value);
    leave_turn(scope, name, object);
    answer
}
