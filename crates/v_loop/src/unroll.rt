//! The turns of a loop, one after the other.

ghost use Rattle.std.specs.Prelude.{◌≡◌, length, IfOk, Some};
ghost use Rattle.v_flat.specs.declared.scope.meaning.Meaning.TheVariants.{Object};
ghost use Rattle.v_flat.specs.Scope.Found.{ForValue, and_then, ended};
ghost use Rattle.v_flat.specs.Scope.Scope.{find, means, width_of};
ghost use Rattle.v_syntax.specs.ExpressionTrees.{view};
ghost use Rattle.v_syntax.specs.StatementTrees.{view_header};
ghost use Rattle.v_flat.specs.Statements.{first_value, most_turns, same_counter, step_checked, turn, turns, turns_from};
ghost use Rattle.v_check.specs.Names.Proper.{AreProper};
ghost use Rattle.v_loop.specs.Turns.{HaveWidth};

use crate::in_turn::{holds_in_turn, next_in_turn, step_in_turn};
use crate::register::same_counter;
use crate::step::value_for;
use crate::{LoopTurns, Unrolled};
use four_value::Bits;
use port_io::NoMemory;
use std::alloc::Global;
use v_check::names::width;
use v_flat::scope::{Broken, DataObject, ElabRule, Found, Scope};
use v_syntax::{ForHeader, TokenNumber};

/// The most turns that a loop may have.
const MOST_TURNS: u16 = 4096;

/// The first value of a loop's register, with which its condition is asked too, or the rule that is broken first. Only want of memory is
/// an error. Whatever the answer, each name means what it meant.
fn first_value(
    alloc: Global,
    scope: &mut Scope,
    header: &ForHeader,
    object: DataObject,
) -> Result<Result<Bits, Broken>, NoMemory>
    requires proper { AreProper (means scope.old) }
    requires counter { find header.now.initial.name.name (means scope.old) ≡ Some (Object object) }
    ensures value { IfOk result (λ answer. answer
        ≡ ended (first_value header.now.initial.name.name object (view header.now.initial.value) (view header.now.condition) (means scope.old))) }
    ensures width { IfOk result (λ answer. IfOk answer (λ value. length value ≡ width_of object.bounds)) }
    ensures scope { means scope.new ≡ means scope.old }
{
    let name = header.initial.name.name.bytes();
    match value_for(alloc, scope, width(object.bounds), &header.initial.value)? {
        Ok(value) => match holds_in_turn(alloc, scope, name, object, value, &header.condition)? {
            Ok(_holds) => Ok(Ok(value)),
            Err(fault) => Ok(Err(fault)),
        },
        Err(fault) => Ok(Err(fault)),
    }
}

/// The second assignment of a header is to the same register, and what it assigns is a constant, or else the rule that is broken first.
/// Only want of memory is an error. Whatever the answer, each name means what it meant.
fn checked_step(
    alloc: Global,
    scope: &mut Scope,
    header: &ForHeader,
    object: DataObject,
    first: Bits,
) -> Result<Result<(), Broken>, NoMemory>
    requires proper { AreProper (means scope.old) }
    requires counter { find header.now.initial.name.name (means scope.old) ≡ Some (Object object) }
    requires width { length first ≡ width_of object.bounds }
    ensures value { IfOk result (λ answer. answer ≡ ended (and_then (same_counter header.now.initial.name header.now.step.name (means scope.old))
        (λ u. step_checked (turn header.now.initial.name.name object first (means scope.old)) (view header.now.step.value)))) }
    ensures scope { means scope.new ≡ means scope.old }
{
    match same_counter(scope, &header.initial.name, &header.step.name) {
        Ok(()) => step_in_turn(alloc, scope, header, object, first),
        Err(fault) => Ok(Err(fault)),
    }
}

/// The turns from a first value on, `most` of them at most, or else LoopTooLong is broken at the `for`. Each of them counts. Only want of
/// memory is an error. Whatever the answer, each name means what it meant.
fn turns_from(
    alloc: Global,
    scope: &mut Scope,
    unrolled: &mut Unrolled,
    place: TokenNumber,
    header: &ForHeader,
    object: DataObject,
    first: Bits,
    most: u16,
) -> Result<Found<LoopTurns>, NoMemory>
    requires proper { AreProper (means scope.old) }
    requires counter { find header.now.initial.name.name (means scope.old) ≡ Some (Object object) }
    requires width { length first ≡ width_of object.bounds }
    ensures value { IfOk result (λ found. found ≡ turns_from most place header.now.initial.name.name object
        (view header.now.condition) (view header.now.step.value) (means scope.old) first) }
    ensures scope { means scope.new ≡ means scope.old }
{
    let name = header.initial.name.name.bytes();
    let mut values = Vec::new(alloc);
    let mut value = first;
    for _turn in 0..most {
        unrolled.count()?;
        match next_in_turn(alloc, scope, header, object, value)? {
            Ok(Some(next)) => {
                values.push(value)?;
                value = next;
            }
            Ok(None) => {
                return Ok(Found::Sound(LoopTurns {
                    values,
                    last: value,
                }));
            }
            Err(fault) => return Ok(Found::Lost(fault)),
        }
    }
    match holds_in_turn(alloc, scope, name, object, value, &header.condition)? {
        Ok(true) => Ok(Found::broken(ElabRule::LoopTooLong, place)),
        Ok(false) => Ok(Found::Sound(LoopTurns {
            values,
            last: value,
        })),
        Err(fault) => Ok(Found::Lost(fault)),
    }
}

/// The turns from a first value on, or the rule that is broken first. Only want of memory is an error. Whatever the answer, each name means
/// what it meant.
fn turns_behind(
    alloc: Global,
    scope: &mut Scope,
    unrolled: &mut Unrolled,
    place: TokenNumber,
    header: &ForHeader,
    object: DataObject,
    first: Bits,
) -> Result<Found<LoopTurns>, NoMemory>
    requires proper { AreProper (means scope.old) }
    requires counter { find header.now.initial.name.name (means scope.old) ≡ Some (Object object) }
    requires width { length first ≡ width_of object.bounds }
    ensures value { IfOk result (λ found. found ≡ and_then (same_counter header.now.initial.name header.now.step.name (means scope.old))
        (λ u. and_then (step_checked (turn header.now.initial.name.name object first (means scope.old)) (view header.now.step.value))
        (λ w. turns_from most_turns place header.now.initial.name.name object
        (view header.now.condition) (view header.now.step.value) (means scope.old) first))) }
    ensures scope { means scope.new ≡ means scope.old }
{
    match checked_step(alloc, scope, header, object, first)? {
        Ok(()) => turns_from(
            alloc, scope, unrolled, place, header, object, first, MOST_TURNS,
        ),
        Err(fault) => Ok(Found::Lost(fault)),
    }
}

/// The turns of a loop that counts in this register, where `place` is the number of the `for` (IEEE 1364-2005, clause 9.6): the values that
/// the register has in them, and the one that it has behind the last. All that a header assigns, and its condition, are constants. Or the
/// rule that is broken first, LoopTooLong where there are more than 4,096 turns. Each of them counts, as [`Unrolled`] says. Only want of memory is
/// an error. Whatever the answer, each name means what it meant.
pub fn turns(
    alloc: Global,
    scope: &mut Scope,
    unrolled: &mut Unrolled,
    place: TokenNumber,
    header: &ForHeader,
    object: DataObject,
) -> Result<Found<LoopTurns>, NoMemory>
    requires proper { AreProper (means scope.old) }
    requires counter { find header.now.initial.name.name (means scope.old) ≡ Some (Object object) }
    ensures value { IfOk result (λ found. found ≡ turns place (view_header header.now) (means scope.old) object) }
    ensures widths { IfOk result (λ found. ForValue (HaveWidth (width_of object.bounds)) found) }
    ensures scope { means scope.new ≡ means scope.old }
{
    match first_value(alloc, scope, header, object)? {
        Ok(first) => turns_behind(alloc, scope, unrolled, place, header, object, first),
        Err(fault) => Ok(Found::Lost(fault)),
    }
}
