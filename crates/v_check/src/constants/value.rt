//! The value of a constant expression.

ghost use Rattle.std.specs.Prelude.{◌≡◌, ◌≤◌, [], max, IfOk};
ghost use Rattle.four_value.specs.Vector.{number};
ghost use Rattle.v_flat.specs.Expressions.{number_or};
ghost use Rattle.gpi.specs.Terms.{IsWidth, read};
ghost use Rattle.v_flat.specs.Scope.Found.{and_then, each};
ghost use Rattle.v_flat.specs.Scope.Scope.{means};
ghost use Rattle.v_flat.specs.Scope.Limits.{counted_width, most_digits};
ghost use Rattle.v_syntax.specs.ExpressionTrees.{view};
ghost use Rattle.v_check.specs.Contextual.Contexts.{IsSound, value_in};
ghost use Rattle.v_flat.specs.Checks.{checked, constant_in, constant_of, counted, given_to, known};
ghost use Rattle.v_check.specs.Constants.Checked.{IsChecked};

use crate::constants::checked::Checked;
use crate::constants::is_made;
use four_value::Bits;
use port_io::NoMemory;
use std::alloc::Global;
use v_flat::scope::{ElabRule, Found, Scope, TOO_WIDE};
use v_syntax::{Expression, TokenNumber};

/// The value of an expression without a signal, in a context of `least` digits or its own width, whichever is greater. Only want
/// of memory is an error.
fn evaluated(alloc: Global, least: u8, checked: Checked) -> Result<Bits, NoMemory>
    requires sound { IsSound checked.form [] }
    requires width { IsWidth (max least checked.width) }
    ensures { IfOk result (λ value. value ≡ value_in checked.form (max least checked.width) (read [])) }
{
    let Checked { width, form } = checked;
    let term = form.lower(alloc, least.max(width))?;
    Ok(term.eval(&[]))
}

/// No digit is x or z, or else NotConstant is broken at this token.
fn known(place: TokenNumber, value: Bits) -> Found<Bits>
    ensures { result ≡ known place value }
{
    match value.to_number() {
        Some(_) => Found::Sound(value),
        None => Found::broken(ElabRule::NotConstant, place),
    }
}

/// The value of a constant in a context of `least` digits or its own width, whichever is greater. Only want of memory is an
/// error.
fn valued(
    alloc: Global,
    scope: &Scope,
    expression: &Expression,
    least: u8,
    found: Found<Checked>,
) -> Result<Found<Bits>, NoMemory>
    requires least { least ≤ most_digits }
    requires found { IsChecked (means scope.now) (view expression.now) found }
    ensures { IfOk result
        (λ value. value ≡ constant_in (max least) (means scope.now) (view expression.now) (checked (means scope.now) (view expression.now))) }
{
    let place = expression.first();
    let made = is_made(scope, expression);
    match found.needs(made, ElabRule::NotConstant, place).ended() {
        Ok(checked) => Ok(known(place, evaluated(alloc, least, checked)?)),
        Err(fault) => Ok(Found::Lost(fault)),
    }
}

/// The value by itself of an expression that has to be a constant, from what was found in it. Only want of memory is an error.
pub fn constant(
    alloc: Global,
    scope: &Scope,
    expression: &Expression,
    found: Found<Checked>,
) -> Result<Found<Bits>, NoMemory>
    requires { IsChecked (means scope.now) (view expression.now) found }
    ensures { IfOk result (λ value. value ≡ constant_of (means scope.now) (view expression.now)) }
{
    Ok(valued(alloc, scope, expression, 0, found)?)
}

/// The value that a constant gives to a register of `width` digits, in a context that has at least so many. Only want of memory
/// is an error.
pub fn given_to(
    alloc: Global,
    scope: &Scope,
    expression: &Expression,
    width: u8,
    found: Found<Checked>,
) -> Result<Found<Bits>, NoMemory>
    requires width { width ≤ most_digits }
    requires found { IsChecked (means scope.now) (view expression.now) found }
    ensures { IfOk result (λ value. value ≡ given_to width (means scope.now) (view expression.now)) }
{
    Ok(valued(alloc, scope, expression, width, found)?)
}

/// The number of a vector, and 0 where it has none.
pub fn number_or_zero(value: Bits) -> u128
    ensures { result ≡ number_or (number value) }
{
    match value.to_number() {
        Some(number) => number,
        None => 0,
    }
}

/// The number of a vector, where [`TOO_WIDE`] stands for all beyond 128.
fn cut(value: Bits) -> u8
    ensures { result ≡ counted_width (number_or (number value)) }
{
    number_or_zero(value).min(u128::from(TOO_WIDE)) as u8
}

/// A count is at least 1, or else BadRange is broken at this token; [`TOO_WIDE`] stands for more than 128.
fn at_least_one(place: TokenNumber, value: Bits) -> Found<u8>
    ensures { result ≡ each counted_width (counted place value) }
{
    let count = cut(value);
    Found::Sound(count).needs(0 < count, ElabRule::BadRange, place)
}

/// A count, where `place` is the number of its first token: that of a replication (clause 5.1.14) or the width of an indexed
/// part-select (clause 5.2.1). It is at least 1, or else BadRange is broken there; [`TOO_WIDE`] stands for more than 128.
pub fn counted(place: TokenNumber, value: Found<Bits>) -> Found<u8>
    ensures { result ≡ each counted_width (and_then value (counted place)) }
{
    match value {
        Found::Sound(value) => at_least_one(place, value),
        Found::Noted(fault, value) => at_least_one(place, value).noted(fault),
        Found::Lost(fault) => Found::Lost(fault),
    }
}
