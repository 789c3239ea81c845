//! One parameter.

ghost use Rattle.std.specs.Prelude.{◌≡◌, IfOk, Some};
ghost use Rattle.gpi.specs.Terms.{IsWidth};
ghost use Rattle.v_flat.specs.Scope.Found.{ended};
ghost use Rattle.v_flat.specs.Scope.Scope.{means, width_of};
ghost use Rattle.v_flat.specs.Checks.{constant_of};
ghost use Rattle.v_flat.specs.Declarations.{constant_meaning, given_value};
ghost use Rattle.v_syntax.specs.ExpressionTrees.{view};
ghost use Rattle.v_check.specs.Names.Proper.{AreProper, IsProper};
ghost use Rattle.v_header.specs.Parameters.{parameter_in};
ghost use Rattle.v_header.specs.Parameter.Values.{meaning_of};
ghost use Rattle.v_header.specs.Parameter.Found.{HasVectorRange, IsFoundValue, parameter_found};

use crate::Parameter;
use crate::parameter::{Given, Value};
use crate::range::vector_bounds;
use four_value::Bits;
use port_io::NoMemory;
use std::alloc::Global;
use v_check::constant;
use v_check::constants::is_constant;
use v_check::names::width;
use v_flat::scope::{Bounds, Broken, ElabRule, Found, Scope};

/// The value that the instance gives to a parameter, or else that of its own expression. Only want of memory is an error.
fn value(
    alloc: Global,
    scope: &Scope,
    given: &Given,
    parameter: &Parameter<'_>,
) -> Result<Found<Bits>, NoMemory>
    requires { AreProper (means scope.now) }
    ensures { IfOk result
        (λ found. found ≡ given_value parameter.now.name.now.name given.now (constant_of (means scope.now) (view parameter.now.value.now))) }
{
    match given.find(parameter.name.name.bytes()) {
        Some(value) => Ok(Found::Sound(value)),
        None => Ok(constant(alloc, scope, parameter.value)?),
    }
}

/// What is found in a parameter: its range and its value, each of which counts also where the name is that of a parameter before it,
/// which breaks DuplicateName at the name. Only want of memory is an error.
fn found(
    alloc: Global,
    scope: &Scope,
    given: &Given,
    parameter: &Parameter<'_>,
) -> Result<Found<(Bounds, Bits)>, NoMemory>
    requires { AreProper (means scope.now) }
    ensures is { IfOk result (λ found. found ≡ parameter_found (parameter_in parameter.now) given.now (means scope.now)) }
    ensures narrow { IfOk result HasVectorRange }
{
    let range = vector_bounds(alloc, scope, parameter.range)?;
    let value = value(alloc, scope, given, parameter)?;
    let name = parameter.name;
    let is_free = !is_constant(scope, name.name.bytes());
    Ok(
        range
            .both(value)
            .wants(is_free, ElabRule::DuplicateName, name.at),
    )
}

/// The value of a parameter, from what was found: it is cut to a range that is written, or filled with zeros; without one the range is
/// that of the value's own width.
fn ranged(parameter: &Parameter<'_>, bounds: Bounds, value: Bits) -> Value
    requires { IsWidth (width_of bounds) }
    ensures is { meaning_of result ≡ constant_meaning (parameter_in parameter.now).range bounds value }
    ensures proper { IsProper (Some (meaning_of result)) }
{
    match parameter.range {
        Some(_) => Value {
            digits: value.resize(width(bounds)),
            bounds,
        },
        None => Value {
            digits: value,
            bounds: Bounds {
                left: u32::from(value.width() - 1),
                right: 0,
            },
        },
    }
}

/// The value of a parameter, or the rule that is broken first in it. Only want of memory is an error.
pub(crate) fn found_value(
    alloc: Global,
    scope: &Scope,
    given: &Given,
    parameter: &Parameter<'_>,
) -> Result<Result<Value, Broken>, NoMemory>
    requires { AreProper (means scope.now) }
    ensures { IfOk result
        (IsFoundValue (parameter_in parameter.now) (ended (parameter_found (parameter_in parameter.now) given.now (means scope.now)))) }
{
    match found(alloc, scope, given, parameter)?.ended() {
        Ok(found) => {
            let (bounds, value) = found;
            Ok(Ok(ranged(parameter, bounds, value)))
        }
        Err(fault) => Ok(Err(fault)),
    }
}
