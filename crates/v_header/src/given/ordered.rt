//! Values in the order of the open parameters.

ghost use Rattle.std.specs.Prelude.{◌≡◌, [], IfOk, drop, length, map};
ghost use Rattle.v_syntax.specs.ExpressionTrees.{view};
ghost use Rattle.v_flat.specs.Scope.Scope.{means};
ghost use Rattle.v_flat.specs.Design.{ordered_given};
ghost use Rattle.v_header.specs.Names.{texts};
ghost use Rattle.v_check.specs.Names.Proper.{AreProper};
ghost use Rattle.v_header.specs.Given.Given.{FindsTheSame};

use crate::given::values::with_found;
use crate::parameter::Given;
use port_io::NoMemory;
use std::alloc::Global;
use v_check::constant;
use v_flat::scope::{Broken, ElabRule, Found, Scope};
use v_syntax::Expression;

/// What is found behind the values that have an open parameter each, of which there are `count`: the first of more breaks BadPort at its
/// first token, is checked, and ends the list. Only want of memory is an error.
fn excess(
    alloc: Global,
    scope: &Scope,
    values: &[Expression],
    count: usize,
) -> Result<Found<Given>, NoMemory>
    requires { AreProper (means scope.now) }
    ensures { IfOk result (λ found. found ≡ ordered_given (means scope.now) (map view (drop count values.now)) []) }
{
    match values.get(count) {
        Some(value) => {
            let fault = Broken {
                rule: ElabRule::BadPort,
                place: value.first(),
            };
            let found = constant(alloc, scope, value)?.lost(fault);
            Ok(found.each(|_value| Given::none(alloc)))
        }
        None => Ok(Found::Sound(Given::none(alloc))),
    }
}

/// What is found in values that stand in the order of the open parameters, from the last one to the first. Only want of memory is an
/// error.
pub(crate) fn ordered(
    alloc: Global,
    scope: &Scope,
    values: &[Expression],
    names: &[&[u8]],
) -> Result<Found<Given>, NoMemory>
    requires { AreProper (means scope.now) }
    ensures { IfOk result (FindsTheSame (ordered_given (means scope.now) (map view values.now) (texts names.now))) }
{
    let mut found = excess(alloc, scope, values, names.len())?;
    for at in (0..values.len().min(names.len())).rev() {
        let value = constant(alloc, scope, &values[at])?;
        found = with_found(alloc, names[at], value, found)?;
    }
    Ok(found)
}
