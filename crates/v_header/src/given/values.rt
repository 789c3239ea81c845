//! A value before others.

ghost use Rattle.std.specs.Prelude.{◌∷◌, IfOk};
ghost use Rattle.v_flat.specs.Scope.Found.{both, each};
ghost use Rattle.v_flat.specs.Design.{one_more};
ghost use Rattle.v_header.specs.Parameter.Given.{GiveTheSame};
ghost use Rattle.v_header.specs.Given.Given.{FindsTheSame};

use crate::parameter::Given;
use four_value::Bits;
use port_io::NoMemory;
use std::alloc::Global;
use v_flat::scope::Found;

/// A value before others. Only want of memory is an error.
fn with(alloc: Global, name: &[u8], value: Bits, rest: Given) -> Result<Given, NoMemory>
    ensures { IfOk result (GiveTheSame (record { name = name.now; value = value } ∷ rest)) }
{
    let mut given = rest;
    given.add(alloc, name, value)?;
    Ok(given)
}

/// A value before others, from what was found in them. Only want of memory is an error.
pub(crate) fn with_found(
    alloc: Global,
    name: &[u8],
    value: Found<Bits>,
    rest: Found<Given>,
) -> Result<Found<Given>, NoMemory>
    ensures { IfOk result (FindsTheSame (each (one_more name.now) (both value rest))) }
{
    match value.both(rest) {
        Found::Sound((value, rest)) => Ok(Found::Sound(with(alloc, name, value, rest)?)),
        Found::Noted(fault, (value, rest)) => {
            Ok(Found::Noted(fault, with(alloc, name, value, rest)?))
        }
        Found::Lost(fault) => Ok(Found::Lost(fault)),
    }
}
