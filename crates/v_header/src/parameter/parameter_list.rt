//! All parameters of an instance.

ghost use Rattle.std.specs.Prelude.{◌≡◌, [], IfOk};
ghost use Rattle.v_flat.specs.Scope.Scope.{means};
ghost use Rattle.v_flat.specs.Declarations.{parameters};
ghost use Rattle.v_check.specs.Names.Proper.{AreProper};
ghost use Rattle.v_header.specs.Parameters.{parameters_in};
ghost use Rattle.v_header.specs.Parameter.Constants.{AreParameters, HasNoConstants, entry_of};
ghost use Rattle.v_header.specs.Parameter.Values.{meaning_of};

use crate::Parameter;
use crate::parameter::one::found_value;
use crate::parameter::{Constant, Constants, Given, Value};
use port_io::NoMemory;
use std::alloc::Global;
use v_flat::scope::{Broken, Scope};

/// A parameter of this name with this value. Only want of memory is an error.
fn constant(alloc: Global, name: &[u8], value: Value) -> Result<Constant, NoMemory>
    ensures { IfOk result (λ constant. entry_of constant ≡ (name.now, meaning_of value)) }
{
    Ok(Constant {
        name: name.to_vec(alloc)?,
        value,
    })
}

/// The parameters of a module in an instance, in their order (IEEE 1364-2005, clauses 4.10 and 12.2), or the rule that is broken first
/// in them: in the first parameter in which one is broken, and in it the one at the least token. A second parameter of a name breaks
/// DuplicateName. `others` tells what names mean where no parameter is known. Only want of memory is an error.
pub fn parameters(
    alloc: Global,
    declared: &[Parameter<'_>],
    given: &Given,
    others: Scope,
) -> Result<Result<Constants, Broken>, NoMemory>
    requires proper { AreProper (means others) }
    requires none { HasNoConstants (means others) }
    ensures { IfOk result (AreParameters (means others) (parameters (parameters_in declared.now) given.now (means others) [])) }
{
    let mut scope = others;
    let mut list = Vec::new(alloc);
    for parameter in declared {
        let name = parameter.name.name.bytes();
        match found_value(alloc, &scope, given, parameter)? {
            Ok(value) => {
                scope.declare(alloc, name, value.meaning())?;
                list.push(constant(alloc, name, value)?)?;
            }
            Err(fault) => return Ok(Err(fault)),
        }
    }
    Ok(Ok(Constants { list, scope }))
}
