//! Arguments of tests.

ghost use Rattle.std.specs.Prelude.{◌≡◌, map, option_copied, IfOk};
ghost use Rattle.test_meaning.specs.Factory.Options.{chosen};
ghost use Rattle.test_meaning.specs.Cases.{argument, chosen_of, default_value};

use port_io::{Name, NoMemory, Sequence};
use py_syntax::{Const, Parameter};
use std::alloc::Global;
use test_meaning::factory::copied;
use test_refusal::settings::Values;

/// The value that a case has for the option of this name; none where it has no such option.
fn chosen_of<'a>(case: &'a [(Name, Const)], name: &[u8]) -> Option<&'a Const>
    ensures { option_copied result ≡ chosen_of (map chosen case.now) name.now }
{
    for choice in case {
        if choice.0.bytes() == name {
            return Some(&choice.1);
        }
    }
    None
}

/// The value of a default; None where there is none. Only want of memory is an error.
fn default_value<V: Values>(
    alloc: Global,
    values: &V,
    default: &Option<Const>,
) -> Result<Const, NoMemory>
    ensures { IfOk result (λ made. made ≡ default_value (V.file values.now) default.now) }
{
    match default {
        Some(default) => copied(alloc, values.value_of(default)),
        None => Ok(Const::Absent),
    }
}

/// The value of a parameter in a case: that of the option of its name, else its default. Only want of memory is an error.
fn argument<V: Values>(
    alloc: Global,
    values: &V,
    case: &[(Name, Const)],
    parameter: &Parameter,
) -> Result<Const, NoMemory>
    ensures { IfOk result (λ made. made ≡ argument (V.file values.now) (map chosen case.now) parameter.now) }
{
    match chosen_of(case, parameter.name.bytes()) {
        Some(value) => copied(alloc, value),
        None => default_value(alloc, values, &parameter.default),
    }
}

/// A value for each of some parameters, in a case that has these values of options. Only want of memory is an error.
pub fn arguments<V: Values>(
    alloc: Global,
    values: &V,
    case: &[(Name, Const)],
    parameters: &[Parameter],
) -> Result<Sequence<Const>, NoMemory>
    ensures { IfOk result (λ made. made ≡ map (argument (V.file values.now) (map chosen case.now)) parameters.now) }
{
    let mut made = Sequence::new(alloc);
    for parameter in parameters {
        let value = argument(alloc, values, case, parameter)?;
        made.push(value)?;
    }
    Ok(made)
}
