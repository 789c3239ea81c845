//! The options of a decorator.

ghost use Rattle.std.specs.Prelude.{◌≡◌, codes, option_copied, option_map, IfOk};
ghost use Rattle.std.specs.Option.{unwrap_or};
ghost use Rattle.py_syntax.specs.declared.constant.Const.TheVariants.{Text};
ghost use Rattle.test_meaning.specs.Body.Views.{view_limit};
ghost use Rattle.test_meaning.specs.Cases.{is_set, kind_of, limit, option_of};

use port_io::{Name, NoMemory};
use py_syntax::{Const, FaultKind, Setting};
use std::alloc::Global;
use test_meaning::factory::copied;
use test_refusal::settings::{Values, chosen_value};

/// The value of the option of this name; none where it isn't given.
pub(crate) fn option_of<'a, V: Values>(
    values: &'a V,
    settings: &'a [Setting],
    name: &[u8],
) -> Option<&'a Const>
    ensures { option_copied result ≡ option_of (V.file values.now) settings.now name.now }
{
    for setting in settings {
        if setting.name.bytes() == name {
            return Some(chosen_value(values, setting));
        }
    }
    None
}

/// Whether an option is True.
pub(crate) fn is_set(option: Option<&Const>) -> bool
    ensures { result ≡ is_set (option_copied option.entry) }
{
    match option {
        Some(Const::Truth(value)) => *value,
        _ => false,
    }
}

/// The kind of faults that an option names.
pub(crate) fn kind_of(option: Option<&Const>) -> Option<FaultKind>
    ensures { result ≡ kind_of (option_copied option.entry) }
{
    match option {
        Some(Const::Named(name)) => FaultKind::of(name.bytes()),
        _ => None,
    }
}

/// The unit of a limit: a step where none is given. Only want of memory is an error.
fn unit_of(alloc: Global, unit: Option<&Const>) -> Result<Const, NoMemory>
    ensures { IfOk result (λ made. made ≡ unwrap_or (option_copied unit.entry) (Text (codes "step"))) }
{
    match unit {
        Some(unit) => copied(alloc, unit),
        None => Ok(Const::Text(Name::of(alloc, b"step")?)),
    }
}

/// The limit of this time in this unit, if a time is given. Only want of memory is an error.
pub(crate) fn limit(
    alloc: Global,
    time: Option<&Const>,
    unit: Option<&Const>,
) -> Result<Option<(Const, Const)>, NoMemory>
    ensures { IfOk result
        (λ made. option_map view_limit made ≡ limit (option_copied time.entry) (unwrap_or (option_copied unit.entry) (Text (codes "step")))) }
{
    match time {
        Some(time) => {
            let number = copied(alloc, time)?;
            let unit = unit_of(alloc, unit)?;
            Ok(Some((number, unit)))
        }
        None => Ok(None),
    }
}
