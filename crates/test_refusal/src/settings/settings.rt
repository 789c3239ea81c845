//! The options of a decorator.

ghost use Rattle.std.specs.Prelude.{◌≡◌, ◌||◌, not, codes, IfOk};
ghost use Rattle.std.specs.List.{list_all};
ghost use Rattle.test_meaning.specs.Rules.Names.{is_among};
ghost use Rattle.test_meaning.specs.Rules.Rules.{are_right_settings, chosen_value, is_right_setting, setting_names};

use crate::settings::Values;
use port_io::NoMemory;
use py_syntax::{Const, Setting};
use std::alloc::Global;
use test_meaning::rules::is_right_value;
use test_names::duplicates::stand_twice;
use test_names::uses::expects_kind;

/// The value of an option: a kind of fault stays a name.
pub fn chosen_value<'a, V: Values>(values: &'a V, setting: &'a Setting) -> &'a Const
    ensures { result.now ≡ chosen_value (V.file values.now) setting.now }
{
    if expects_kind(setting) {
        &setting.value
    } else {
        values.value_of(&setting.value)
    }
}

/// Whether there is such an option, and it takes its value.
fn is_right_setting<V: Values>(values: &V, setting: &Setting) -> bool
    ensures { result ≡ is_right_setting (V.file values.now) setting.now }
{
    is_right_value(setting.name.bytes(), chosen_value(values, setting))
}

/// Whether all options are there, and take their values.
fn are_all_right<V: Values>(values: &V, settings: &[Setting]) -> bool
    ensures { result ≡ list_all (is_right_setting (V.file values.now)) settings.now }
{
    for setting in settings {
        if !is_right_setting(values, setting) {
            return false;
        }
    }
    true
}

/// Whether an option is given.
fn is_given(settings: &[Setting], name: &[u8]) -> bool
    ensures { result ≡ is_among name.now (setting_names settings.now) }
{
    for setting in settings {
        if name == setting.name.bytes() {
            return true;
        }
    }
    false
}

/// Whether there is no unit, or its time.
fn has_time(settings: &[Setting]) -> bool
    ensures { result
        ≡ (is_among (codes "timeout_time") (setting_names settings.now) || not (is_among (codes "timeout_unit") (setting_names settings.now))) }
{
    is_given(settings, b"timeout_time") || !is_given(settings, b"timeout_unit")
}

/// Whether the options of a decorator are right (else BadOption): each is there and takes its value, none is given twice, and a unit has its time
/// (cocotb 1.8, `cocotb.test`). Only want of memory is an error.
pub fn are_right_settings<V: Values>(
    alloc: Global,
    values: &V,
    settings: &[Setting],
) -> Result<bool, NoMemory>
    ensures { IfOk result (λ yes. yes ≡ are_right_settings (V.file values.now) settings.now) }
{
    let repeats = stand_twice(alloc, settings)?;
    Ok(are_all_right(values, settings) && !repeats && has_time(settings))
}
