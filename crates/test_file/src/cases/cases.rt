//! Tests.

ghost use Rattle.std.specs.Prelude.{◌≡◌, IfOk};
ghost use Rattle.test_meaning.specs.Body.Views.{view_case};
ghost use Rattle.test_meaning.specs.Cases.{case_of};

use crate::cases::options::{is_set, kind_of, limit, option_of};
use port_io::{Name, NoMemory, Sequence};
use py_syntax::{Const, Setting};
use std::alloc::Global;
use test_meaning::body::TestCase;
use test_refusal::settings::Values;

/// A test by this name of the function of this number, with these arguments, for which the decorator has these options (cocotb 1.8,
/// `cocotb.test`). Only want of memory is an error.
pub fn test_case<V: Values>(
    alloc: Global,
    values: &V,
    func: u32,
    settings: &[Setting],
    name: Name,
    args: Sequence<Const>,
) -> Result<TestCase, NoMemory>
    ensures { IfOk result (λ case. view_case case ≡ case_of (V.file values.now) func settings.now name args) }
{
    let time = option_of(values, settings, b"timeout_time");
    let unit = option_of(values, settings, b"timeout_unit");
    let time = limit(alloc, time, unit)?;
    Ok(TestCase {
        name,
        func,
        args,
        time,
        expect_fail: is_set(option_of(values, settings, b"expect_fail")),
        expect_error: kind_of(option_of(values, settings, b"expect_error")),
        skip: is_set(option_of(values, settings, b"skip")),
    })
}
