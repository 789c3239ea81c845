//! Tests of functions, and of factories.

ghost use Rattle.std.specs.Prelude.{◌≡◌, ◌<◌, [], Some, List, map, slice_get, IfOk};
ghost use Rattle.test_meaning.specs.Body.Views.{view_case};
ghost use Rattle.test_file.specs.Cases.Tested.{IsTested};
ghost use Rattle.test_meaning.specs.Factory.Product.{Chosen, case_count, product};
ghost use Rattle.test_meaning.specs.Cases.{arguments, numbered, test_of};
ghost use Rattle.test_meaning.specs.Rules.File.{Definition};

use crate::cases::{arguments, case_name, test_case};
use port_io::{Name, NoMemory};
use py_syntax::{Parameter, Setting};
use std::alloc::Global;
use test_meaning::body::TestCase;
use test_meaning::factory::Factory;
use test_refusal::settings::Values;

/// A function of which tests are made.
#[derive(Clone, Copy)]
pub struct TestedFunction<'a> {
    /// Its number, from 0.
    pub number: u32,
    pub name: &'a [u8],
    /// Its parameters after the first.
    pub further: &'a [Parameter],
    /// The options of its decorator; none where it isn't decorated.
    pub settings: &'a [Setting],
}

/// The test that a decorated function is by itself. Only want of memory is an error.
pub fn own_case<V: Values>(
    alloc: Global,
    values: &V,
    function: &TestedFunction<'_>,
) -> Result<TestCase, NoMemory>
    ensures { IfOk result (λ case. (d : Definition) → IsTested d function.now
        → view_case case ≡ test_of (V.file values.now) d d.name (arguments (V.file values.now) d [])) }
{
    let args = arguments(alloc, values, &[], function.further)?;
    let name = Name::of(alloc, function.name)?;
    test_case(
        alloc,
        values,
        function.number,
        function.settings,
        name,
        args,
    )
}

/// The case of this number, from 0, of a factory, by this name. Only want of memory is an error.
fn factory_case<V: Values>(
    alloc: Global,
    values: &V,
    function: &TestedFunction<'_>,
    factory: &Factory,
    number: u32,
    name: Name,
) -> Result<TestCase, NoMemory>
    requires { number < case_count factory.now }
    ensures { IfOk result (λ case. (d : Definition) → IsTested d function.now → (cs : List Chosen) → slice_get (product factory.now) number ≡ Some cs
        → view_case case ≡ test_of (V.file values.now) d name (arguments (V.file values.now) d cs)) }
{
    let case = factory.case(alloc, number)?;
    let args = arguments(alloc, values, &case.values, function.further)?;
    test_case(
        alloc,
        values,
        function.number,
        function.settings,
        name,
        args,
    )
}

/// The cases of a factory of this function, in order, with the names that this prefix and this postfix give (cocotb 1.8,
/// `TestFactory.generate_tests`). Only want of memory is an error.
pub fn factory_cases<V: Values>(
    alloc: Global,
    values: &V,
    function: &TestedFunction<'_>,
    prefix: &Option<Name>,
    postfix: &Option<Name>,
    factory: &Factory,
) -> Result<Vec<TestCase>, NoMemory>
    ensures { IfOk result (λ cases. (d : Definition) → IsTested d function.now
        → map view_case cases.items ≡ numbered (V.file values.now) d prefix.now postfix.now 1 (product factory.now)) }
{
    let mut cases = Vec::new(alloc);
    for number in 0..factory.case_count() {
        let name = case_name(alloc, prefix, function.name, postfix, number + 1)?;
        let case = factory_case(alloc, values, function, factory, number, name)?;
        cases.push(case)?;
    }
    Ok(cases)
}
