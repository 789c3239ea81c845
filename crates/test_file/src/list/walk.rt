//! The tests of a whole file.

ghost use Rattle.std.specs.Prelude.{◌≡◌, ◌++◌, ◌≤◌, ◌∷◌, [], Bool, List, None, Some, IfOk, map, option_copied};
ghost use Rattle.py_syntax.specs.BlockTrees as tree;
ghost use Rattle.py_syntax.specs.BlockTrees.{view_module, view_module_item};
ghost use Rattle.test_meaning.specs.Body.Views.{view_case};
ghost use Rattle.test_file.specs.Cases.Tested.{IsTested};
ghost use Rattle.test_meaning.specs.Factory.Product.{case_count, case_limit};
ghost use Rattle.test_meaning.specs.Cases.{arguments, cases, own_test, test_of};
ghost use Rattle.test_meaning.specs.Rules.File.{Definition, File, file_of, is_test};
ghost use Rattle.test_meaning.specs.Rules.Names.{only_if};
ghost use Rattle.test_meaning.specs.Rules.Rules.{refusal};
ghost use Rattle.test_file.specs.List.SoFar.{AreFew, IsAbove, cases_among, choices_in, file_of_whole, function_at, generated, tests_of};

use crate::cases::{TestedFunction, factory_cases, own_case};
use crate::list::factories::generation_at;
use crate::list::options::factory;
use crate::list::{Above, Generation, Whole};
use port_io::{NoMemory, Sequence};
use py_syntax::{Module, ModuleItem};
use std::alloc::Global;
use test_meaning::body::TestCase;
use test_refusal::items::made_names;
use test_refusal::values::{ModuleValues, literal_places};

/// Whether a function is a test by itself: it is decorated, and no factory is for it.
fn is_test(whole: &Whole<'_, '_>, above: &Above<'_>, function: &TestedFunction<'_>) -> bool
    ensures { (d : Definition) → IsTested d function.now → d.options ≡ option_copied above.now.settings
        → result ≡ is_test (file_of_whole whole.now) d }
{
    above.settings.is_some() && whole.made.find(function.name).is_none()
}

/// Tests with that of a function, if it is one by itself. Only want of memory is an error.
fn with_test(
    alloc: Global,
    whole: &Whole<'_, '_>,
    mut tests: Sequence<TestCase>,
    function: &TestedFunction<'_>,
    is_test: bool,
) -> Result<Sequence<TestCase>, NoMemory>
    ensures { IfOk result (λ more. (d : Definition) → IsTested d function.now
        → map view_case more
        ≡ map view_case tests ++ only_if is_test (test_of (file_of_whole whole.now) d d.name (arguments (file_of_whole whole.now) d []))) }
{
    if is_test {
        let case = own_case(alloc, whole.values, function)?;
        tests.push(case)?;
        Ok(tests)
    } else {
        Ok(tests)
    }
}

/// Tests with that of the function of an item, if it is one by itself. Only want of memory is an error.
fn with_own_test(
    alloc: Global,
    whole: &Whole<'_, '_>,
    above: &Above<'_>,
    tests: Sequence<TestCase>,
    item: &ModuleItem,
) -> Result<Sequence<TestCase>, NoMemory>
    ensures { IfOk result (λ more. map view_case more
        ≡ map view_case tests
        ++ own_test (file_of_whole whole.now) (function_at above.now.count (option_copied above.now.settings) (view_module_item item.now))) }
{
    match above.function_at(item) {
        Some(function) => {
            let is_test = is_test(whole, above, &function);
            with_test(alloc, whole, tests, &function, is_test)
        }
        None => Ok(tests),
    }
}

/// The tests that a factory generates. Only want of memory is an error.
fn generated(
    alloc: Global,
    whole: &Whole<'_, '_>,
    above: &Above<'_>,
    generation: &Generation<'_>,
) -> Result<Vec<TestCase>, NoMemory>
    requires { case_count (choices_in (file_of_whole whole.now) above.now generation.now.factory.now) ≤ case_limit }
    ensures { IfOk result (λ cases. (xs : List tree.ModuleItem) → IsAbove (file_of_whole whole.now) xs above.now
        → map view_case cases.items ≡ tests_of (file_of_whole whole.now) (file_of xs)
        (record { factory = generation.now.factory.now; prefix = generation.now.prefix.now; postfix = generation.now.postfix.now })) }
{
    match above.made_by(generation.factory) {
        Some(function) => {
            let options = above.options.list(generation.factory);
            let factory = factory(alloc, whole.values, options)?;
            factory_cases(
                alloc,
                whole.values,
                function,
                generation.prefix,
                generation.postfix,
                &factory,
            )
        }
        None => Ok(Vec::new(alloc)),
    }
}

/// Values, and others behind them. Only want of memory is an error.
fn joined<T: Drop>(mut values: Sequence<T>, others: Vec<T>) -> Result<Sequence<T>, NoMemory>
    ensures { IfOk result (λ all. all ≡ values ++ others.items) }
{
    for value in others {
        values.push(value)?;
    }
    Ok(values)
}

/// Tests with those that an item generates. Only want of memory is an error.
fn with_generated(
    alloc: Global,
    whole: &Whole<'_, '_>,
    above: &Above<'_>,
    tests: Sequence<TestCase>,
    item: &ModuleItem,
) -> Result<Sequence<TestCase>, NoMemory>
    requires { AreFew (file_of_whole whole.now) above.now (view_module_item item.now) }
    ensures { IfOk result (λ more. (xs : List tree.ModuleItem) → IsAbove (file_of_whole whole.now) xs above.now
        → map view_case more ≡ map view_case tests ++ generated (file_of_whole whole.now) (file_of xs) (view_module_item item.now)) }
{
    match generation_at(item) {
        Some(generation) => {
            let cases = generated(alloc, whole, above, &generation)?;
            joined(tests, cases)
        }
        None => Ok(tests),
    }
}

/// The tests of a whole file. Only want of memory is an error.
fn all_tests(alloc: Global, whole: &Whole<'_, '_>) -> Result<Sequence<TestCase>, NoMemory>
    requires { refusal (file_of_whole whole.now) ≡ None }
    ensures { IfOk result (λ tests. map view_case tests ≡ cases (file_of_whole whole.now)) }
{
    let mut above = Above::nothing(alloc);
    let mut tests = Sequence::new(alloc);
    for item in whole.values.items {
        tests = with_own_test(alloc, whole, &above, tests, item)?;
        tests = with_generated(alloc, whole, &above, tests, item)?;
        above = above.with_item(alloc, item)?;
    }
    Ok(tests)
}

/// The tests of a tests file that breaks no rule, in the order in which they stand: that of a decorated function which no factory is for at the
/// function, and those of a factory where they are generated (cocotb 1.8, `cocotb.test` and `TestFactory`). Only want of memory is an error.
pub fn tests(alloc: Global, file: &Module) -> Result<Sequence<TestCase>, NoMemory>
    requires { refusal (file_of (view_module file.now)) ≡ None }
    ensures { IfOk result (λ tests. map view_case tests ≡ cases (file_of (view_module file.now))) }
{
    let places = literal_places(alloc, &file.items)?;
    let made = made_names(alloc, &file.items)?;
    let values = ModuleValues {
        items: &file.items,
        places: &places,
    };
    let whole = Whole {
        values: &values,
        made: &made,
    };
    all_tests(alloc, &whole)
}
