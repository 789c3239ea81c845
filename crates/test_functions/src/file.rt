//! All functions of a file.

ghost use Rattle.std.specs.Prelude.{◌≡◌, ◌++◌, map, IfOk};
ghost use Rattle.py_syntax.specs.BlockTrees.{view_module};
ghost use Rattle.test_meaning.specs.Body.Views.{view_function};
ghost use Rattle.test_functions.specs.Inside.{file_of_whole};
ghost use Rattle.test_meaning.specs.Library.{functions, library};
ghost use Rattle.test_meaning.specs.Rules.File.{file_of};

use crate::clock::clock_start;
use crate::function::function;
use crate::queue::{queue_get, queue_put};
use crate::{Whole, function_numbers};
use port_io::{NoMemory, Sequence};
use py_syntax::{Module, ModuleItem};
use std::alloc::Global;
use test_meaning::body::Function;
use test_names::definitions::{Kind, table};
use test_refusal::values::{ModuleValues, literal_places};

/// These functions with those of the library behind them. Only want of memory is an error.
#[tactic(auto, using(crate::proofs::Ordered::with_three))]
fn with_library(alloc: Global, mut made: Sequence<Function>) -> Result<Sequence<Function>, NoMemory>
    ensures { IfOk result (λ whole. map view_function whole ≡ map view_function made ++ library) }
{
    made.push(clock_start(alloc)?)?;
    made.push(queue_put(alloc)?)?;
    made.push(queue_get(alloc)?)?;
    Ok(made)
}

/// The functions of a module by number, with those of the library behind them. Only want of memory is an error.
fn functions_of(alloc: Global, whole: &Whole<'_, '_>) -> Result<Sequence<Function>, NoMemory>
    ensures { IfOk result (λ made. map view_function made ≡ functions (file_of_whole whole.now)) }
{
    let mut made = Sequence::new(alloc);
    for item in whole.values.items {
        if let ModuleItem::Function {
            parameters,
            body,
            ..
        } = item
        {
            made.push(function(alloc, whole, parameters, body)?)?;
        }
    }
    with_library(alloc, made)
}

/// The functions of a module by number, with those of the library behind them. A module that breaks rules may be given too. Only want of memory is an
/// error.
pub fn functions(alloc: Global, file: &Module) -> Result<Sequence<Function>, NoMemory>
    ensures { IfOk result (λ made. map view_function made ≡ functions (file_of (view_module file.now))) }
{
    let items = &file.items;
    let literals = literal_places(alloc, items)?;
    let places = table(alloc, Kind::Function, items)?;
    let numbers = function_numbers(alloc, items)?;
    let values = ModuleValues {
        items,
        places: &literals,
    };
    let whole = Whole {
        values: &values,
        places: &places,
        numbers: &numbers,
    };
    functions_of(alloc, &whole)
}
