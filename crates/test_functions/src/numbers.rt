//! The numbers of functions.

ghost use Rattle.std.specs.Prelude.{◌≡◌, map, IfOk};
ghost use Rattle.py_syntax.specs.BlockTrees.{view_module_item};
ghost use Rattle.test_functions.specs.Numbers.{AreFunctionNumbers};

use name_table::Names;
use port_io::NoMemory;
use py_syntax::ModuleItem;
use std::alloc::Global;
use test_names::definitions::{Kind, defined};

/// The functions of a module by number, from 0.
#[derive(Drop)]
pub struct FunctionNumbers {
    /// The number of each function by its name, of two of one name that of the first.
    pub numbers: Names,
    /// How many there are. `Clock.start` has this number.
    pub count: usize,
}

/// The numbers of the functions of a module: each has its place among them. Only want of memory is an error.
#[tactic(auto, using(crate::proofs::Ordered::here, crate::proofs::Ordered::one_more))]
pub fn function_numbers(alloc: Global, items: &[ModuleItem]) -> Result<FunctionNumbers, NoMemory>
    ensures { IfOk result (AreFunctionNumbers (map view_module_item items.now)) }
{
    let mut numbers = Names::new(alloc);
    let mut count = 0;
    for item in items {
        if let Some(name) = defined(Kind::Function, item) {
            numbers.note(alloc, name, count)?;
            count += 1;
        }
    }
    Ok(FunctionNumbers { numbers, count })
}
