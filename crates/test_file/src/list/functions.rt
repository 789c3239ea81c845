//! The functions above a line.

ghost use Rattle.std.specs.Prelude.{◌≡◌, ◌++◌, [], List, Option, IfOk, option_copied};
ghost use Rattle.std.specs.List.{cons_option};
ghost use Rattle.py_syntax.specs.BlockTrees.{view_module_item};
ghost use Rattle.test_meaning.specs.Rules.File.{Definition};
ghost use Rattle.test_file.specs.List.SoFar.{AreFunctions, AreOne, number_behind, settings_at};

use crate::cases::TestedFunction;
use crate::list::Table;
use port_io::NoMemory;
use py_syntax::{ModuleItem, ModuleLine, Setting};
use std::alloc::Global;

/// The options of a decorator; none of another item.
pub(crate) fn settings_at(item: &ModuleItem) -> Option<&[Setting]>
    ensures { option_copied result ≡ settings_at (view_module_item item.now) }
{
    match item {
        ModuleItem::Line { line, .. } => match line {
            ModuleLine::Test(settings) => Some(settings),
            _ => None,
        },
        _ => None,
    }
}

/// The number of the next function below an item, which has the number before where it is one. Memory is wanting where there are more functions
/// than have a number.
pub(crate) fn number_behind(number: u32, item: &ModuleItem) -> Result<u32, NoMemory>
    ensures { IfOk result (λ next. next ≡ number_behind number (view_module_item item.now)) }
{
    match item {
        ModuleItem::Function { .. } => match number.checked_add(1) {
            Some(next) => Ok(next),
            None => Err(NoMemory),
        },
        _ => Ok(number),
    }
}

/// Functions with one more, if there is one, by its name. Only want of memory is an error.
pub(crate) fn with_function<'a>(
    alloc: Global,
    functions: Table<TestedFunction<'a>>,
    function: Option<TestedFunction<'a>>,
) -> Result<Table<TestedFunction<'a>>, NoMemory>
    ensures { IfOk result (λ after. (ds : List Definition) (d : Option Definition) → AreFunctions ds functions.entry
        → AreOne d function.entry → AreFunctions (ds ++ cons_option d []) after) }
{
    match function {
        Some(function) => functions.with(alloc, function.name, function),
        None => Ok(functions),
    }
}
