//! Items that define a name twice.

ghost use Rattle.std.specs.Prelude.{◌≡◌, [], List, IfOk};
ghost use Rattle.std.specs.List.{flat_map};
ghost use Rattle.py_syntax.specs.BlockTrees as tree;
ghost use Rattle.py_syntax.specs.BlockTrees.{view_module_item};
ghost use Rattle.test_meaning.specs.Rules.File.{names_of, parameters_of};
ghost use Rattle.test_meaning.specs.Rules.Names.{come_twice};
ghost use Rattle.test_meaning.specs.Rules.Uses.{parameter_names};
ghost use Rattle.test_names.specs.Duplicates.Twice.{AreNames, IsBelow};

use crate::definitions::names_of;
use crate::duplicates::{stand_twice, with_all};
use name_table::Names;
use port_io::NoMemory;
use py_syntax::ModuleItem;
use std::alloc::Global;

/// Whether an item is a function, two parameters of which have one name. Only want of memory is an error.
fn repeats_a_parameter(alloc: Global, item: &ModuleItem) -> Result<bool, NoMemory>
    ensures { IfOk result (λ yes. yes ≡ come_twice [] (parameter_names (parameters_of (view_module_item item.now)))) }
{
    match item {
        ModuleItem::Function { parameters, .. } => stand_twice(alloc, parameters),
        _ => Ok(false),
    }
}

/// The names that the items above define, with those of an item; none where the item breaks DuplicateName: where it defines a name that an item
/// above or the item itself before has defined, or two of its parameters have one name. Only want of memory is an error.
pub fn with_item(alloc: Global, above: Names, item: &ModuleItem) -> Result<Option<Names>, NoMemory>
    ensures { IfOk result
        (λ names. (xs : List tree.ModuleItem) → AreNames (flat_map names_of xs) above → IsBelow xs (view_module_item item.now) names) }
{
    if repeats_a_parameter(alloc, item)? {
        return Ok(None);
    }
    with_all(alloc, above, names_of(item))
}
