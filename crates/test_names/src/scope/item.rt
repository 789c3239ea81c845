//! The parameters of an item.

ghost use Rattle.std.specs.Prelude.{◌≡◌, map, slice_get, option_copied};
ghost use Rattle.std.specs.Option.{option_map};
ghost use Rattle.py_syntax.specs.BlockTrees.{view_module_item};
ghost use Rattle.test_meaning.specs.Rules.File.{parameters_of};

use py_syntax::{ModuleItem, Parameter};

/// The parameters of a function; none of another item.
fn parameters_of(item: &ModuleItem) -> &[Parameter]
    ensures { result.now ≡ parameters_of (view_module_item item.now) }
{
    match item {
        ModuleItem::Function { parameters, .. } => parameters,
        _ => &[],
    }
}

/// The parameters of the item with this number, if there is one.
pub fn parameters_at(items: &[ModuleItem], number: usize) -> Option<&[Parameter]>
    ensures { option_copied result ≡ option_map parameters_of (slice_get (map view_module_item items.now) number) }
{
    let item = items.get(number)?;
    Some(parameters_of(item))
}
