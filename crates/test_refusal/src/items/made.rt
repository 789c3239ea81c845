//! For which functions there are factories.

ghost use Rattle.std.specs.Prelude.{◌≡◌, ◌||◌, List, map, is_some, option_copied, IfOk};
ghost use Rattle.std.specs.Option.{option_map};
ghost use Rattle.py_syntax.specs.BlockTrees.{view_module_item};
ghost use Rattle.name_table.specs.Places.{first_place};
ghost use Rattle.test_meaning.specs.Rules.File.{factory_of, file_of, is_made_name};
ghost use Rattle.test_meaning.specs.Rules.Names.{Name};
ghost use Rattle.test_refusal.specs.Items.Functions.{makes};

use name_table::Names;
use port_io::NoMemory;
use py_syntax::{ModuleItem, ModuleLine};
use std::alloc::Global;

/// The function that an item makes a factory for.
pub fn made_at(item: &ModuleItem) -> Option<&[u8]>
    ensures { option_copied result ≡ option_map (λ x. x.function) (factory_of (view_module_item item.now)) }
{
    match item {
        ModuleItem::Line { line, .. } => match line {
            ModuleLine::Factory(_, function) => Some(function.bytes()),
            _ => None,
        },
        _ => None,
    }
}

/// These names with that of the function which an item makes a factory for. Only want of memory is an error.
fn with_made(alloc: Global, before: Names, item: &ModuleItem) -> Result<Names, NoMemory>
    ensures { IfOk result
        (λ after. (n : Name) → is_some (first_place after n) ≡ (is_some (first_place before n) || makes n (view_module_item item.now))) }
{
    match made_at(item) {
        Some(function) => {
            let mut names = before;
            names.note(alloc, function, 0)?;
            Ok(names)
        }
        None => Ok(before),
    }
}

/// The names of the functions that a module's factories are for, which may stand anywhere. Their places say nothing. Only want of memory is an
/// error.
pub fn made_names(alloc: Global, items: &[ModuleItem]) -> Result<Names, NoMemory>
    ensures { IfOk result (λ names. (n : Name) → is_some (first_place names n) ≡ is_made_name (file_of (map view_module_item items.now)) n) }
{
    let mut names = Names::new(alloc);
    for item in items {
        names = with_made(alloc, names, item)?;
    }
    Ok(names)
}
