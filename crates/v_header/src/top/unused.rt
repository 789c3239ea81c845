//! The module that no module instantiates.

ghost use Rattle.std.specs.Prelude.{◌≡◌, ◌∷◌, [], ℕ, List, map, IfOk, OnOk};
ghost use Rattle.v_syntax.specs.SourceTrees.{view_item, view_module};
ghost use Rattle.v_flat.specs.Design.{instance_names, only, unused, used_modules};
ghost use Rattle.v_header.specs.Top.Modules.{AddsNames, AreNames};
ghost use Rattle.v_header.specs.Top.Found.{module_in};

use name_table::Names;
use port_io::NoMemory;
use std::alloc::Global;
use v_syntax::{Item, ItemKind, Module};

/// Adds the name of the module that an item instantiates, if it is an instance. Only want of memory is an error.
fn add_instance(alloc: Global, names: &mut Names, item: &Item) -> Result<(), NoMemory>
    ensures { OnOk result (AddsNames names.old names.new (instance_names (view_item item.now ∷ []))) }
{
    match &item.kind {
        ItemKind::Instance { module, .. } => names.note(alloc, module.name.bytes(), 0),
        _ => Ok(()),
    }
}

/// Adds the names of the modules that items instantiate. Only want of memory is an error.
fn add_instances(alloc: Global, names: &mut Names, items: &[Item]) -> Result<(), NoMemory>
    ensures { OnOk result (AddsNames names.old names.new (instance_names (map view_item items.now))) }
{
    for item in items {
        add_instance(alloc, names, item)?;
    }
    Ok(())
}

/// The names of the modules that modules instantiate (IEEE 1364-2005, clause 12.1.2). Only want of memory is an error.
pub(crate) fn used_modules(alloc: Global, modules: &[Module]) -> Result<Names, NoMemory>
    ensures { IfOk result (AreNames (used_modules (map view_module modules.now))) }
{
    let mut names = Names::new(alloc);
    for module in modules {
        add_instances(alloc, &mut names, &module.items)?;
    }
    Ok(names)
}

/// The module that has none of these names; none where there is not exactly one.
pub(crate) fn only_unused<'a>(modules: &'a [Module], names: &Names) -> Option<&'a Module>
    ensures { (ns : List (List ℕ)) → AreNames ns names.now → module_in result ≡ only (unused ns (map view_module modules.now)) }
{
    let mut found = None;
    for module in modules {
        if names.find(module.name.name.bytes()).is_none() {
            if found.is_some() {
                return None;
            }
            found = Some(module);
        }
    }
    found
}
