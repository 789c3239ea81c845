//! The numbers of modules by their names.

ghost use Rattle.std.specs.Prelude.{map, IfOk};
ghost use Rattle.v_syntax.specs.SourceTrees.{view_module};
ghost use Rattle.v_header.specs.Top.Modules.{ChecksModules};

use name_table::Names;
use port_io::NoMemory;
use std::alloc::Global;
use v_flat::scope::{Broken, ElabRule};
use v_syntax::Module;

/// Of each name the number of the module that has it, from 0, in the order of the text. DuplicateName is broken at the second module of a
/// name (IEEE 1364-2005, clause 4.11). Only want of memory is an error.
pub fn module_numbers(alloc: Global, modules: &[Module]) -> Result<Result<Names, Broken>, NoMemory>
    ensures { IfOk result (ChecksModules (map view_module modules.now)) }
{
    let mut numbers = Names::new(alloc);
    for (place, module) in modules.iter().enumerate() {
        let name = &module.name;
        if numbers.find(name.name.bytes()).is_some() {
            return Ok(Err(Broken {
                rule: ElabRule::DuplicateName,
                place: name.at,
            }));
        }
        numbers.note(alloc, name.name.bytes(), place)?;
    }
    Ok(Ok(numbers))
}
