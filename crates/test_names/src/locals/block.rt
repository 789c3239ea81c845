//! The names that a block assigns.

ghost use Rattle.std.specs.Prelude.{◌≡◌, List, IfOk};
ghost use Rattle.std.specs.List.{position_from};
ghost use Rattle.std.specs.Str.{bytes_eq};
ghost use Rattle.py_syntax.specs.BlockTrees.{block_of, view_item};
ghost use Rattle.name_table.specs.Places.{first_place};
ghost use Rattle.test_meaning.specs.Rules.Names.{Name};
ghost use Rattle.test_meaning.specs.Rules.Uses.{assigned_at, assigned_in, own_names};
ghost use Rattle.test_names.specs.Locals.Own.{AreNumbered, with_names};

use crate::locals::assigned::{assigned_by, named_by};
use crate::locals::numbered::{Numbered, add_all, of_parameters};
use name_table::Names;
use port_io::NoMemory;
use py_syntax::{BlockItem, Parameter};
use std::alloc::Global;

/// Gives the names that an item of a block assigns the next places, each unless it has one. Only want of memory is an error.
#[cycle(blocks)]
fn add_item(alloc: Global, before: Numbered, item: &BlockItem) -> Result<Numbered, NoMemory>
    ensures { IfOk result (λ after. (ns : List Name) → AreNumbered ns before → AreNumbered (with_names ns (assigned_at (view_item item.now))) after) }
{
    match item {
        BlockItem::Docstring { .. } => Ok(before),
        BlockItem::Statement { statement, .. } => add_all(alloc, before, assigned_by(statement)),
        BlockItem::Clause { header, block, .. } => {
            let names = add_all(alloc, before, named_by(header))?;
            add_block(alloc, names, block)
        }
    }
}

/// Gives the names that a block assigns the next places, each unless it has one. Only want of memory is an error.
#[cycle(blocks)]
fn add_block(alloc: Global, before: Numbered, block: &[BlockItem]) -> Result<Numbered, NoMemory>
    ensures { IfOk result (λ after. (ns : List Name) → AreNumbered ns before → AreNumbered (with_names ns (assigned_in (block_of block.now))) after) }
{
    let mut names = before;
    for item in block {
        names = add_item(alloc, names, item)?;
    }
    Ok(names)
}

/// The names of a function's own, each in its place: parameters first, then what the block assigns, in order of first assignment (the language
/// reference, 4.2.1). Of two parameters of one name both have a place, and the first counts. Only want of memory is an error.
pub fn own_names(
    alloc: Global,
    parameters: &[Parameter],
    block: &[BlockItem],
) -> Result<Numbered, NoMemory>
    ensures { IfOk result (AreNumbered (own_names parameters.now (block_of block.now))) }
{
    let before = of_parameters(alloc, parameters)?;
    add_block(alloc, before, block)
}

/// The place that each name of a function's own has among them, of two the first. Only want of memory is an error.
pub fn locals(
    alloc: Global,
    parameters: &[Parameter],
    block: &[BlockItem],
) -> Result<Names, NoMemory>
    ensures { IfOk result (λ names. (n : Name) → first_place names n ≡ position_from (bytes_eq n) 0 (own_names parameters.now (block_of block.now))) }
{
    let own = own_names(alloc, parameters, block)?;
    Ok(own.places)
}
