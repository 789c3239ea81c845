//! Tables of definitions.

ghost use Rattle.std.specs.Prelude.{◌≡◌, ℕ, List, map, IfOk, OnOk, OnErr};
ghost use Rattle.std.specs.List.{position_from};
ghost use Rattle.py_syntax.specs.BlockTrees.{view_module_item};
ghost use Rattle.name_table.specs.Places.{first_place};
ghost use Rattle.test_meaning.specs.Rules.Names.{is_among};
ghost use Rattle.test_names.specs.Definitions.Definitions.{defined, defines, is_defined};
ghost use Rattle.test_names.specs.Definitions.Notes.{noted_at, noted_if};

use crate::definitions::{Kind, defined, names_of};
use name_table::Names;
use port_io::{Name, NoMemory};
use py_syntax::ModuleItem;
use std::alloc::Global;

/// Notes what an item defines as one of this kind. Only want of memory is an error; then the table is what it was.
fn note(
    alloc: Global,
    kind: Kind,
    names: &mut Names,
    item: &ModuleItem,
    place: usize,
) -> Result<(), NoMemory>
    ensures ok { OnOk result
        ((n : List ℕ) → first_place names.new n ≡ noted_at place n (defined kind (view_module_item item.now)) (first_place names.old n)) }
    ensures err { OnErr result (names.new ≡ names.old) }
{
    match defined(kind, item) {
        Some(name) => names.note(alloc, name, place),
        None => Ok(()),
    }
}

/// For each name the number, from 0, of the first item that defines it as one of this kind. Only want of memory is an error.
pub fn table(alloc: Global, kind: Kind, items: &[ModuleItem]) -> Result<Names, NoMemory>
    ensures { IfOk result (λ names. (n : List ℕ) → first_place names n ≡ position_from (is_defined kind n) 0 (map view_module_item items.now)) }
{
    let mut names = Names::new(alloc);
    for (place, item) in items.iter().enumerate() {
        note(alloc, kind, &mut names, item, place)?;
    }
    Ok(names)
}

/// Gives names this place, each unless it has one. Only want of memory is an error.
fn note_all(alloc: Global, before: Names, found: &[Name], place: usize) -> Result<Names, NoMemory>
    ensures { IfOk result (λ names. (n : List ℕ) → first_place names n ≡ noted_if place (is_among n found.now) (first_place before n)) }
{
    let mut names = before;
    for name in found {
        names.note(alloc, name.bytes(), place)?;
    }
    Ok(names)
}

/// For each name the number, from 0, of the first item that defines it, as whatever. Only want of memory is an error.
pub fn name_table(alloc: Global, items: &[ModuleItem]) -> Result<Names, NoMemory>
    ensures { IfOk result (λ names. (n : List ℕ) → first_place names n ≡ position_from (defines n) 0 (map view_module_item items.now)) }
{
    let mut names = Names::new(alloc);
    for (place, item) in items.iter().enumerate() {
        names = note_all(alloc, names, names_of(item), place)?;
    }
    Ok(names)
}
