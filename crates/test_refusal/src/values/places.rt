//! The places of literals.

ghost use Rattle.std.specs.Prelude.{◌≡◌, List, ℕ, map, IfOk};
ghost use Rattle.py_syntax.specs.BlockTrees.{view_module_item};
ghost use Rattle.name_table.specs.Places.{first_place};
ghost use Rattle.test_refusal.specs.Values.Literals.{AreLiteralPlaces};
ghost use Rattle.test_refusal.specs.Values.Notes.{noted_constant, place_of};

use name_table::Names;
use port_io::NoMemory;
use py_syntax::{Const, ModuleItem, ModuleLine};
use std::alloc::Global;

/// The place of the literal that a constant stands for, which is defined at `place`.
fn place_of(places: &Names, constant: &Const, place: usize) -> usize
    ensures { result ≡ place_of (first_place places.now) constant.now place }
{
    match constant {
        Const::Named(name) => places.find(name.bytes()).unwrap_or(place),
        _ => place,
    }
}

/// Notes of the name that an item defines as a constant, unless it was noted, the place of the literal that it stands for. Only want of
/// memory is an error.
fn note(
    alloc: Global,
    mut places: Names,
    item: &ModuleItem,
    place: usize,
) -> Result<Names, NoMemory>
    ensures { IfOk result (λ more. (n : List ℕ) → first_place more n ≡ noted_constant (view_module_item item.now) place (first_place places) n) }
{
    match item {
        ModuleItem::Line { line, .. } => match line {
            ModuleLine::Constant(name, constant) => {
                let source = place_of(&places, constant, place);
                places.note(alloc, name.bytes(), source)?;
                Ok(places)
            }
            _ => Ok(places),
        },
        _ => Ok(places),
    }
}

/// Of each constant of a module the place of the item whose literal it stands for (the language reference, 4.2.1 and 7.2): the first line
/// that defines a name counts. Only want of memory is an error.
pub fn literal_places(alloc: Global, items: &[ModuleItem]) -> Result<Names, NoMemory>
    ensures { IfOk result (λ places. AreLiteralPlaces (map view_module_item items.now) places) }
{
    let mut places = Names::new(alloc);
    for (place, item) in items.iter().enumerate() {
        places = note(alloc, places, item, place)?;
    }
    Ok(places)
}
