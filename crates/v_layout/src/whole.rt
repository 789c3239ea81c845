//! All declarations of an instance.

ghost use Rattle.std.specs.Prelude.{◌≡◌, IfOk, map};
ghost use Rattle.v_syntax.specs.SourceTrees.{view_item, view_module};
ghost use Rattle.v_flat.specs.Declarations.{declare_lines};
ghost use Rattle.v_header.specs.Parameter.Constants.{AreConstants};
ghost use Rattle.v_layout.specs.Place.{AreDeclarations, place_in};

use crate::header::declared_by_header;
use crate::lines::declare_line;
use crate::place::Place;
use crate::so_far::DeclaredNames;
use port_io::NoMemory;
use std::alloc::Global;
use v_flat::scope::Broken;
use v_syntax::{Item, Module};

/// Declares what items do. Only want of memory is an error.
fn declare_lines(
    alloc: Global,
    place: &Place<'_>,
    items: &[Item],
    so_far: DeclaredNames,
) -> Result<Result<DeclaredNames, Broken>, NoMemory>
    requires { AreConstants place.now.constants.now }
    ensures { IfOk result (λ all. all ≡ declare_lines (place_in place.now) (map view_item items.now) so_far) }
{
    let mut declared = so_far;
    for item in items {
        match declare_line(alloc, place, &item.kind, declared)?.ended() {
            Ok(more) => declared = more,
            Err(fault) => return Ok(Err(fault)),
        }
    }
    Ok(Ok(declared))
}

/// What each name is declared to be in an instance of a module (IEEE 1364-2005, clauses 4.2, 4.8, 4.9 and 12.3.3), in the order of first
/// declarations, or the rule that is broken first: in the first item in which one is broken, where each port of a header that declares it
/// is an item before all others, and in it the one at the least token. Only want of memory is an error.
pub fn declarations(
    alloc: Global,
    place: &Place<'_>,
    module: &Module,
) -> Result<Result<DeclaredNames, Broken>, NoMemory>
    requires { AreConstants place.now.constants.now }
    ensures { IfOk result (AreDeclarations place.now (view_module «module».now)) }
{
    match declared_by_header(alloc, place, &module.ports)? {
        Ok(declared) => declare_lines(alloc, place, &module.items, declared),
        Err(fault) => Ok(Err(fault)),
    }
}
