//! The declarations of a header.

ghost use Rattle.std.specs.Prelude.{◌≡◌, ◌∷◌, ◌&&◌, [], IfOk, is_none};
ghost use Rattle.name_table.specs.Places.{first_place};
ghost use Rattle.v_flat.specs.Scope.Found.{fine, needs};
ghost use Rattle.v_flat.specs.declared.scope.rule.ElabRule.TheVariants as rule;
ghost use Rattle.v_syntax.specs.SourceTrees.{view_ports};
ghost use Rattle.v_flat.specs.Declarations.{declare_header, declare_ports, find_direction, header_declared, names_checked};
ghost use Rattle.v_header.specs.Heads.{head_in, headed_in};
ghost use Rattle.v_header.specs.Parameter.Constants.{AreConstants};
ghost use Rattle.v_layout.specs.Place.{place_in};

use crate::lines::declare_ports;
use crate::place::Place;
use crate::so_far::DeclaredNames;
use name_table::Names;
use port_io::NoMemory;
use std::alloc::Global;
use std::slice;
use v_flat::scope::{Broken, ElabRule, Found};
use v_header::{Head, HeadedPort, headed_ports};
use v_syntax::{HeaderPorts, Identifier};

/// Declares a port. Only want of memory is an error.
fn declare_port(
    alloc: Global,
    place: &Place<'_>,
    head: Head<'_>,
    name: &Identifier,
    so_far: DeclaredNames,
) -> Result<Found<DeclaredNames>, NoMemory>
    requires { AreConstants place.now.constants.now }
    ensures { IfOk result (λ more. more ≡ declare_ports (place_in place.now) (head_in head.entry) (name.now ∷ []) so_far) }
{
    declare_ports(alloc, place, head, slice::from_ref(name), so_far)
}

/// Declares the ports of a header, each of which is an item. Only want of memory is an error.
fn declare_header(
    alloc: Global,
    place: &Place<'_>,
    ports: &[HeadedPort<'_>],
    so_far: DeclaredNames,
) -> Result<Result<DeclaredNames, Broken>, NoMemory>
    requires { AreConstants place.now.constants.now }
    ensures { IfOk result (λ all. all ≡ declare_header (place_in place.now) (headed_in ports.now) so_far) }
{
    let mut declared = so_far;
    for port in ports {
        match declare_port(alloc, place, port.head, port.name, declared)?.ended() {
            Ok(more) => declared = more,
            Err(fault) => return Ok(Err(fault)),
        }
    }
    Ok(Ok(declared))
}

/// A name of a header that only names its ports didn't stand there before, and has a direction.
fn name_checked(place: &Place<'_>, seen: &Names, name: &Identifier) -> Found<()>
    ensures { result
        ≡ needs (is_none (first_place seen.now name.now.name) && find_direction name.now.name place.now.ports.now) rule.BadPort name.now.at fine }
{
    let bytes = name.name.bytes();
    let is_new = seen.find(bytes).is_none();
    let has_direction = place.has_direction(bytes);
    Found::Sound(()).needs(is_new && has_direction, ElabRule::BadPort, name.at)
}

/// Each name of a header that only names its ports stands there once and has a direction, or else BadPort is broken at it. Only want of
/// memory is an error.
fn names_checked(
    alloc: Global,
    place: &Place<'_>,
    names: &[Identifier],
) -> Result<Result<(), Broken>, NoMemory>
    ensures { IfOk result (λ all. all ≡ names_checked (place_in place.now) [] names.now) }
{
    let mut seen = Names::new(alloc);
    for at in 0..names.len() {
        let name = &names[at];
        match name_checked(place, &seen, name).ended() {
            Ok(()) => seen.note(alloc, name.name.bytes(), at)?,
            Err(fault) => return Ok(Err(fault)),
        }
    }
    Ok(Ok(()))
}

/// Declares what a header does. Only want of memory is an error.
pub(crate) fn declared_by_header(
    alloc: Global,
    place: &Place<'_>,
    ports: &HeaderPorts,
) -> Result<Result<DeclaredNames, Broken>, NoMemory>
    requires { AreConstants place.now.constants.now }
    ensures { IfOk result (λ all. all ≡ header_declared (place_in place.now) (view_ports ports.now)) }
{
    let none = DeclaredNames::none(alloc);
    match ports {
        HeaderPorts::Named(names) => match names_checked(alloc, place, names)? {
            Ok(()) => Ok(Ok(none)),
            Err(fault) => Ok(Err(fault)),
        },
        HeaderPorts::Declared(ports) => {
            let ports = headed_ports(alloc, ports)?;
            declare_header(alloc, place, &ports, none)
        }
    }
}
