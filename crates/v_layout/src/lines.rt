//! The declarations of an item.

ghost use Rattle.std.specs.Prelude.{◌≡◌, None, Some, IfOk, map, option_map};
ghost use Rattle.v_flat.specs.Scope.Found.{and_then};
ghost use Rattle.v_syntax.specs.SourceTrees.{view_kind, view_net, view_register, view_tail};
ghost use Rattle.v_flat.specs.Declarations.{
  Integer,
  Wire,
  declare,
  declare_all,
  declare_line,
  declare_ports,
  declare_register,
  declare_registers,
  integer_bounds,
  net_identifier,
  sort_of,
};
ghost use Rattle.v_layout.specs.Kept.{named_declared, sort_in};
ghost use Rattle.v_header.specs.Heads.{head_in};
ghost use Rattle.v_header.specs.Parameter.Constants.{AreConstants};
ghost use Rattle.v_layout.specs.Place.{place_in};

use crate::change::{declare, declare_memory};
use crate::details::{Declared, Sort};
use crate::place::Place;
use crate::so_far::DeclaredNames;
use port_io::NoMemory;
use std::alloc::Global;
use v_flat::scope::{Bounds, Found};
use v_header::Head;
use v_syntax::{Identifier, ItemKind, NetDeclarator, PortKind, RegisterDeclarator, RegisterTail};

/// Declares a name behind others. Only want of memory is an error.
fn then_declare(
    alloc: Global,
    place: &Place<'_>,
    name: &Identifier,
    declared: Declared,
    found: Found<DeclaredNames>,
) -> Result<Found<DeclaredNames>, NoMemory>
    requires { AreConstants place.now.constants.now }
    ensures { IfOk result (λ more. more ≡ and_then found (declare (place_in place.now) name.now.at (named_declared name.now.name declared))) }
{
    match found {
        Found::Sound(so_far) => Ok(declare(alloc, place, name, declared, so_far)?),
        Found::Noted(fault, so_far) => {
            Ok(declare(alloc, place, name, declared, so_far)?.noted(fault))
        }
        Found::Lost(fault) => Ok(Found::Lost(fault)),
    }
}

/// Declares names alike. Only want of memory is an error.
fn declare_all(
    alloc: Global,
    place: &Place<'_>,
    declared: Declared,
    names: &[Identifier],
    so_far: DeclaredNames,
) -> Result<Found<DeclaredNames>, NoMemory>
    requires constants { AreConstants place.now.constants.now }
    requires words { declared.words ≡ None }
    ensures { IfOk result
        (λ more. more ≡ declare_all (place_in place.now) declared.direction (option_map sort_in declared.sort) declared.bounds names.now so_far) }
{
    let mut found = Found::Sound(so_far);
    for name in names {
        found = then_declare(alloc, place, name, declared, found)?;
    }
    Ok(found)
}

/// Declares nets. Only want of memory is an error.
fn declare_nets(
    alloc: Global,
    place: &Place<'_>,
    bounds: Bounds,
    nets: &[NetDeclarator],
    so_far: DeclaredNames,
) -> Result<Found<DeclaredNames>, NoMemory>
    requires { AreConstants place.now.constants.now }
    ensures { IfOk result
        (λ more. more ≡ declare_all (place_in place.now) None (Some Wire) bounds (map net_identifier (map view_net nets.now)) so_far) }
{
    let declared = Declared {
        direction: None,
        sort: Some(Sort::Wire),
        bounds,
        words: None,
    };
    let mut found = Found::Sound(so_far);
    for net in nets {
        found = then_declare(alloc, place, &net.name, declared, found)?;
    }
    Ok(found)
}

/// Declares a register or a memory. Only want of memory is an error.
fn declare_register(
    alloc: Global,
    place: &Place<'_>,
    bounds: Bounds,
    register: &RegisterDeclarator,
    so_far: DeclaredNames,
) -> Result<Found<DeclaredNames>, NoMemory>
    requires { AreConstants place.now.constants.now }
    ensures { IfOk result
        (λ more. more ≡ declare_register (place_in place.now) bounds register.now.name (option_map view_tail register.now.tail) so_far) }
{
    match &register.tail {
        Some(RegisterTail::Words(words)) => {
            declare_memory(alloc, place, bounds, &register.name, words, so_far)
        }
        Some(RegisterTail::Value(_)) | None => {
            let declared = Declared {
                direction: None,
                sort: Some(Sort::Reg),
                bounds,
                words: None,
            };
            declare(alloc, place, &register.name, declared, so_far)
        }
    }
}

/// Declares a register or a memory behind others. Only want of memory is an error.
fn then_register(
    alloc: Global,
    place: &Place<'_>,
    bounds: Bounds,
    register: &RegisterDeclarator,
    found: Found<DeclaredNames>,
) -> Result<Found<DeclaredNames>, NoMemory>
    requires { AreConstants place.now.constants.now }
    ensures { IfOk result
        (λ more. more ≡ and_then found (declare_register (place_in place.now) bounds register.now.name (option_map view_tail register.now.tail))) }
{
    match found {
        Found::Sound(so_far) => Ok(declare_register(alloc, place, bounds, register, so_far)?),
        Found::Noted(fault, so_far) => {
            Ok(declare_register(alloc, place, bounds, register, so_far)?.noted(fault))
        }
        Found::Lost(fault) => Ok(Found::Lost(fault)),
    }
}

/// Declares registers and memories. Only want of memory is an error.
fn declare_registers(
    alloc: Global,
    place: &Place<'_>,
    bounds: Bounds,
    registers: &[RegisterDeclarator],
    so_far: DeclaredNames,
) -> Result<Found<DeclaredNames>, NoMemory>
    requires { AreConstants place.now.constants.now }
    ensures { IfOk result (λ more. more ≡ declare_registers (place_in place.now) bounds (map view_register registers.now) so_far) }
{
    let mut found = Found::Sound(so_far);
    for register in registers {
        found = then_register(alloc, place, bounds, register, found)?;
    }
    Ok(found)
}

/// The kind that is written behind a port's direction.
fn sort_of(kind: Option<PortKind>) -> Option<Sort>
    ensures { option_map sort_in result ≡ sort_of kind }
{
    match kind {
        None => None,
        Some(PortKind::Wire) => Some(Sort::Wire),
        Some(PortKind::Reg) => Some(Sort::Reg),
    }
}

/// Declares ports in a range. Only want of memory is an error.
fn ports_in(
    alloc: Global,
    place: &Place<'_>,
    head: Head<'_>,
    bounds: Bounds,
    names: &[Identifier],
    so_far: DeclaredNames,
) -> Result<Found<DeclaredNames>, NoMemory>
    requires { AreConstants place.now.constants.now }
    ensures { IfOk result
        (λ more. more ≡ declare_all (place_in place.now) (Some head.entry.direction) (sort_of head.entry.kind) bounds names.now so_far) }
{
    let declared = Declared {
        direction: Some(head.direction),
        sort: sort_of(head.kind),
        bounds,
        words: None,
    };
    declare_all(alloc, place, declared, names, so_far)
}

/// Declares ports. Only want of memory is an error.
pub(crate) fn declare_ports(
    alloc: Global,
    place: &Place<'_>,
    head: Head<'_>,
    names: &[Identifier],
    so_far: DeclaredNames,
) -> Result<Found<DeclaredNames>, NoMemory>
    requires { AreConstants place.now.constants.now }
    ensures { IfOk result (λ more. more ≡ declare_ports (place_in place.now) (head_in head.entry) names.now so_far) }
{
    match place.vector_bounds(alloc, head.range)? {
        Found::Sound(bounds) => Ok(ports_in(alloc, place, head, bounds, names, so_far)?),
        Found::Noted(fault, bounds) => {
            Ok(ports_in(alloc, place, head, bounds, names, so_far)?.noted(fault))
        }
        Found::Lost(fault) => Ok(Found::Lost(fault)),
    }
}

/// Declares nets in the range that was found. Only want of memory is an error.
fn nets_in(
    alloc: Global,
    place: &Place<'_>,
    range: Found<Bounds>,
    nets: &[NetDeclarator],
    so_far: DeclaredNames,
) -> Result<Found<DeclaredNames>, NoMemory>
    requires { AreConstants place.now.constants.now }
    ensures { IfOk result (λ more. more
        ≡ and_then range (λ b. declare_all (place_in place.now) None (Some Wire) b (map net_identifier (map view_net nets.now)) so_far)) }
{
    match range {
        Found::Sound(bounds) => Ok(declare_nets(alloc, place, bounds, nets, so_far)?),
        Found::Noted(fault, bounds) => {
            Ok(declare_nets(alloc, place, bounds, nets, so_far)?.noted(fault))
        }
        Found::Lost(fault) => Ok(Found::Lost(fault)),
    }
}

/// Declares registers and memories in the range that was found. Only want of memory is an error.
fn registers_in(
    alloc: Global,
    place: &Place<'_>,
    range: Found<Bounds>,
    registers: &[RegisterDeclarator],
    so_far: DeclaredNames,
) -> Result<Found<DeclaredNames>, NoMemory>
    requires { AreConstants place.now.constants.now }
    ensures { IfOk result (λ more. more ≡ and_then range (λ b. declare_registers (place_in place.now) b (map view_register registers.now) so_far)) }
{
    match range {
        Found::Sound(bounds) => Ok(declare_registers(alloc, place, bounds, registers, so_far)?),
        Found::Noted(fault, bounds) => {
            Ok(declare_registers(alloc, place, bounds, registers, so_far)?.noted(fault))
        }
        Found::Lost(fault) => Ok(Found::Lost(fault)),
    }
}

/// Declares what an item does, if it declares nets, registers or memories. Only want of memory is an error.
pub(crate) fn declare_line(
    alloc: Global,
    place: &Place<'_>,
    line: &ItemKind,
    so_far: DeclaredNames,
) -> Result<Found<DeclaredNames>, NoMemory>
    requires { AreConstants place.now.constants.now }
    ensures { IfOk result (λ more. more ≡ declare_line (place_in place.now) (view_kind line.now) so_far) }
{
    match line {
        ItemKind::Ports { head, names } => {
            declare_ports(alloc, place, Head::of(head), names, so_far)
        }
        ItemKind::Nets { range, declarators } => {
            let range = place.vector_bounds(alloc, range.as_ref())?;
            nets_in(alloc, place, range, declarators, so_far)
        }
        ItemKind::Registers { range, declarators } => {
            let range = place.vector_bounds(alloc, range.as_ref())?;
            registers_in(alloc, place, range, declarators, so_far)
        }
        ItemKind::Integers(names) => declare_integers(alloc, place, names, so_far),
        _ => Ok(Found::Sound(so_far)),
    }
}

/// Declares integers: registers of 32 digits, `[31:0]` (IEEE 1364-2005, clause 4.8). Only want of memory is an error.
fn declare_integers(
    alloc: Global,
    place: &Place<'_>,
    names: &[Identifier],
    so_far: DeclaredNames,
) -> Result<Found<DeclaredNames>, NoMemory>
    requires { AreConstants place.now.constants.now }
    ensures { IfOk result (λ more. more ≡ declare_all (place_in place.now) None (Some Integer) integer_bounds names.now so_far) }
{
    let declared = Declared {
        direction: None,
        sort: Some(Sort::Integer),
        bounds: Bounds { left: 31, right: 0 },
        words: None,
    };
    declare_all(alloc, place, declared, names, so_far)
}
