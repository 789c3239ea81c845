//! The declared names, ports first.
//!
//! After want of memory a list that was being filled is dropped, so no clause speaks of what it then holds.

ghost use Rattle.std.specs.Prelude.{◌≡◌, ◌++◌, ◌∷◌, [], Some, map, option_map, slice_get, IfOk, OnOk};
ghost use Rattle.v_flat.specs.Headers.{Port, port_name};
ghost use Rattle.v_flat.specs.Declarations.{Declared, find_declared, in_order, listed, other_lines, port_lines};
ghost use Rattle.v_layout.specs.Order.{line_in, lines_in};

use crate::details::Line;
use crate::so_far::DeclaredNames;
use port_io::NoMemory;
use std::alloc::Global;
use v_header::Ports;

/// What is declared of the port at a place in the header; none where nothing is.
fn port_line<'a>(ports: &'a Ports, declared: &DeclaredNames, index: usize) -> Option<Line<'a>>
    ensures { (p : Port) → slice_get ports.now index ≡ Some p → option_map line_in result ≡ find_declared p.name declared.now }
{
    match ports.get(index) {
        Some(port) => match declared.find(port.name) {
            Some(declared) => Some(Line {
                name: port.name,
                declared,
            }),
            None => None,
        },
        None => None,
    }
}

/// Adds the declared ports, in the order of the header. Only want of memory is an error.
fn add_ports<'a>(
    lines: &mut Vec<Line<'a>>,
    ports: &'a Ports,
    declared: &DeclaredNames,
) -> Result<(), NoMemory>
    ensures { OnOk result (lines_in lines.new.items ≡ lines_in lines.old.items ++ port_lines ports.now declared.now) }
{
    for index in 0..ports.len() {
        if let Some(line) = port_line(ports, declared, index) {
            lines.push(line)?;
        }
    }
    Ok(())
}

/// The declared name at a place, unless it is that of a port.
fn other_line<'a>(ports: &Ports, declared: &'a DeclaredNames, index: usize) -> Option<Line<'a>>
    ensures { (d : Declared) → slice_get declared.now index ≡ Some d
        → listed (option_map line_in result) ≡ other_lines (map port_name ports.now) (d ∷ []) }
{
    match declared.get(index) {
        Some(line) => {
            if ports.contains(line.name) {
                None
            } else {
                Some(line)
            }
        }
        None => None,
    }
}

/// Adds the declared names that are no ports, in the order of their first declarations. Only want of memory is an error.
fn add_others<'a>(
    lines: &mut Vec<Line<'a>>,
    ports: &Ports,
    declared: &'a DeclaredNames,
) -> Result<(), NoMemory>
    ensures { OnOk result (lines_in lines.new.items ≡ lines_in lines.old.items ++ other_lines (map port_name ports.now) declared.now) }
{
    for index in 0..declared.len() {
        if let Some(line) = other_line(ports, declared, index) {
            lines.push(line)?;
        }
    }
    Ok(())
}

/// What is declared in an instance: the ports in the order of the header (IEEE 1364-2005, clause 12.3), then the other names in the order
/// of their first declarations. A port that nothing declares isn't listed. Only want of memory is an error.
pub fn in_order<'a>(
    alloc: Global,
    ports: &'a Ports,
    declared: &'a DeclaredNames,
) -> Result<Vec<Line<'a>>, NoMemory>
    ensures { IfOk result (λ lines. lines_in lines.items ≡ in_order ports.now declared.now) }
{
    let mut lines = Vec::new(alloc);
    add_ports(&mut lines, ports, declared)?;
    add_others(&mut lines, ports, declared)?;
    Ok(lines)
}
