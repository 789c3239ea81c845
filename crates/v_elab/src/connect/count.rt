//! How many assignments connections make.

ghost use Rattle.std.specs.Prelude.{◌≡◌, ◌≤◌, [], Some, IfOk, map, option_map};
ghost use Rattle.std.specs.Borrow.{Bor};
ghost use Rattle.v_syntax.specs.declared.item.Connections as connections_data;
ghost use Rattle.v_syntax.specs.ExpressionTrees.{view};
ghost use Rattle.v_syntax.specs.SourceTrees.{view_connection, view_connections};
ghost use Rattle.v_flat.specs.Design.{joint_count, joint_made, named_count, named_made, ordered_count};
ghost use Rattle.v_header.specs.Ports.{port_in};
ghost use Rattle.v_elab.specs.Connect.Found.{value_in};

use crate::connect::named::unseen_port;
use name_table::Names;
use port_io::NoMemory;
use std::alloc::Global;
use v_header::{Port, Ports};
use v_process::outputs::spells_target;
use v_syntax::{Connections, Direction, Expression, NamedConnection};

/// How many assignments it makes that a port of this direction is connected to an expression: none where an output is to what is no target.
fn made_to(direction: Option<Direction>, expression: &Expression) -> usize
    ensures is { result ≡ joint_made direction (view expression.now) }
    ensures few { result ≤ 1 }
{
    match direction {
        Some(Direction::Output) => usize::from(spells_target(expression)),
        Some(Direction::Input) => 1,
        None => 1,
    }
}

/// How many assignments a connection makes: none where there is no port, or nothing that it is joined to.
fn made(port: Option<Port<'_>>, value: Option<&Expression>) -> usize
    ensures is { result ≡ named_made (option_map port_in port.entry) (value_in value.entry) }
    ensures few { result ≤ 1 }
{
    match port {
        Some(port) => match value {
            Some(value) => made_to(port.direction, value),
            None => 0,
        },
        None => 0,
    }
}

/// How many assignments connections in the order of the ports make.
fn ordered_count(values: &[Expression], ports: &Ports) -> usize
    ensures { result ≡ ordered_count (map view values.now) ports.now }
{
    let mut count = 0;
    for at in 0..values.len() {
        count += made(ports.get(at), Some(&values[at]));
    }
    count
}

/// How many assignments connections with the names of ports make. Only want of memory is an error.
fn named_count(
    alloc: Global,
    connections: &[NamedConnection],
    ports: &Ports,
) -> Result<usize, NoMemory>
    ensures { IfOk result (λ count. count ≡ named_count ports.now [] (map view_connection connections.now)) }
{
    let mut seen = Names::new(alloc);
    let mut count = 0;
    for at in 0..connections.len() {
        let named = &connections[at];
        let name = named.port.name.bytes();
        count += made(unseen_port(ports, &seen, name), named.value.as_ref());
        seen.note(alloc, name, at)?;
    }
    Ok(count)
}

/// How many assignments the connections of an instance make (IEEE 1364-2005, clause 12.3.9): one for each port that is connected, but for
/// an output that is connected to what is no target. Only want of memory is an error.
pub fn joint_count(
    alloc: Global,
    connections: Option<&Connections>,
    ports: &Ports,
) -> Result<usize, NoMemory>
    ensures { IfOk result
        (λ count. count ≡ joint_count (option_map (λ (c : Bor connections_data.Connections). view_connections c.now) connections.entry) ports.now) }
{
    match connections {
        None => Ok(0),
        Some(Connections::Ordered(values)) => Ok(ordered_count(values, ports)),
        Some(Connections::Named(connections)) => named_count(alloc, connections, ports),
    }
}
