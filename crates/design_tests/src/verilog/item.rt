//! Module items.

use crate::verilog::piece::{Piece, Pieces};
use std::alloc::AllocError;
use v_syntax::{
    Connections, ContinuousAssignment, Direction, Edge, EventControl, Identifier, Item, ItemKind,
    NetDeclarator, ParameterAssignment, ParameterKind, PortHead, PortKind, Range,
    RegisterDeclarator, RegisterTail,
};

/// A range, or `-` where there is none.
pub fn range<'a>(pieces: &mut Pieces<'a>, range: &'a Option<Range>) -> Result<(), AllocError> {
    match range {
        Some(range) => {
            pieces.mark(" (range")?;
            pieces.expression(&range.left)?;
            pieces.expression(&range.right)?;
            pieces.mark(")")
        }
        None => pieces.mark(" -"),
    }
}

/// A direction, a kind or `-`, and a range.
pub fn head<'a>(pieces: &mut Pieces<'a>, head: &'a PortHead) -> Result<(), AllocError> {
    pieces.mark(match head.direction {
        Direction::Input => " (input",
        Direction::Output => " (output",
    })?;
    pieces.mark(match head.kind {
        Some(PortKind::Wire) => " wire",
        Some(PortKind::Reg) => " reg",
        None => " -",
    })?;
    range(pieces, &head.range)?;
    pieces.mark(")")
}

/// Names, each behind a space.
pub fn names<'a>(pieces: &mut Pieces<'a>, names: &'a [Identifier]) -> Result<(), AllocError> {
    for name in names {
        pieces.name(name.name.bytes())?;
    }
    Ok(())
}

/// Wires with their values.
fn nets<'a>(pieces: &mut Pieces<'a>, nets: &'a [NetDeclarator]) -> Result<(), AllocError> {
    for net in nets {
        pieces.mark(" (net")?;
        pieces.name(net.name.name.bytes())?;
        pieces.maybe(&net.value)?;
        pieces.mark(")")?;
    }
    Ok(())
}

/// A register with the words or the value behind its name.
fn register<'a>(
    pieces: &mut Pieces<'a>,
    register: &'a RegisterDeclarator,
) -> Result<(), AllocError> {
    pieces.mark(" (register")?;
    pieces.name(register.name.name.bytes())?;
    match &register.tail {
        None => {}
        Some(RegisterTail::Value(value)) => pieces.expression(value)?,
        Some(RegisterTail::Words(words)) => {
            pieces.mark(" (words")?;
            pieces.expression(&words.left)?;
            pieces.expression(&words.right)?;
            pieces.mark(")")?;
        }
    }
    pieces.mark(")")
}

/// Parameters with their values.
fn parameters<'a>(
    pieces: &mut Pieces<'a>,
    assignments: &'a [ParameterAssignment],
) -> Result<(), AllocError> {
    for assignment in assignments {
        pieces.mark(" (set")?;
        pieces.name(assignment.name.name.bytes())?;
        pieces.expression(&assignment.value)?;
        pieces.mark(")")?;
    }
    Ok(())
}

/// Targets with their values.
fn assignments<'a>(
    pieces: &mut Pieces<'a>,
    assignments: &'a [ContinuousAssignment],
) -> Result<(), AllocError> {
    for assignment in assignments {
        pieces.mark(" (=")?;
        pieces.node(Piece::Target(&assignment.target))?;
        pieces.expression(&assignment.value)?;
        pieces.mark(")")?;
    }
    Ok(())
}

/// What an `always` waits for.
fn events<'a>(pieces: &mut Pieces<'a>, events: &'a EventControl) -> Result<(), AllocError> {
    match events {
        EventControl::Implicit => pieces.mark(" *"),
        EventControl::Events(events) => {
            for event in events {
                pieces.mark(match event.edge {
                    Some(Edge::Positive) => " (posedge",
                    Some(Edge::Negative) => " (negedge",
                    None => " (change",
                })?;
                pieces.name(event.name.name.bytes())?;
                pieces.mark(")")?;
            }
            Ok(())
        }
    }
}

/// Connections in order or by name, or `-` where there are none.
fn connections<'a>(
    pieces: &mut Pieces<'a>,
    connections: &'a Option<Connections>,
) -> Result<(), AllocError> {
    match connections {
        None => return pieces.mark(" -"),
        Some(Connections::Ordered(values)) => {
            pieces.mark(" (ordered")?;
            pieces.expressions(values)?;
        }
        Some(Connections::Named(list)) => {
            pieces.mark(" (named")?;
            for connection in list {
                pieces.mark(" (connect")?;
                pieces.name(connection.port.name.bytes())?;
                pieces.maybe(&connection.value)?;
                pieces.mark(")")?;
            }
        }
    }
    pieces.mark(")")
}

/// A declaration with a range: of nets, registers or parameters.
fn declared<'a>(pieces: &mut Pieces<'a>, kind: &'a ItemKind) -> Result<(), AllocError> {
    match kind {
        ItemKind::Nets {
            range: width,
            declarators,
        } => {
            pieces.mark("(wire")?;
            range(pieces, width)?;
            nets(pieces, declarators)
        }
        ItemKind::Registers {
            range: width,
            declarators,
        } => {
            pieces.mark("(reg")?;
            range(pieces, width)?;
            for declarator in declarators {
                register(pieces, declarator)?;
            }
            Ok(())
        }
        ItemKind::Parameters {
            kind,
            range: width,
            assignments: list,
        } => {
            pieces.mark(match kind {
                ParameterKind::Parameter => "(parameter",
                ParameterKind::LocalParam => "(localparam",
            })?;
            range(pieces, width)?;
            parameters(pieces, list)
        }
        _ => Ok(()),
    }
}

/// An instance with its parameters and its ports.
fn instance<'a>(
    pieces: &mut Pieces<'a>,
    module: &'a Identifier,
    parameters: &'a Option<Connections>,
    name: &'a Identifier,
    ports: &'a Option<Connections>,
) -> Result<(), AllocError> {
    pieces.mark("(instance")?;
    pieces.name(module.name.bytes())?;
    pieces.name(name.name.bytes())?;
    connections(pieces, parameters)?;
    connections(pieces, ports)
}

/// An item's node, and its parts.
pub fn open_item<'a>(pieces: &mut Pieces<'a>, item: &'a Item) -> Result<(), AllocError> {
    match &item.kind {
        ItemKind::Ports {
            head: direction,
            names: list,
        } => {
            pieces.mark("(ports")?;
            head(pieces, direction)?;
            names(pieces, list)?;
        }
        ItemKind::Integers(list) => {
            pieces.mark("(integer")?;
            names(pieces, list)?;
        }
        ItemKind::ContinuousAssignments(list) => {
            pieces.mark("(assign")?;
            assignments(pieces, list)?;
        }
        ItemKind::Always {
            events: control,
            statement,
        } => {
            pieces.mark("(always")?;
            events(pieces, control)?;
            pieces.node(Piece::Statement(statement))?;
        }
        ItemKind::Initial(statement) => {
            pieces.mark("(initial")?;
            pieces.node(Piece::Statement(statement))?;
        }
        ItemKind::Instance {
            module,
            parameters: values,
            name,
            ports,
        } => instance(pieces, module, values, name, ports)?,
        other => declared(pieces, other)?,
    }
    pieces.mark(")")
}
