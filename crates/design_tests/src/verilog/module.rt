//! Modules.

use crate::verilog::item::{head, names, range};
use crate::verilog::piece::{Piece, Pieces};
use std::alloc::AllocError;
use v_syntax::{HeaderParameter, HeaderPort, HeaderPorts, Module};

/// A parameter of a header: `same` stands where no word `parameter` does.
fn parameter<'a>(
    pieces: &mut Pieces<'a>,
    parameter: &'a HeaderParameter,
) -> Result<(), AllocError> {
    pieces.mark(" (parameter")?;
    match &parameter.head {
        Some(head) => range(pieces, &head.range)?,
        None => pieces.mark(" same")?,
    }
    pieces.name(parameter.name.name.bytes())?;
    pieces.expression(&parameter.value)?;
    pieces.mark(")")
}

/// A port of a header: `same` stands where no direction does.
fn port<'a>(pieces: &mut Pieces<'a>, port: &'a HeaderPort) -> Result<(), AllocError> {
    pieces.mark(" (port")?;
    match &port.head {
        Some(direction) => head(pieces, direction)?,
        None => pieces.mark(" same")?,
    }
    pieces.name(port.name.name.bytes())?;
    pieces.mark(")")
}

/// A module's node, and its parts.
pub fn open_module<'a>(pieces: &mut Pieces<'a>, module: &'a Module) -> Result<(), AllocError> {
    pieces.mark("(module")?;
    pieces.name(module.name.name.bytes())?;
    for one in &module.parameters {
        parameter(pieces, one)?;
    }
    match &module.ports {
        HeaderPorts::Named(list) => {
            pieces.mark(" (ports")?;
            names(pieces, list)?;
            pieces.mark(")")?;
        }
        HeaderPorts::Declared(list) => {
            for one in list {
                port(pieces, one)?;
            }
        }
    }
    for item in &module.items {
        pieces.node(Piece::Item(item))?;
    }
    pieces.mark(")")
}
