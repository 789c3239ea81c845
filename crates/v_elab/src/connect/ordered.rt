//! Connections in the order of the ports.

ghost use Rattle.std.specs.Prelude.{IfOk, map};
ghost use Rattle.v_syntax.specs.ExpressionTrees.{view};
ghost use Rattle.v_flat.specs.Scope.Scope.{means};
ghost use Rattle.v_check.specs.Names.Proper.{AreProper};
ghost use Rattle.v_process.specs.Assign.Continuous.{KeepsOrGrows};
ghost use Rattle.v_elab.specs.Connect.Joints.{AreInOrder};

use crate::connect::Joints;
use crate::connect::connection::{Connection, then_connect, together};
use port_io::NoMemory;
use std::alloc::Global;
use v_flat::scope::{Found, Scope};
use v_header::Ports;
use v_process::drive::DrivenDigits;
use v_syntax::Expression;

/// What is found in connections that stand in the order of the ports. Only want of memory is an error. Whatever the answer, those digits
/// that were driven are.
pub(crate) fn ordered(
    alloc: Global,
    scope: &Scope,
    values: &[Expression],
    ports: &Ports,
    driven: &mut DrivenDigits,
) -> Result<Found<Joints>, NoMemory>
    requires { AreProper (means scope.now) }
    ensures ok { IfOk result (λ found. AreInOrder (means scope.now) (map view values.now) ports.now driven.old found driven.new) }
    ensures grows { KeepsOrGrows driven.old driven.new }
{
    let mut joints = Vec::new(alloc);
    let mut found = Found::Sound(());
    for at in 0..values.len() {
        let value = &values[at];
        let place = value.first();
        let connection = Connection {
            place,
            name: place,
            value: Some(value),
        };
        let port = ports.get(at);
        found = then_connect(alloc, scope, found, port, &connection, &mut joints, driven)?;
    }
    Ok(together(found, joints))
}
