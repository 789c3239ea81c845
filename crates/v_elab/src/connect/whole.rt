//! All connections of an instance.

ghost use Rattle.std.specs.Prelude.{IfOk};
ghost use Rattle.v_flat.specs.Scope.Scope.{means};
ghost use Rattle.v_check.specs.Names.Proper.{AreProper};
ghost use Rattle.v_process.specs.Assign.Continuous.{KeepsOrGrows};
ghost use Rattle.v_elab.specs.Connect.Joints.{AreConnected};

use crate::connect::Joints;
use crate::connect::named::named;
use crate::connect::ordered::ordered;
use port_io::NoMemory;
use std::alloc::Global;
use v_flat::scope::{Found, Scope};
use v_header::Ports;
use v_process::drive::DrivenDigits;
use v_syntax::Connections;

/// What the ports of an instance are joined to (IEEE 1364-2005, clauses 12.3.5 to 12.3.9), or what is broken first in its connections; and
/// which digits of nets are driven then. `scope` is that in which the instance stands, and `ports` are those of its module.
///
/// An output is connected to a target, or else BadTarget is broken at the connection's first token, and the expression is checked too. A
/// connection for which there is no port, or of one that was connected before, breaks BadPort: one in order at its first token, one with
/// a name at the name; its expression is checked too, and nothing behind it. Only want of memory is an error. Whatever the answer, those
/// digits that were driven are.
pub fn joints(
    alloc: Global,
    scope: &Scope,
    connections: Option<&Connections>,
    ports: &Ports,
    driven: &mut DrivenDigits,
) -> Result<Found<Joints>, NoMemory>
    requires { AreProper (means scope.now) }
    ensures ok { IfOk result (λ found. AreConnected (means scope.now) connections.entry ports.now driven.old found driven.new) }
    ensures grows { KeepsOrGrows driven.old driven.new }
{
    match connections {
        None => Ok(Found::Sound(Joints {
            list: Vec::new(alloc),
        })),
        Some(Connections::Ordered(values)) => ordered(alloc, scope, values, ports, driven),
        Some(Connections::Named(connections)) => named(alloc, scope, connections, ports, driven),
    }
}
