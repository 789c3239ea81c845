//! Connections with the names of ports.

ghost use Rattle.std.specs.Prelude.{◌≡◌, None, IfOk, if◌then◌else◌, is_some, map, option_map};
ghost use Rattle.name_table.specs.Places.{first_place};
ghost use Rattle.v_syntax.specs.SourceTrees.{view_connection};
ghost use Rattle.v_flat.specs.Scope.Scope.{means};
ghost use Rattle.v_flat.specs.Headers.{find_port};
ghost use Rattle.v_header.specs.Ports.{port_in};
ghost use Rattle.v_check.specs.Names.Proper.{AreProper};
ghost use Rattle.v_process.specs.Assign.Continuous.{KeepsOrGrows};
ghost use Rattle.v_elab.specs.Connect.Joints.{AreByName};

use crate::connect::Joints;
use crate::connect::connection::{Connection, then_connect, together};
use name_table::Names;
use port_io::NoMemory;
use std::alloc::Global;
use v_flat::scope::{Found, Scope};
use v_header::{Port, Ports};
use v_process::drive::DrivenDigits;
use v_syntax::NamedConnection;

/// The port of a name that was not seen; none where there is none.
pub(crate) fn unseen_port<'a>(ports: &'a Ports, seen: &Names, name: &[u8]) -> Option<Port<'a>>
    ensures { option_map port_in result ≡ (if is_some (first_place seen.now name.now) then None else find_port name.now ports.now) }
{
    if seen.find(name).is_some() {
        None
    } else {
        ports.find(name)
    }
}

/// What is found in connections with the names of ports. Only want of memory is an error. Whatever the answer, those digits that were
/// driven are.
pub(crate) fn named(
    alloc: Global,
    scope: &Scope,
    connections: &[NamedConnection],
    ports: &Ports,
    driven: &mut DrivenDigits,
) -> Result<Found<Joints>, NoMemory>
    requires { AreProper (means scope.now) }
    ensures ok { IfOk result (λ found. AreByName (means scope.now) (map view_connection connections.now) ports.now driven.old found driven.new) }
    ensures grows { KeepsOrGrows driven.old driven.new }
{
    let mut seen = Names::new(alloc);
    let mut joints = Vec::new(alloc);
    let mut found = Found::Sound(());
    for at in 0..connections.len() {
        let named = &connections[at];
        let name = named.port.name.bytes();
        let connection = Connection {
            place: named.at,
            name: named.port.at,
            value: named.value.as_ref(),
        };
        let port = unseen_port(ports, &seen, name);
        found = then_connect(alloc, scope, found, port, &connection, &mut joints, driven)?;
        seen.note(alloc, name, at)?;
    }
    Ok(together(found, joints))
}
