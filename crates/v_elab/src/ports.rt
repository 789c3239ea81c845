//! The assignments of all connected ports.

ghost use Rattle.std.specs.Prelude.{◌≤◌, OnOk, length, map};
ghost use Rattle.v_flat.specs.Scope.Limits.{most_parts};
ghost use Rattle.v_flat.specs.Scope.Scope.{means};
ghost use Rattle.v_flat.specs.Headers.{port_name};
ghost use Rattle.v_check.specs.Names.Proper.{AreProper};
ghost use Rattle.v_elab.specs.Ports.{Differ, WithPorts};

use crate::connect::Joints;
use crate::joined::JoinedPorts;
use crate::port::add_port;
use port_io::NoMemory;
use std::alloc::Global;
use v_flat::scope::Scope;
use v_header::Ports;
use v_layout::build::Parts;

/// Adds the assignments of the connected ports of an instance to the parts of a design, in the order of its ports (IEEE 1364-2005, clause
/// 12.3.9.2). `scope` is that of the instance, whose ports these are, and `joints` are what they are joined to in the scope around it. A
/// port without a joint, or whose name is no net or register, has none. Only want of memory is an error.
pub fn with_ports(
    alloc: Global,
    scope: &Scope,
    ports: &Ports,
    joints: Joints,
    parts: &mut Parts,
) -> Result<(), NoMemory>
    requires proper { AreProper (means scope.now) }
    requires distinct { Differ (map port_name ports.now) }
    requires few { length parts.old.signals ≤ most_parts }
    ensures { OnOk result (WithPorts (means scope.now) ports.now joints.list.items parts.old parts.new) }
{
    let mut table = JoinedPorts::of(alloc, joints)?;
    for at in 0..ports.len() {
        if let Some(port) = ports.get(at) {
            let joined = table.take(port.name);
            add_port(alloc, scope, port.name, joined, parts)?;
        }
    }
    Ok(())
}
