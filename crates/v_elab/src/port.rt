//! The assignment of one connected port.

ghost use Rattle.std.specs.Prelude.{◌≡◌, ◌≤◌, Some, IfOk, IfSome, OnOk, length};
ghost use Rattle.gpi.specs.Terms.{IsWidth};
ghost use Rattle.v_flat.specs.Scope.Limits.{most_parts};
ghost use Rattle.v_flat.specs.Scope.Scope.{find, means, width_of};
ghost use Rattle.v_check.specs.Names.Proper.{AreProper};
ghost use Rattle.v_elab.specs.PortsSteps.{AddsPort, AssignsPort, object_in};

use crate::connect::Joined;
use gpi::Process;
use port_io::NoMemory;
use std::alloc::Global;
use v_flat::scope::{DataObject, Meaning, Scope};
use v_layout::build::Parts;
use v_loop::wakes::wakes;
use v_process::{input, output};

/// The data object of a name; none where the name is not declared, or is a parameter.
fn object_of(scope: &Scope, name: &[u8]) -> Option<DataObject>
    requires { AreProper (means scope.now) }
    ensures is { result ≡ object_in (find name.now (means scope.now)) }
    ensures proper { IfSome result (λ object. IsWidth (width_of object.bounds)) }
{
    match scope.find(name) {
        Some(Meaning::Object(object)) => Some(*object),
        Some(Meaning::Constant(_, _)) => None,
        Some(Meaning::Later) => None,
        None => None,
    }
}

/// The continuous assignment of a connected port, in a design of so many signals (IEEE 1364-2005, clause 12.3.9.2): an input is assigned
/// what it is joined to, and what an output is joined to is assigned its value. Only want of memory is an error.
fn assignment(
    alloc: Global,
    port: DataObject,
    joined: Joined,
    signals: u32,
) -> Result<Process, NoMemory>
    requires { IsWidth (width_of port.bounds) }
    ensures { IfOk result (AssignsPort port joined signals) }
{
    match joined {
        Joined::Value(value, reads) => {
            let wakes = wakes(alloc, &reads, signals)?;
            input(alloc, port, value, wakes)
        }
        Joined::Target(target) => output(alloc, port, target),
    }
}

/// Adds the assignment of a connected port. Only want of memory is an error.
fn add_assignment(
    alloc: Global,
    port: DataObject,
    joined: Joined,
    parts: &mut Parts,
) -> Result<(), NoMemory>
    requires proper { IsWidth (width_of port.bounds) }
    requires few { length parts.old.signals ≤ most_parts }
    ensures { OnOk result (AddsPort (Some joined) (Some port) parts.old parts.new) }
{
    let process = assignment(alloc, port, joined, parts.signals.len() as u32)?;
    parts.processes.push(process)?;
    Ok(())
}

/// Adds the assignment of the port of this name, if it is joined to anything and a data object. Only want of memory is an error.
pub(crate) fn add_port(
    alloc: Global,
    scope: &Scope,
    name: &[u8],
    joined: Option<Joined>,
    parts: &mut Parts,
) -> Result<(), NoMemory>
    requires proper { AreProper (means scope.now) }
    requires few { length parts.old.signals ≤ most_parts }
    ensures { OnOk result (AddsPort joined (object_in (find name.now (means scope.now))) parts.old parts.new) }
{
    match joined {
        Some(joined) => match object_of(scope, name) {
            Some(port) => add_assignment(alloc, port, joined, parts),
            None => Ok(()),
        },
        None => Ok(()),
    }
}
