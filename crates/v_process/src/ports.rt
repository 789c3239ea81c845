//! The assignments of connected ports.

ghost use Rattle.std.specs.Prelude.{◌≡◌, ◌∷◌, [], IfOk};
ghost use Rattle.gpi.specs.Terms.{IsWidth};
ghost use Rattle.v_flat.specs.Scope.Scope.{width_of};
ghost use Rattle.v_flat.specs.Design.{any_change};
ghost use Rattle.v_process.specs.Ports.{AssignsInput, AssignsOutput};

use crate::act::{Moment, assign};
use crate::registers::all_digits;
use crate::target::CheckedTarget;
use gpi::{Act, Kind, Process, SigId, Term, Wake, WakeEdge};
use port_io::{NoMemory, Sequence};
use std::alloc::Global;
use v_check::constants::Checked;
use v_check::names::width;
use v_flat::scope::DataObject;

/// The continuous assignment of its connection's value to an input (IEEE 1364-2005, clause 12.3.9.2), which waits for `wakes`, the changes
/// of the signals that the value reads. Only want of memory is an error.
pub fn input(
    alloc: Global,
    port: DataObject,
    value: Checked,
    wakes: Sequence<Wake>,
) -> Result<Process, NoMemory>
    requires { IsWidth (width_of port.bounds) }
    ensures { IfOk result (AssignsInput port value wakes) }
{
    let body = assign(alloc, Moment::AtOnce, all_digits(port), value)?;
    Ok(Process {
        kind: Kind::Assign,
        wakes,
        body,
    })
}

/// Any change of one signal. Only want of memory is an error.
fn changes(alloc: Global, signal: SigId) -> Result<Sequence<Wake>, NoMemory>
    ensures { IfOk result (λ wakes. wakes ≡ any_change signal.0 ∷ []) }
{
    let mut wakes = Sequence::new(alloc);
    wakes.push(Wake {
        sig: signal,
        edge: WakeEdge::Any,
    })?;
    Ok(wakes)
}

/// The continuous assignment of an output to what it is connected to (IEEE 1364-2005, clause 12.3.9.2), which waits for the changes of the
/// output. Only want of memory is an error.
pub fn output(alloc: Global, port: DataObject, target: CheckedTarget) -> Result<Process, NoMemory>
    requires { IsWidth (width_of port.bounds) }
    ensures { IfOk result (AssignsOutput port target) }
{
    let signal = SigId(port.first);
    let wakes = changes(alloc, signal)?;
    let whole = Term::Signal(signal, width(port.bounds));
    let value = Term::resize(alloc, whole, target.width)?;
    Ok(Process {
        kind: Kind::Assign,
        wakes,
        body: Act::Blocking(target.target, value),
    })
}
