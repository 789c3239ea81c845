//! The state before the first item, with all that it is found from.

ghost use Rattle.std.specs.Prelude.{◌≡◌, ◌≤◌, IfOk, length, map};
ghost use Rattle.v_syntax.specs.SourceTrees.{view_module};
ghost use Rattle.v_flat.specs.Scope.Limits.{most_parts};
ghost use Rattle.v_flat.specs.Scope.Scope.{before, means};
ghost use Rattle.v_flat.specs.Headers.{all_names, later, port_name, ports_of};
ghost use Rattle.v_flat.specs.Declarations.{in_order};
ghost use Rattle.v_header.specs.Parameter.Constants.{AreConstants, entries_of};
ghost use Rattle.v_layout.specs.Fits.{Fit};
ghost use Rattle.v_elab.specs.Ports.{Differ};
ghost use Rattle.v_elab.specs.Begins.{Begins};
ghost use Rattle.v_elab.specs.BeginSteps.{Declares, HaveConstants, OpensWith};

use crate::connect::Joints;
use crate::opened::opening;
use crate::outside::Outside;
use crate::ports::with_ports;
use crate::state::State;
use port_io::NoMemory;
use std::alloc::Global;
use v_flat::scope::Broken;
use v_header::parameter::{Constants, Given, parameters};
use v_header::{Ports, later_names, parameters_of};
use v_layout::build::Parts;
use v_layout::{DeclaredNames, Place, declarations};
use v_syntax::Module;

/// The parameters of an instance that is given these values (IEEE 1364-2005, clauses 4.10 and 12.2), or the rule that is broken first in
/// them. Only want of memory is an error.
#[tactic(auto, using(crate::proofs::Later::is_proper, crate::proofs::Later::has_none))]
fn constants(
    alloc: Global,
    module: &Module,
    given: &Given,
) -> Result<Result<Constants, Broken>, NoMemory>
    ensures { IfOk result (HaveConstants (view_module «module».now) given.now) }
{
    let declared = parameters_of(alloc, module)?;
    let others = later_names(alloc, module)?;
    parameters(alloc, &declared, given, others)
}

/// The state before the first item of an instance with these parameters, ports and declarations. Only want of memory is an error.
fn opened(
    alloc: Global,
    path: &[u8],
    constants: &Constants,
    ports: &Ports,
    declared: &DeclaredNames,
    joints: Joints,
    parts: Parts,
) -> Result<State, NoMemory>
    requires constants { AreConstants constants.now }
    requires distinct { Differ (map port_name ports.now) }
    requires fit { Fit (length parts.signals) (in_order ports.now declared.now) }
    ensures { IfOk result (OpensWith path.now constants.now ports.now (in_order ports.now declared.now) joints.list.items parts) }
{
    let mut state = opening(alloc, path, constants, ports, declared, parts)?;
    with_ports(alloc, &state.scope, ports, joints, &mut state.parts)?;
    Ok(state)
}

/// The same from the module of an instance with these parameters, or the rule that is broken first in its declarations. Only want of memory
/// is an error.
fn declared(
    alloc: Global,
    module: &Module,
    path: &[u8],
    constants: &Constants,
    ports: &Ports,
    joints: Joints,
    parts: Parts,
) -> Result<Result<State, Broken>, NoMemory>
    requires constants { AreConstants constants.now }
    requires scope { means constants.now.scope ≡ before (means (entries_of constants.now.list.items)) (later (all_names (view_module «module».now))) }
    requires ports { ports.now ≡ ports_of (view_module «module».now) }
    requires few { length parts.signals ≤ most_parts }
    ensures { IfOk result (Declares (view_module «module».now) path.now constants.now joints.list.items parts) }
{
    let place = Place {
        constants,
        ports,
        first: parts.signals.len() as u32,
    };
    match declarations(alloc, &place, module)? {
        Ok(names) => Ok(Ok(opened(alloc, path, constants, ports, &names, joints, parts)?)),
        Err(fault) => Ok(Err(fault)),
    }
}

/// The state before the first item of an instance of a module with these ports, behind what is built of the design so far; or the rule that is
/// broken first, in its parameters or else in its declarations. Only want of memory is an error.
fn begin_with(
    alloc: Global,
    module: &Module,
    path: &[u8],
    ports: &Ports,
    outside: Outside,
    parts: Parts,
) -> Result<Result<State, Broken>, NoMemory>
    requires ports { ports.now ≡ ports_of (view_module «module».now) }
    requires few { length parts.signals ≤ most_parts }
    ensures { IfOk result (Begins (view_module «module».now) path.now outside parts) }
{
    match constants(alloc, module, &outside.given)? {
        Ok(constants) => declared(
            alloc,
            module,
            path,
            &constants,
            ports,
            outside.joints,
            parts,
        ),
        Err(fault) => Ok(Err(fault)),
    }
}

/// The state of an instance of this module at this path before its first item (IEEE 1364-2005, clauses 12.1 to 12.3), behind what is built of
/// the design so far: its parameters have values, its signals and names are known, and its connected ports have their assignments; or the rule
/// that is broken first, in its parameters or else in its declarations. Only want of memory is an error.
pub fn begin(
    alloc: Global,
    module: &Module,
    path: &[u8],
    outside: Outside,
    parts: Parts,
) -> Result<Result<State, Broken>, NoMemory>
    requires { length parts.signals ≤ most_parts }
    ensures { IfOk result (Begins (view_module «module».now) path.now outside parts) }
{
    let ports = Ports::of(alloc, module)?;
    begin_with(alloc, module, path, &ports, outside, parts)
}
