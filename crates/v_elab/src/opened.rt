//! The state before the first item.

ghost use Rattle.std.specs.Prelude.{◌≡◌, ◌<◌, ◌++◌, IfOk, length};
ghost use Rattle.v_flat.specs.Scope.Scope.{means};
ghost use Rattle.v_flat.specs.Declarations.{in_order};
ghost use Rattle.v_flat.specs.Design.{children, entries};
ghost use Rattle.v_header.specs.Parameter.Constants.{AreConstants, entries_of};
ghost use Rattle.v_layout.specs.Build.Parts.{Grows};
ghost use Rattle.v_layout.specs.Fits.{Fit};
ghost use Rattle.v_layout.specs.Order.{lines_in};
ghost use Rattle.v_elab.specs.States.{IsReady};
ghost use Rattle.v_elab.specs.Opens.{Opens};

use crate::state::State;
use gpi::Spot;
use port_io::{Name, NoMemory, Sequence};
use std::alloc::Global;
use v_flat::scope::Scope;
use v_header::Ports;
use v_header::parameter::{Constant, Constants};
use v_layout::build::Parts;
use v_layout::{DeclaredNames, Line, add_signals, children, in_order, scope};
use v_process::drive::DrivenDigits;

/// What the names of an instance mean in which these names are declared, the first signal of which has the number `first`; and which names are
/// known in it. Only want of memory is an error.
fn names(
    alloc: Global,
    constants: &[Constant],
    lines: &[Line<'_>],
    first: u32,
) -> Result<(Scope, Sequence<(Name, Spot)>), NoMemory>
    requires { Fit first (lines_in lines.now) }
    ensures scope { IfOk result (λ names. means names.0 ≡ means (entries_of constants.now ++ entries first (lines_in lines.now))) }
    ensures children { IfOk result (λ names. names.1 ≡ children first (lines_in lines.now)) }
{
    let scope = scope(alloc, constants, lines, first)?;
    let children = children(alloc, lines, first)?;
    Ok((scope, children))
}

/// The state before the first item of an instance at this path in which these names are declared, ports first. Only want of memory is an error.
fn with_lines(
    alloc: Global,
    path: &[u8],
    constants: &Constants,
    lines: &[Line<'_>],
    parts: Parts,
) -> Result<State, NoMemory>
    requires constants { AreConstants constants.now }
    requires fit { Fit (length parts.signals) (lines_in lines.now) }
    ensures opens { IfOk result (Opens path.now constants.now (lines_in lines.now) parts) }
    ensures ready { IfOk result IsReady }
    ensures grows { IfOk result (λ state. Grows parts state.parts) }
    ensures node { IfOk result (λ state. length parts.nodes.items < length state.parts.nodes.items) }
{
    let first = parts.signals.len() as u32;
    let parts = parts.with_node(alloc, path)?;
    let (scope, children) = names(alloc, &constants.list, lines, first)?;
    let mut state = State {
        scope,
        parts,
        driven: DrivenDigits::none(alloc),
        children,
    };
    add_signals(alloc, path, lines, &mut state.parts.signals)?;
    Ok(state)
}

/// The state of the instance at this path before its first item (IEEE 1364-2005, clause 12.1): its node and its signals stand behind those
/// of the design so far, the ports first, and none of its nets is driven. Only want of memory is an error.
pub fn opening(
    alloc: Global,
    path: &[u8],
    constants: &Constants,
    ports: &Ports,
    declared: &DeclaredNames,
    parts: Parts,
) -> Result<State, NoMemory>
    requires constants { AreConstants constants.now }
    requires fit { Fit (length parts.signals) (in_order ports.now declared.now) }
    ensures opens { IfOk result (Opens path.now constants.now (in_order ports.now declared.now) parts) }
    ensures ready { IfOk result IsReady }
    ensures grows { IfOk result (λ state. Grows parts state.parts) }
    ensures node { IfOk result (λ state. length parts.nodes.items < length state.parts.nodes.items) }
{
    let lines = in_order(alloc, ports, declared)?;
    with_lines(alloc, path, constants, &lines, parts)
}
