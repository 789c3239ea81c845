//! Processes that are added to an instance.

ghost use Rattle.std.specs.Prelude.{IfOk, Some};
ghost use Rattle.v_syntax.specs.ExpressionTrees.{view, view_target};
ghost use Rattle.v_syntax.specs.StatementTrees.{view as view_statement};
ghost use Rattle.v_syntax.specs.SourceTrees.{Driver, Initially, Net, Register, view_control};
ghost use Rattle.v_flat.specs.Design.{always_item, driver, initial_item, net, register};
ghost use Rattle.v_elab.specs.States.{IsReady};
ghost use Rattle.v_elab.specs.ItemsSteps.{IsStep};

use crate::state::{State, signal_count, with_found};
use crate::waits::{control_wakes, expression_wakes};
use port_io::NoMemory;
use std::alloc::Global;
use v_flat::Timing;
use v_flat::scope::Found;
use v_loop::Unrolled;
use v_process as process;
use v_syntax::{EventControl, Expression, Identifier, Statement, Target};

/// The instance with the process of `assign target = value` (IEEE 1364-2005, clause 6.1.2), or what is broken first in it. Only want of
/// memory is an error.
pub(crate) fn driver(
    alloc: Global,
    target: &Target,
    value: &Expression,
    mut state: State,
) -> Result<Found<State>, NoMemory>
    requires { IsReady state }
    ensures { IfOk result (IsStep (driver (Driver (view_target target.now) (view value.now))) state) }
{
    let signals = signal_count(&state.parts);
    let wakes = expression_wakes(alloc, &state.scope, signals, value)?;
    let found = process::continuous(alloc, &state.scope, target, value, wakes, &mut state.driven)?;
    with_found(found, state)
}

/// The instance with the process of the `name = value` of a `wire` (IEEE 1364-2005, clause 6.1.1), or what is broken first in it. Only want
/// of memory is an error.
pub(crate) fn net(
    alloc: Global,
    name: &Identifier,
    value: &Expression,
    mut state: State,
) -> Result<Found<State>, NoMemory>
    requires { IsReady state }
    ensures { IfOk result (IsStep (net (Net name.now (Some (view value.now)))) state) }
{
    let signals = signal_count(&state.parts);
    let wakes = expression_wakes(alloc, &state.scope, signals, value)?;
    let found = process::net(alloc, &state.scope, name, value, wakes, &mut state.driven)?;
    with_found(found, state)
}

/// The instance with the process of the `name = value` of a `reg` (IEEE 1364-2005, clause 6.2.1), or what is broken first in it. Only want
/// of memory is an error.
pub(crate) fn register(
    alloc: Global,
    name: &Identifier,
    value: &Expression,
    state: State,
) -> Result<Found<State>, NoMemory>
    requires { IsReady state }
    ensures { IfOk result (IsStep (register (Register name.now (Some (Initially (view value.now))))) state) }
{
    let found = process::register(alloc, &state.scope, name, value)?;
    with_found(found, state)
}

/// The instance with the process of an `always` of a module of this timing (IEEE 1364-2005, clause 9.9.2), or what is broken first in it. Only
/// want of memory is an error.
pub(crate) fn always(
    alloc: Global,
    timing: Timing,
    unrolled: &mut Unrolled,
    control: &EventControl,
    statement: &Statement,
    mut state: State,
) -> Result<Found<State>, NoMemory>
    requires { IsReady state }
    ensures { IfOk result (IsStep (always_item timing (view_control control.now) (view_statement statement.now)) state) }
{
    let signals = signal_count(&state.parts);
    let wakes = control_wakes(alloc, &mut state.scope, signals, control, statement)?;
    let found = process::always(alloc, &mut state.scope, timing, unrolled, wakes, statement)?;
    with_found(found, state)
}

/// The instance with the process of an `initial` of a module of this timing (IEEE 1364-2005, clause 9.9.1), or what is broken first in it. Only
/// want of memory is an error.
pub(crate) fn initial(
    alloc: Global,
    timing: Timing,
    unrolled: &mut Unrolled,
    statement: &Statement,
    mut state: State,
) -> Result<Found<State>, NoMemory>
    requires { IsReady state }
    ensures { IfOk result (IsStep (initial_item timing (view_statement statement.now)) state) }
{
    let found = process::initial(alloc, &mut state.scope, timing, unrolled, statement)?;
    with_found(found, state)
}
