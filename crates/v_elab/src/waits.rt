//! What the processes of items wait for.

ghost use Rattle.std.specs.Prelude.{◌≡◌, IfOk, length};
ghost use Rattle.v_flat.specs.Scope.Scope.{means};
ghost use Rattle.v_syntax.specs.ExpressionTrees.{view};
ghost use Rattle.v_syntax.specs.StatementTrees.{view as view_statement};
ghost use Rattle.v_syntax.specs.SourceTrees.{view_control};
ghost use Rattle.v_flat.specs.Design.{Design};
ghost use Rattle.v_flat.specs.Statements.{reads, statement_reads};
ghost use Rattle.v_check.specs.Names.Proper.{AreProper};
ghost use Rattle.v_loop.specs.Wakes.Wakes.{WaitForAll};
ghost use Rattle.v_elab.specs.ItemsSteps.{awaited};

use gpi::Wake;
use port_io::{NoMemory, Sequence};
use std::alloc::Global;
use v_flat::scope::{Found, Scope};
use v_loop::reads::reads;
use v_loop::sensitivity::statement_reads;
use v_loop::wakes::{events, wakes};
use v_syntax::{EventControl, Expression, Statement};

/// The changes of the signals that an expression reads, of so many signals in all. Only want of memory is an error.
pub(crate) fn expression_wakes(
    alloc: Global,
    scope: &Scope,
    signals: u32,
    value: &Expression,
) -> Result<Sequence<Wake>, NoMemory>
    requires { AreProper (means scope.now) }
    ensures { IfOk result (WaitForAll (reads (means scope.now) (view value.now)) signals) }
{
    let spans = reads(alloc, scope, value)?;
    wakes(alloc, &spans, signals)
}

/// The changes of the signals that a statement reads, of so many signals in all. Only want of memory is an error. Whatever the answer, each
/// name means what it meant.
fn statement_wakes(
    alloc: Global,
    scope: &mut Scope,
    signals: u32,
    statement: &Statement,
) -> Result<Sequence<Wake>, NoMemory>
    requires { AreProper (means scope.old) }
    ensures waits { IfOk result (WaitForAll (statement_reads (means scope.old) (view_statement statement.now)) signals) }
    ensures scope { means scope.new ≡ means scope.old }
{
    let spans = statement_reads(alloc, scope, statement)?;
    wakes(alloc, &spans, signals)
}

/// What is found in what an `always` with this statement waits for (IEEE 1364-2005, clauses 9.7.2 to 9.7.5), of so many signals in all. Only
/// want of memory is an error. Whatever the answer, each name means what it meant.
pub(crate) fn control_wakes(
    alloc: Global,
    scope: &mut Scope,
    signals: u32,
    control: &EventControl,
    statement: &Statement,
) -> Result<Found<Sequence<Wake>>, NoMemory>
    requires { AreProper (means scope.old) }
    ensures waits { IfOk result (λ found. (d : Design) → length d.signals ≡ signals
        → found ≡ awaited (means scope.old) (view_control control.now) (view_statement statement.now) d) }
    ensures scope { means scope.new ≡ means scope.old }
{
    match control {
        EventControl::Implicit => Ok(Found::Sound(statement_wakes(
            alloc, scope, signals, statement,
        )?)),
        EventControl::Events(list) => events(alloc, scope, list),
    }
}
