//! Procedures.

ghost use Rattle.std.specs.Prelude.{◌≡◌, IfOk, []};
ghost use Rattle.gpi.specs.declared.design.Kind.TheVariants.{Initial};
ghost use Rattle.v_flat.specs.Scope.Found.{both, each};
ghost use Rattle.v_flat.specs.Scope.Scope.{means};
ghost use Rattle.v_syntax.specs.StatementTrees.{view};
ghost use Rattle.v_flat.specs.Statements.{statement_checked};
ghost use Rattle.v_check.specs.Names.Proper.{AreProper};
ghost use Rattle.v_process.specs.Made.{waiting};
ghost use Rattle.v_process.specs.Processes.{IsAlways, IsFoundProcess};

use crate::drivers::of_kind;
use crate::walk::statement as found_in;
use gpi::{Act, Kind, Process, Wake};
use port_io::{NoMemory, Sequence};
use std::alloc::Global;
use v_flat::Timing;
use v_flat::scope::{Found, Scope};
use v_loop::Unrolled;
use v_syntax::Statement;

/// What is made of the events and the statement of an `always`.
fn waiting(wakes: Found<Sequence<Wake>>, body: Found<Act>) -> Found<Process>
    ensures { result ≡ each waiting (both wakes body) }
{
    wakes.both(body).each(|(wakes, body)| Process {
        kind: Kind::Always,
        wakes,
        body,
    })
}

/// What is found in `always @( .. ) statement` (IEEE 1364-2005, clause 9.9.2): what is broken first, or else its process. `wakes` are what was
/// found in its events, or the changes of the signals that the statement reads, where it has `@*`; `timing` is that of its module. Only want of
/// memory is an error. Whatever the answer, each name means what it meant.
pub fn always(
    alloc: Global,
    scope: &mut Scope,
    timing: Timing,
    unrolled: &mut Unrolled,
    wakes: Found<Sequence<Wake>>,
    statement: &Statement,
) -> Result<Found<Process>, NoMemory>
    requires { AreProper (means scope.old) }
    ensures found { IfOk result (IsAlways timing wakes (means scope.old) (view statement.now)) }
    ensures scope { means scope.new ≡ means scope.old }
{
    let body = found_in(alloc, scope, timing, unrolled, statement)?;
    Ok(waiting(wakes, body))
}

/// What is found in `initial statement` (IEEE 1364-2005, clause 9.9.1): what is broken first, or else its process, which waits for nothing;
/// `timing` is that of its module. Only want of memory is an error. Whatever the answer, each name means what it meant.
pub fn initial(
    alloc: Global,
    scope: &mut Scope,
    timing: Timing,
    unrolled: &mut Unrolled,
    statement: &Statement,
) -> Result<Found<Process>, NoMemory>
    requires { AreProper (means scope.old) }
    ensures found { IfOk result
        (IsFoundProcess timing Initial [] (means scope.old) (view statement.now) (statement_checked timing (means scope.old) (view statement.now))) }
    ensures scope { means scope.new ≡ means scope.old }
{
    let body = found_in(alloc, scope, timing, unrolled, statement)?;
    Ok(of_kind(Kind::Initial, Sequence::new(alloc), body))
}
