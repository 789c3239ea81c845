//! Turns in which no task is ready.
ghost use Rattle.std.specs.Prelude.{◌≡◌, ◌&&◌, not, [], None, Ok};
ghost use Rattle.port_io.specs.Means.{sink_means};
ghost use Rattle.rig_model.specs.Parts.Steps.{TurnSteps};
ghost use Rattle.scheduler.specs.Events.{IsEventTurn, event_turn};
ghost use Rattle.scheduler.specs.Parts.{means};

use crate::Engine;
use crate::evented::Evented;
use crate::turned::Turn;
use await_tree::wait_list::{Awaits, Steps};
use gpi::Gpi;
use port_io::{NoMemory, Sink, SinkFault};
use py_syntax::FaultKind;
use py_value::Fault;
use rig_model::run::Outcome;
use rig_model::task::FlowMaker;
use std::alloc::Global;
use std::sync::ledger::Ledger;

/// What a turn comes to that was an event whose lines were taken.
fn gone_turn(is_late: bool, is_due: bool) -> Turn
    ensures { result ≡ event_turn is_late is_due }
{
    if is_late {
        Turn::Over(Outcome::Raised(Fault::plain(FaultKind::SimTimeoutError)))
    } else if is_due {
        Turn::Due
    } else {
        Turn::Went
    }
}

/// What a turn comes to that was an event, where a start was planned before or not, and is still or not.
fn turn_of(evented: Evented, was_planned: bool, is_planned: bool) -> Result<Turn, NoMemory>
    ensures { IsEventTurn evented.fault evented.is_late (was_planned && not is_planned) result }
{
    match evented.fault {
        Some(SinkFault::Failed) => Ok(Turn::WriteFault),
        Some(SinkFault::OutOfMemory) => Err(NoMemory),
        None => Ok(gone_turn(evented.is_late, was_planned && !is_planned)),
    }
}

impl<'a, M: FlowMaker + Drop, W: Awaits> Engine<'a, M, W> {
    ghost use Rattle.scheduler.specs.Engine.{Relates};
    ghost use Rattle.scheduler.specs.Fits.{FitsKernel, Turns};

    /// The simulator does an event, where no task is ready. Where nothing is left that could happen the test has stalled.
    pub(crate) fn advance<O: Sink, K: Gpi, L: Ledger>(
        &mut self,
        alloc: Global,
        kernel: &mut K,
        out: &mut O,
        fuel: &mut u64,
        steps: &mut Steps<L>,
    ) -> Result<Turn, NoMemory>
        requires loaded { K.is_loaded kernel.old }
        requires fits { FitsKernel (means M.FlowMaker M.Flow.Flow W.Awaits) self.old (K.content kernel.old) }
        requires none { self.old.test.queue.ready.entries ≡ [] }
        ensures turns { Turns (sink_means O.Sink) (means M.FlowMaker M.Flow.Flow W.Awaits) K.Gpi TurnSteps
            self.old kernel.old fuel.old out.old result self.new kernel.new fuel.new out.new }
        ensures still { result ≡ Ok Turn.Spent → Relates (means M.FlowMaker M.Flow.Flow W.Awaits) K.Gpi
            (λ setup c d. d ≡ c) self.old kernel.old self.new kernel.new }
        ensures runs { self.new.runs_test ≡ self.old.runs_test }
    {
        if kernel.idle() {
            return Ok(Turn::Over(Outcome::Stalled));
        }
        if *fuel == 0 {
            return Ok(Turn::Spent);
        }
        *fuel -= 1;
        let was_planned = self.test.queue.planned.is_some();
        let evented = self
            .teller
            .do_event(alloc, &mut self.test.queue, kernel, out, steps)?;
        turn_of(evented, was_planned, self.test.queue.planned.is_some())
    }
}
