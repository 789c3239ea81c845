//! Turns of a test, and of the wait for the next one.
ghost use Rattle.std.specs.Prelude.{◌≡◌, ◌≢◌, ◌⊎◌, Ok, None, true, false};
ghost use Rattle.port_io.specs.Means.{sink_means};
ghost use Rattle.test_meaning.specs.Body.Sound.{is_sound_case};
ghost use Rattle.test_meaning.specs.Body.Views.{view_case};
ghost use Rattle.rig_model.specs.Parts.Steps.{FitSteps, anywhere};
ghost use Rattle.scheduler.specs.Turns.{turn_fault};
ghost use Rattle.scheduler.specs.BetweenTests.{IsBetween};
ghost use Rattle.scheduler.specs.Parts.{means};
ghost use Rattle.scheduler.specs.Engine.{Holds, Relates, rig_of, runs_test, setup_of};
ghost use Rattle.scheduler.specs.Fits.{FitsKernel, KeepsAll, Turns};
ghost use Rattle.command.specs.Regression.Stages.{IsEmpty, TestsTo, WaitTurns};

use await_tree::wait_list::{Awaits, Steps};
use gpi::Gpi;
use port_io::{NoMemory, Sink};
use rig_model::task::FlowMaker;
use scheduler::{Engine, Turn};
use std::alloc::Global;
use std::sync::ledger::Ledger;
use test_meaning::body::TestCase;

/// Gives the engine turns until one does anything but go: those of a test that runs, or those of the wait for the next one.
pub(crate) fn take_turns<O: Sink, K: Gpi, L: Ledger, M: FlowMaker + Drop, W: Awaits>(
    alloc: Global,
    engine: &mut Engine<'_, M, W>,
    kernel: &mut K,
    out: &mut O,
    fuel: &mut u64,
    steps: &mut Steps<L>,
) -> Result<Turn, NoMemory>
    requires loaded { K.is_loaded kernel.old }
    requires fits { FitsKernel (means M.FlowMaker M.Flow.Flow W.Awaits) engine.old (K.content kernel.old) }
    requires place { Holds (means M.FlowMaker M.Flow.Flow W.Awaits) K.Gpi (λ setup c. (c.planned ≡ None) ⊎ IsBetween c) engine.old kernel.old }
    ensures turns { Turns (sink_means O.Sink) (means M.FlowMaker M.Flow.Flow W.Awaits) K.Gpi (FitSteps anywhere)
        engine.old kernel.old fuel.old out.old result engine.new kernel.new fuel.new out.new }
    ensures waits { Relates (means M.FlowMaker M.Flow.Flow W.Awaits) K.Gpi (λ setup c d. IsBetween c
        → WaitTurns (sink_means O.Sink) setup fuel.old c out.old result fuel.new d out.new) engine.old kernel.old engine.new kernel.new }
    ensures stops { result ≢ Ok Turn.Went }
    ensures idle { runs_test engine.new ≡ false }
{
    'turns: loop {
        let turn = engine.turn(alloc, kernel, out, fuel, steps)?;
        if let Turn::Went = turn {
            continue;
        }
        return Ok(turn);
    }
}

/// Begins a test and gives it its turns, until it ends or the run stops.
pub(crate) fn run_test<O: Sink, K: Gpi, L: Ledger, M: FlowMaker + Drop, W: Awaits>(
    alloc: Global,
    case: &TestCase,
    engine: &mut Engine<'_, M, W>,
    kernel: &mut K,
    out: &mut O,
    fuel: &mut u64,
    steps: &mut Steps<L>,
) -> Result<Turn, NoMemory>
    requires loaded { K.is_loaded kernel.old }
    requires fits { FitsKernel (means M.FlowMaker M.Flow.Flow W.Awaits) engine.old (K.content kernel.old) }
    requires empty { IsEmpty (rig_of (means M.FlowMaker M.Flow.Flow W.Awaits) engine.old (K.content kernel.old)) }
    requires sound { is_sound_case (setup_of (means M.FlowMaker M.Flow.Flow W.Awaits)
        engine.old).functions (view_case case.now) ≡ true }
    ensures tests { Relates (means M.FlowMaker M.Flow.Flow W.Awaits) K.Gpi
        (λ setup c d. TestsTo (sink_means O.Sink) setup (view_case case.now) fuel.old c out.old result fuel.new d out.new)
        engine.old kernel.old engine.new kernel.new }
    ensures fits { turn_fault result ≡ None
        → FitsKernel (means M.FlowMaker M.Flow.Flow W.Awaits) engine.new (K.content kernel.new) }
    ensures keeps { KeepsAll (means M.FlowMaker M.Flow.Flow W.Awaits) K.Gpi engine.old engine.new kernel.new }
    ensures idle { runs_test engine.new ≡ false }
{
    match engine.begin_test(alloc, kernel, case, out, steps)? {
        Turn::Went => take_turns(alloc, engine, kernel, out, fuel, steps),
        turn => Ok(turn),
    }
}
