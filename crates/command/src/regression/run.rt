//! The run over the tests of a file.
ghost use Rattle.std.specs.Prelude.{◌≡◌, ◌<◌, ◌≤◌, ◌+◌, ℕ, length, false, true, IfOk, Some};
ghost use Rattle.std.specs.List.{list_all, slice_get};
ghost use Rattle.port_io.specs.Means.{sink_means};
ghost use Rattle.gpi.specs.Content.{no_counts};
ghost use Rattle.gpi.specs.Limits.{latest_time};
ghost use Rattle.run_view.specs.RandomStream.Generator.{seeded};
ghost use Rattle.test_meaning.specs.Body.Sound.{is_sound_case, most_cases};
ghost use Rattle.test_meaning.specs.Body.Views.{view_case};
ghost use Rattle.test_meaning.specs.declared.body.file.TestCase.{TestCase as declared_case};
ghost use Rattle.rig_model.specs.Run.Case.{emptied, ended};
ghost use Rattle.rig_model.specs.Run.Run.{opening_sim};
ghost use Rattle.rig_model.specs.Run.Verdict as meaning;
ghost use Rattle.scheduler.specs.BetweenTests.{IsBetween};
ghost use Rattle.scheduler.specs.Parts.{means};
ghost use Rattle.scheduler.specs.Engine.{Holds, Relates, rig_of, runs_test, setup_of};
ghost use Rattle.scheduler.specs.Fits.{FitsKernel, KeepsAll};
ghost use Rattle.command.specs.Regression.Leaves.{Leaves};
ghost use Rattle.command.specs.Regression.Runs.{RunsTo, status_in};
ghost use Rattle.command.specs.Regression.Stages.{
  AfterEnd,
  HasCome,
  HasPlace,
  IsEmpty,
  IsEnded,
  IsPending,
  IsWaiting,
  Judges,
  StagesTo,
  cases_of,
  stage_status,
};

use crate::regression::lines::{close, end_short, put_end, skip_tests};
use crate::regression::progress::{Progress, Stage};
use crate::regression::status::Status;
use crate::regression::turns::{run_test, take_turns};
use await_tree::wait_list::{Awaits, Steps};
use gpi::Gpi;
use port_io::{NoMemory, Sequence, Sink, SinkFault};
use rig_model::run::Outcome;
use rig_model::task::FlowMaker;
use run_state::lines::reason_of;
use scheduler::{Engine, Turn};
use std::alloc::Global;
use std::sync::ledger::Ledger;
use test_meaning::body::{TestCase, TestFile};

/// Ends a test that ended so, puts its verdict, and tells the tests that are skipped behind it.
fn end_case<O: Sink, K: Gpi, L: Ledger, M: FlowMaker + Drop, W: Awaits>(
    alloc: Global,
    cases: &Sequence<TestCase>,
    progress: Progress,
    outcome: &Outcome,
    engine: &mut Engine<'_, M, W>,
    kernel: &mut K,
    out: &mut O,
    steps: &mut Steps<L>,
) -> Result<Progress, SinkFault>
    requires loaded { K.is_loaded kernel.old }
    requires fits { FitsKernel (means M.FlowMaker M.Flow.Flow W.Awaits) engine.old (K.content kernel.old) }
    requires within { progress.at < length cases.now }
    requires few { length cases.now ≤ most_cases }
    requires place { HasPlace progress }
    ensures judges { Relates (means M.FlowMaker M.Flow.Flow W.Awaits) K.Gpi (λ setup c d. (case : declared_case)
        → slice_get cases.now progress.at ≡ Some case
        → Judges (sink_means O.Sink) c.sim.time cases.now progress (view_case case) (meaning.reason_of setup.flat (view_case case) outcome.now)
        result out.old out.new) engine.old kernel.old engine.new kernel.new }
    ensures ended { Relates (means M.FlowMaker M.Flow.Flow W.Awaits) K.Gpi (λ setup c d. d ≡ ended c) engine.old kernel.old engine.new kernel.new }
    ensures fits { FitsKernel (means M.FlowMaker M.Flow.Flow W.Awaits) engine.new (K.content kernel.new) }
    ensures keeps { KeepsAll (means M.FlowMaker M.Flow.Flow W.Awaits) K.Gpi engine.old engine.new kernel.new }
    ensures idle { runs_test engine.new ≡ false }
{
    let case = cases.get(progress.at);
    let time = kernel.now();
    engine.end_test(kernel, steps);
    match reason_of(alloc, engine.design(), case, outcome) {
        Ok(reason) => put_end(alloc, time, cases, progress, case, &reason, out),
        Err(NoMemory) => Err(SinkFault::OutOfMemory),
    }
}

/// Has the simulator go on until the planned start of the next test fires.
fn wait_start<O: Sink, K: Gpi, L: Ledger, M: FlowMaker + Drop, W: Awaits>(
    alloc: Global,
    cases: &Sequence<TestCase>,
    progress: Progress,
    engine: &mut Engine<'_, M, W>,
    kernel: &mut K,
    out: &mut O,
    budget: u64,
    fuel: &mut u64,
    steps: &mut Steps<L>,
) -> Result<Stage, NoMemory>
    requires loaded { K.is_loaded kernel.old }
    requires fits { FitsKernel (means M.FlowMaker M.Flow.Flow W.Awaits) engine.old (K.content kernel.old) }
    requires between { IsBetween (rig_of (means M.FlowMaker M.Flow.Flow W.Awaits) engine.old (K.content kernel.old)) }
    requires within { progress.at < length cases.now }
    ensures stages { Relates (means M.FlowMaker M.Flow.Flow W.Awaits) K.Gpi (λ setup c d. (seed : ℕ) (first : O)
        → IsWaiting (sink_means O.Sink) setup seed cases.now budget progress fuel.old c first out.old
        → StagesTo (sink_means O.Sink) setup seed cases.now budget progress.at result fuel.new d (K.content kernel.new) first out.new)
        engine.old kernel.old engine.new kernel.new }
    ensures leaves { Leaves (means M.FlowMaker M.Flow.Flow W.Awaits) K.Gpi (stage_status result) engine.old engine.new kernel.new }
{
    match take_turns(alloc, engine, kernel, out, fuel, steps)? {
        Turn::Due => Ok(Stage::Goes(progress)),
        Turn::Spent => Ok(Stage::Stops(end_short(alloc, budget, out))),
        Turn::WriteFault => Ok(Stage::Stops(Status::WriteFault)),
        Turn::Went | Turn::Over(_) => unreachable!(),
    }
}

/// Plans the start of the next test, if one is left, and has the simulator go on until it fires.
fn wait_next<O: Sink, K: Gpi, L: Ledger, M: FlowMaker + Drop, W: Awaits>(
    alloc: Global,
    cases: &Sequence<TestCase>,
    progress: Progress,
    engine: &mut Engine<'_, M, W>,
    kernel: &mut K,
    out: &mut O,
    budget: u64,
    fuel: &mut u64,
    steps: &mut Steps<L>,
) -> Result<Stage, NoMemory>
    requires loaded { K.is_loaded kernel.old }
    requires fits { FitsKernel (means M.FlowMaker M.Flow.Flow W.Awaits) engine.old (K.content kernel.old) }
    requires empty { IsEmpty (rig_of (means M.FlowMaker M.Flow.Flow W.Awaits) engine.old (K.content kernel.old)) }
    requires idle { runs_test engine.old ≡ false }
    requires early { (rig_of (means M.FlowMaker M.Flow.Flow W.Awaits) engine.old (K.content kernel.old)).sim.time
        < latest_time }
    ensures stages { Relates (means M.FlowMaker M.Flow.Flow W.Awaits) K.Gpi (λ setup c d. (seed : ℕ) (first : O)
        → IsEnded (sink_means O.Sink) setup seed cases.now budget progress fuel.old c first out.old
        → StagesTo (sink_means O.Sink) setup seed cases.now budget progress.at result fuel.new d (K.content kernel.new) first out.new)
        engine.old kernel.old engine.new kernel.new }
    ensures leaves { Leaves (means M.FlowMaker M.Flow.Flow W.Awaits) K.Gpi (stage_status result) engine.old engine.new kernel.new }
{
    if progress.at >= cases.len() {
        return Ok(Stage::Goes(progress));
    }
    engine.plan_start(kernel, steps)?;
    wait_start(
        alloc, cases, progress, engine, kernel, out, budget, fuel, steps,
    )
}

/// Goes on behind a test that has its verdict, unless a put failed.
fn go_on<O: Sink, K: Gpi, L: Ledger, M: FlowMaker + Drop, W: Awaits>(
    alloc: Global,
    cases: &Sequence<TestCase>,
    ended: Result<Progress, SinkFault>,
    engine: &mut Engine<'_, M, W>,
    kernel: &mut K,
    out: &mut O,
    budget: u64,
    fuel: &mut u64,
    steps: &mut Steps<L>,
) -> Result<Stage, NoMemory>
    requires loaded { K.is_loaded kernel.old }
    requires fits { FitsKernel (means M.FlowMaker M.Flow.Flow W.Awaits) engine.old (K.content kernel.old) }
    requires empty { IsEmpty (rig_of (means M.FlowMaker M.Flow.Flow W.Awaits) engine.old (K.content kernel.old)) }
    requires idle { runs_test engine.old ≡ false }
    requires early { (rig_of (means M.FlowMaker M.Flow.Flow W.Awaits) engine.old (K.content kernel.old)).sim.time
        < latest_time }
    ensures stages { Relates (means M.FlowMaker M.Flow.Flow W.Awaits) K.Gpi (λ setup c d. (seed : ℕ) (first : O) (least : ℕ)
        → IfOk ended (λ progress. least ≤ progress.at) → AfterEnd (sink_means O.Sink) setup seed cases.now budget ended fuel.old c first out.old
        → StagesTo (sink_means O.Sink) setup seed cases.now budget least result fuel.new d (K.content kernel.new) first out.new)
        engine.old kernel.old engine.new kernel.new }
    ensures leaves { Leaves (means M.FlowMaker M.Flow.Flow W.Awaits) K.Gpi (stage_status result) engine.old engine.new kernel.new }
{
    match ended {
        Ok(progress) => wait_next(
            alloc, cases, progress, engine, kernel, out, budget, fuel, steps,
        ),
        Err(SinkFault::Failed) => Ok(Stage::Stops(Status::WriteFault)),
        Err(SinkFault::OutOfMemory) => Err(NoMemory),
    }
}

/// Runs the next test: begins it, gives it its turns, ends it, puts its verdict, and waits for the start of the one behind it.
fn run_case<O: Sink, K: Gpi, L: Ledger, M: FlowMaker + Drop, W: Awaits>(
    alloc: Global,
    cases: &Sequence<TestCase>,
    progress: Progress,
    engine: &mut Engine<'_, M, W>,
    kernel: &mut K,
    out: &mut O,
    budget: u64,
    fuel: &mut u64,
    steps: &mut Steps<L>,
) -> Result<Stage, NoMemory>
    requires loaded { K.is_loaded kernel.old }
    requires fits { FitsKernel (means M.FlowMaker M.Flow.Flow W.Awaits) engine.old (K.content kernel.old) }
    requires empty { IsEmpty (rig_of (means M.FlowMaker M.Flow.Flow W.Awaits) engine.old (K.content kernel.old)) }
    requires within { progress.at < length cases.now }
    requires few { length cases.now ≤ most_cases }
    requires sound { list_all (is_sound_case (setup_of (means M.FlowMaker M.Flow.Flow W.Awaits) engine.old).functions)
        (cases_of cases.now) ≡ true }
    requires come { Holds (means M.FlowMaker M.Flow.Flow W.Awaits) K.Gpi
        (λ setup c. HasCome (sink_means O.Sink) setup cases.now budget progress fuel.old c out.old) engine.old kernel.old }
    ensures stages { Relates (means M.FlowMaker M.Flow.Flow W.Awaits) K.Gpi (λ setup c d. (seed : ℕ) (first : O)
        → IsPending (sink_means O.Sink) setup seed cases.now budget progress fuel.old c first out.old
        → StagesTo (sink_means O.Sink) setup seed cases.now budget (progress.at + 1) result fuel.new d (K.content kernel.new) first out.new)
        engine.old kernel.old engine.new kernel.new }
    ensures leaves { Leaves (means M.FlowMaker M.Flow.Flow W.Awaits) K.Gpi (stage_status result) engine.old engine.new kernel.new }
{
    match run_test(
        alloc,
        cases.get(progress.at),
        engine,
        kernel,
        out,
        fuel,
        steps,
    )? {
        Turn::Over(outcome) => {
            let ended = end_case(alloc, cases, progress, &outcome, engine, kernel, out, steps);
            go_on(
                alloc, cases, ended, engine, kernel, out, budget, fuel, steps,
            )
        }
        Turn::Spent => Ok(Stage::Stops(end_short(alloc, budget, out))),
        Turn::WriteFault => Ok(Stage::Stops(Status::WriteFault)),
        Turn::Went | Turn::Due => unreachable!(),
    }
}

/// Runs the tests from a place on, the first of which isn't skipped, and closes the run behind the last one.
fn run_from<O: Sink, K: Gpi, L: Ledger, M: FlowMaker + Drop, W: Awaits>(
    alloc: Global,
    cases: &Sequence<TestCase>,
    progress: Progress,
    engine: &mut Engine<'_, M, W>,
    kernel: &mut K,
    out: &mut O,
    budget: u64,
    steps: &mut Steps<L>,
) -> Result<Status, NoMemory>
    requires loaded { K.is_loaded kernel.old }
    requires fits { FitsKernel (means M.FlowMaker M.Flow.Flow W.Awaits) engine.old (K.content kernel.old) }
    requires empty { IsEmpty (rig_of (means M.FlowMaker M.Flow.Flow W.Awaits) engine.old (K.content kernel.old)) }
    requires idle { runs_test engine.old ≡ false }
    requires few { length cases.now ≤ most_cases }
    requires sound { list_all (is_sound_case (setup_of (means M.FlowMaker M.Flow.Flow W.Awaits) engine.old).functions)
        (cases_of cases.now) ≡ true }
    requires come { Holds (means M.FlowMaker M.Flow.Flow W.Awaits) K.Gpi
        (λ setup c. HasCome (sink_means O.Sink) setup cases.now budget progress budget c out.old) engine.old kernel.old }
    ensures runs { Relates (means M.FlowMaker M.Flow.Flow W.Awaits) K.Gpi (λ setup c d. (seed : ℕ) (first : O)
        → IsPending (sink_means O.Sink) setup seed cases.now budget progress budget c first out.old
        → RunsTo (sink_means O.Sink) setup seed (cases_of cases.now) budget (status_in result) d (K.content kernel.new) first out.new)
        engine.old kernel.old engine.new kernel.new }
    ensures leaves { Leaves (means M.FlowMaker M.Flow.Flow W.Awaits) K.Gpi (status_in result) engine.old engine.new kernel.new }
{
    let mut so_far = progress;
    let mut fuel = budget;
    'tests: while so_far.at < cases.len() {
        match run_case(
            alloc, cases, so_far, engine, kernel, out, budget, &mut fuel, steps,
        )? {
            Stage::Goes(next) => so_far = next,
            Stage::Stops(status) => return Ok(status),
        }
    }
    Ok(close(alloc, kernel.now(), so_far.tally, out))
}

/// Runs the tests within a budget. Only want of memory is an error, which leaves engine and simulator as the status `NoMemory` does.
fn run_tests<O: Sink, K: Gpi, L: Ledger, M: FlowMaker + Drop, W: Awaits>(
    alloc: Global,
    cases: &Sequence<TestCase>,
    engine: &mut Engine<'_, M, W>,
    kernel: &mut K,
    out: &mut O,
    budget: u64,
    steps: &mut Steps<L>,
) -> Result<Status, NoMemory>
    requires loaded { K.is_loaded kernel.old }
    requires fits { FitsKernel (means M.FlowMaker M.Flow.Flow W.Awaits) engine.old (K.content kernel.old) }
    requires opening { Holds (means M.FlowMaker M.Flow.Flow W.Awaits) K.Gpi
        (λ setup c. (seed : ℕ) × (c ≡ emptied (opening_sim setup) (seeded seed) no_counts)) engine.old kernel.old }
    requires idle { runs_test engine.old ≡ false }
    requires few { length cases.now ≤ most_cases }
    requires sound { list_all (is_sound_case (setup_of (means M.FlowMaker M.Flow.Flow W.Awaits) engine.old).functions)
        (cases_of cases.now) ≡ true }
    ensures runs { Relates (means M.FlowMaker M.Flow.Flow W.Awaits) K.Gpi (λ setup c d. (seed : ℕ)
        → c ≡ emptied (opening_sim setup) (seeded seed) no_counts
        → RunsTo (sink_means O.Sink) setup seed (cases_of cases.now) budget (status_in result) d (K.content kernel.new) out.old out.new)
        engine.old kernel.old engine.new kernel.new }
    ensures leaves { Leaves (means M.FlowMaker M.Flow.Flow W.Awaits) K.Gpi (status_in result) engine.old engine.new kernel.new }
{
    match skip_tests(alloc, kernel.now(), cases, Progress::new(), out) {
        Ok(progress) => run_from(alloc, cases, progress, engine, kernel, out, budget, steps),
        Err(SinkFault::Failed) => Ok(Status::WriteFault),
        Err(SinkFault::OutOfMemory) => Err(NoMemory),
    }
}

/// Runs the tests of a file in order within a budget of statements, conditions, questions of loops and events (cocotb 1.8, "Writing Testbenches"):
/// each test that isn't skipped begins, runs and gets its verdict, the first at once and each further one in the time step after the end of the one
/// before it, and each that is skipped gets its line when its turn comes. All lines are put in order, one put each, with the closing line behind
/// them. `Passed` comes where no test failed, else `Failed`. `Budget` comes where the next step doesn't fit what is left of the budget, with the
/// line `BUDGET <budget>` in place of what would follow. `WriteFault` comes where the put of the next line fails, and nothing is put after it.
/// `NoMemory` comes where memory is short, and then a front of the lines was put.
///
/// Before, nothing of a test is left in the engine, no random number was drawn, and the simulator is in the opening state of the design. Each test
/// names a function with a parameter for each of its arguments besides the first, and there are at most 65,536 of them. Whatever the status is, no
/// test runs afterwards, the simulator holds a design, and the registered keys are exactly the awaited ones: `end_test` asks no more. After
/// `Passed`, `Failed` and `Budget` engine and simulator stand for the place where the run stops.
pub fn run_all<O: Sink, K: Gpi, L: Ledger, M: FlowMaker + Drop, W: Awaits>(
    alloc: Global,
    file: &TestFile,
    engine: &mut Engine<'_, M, W>,
    kernel: &mut K,
    out: &mut O,
    budget: u64,
    steps: &mut Steps<L>,
) -> Status
    requires loaded { K.is_loaded kernel.old }
    requires fits { FitsKernel (means M.FlowMaker M.Flow.Flow W.Awaits) engine.old (K.content kernel.old) }
    requires opening { Holds (means M.FlowMaker M.Flow.Flow W.Awaits) K.Gpi
        (λ setup c. (seed : ℕ) × (c ≡ emptied (opening_sim setup) (seeded seed) no_counts)) engine.old kernel.old }
    requires idle { runs_test engine.old ≡ false }
    requires few { length file.now.cases ≤ most_cases }
    requires sound { list_all (is_sound_case (setup_of (means M.FlowMaker M.Flow.Flow W.Awaits) engine.old).functions)
        (cases_of file.now.cases) ≡ true }
    ensures runs { Relates (means M.FlowMaker M.Flow.Flow W.Awaits) K.Gpi (λ setup c d. (seed : ℕ)
        → c ≡ emptied (opening_sim setup) (seeded seed) no_counts
        → RunsTo (sink_means O.Sink) setup seed (cases_of file.now.cases) budget result d (K.content kernel.new) out.old out.new)
        engine.old kernel.old engine.new kernel.new }
    ensures leaves { Leaves (means M.FlowMaker M.Flow.Flow W.Awaits) K.Gpi result engine.old engine.new kernel.new }
{
    match run_tests(alloc, &file.cases, engine, kernel, out, budget, steps) {
        Ok(status) => status,
        Err(NoMemory) => Status::NoMemory,
    }
}
