//! Lines that a run puts between and behind its tests.
ghost use Rattle.std.specs.Prelude.{◌≡◌, ◌<◌, ◌≤◌, ℕ, List, [], ◌∷◌, length, IfOk};
ghost use Rattle.std.specs.List.{list_any};
ghost use Rattle.std.specs.Result.{result_err};
ghost use Rattle.port_io.specs.Means.{PutsTo, sink_means};
ghost use Rattle.test_meaning.specs.Body.Sound.{most_cases};
ghost use Rattle.test_meaning.specs.Body.Views.{view_case};
ghost use Rattle.run_state.specs.Lines.Tallies.{tally_of};
ghost use Rattle.rig_model.specs.Run.Line as meaning;
ghost use Rattle.rig_model.specs.Run.Verdict.{is_fail, report_of};
ghost use Rattle.rig_model.specs.declared.run.outcome.Verdict.{Verdict as declared_verdict};
ghost use Rattle.command.specs.Regression.Runs.{EndsTo, verdict_status};
ghost use Rattle.command.specs.Regression.Stages.{HasPlace, Judges, Skips, cases_from, starts_skipped};

use crate::regression::progress::Progress;
use crate::regression::status::Status;
use port_io::{Name, NoMemory, Sequence, Sink, SinkFault};
use rig_model::run::Verdict;
use run_state::lines::{Tally, budget_line, report_line, skip_line, verdict_line, verdict_of};
use std::alloc::Global;
use test_meaning::body::TestCase;

/// Puts a line that was made: why it wasn't taken, if it wasn't, or that there was no memory for it.
fn put_made<O: Sink>(
    alloc: Global,
    made: Result<Vec<u8>, NoMemory>,
    out: &mut O,
) -> Result<(), SinkFault>
    ensures { (line : List ℕ) → IfOk made (λ own. own.items ≡ line) → PutsTo (sink_means O.Sink) out.old (line ∷ []) (result_err result) out.new }
{
    match made {
        Ok(line) => out.put(alloc, line.as_slice()),
        Err(NoMemory) => Err(SinkFault::OutOfMemory),
    }
}

/// Puts the line that says that the budget was reached.
pub(crate) fn end_short<O: Sink>(alloc: Global, budget: u64, out: &mut O) -> Status
    ensures { EndsTo (sink_means O.Sink) (meaning.budget_line budget ∷ []) Status.Budget result out.old out.new }
{
    Status::Budget.after(put_made(alloc, budget_line(alloc, budget), out))
}

/// Whether a test failed.
fn status_of(tally: Tally) -> Status
    ensures { (verdicts : List declared_verdict) → tally ≡ tally_of verdicts → result ≡ verdict_status (list_any is_fail verdicts) }
{
    if tally.failed == 0 {
        Status::Passed
    } else {
        Status::Failed
    }
}

/// Puts the closing line.
pub(crate) fn close<O: Sink>(alloc: Global, time: u64, tally: Tally, out: &mut O) -> Status
    ensures { (verdicts : List declared_verdict) → tally ≡ tally_of verdicts
        → EndsTo (sink_means O.Sink) (report_of verdicts time ∷ []) (verdict_status (list_any is_fail verdicts)) result out.old out.new }
{
    status_of(tally).after(put_made(alloc, report_line(alloc, tally, time), out))
}

/// Whether there is a test at that place which is skipped.
fn is_skipped(cases: &Sequence<TestCase>, at: usize) -> bool
    ensures { result ≡ starts_skipped (cases_from cases.now at) }
{
    at < cases.len() && cases.get(at).skip
}

/// Tells the tests that are skipped before the next one, if there is one, and counts them.
pub(crate) fn skip_tests<O: Sink>(
    alloc: Global,
    time: u64,
    cases: &Sequence<TestCase>,
    progress: Progress,
    out: &mut O,
) -> Result<Progress, SinkFault>
    requires within { progress.at ≤ length cases.now }
    requires few { length cases.now ≤ most_cases }
    requires place { HasPlace progress }
    ensures { Skips (sink_means O.Sink) time cases.now progress result out.old out.new }
{
    let mut so_far = progress;
    'skips: while is_skipped(cases, so_far.at) {
        let name = cases.get(so_far.at).name.bytes();
        put_made(alloc, skip_line(alloc, time, name), out)?;
        so_far = so_far.with(Verdict::Skip);
    }
    Ok(so_far)
}

/// Puts the verdict on a test that ended at that time, which fails for that reason, if there is one, and tells the tests that are skipped behind it.
pub(crate) fn put_end<O: Sink>(
    alloc: Global,
    time: u64,
    cases: &Sequence<TestCase>,
    progress: Progress,
    case: &TestCase,
    reason: &Option<Name>,
    out: &mut O,
) -> Result<Progress, SinkFault>
    requires within { progress.at < length cases.now }
    requires few { length cases.now ≤ most_cases }
    requires place { HasPlace progress }
    ensures { Judges (sink_means O.Sink) time cases.now progress (view_case case.now) reason.now result out.old out.new }
{
    put_made(
        alloc,
        verdict_line(alloc, time, case.name.bytes(), reason),
        out,
    )?;
    skip_tests(alloc, time, cases, progress.with(verdict_of(reason)), out)
}
