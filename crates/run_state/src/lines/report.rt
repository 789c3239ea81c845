//! What stands at the end of a run.
ghost use Rattle.std.specs.Prelude.{◌≡◌, IfOk, List};
ghost use Rattle.rig_model.specs.Run.Line as lines;
ghost use Rattle.rig_model.specs.Run.Verdict as meaning;
ghost use Rattle.rig_model.specs.declared.run.outcome.Verdict.{Verdict as declared_verdict};
ghost use Rattle.run_state.specs.Lines.Tallies.{tally_of};

use crate::lines::Tally;
use crate::lines::number::add_number;
use port_io::NoMemory;
use std::alloc::Global;

/// The closing line of these numbers.
fn counts_text(alloc: Global, tally: Tally, time: u64) -> Result<Vec<u8>, NoMemory>
    ensures { IfOk result (λ line. line.items ≡ lines.report_line tally.tests tally.passed tally.failed tally.skipped time) }
{
    let mut line = Vec::new(alloc);
    line.extend_from_slice(b"** TESTS=")?;
    add_number(alloc, &mut line, tally.tests)?;
    line.extend_from_slice(b" PASS=")?;
    add_number(alloc, &mut line, tally.passed)?;
    line.extend_from_slice(b" FAIL=")?;
    add_number(alloc, &mut line, tally.failed)?;
    line.extend_from_slice(b" SKIP=")?;
    add_number(alloc, &mut line, tally.skipped)?;
    line.extend_from_slice(b" TIME=")?;
    add_number(alloc, &mut line, time)?;
    line.extend_from_slice(b" **")?;
    line.push(b'\n')?;
    Ok(line)
}

/// `** TESTS=<tests> PASS=<passed> FAIL=<failed> SKIP=<skipped> TIME=<time> **`: the closing line of a run. The time is in steps.
pub fn report_line(alloc: Global, tally: Tally, time: u64) -> Result<Vec<u8>, NoMemory>
    ensures is { IfOk result (λ line. line.items ≡ lines.report_line tally.tests tally.passed tally.failed tally.skipped time) }
    ensures of { IfOk result (λ line. (verdicts : List declared_verdict) → tally ≡ tally_of verdicts → line.items ≡ meaning.report_of verdicts time) }
{
    counts_text(alloc, tally, time)
}

/// `BUDGET <budget>`: what stands in place of the closing line where the budget, in statements and events, is reached.
pub fn budget_line(alloc: Global, budget: u64) -> Result<Vec<u8>, NoMemory>
    ensures { IfOk result (λ line. line.items ≡ lines.budget_line budget) }
{
    let mut line = Vec::new(alloc);
    line.extend_from_slice(b"BUDGET ")?;
    add_number(alloc, &mut line, budget)?;
    line.push(b'\n')?;
    Ok(line)
}
