//! How far a run over tests has come.
ghost use Rattle.std.specs.Prelude.{◌≡◌, ◌<◌, []};
ghost use Rattle.run_state.specs.Lines.Tallies.{tally_of};
ghost use Rattle.test_meaning.specs.Body.Sound.{most_cases};
ghost use Rattle.command.specs.Regression.Stages.{Counts, HasPlace};

use crate::regression::status::Status;
use rig_model::run::Verdict;
use run_state::lines::Tally;

/// How far a run has come: the place of the next test, and the verdicts on those before it.
#[derive(Clone, Copy)]
pub(crate) struct Progress {
    pub at: usize,
    pub tally: Tally,
}

/// What a run comes to after one of its tests.
#[derive(Clone, Copy)]
pub(crate) enum Stage {
    /// The next test may begin, or all are over.
    Goes(Progress),
    /// The run stops with this status.
    Stops(Status),
}

impl Progress {
    /// No test has begun.
    pub fn new() -> Progress
        ensures at { result.at ≡ 0 }
        ensures tally { result.tally ≡ tally_of [] }
    {
        Progress {
            at: 0,
            tally: Tally::new(),
        }
    }

    /// The next test has this verdict.
    #[tactic(auto, using(crate::proofs::RegressionLemmas::Skipping::room))]
    pub fn with(self, verdict: Verdict) -> Progress
        requires place { HasPlace self }
        requires few { self.at < most_cases }
        ensures { Counts self verdict result }
    {
        Progress {
            at: self.at + 1,
            tally: self.tally.with(verdict),
        }
    }
}
