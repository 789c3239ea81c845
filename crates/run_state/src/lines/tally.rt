//! How many tests passed, failed and were skipped.
ghost use Rattle.std.specs.Prelude.{◌≡◌, ◌<◌, ◌^◌, ◌-◌, ◌++◌, ◌∷◌, [], List};
ghost use Rattle.rig_model.specs.declared.run.outcome.Verdict.{Verdict as declared_verdict};
ghost use Rattle.run_state.specs.Lines.Tallies.{HasRoom, tally_of, with_verdict};

use rig_model::run::Verdict;

/// How many tests there were, and how many of them passed, failed and were skipped.
#[derive(Clone, Copy, Debug, PartialEq, Eq)]
pub struct Tally {
    pub tests: u64,
    pub passed: u64,
    pub failed: u64,
    pub skipped: u64,
}

impl Tally {
    /// No test yet.
    pub fn new() -> Tally
        ensures { result ≡ tally_of [] }
    {
        Tally {
            tests: 0,
            passed: 0,
            failed: 0,
            skipped: 0,
        }
    }

    /// One more test, with that verdict, where no number is at its largest.
    fn more(self, verdict: Verdict) -> Tally
        requires tests { self.tests < 2 ^ 64 - 1 }
        requires passed { self.passed < 2 ^ 64 - 1 }
        requires failed { self.failed < 2 ^ 64 - 1 }
        requires skipped { self.skipped < 2 ^ 64 - 1 }
        ensures { result ≡ with_verdict self verdict }
    {
        let tests = self.tests + 1;
        match verdict {
            Verdict::Pass => Tally {
                tests,
                passed: self.passed + 1,
                failed: self.failed,
                skipped: self.skipped,
            },
            Verdict::Fail => Tally {
                tests,
                passed: self.passed,
                failed: self.failed + 1,
                skipped: self.skipped,
            },
            Verdict::Skip => Tally {
                tests,
                passed: self.passed,
                failed: self.failed,
                skipped: self.skipped + 1,
            },
        }
    }

    /// One more test, with that verdict, where the tally counts fewer than 2^64 - 1.
    #[tactic(auto, using(crate::proofs::LinesLemmas::Counts::counts, crate::proofs::LinesLemmas::Counts::rooms))]
    pub fn with(self, verdict: Verdict) -> Tally
        requires { HasRoom self }
        ensures { (verdicts : List declared_verdict) → self ≡ tally_of verdicts → result ≡ tally_of (verdicts ++ verdict ∷ []) }
    {
        self.more(verdict)
    }
}
