//! What a test knows of those before it.
ghost use Rattle.run_laws.specs.SeparateTests.Separate.{NothingBetween, SeparateRuns, SeparateTests};

/// Between two tests nothing of a test is there: no task, no task that waits, no event or lock, no staged write, no deadline and no outcome.
pub fn nothing_is_left_between_tests()
    ensures { NothingBetween }
{}

/// Two runs of one setup that agree between tests in the state of the simulator, the random numbers, the planned start and the tests left: step by
/// step they add the same lines and verdicts at the same cost from then on, as long as neither meets its budget.
pub fn tests_are_separate()
    ensures { SeparateTests }
{}

/// The same for two runs to their ends, each with a seed, tests and a budget of its own.
pub fn runs_are_separate()
    ensures { SeparateRuns }
{}
