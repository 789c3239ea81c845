//! What never comes is without effect.
ghost use Rattle.run_laws.specs.Remainder.Remainder.{MarkedRemainder, RunRemainder, StepRemainder};

/// A step that doesn't begin the rest of a function is the same where the function ends otherwise, and costs as much.
pub fn remainder_of_a_step()
    ensures { StepRemainder }
{}

/// Where no step of a run begins the rest of a function, nor would the next one, the run of a file in which the function ends otherwise gives the
/// same: what is written, the verdicts, the cost and the counts of keys.
pub fn remainder_of_a_run()
    ensures { RunRemainder }
{}

/// The same of two files over a third one, in which the function ends with a mark, which its run never begins.
pub fn remainder_behind_a_mark()
    ensures { MarkedRemainder }
{}
