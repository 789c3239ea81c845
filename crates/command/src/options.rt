//! How tests are run.
ghost use Rattle.std.specs.Prelude.{◌≡◌};
ghost use Rattle.command.specs.CommandWords.Forms.{asked_of, form_of};
ghost use Rattle.command.specs.Reading.{options_in, shown_in};

use crate::command_words::{Reading, Work};

/// What is put of a run.
#[derive(Clone, Copy, Debug)]
pub enum Shown {
    /// All its lines.
    AllLines,
    /// The last of its lines alone.
    LastLine,
    /// The VCD text of its changes (IEEE 1364-2005, clause 18), in place of its lines.
    VcdText,
}

/// How tests are run.
#[derive(Clone, Copy, Debug)]
pub struct RunOptions {
    /// What the run may cost: one for each statement that begins, an `async with` among them, each condition and question of a loop, and each
    /// event of the simulator.
    pub budget: u64,
    /// The seed of the random numbers.
    pub seed: u64,
    /// Whether the run has a line for each told change of a signal.
    pub trace: bool,
    /// What is put of the run.
    pub shown: Shown,
}

/// What is put of a run, by whether told changes have lines and whether its VCD text is asked for: of the run of generated texts the last line
/// alone, unless told changes have lines.
fn shown_of(work: Work<'_>, trace: bool, vcd: bool) -> Shown
    ensures { result ≡ shown_in (asked_of work.entry) trace vcd }
{
    match work {
        Work::Files { .. } if vcd => Shown::VcdText,
        Work::Files { .. } => Shown::AllLines,
        Work::Made(_) if trace => Shown::AllLines,
        Work::Made(_) => Shown::LastLine,
    }
}

/// The options that a reading of the words has.
pub(crate) fn options_of(reading: Reading<'_>) -> RunOptions
    ensures { result ≡ options_in (form_of reading.entry) }
{
    RunOptions {
        budget: reading.budget,
        seed: reading.seed,
        trace: reading.trace || reading.vcd,
        shown: shown_of(reading.work, reading.trace, reading.vcd),
    }
}
