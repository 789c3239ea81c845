//! The words as a reading.
ghost use Rattle.std.specs.Prelude.{◌≡◌, ◌≢◌, MatchOption, MatchResult, codes, map, string_bytes};
ghost use Rattle.clap.specs.Walk.{first_of, texts};
ghost use Rattle.clap.specs.Words.{found_of, rows_of};
ghost use Rattle.clap.specs.declared.error.kind.ErrorKind.TheVariants.{OutOfMemory};
ghost use Rattle.command.specs.CommandWords.Arguments.{IsFormIn, first, flag_in, listed};
ghost use Rattle.command.specs.CommandWords.Forms.{Asked, AreFiles, Form, IsAsked, IsFlag, IsGenerated, Reads, asked_of, form_of, stands_apart};

use crate::command_words::arguments::simple_command;
use crate::command_words::numbers::{number, number_or};
use crate::command_words::reading::{Reading, WordsFault, Work};
use clap::ArgMatches;
use clap::error::ErrorKind;
use std::alloc::Global;

/// What a run may cost at most, 2^40.
const MOST_BUDGET: u64 = 1_099_511_627_776;

/// What a run may cost where nothing is said.
const BUDGET: u64 = 10_000_000;

/// Two files, where no name is empty.
fn files_work<'a>(design: &'a str, tests: &'a str, top: Option<&'a str>) -> Option<Work<'a>>
    ensures { MatchOption result ((asked : Asked) → AreFiles design.now tests.now (listed top.entry) asked → ⊥)
        (λ work. AreFiles design.now tests.now (listed top.entry) (asked_of work)) }
{
    let is_top_empty = match top {
        Some(name) => name.is_empty(),
        None => false,
    };
    if design.is_empty() || tests.is_empty() || is_top_empty {
        return None;
    }
    Some(Work::Files { design, tests, top })
}

/// Generated texts, by the text of their number.
fn made_work<'a>(text: &str) -> Option<Work<'a>>
    ensures { MatchOption result ((asked : Asked) → IsGenerated text.now asked → ⊥) (λ work. IsGenerated text.now (asked_of work)) }
{
    match number(text, 0, 4_294_967_295) {
        Some(number) => Some(Work::Made(number as u32)),
        None => None,
    }
}

/// Which of the two forms stands there.
fn work<'a>(files: &[&'a str], top: Option<&'a str>, made: Option<&str>) -> Option<Work<'a>>
    ensures { MatchOption result
        ((asked : Asked) → IsAsked (texts files.now) (listed top.entry) (listed made.entry) asked → ⊥)
        (λ work. IsAsked (texts files.now) (listed top.entry) (listed made.entry) (asked_of work)) }
{
    match (files, top, made) {
        ([design, tests], _, None) => files_work(design, tests, top),
        ([], None, Some(text)) => made_work(text),
        _ => None,
    }
}

/// The value of an option, where one was found.
fn value_of<'a>(matches: &ArgMatches<'a>, name: &str) -> Option<&'a str>
    ensures { listed result ≡ first name.now (rows_of (found_of matches.now)) }
{
    matches.get_str(name)
}

/// Whether a flag was found.
fn is_flagged(matches: &ArgMatches<'_>, name: &str) -> bool
    ensures { IsFlag (flag_in (first_of name.now (rows_of (found_of matches.now)))) result }
{
    match matches.get_str(name) {
        Some(text) => text == "true",
        None => false,
    }
}

/// Whether a VCD text isn't asked for beside lines for told changes, or of generated texts.
fn stands_apart(work: Work<'_>, trace: bool, vcd: bool) -> bool
    ensures { result ≡ stands_apart (asked_of work.entry) trace vcd }
{
    match work {
        Work::Files { .. } => !vcd || !trace,
        Work::Made(_) => !vcd,
    }
}

/// What was found as a reading.
fn reading<'a>(matches: &ArgMatches<'a>) -> Option<Reading<'a>>
    ensures { MatchOption result ((form : Form) → IsFormIn (rows_of (found_of matches.now)) form → ⊥)
        (λ reading. IsFormIn (rows_of (found_of matches.now)) (form_of reading)) }
{
    let files = matches.get_strs("files").unwrap_or(&[]);
    let Some(work) = work(files, value_of(matches, "top"), value_of(matches, "made")) else {
        return None;
    };
    let Some(budget) = number_or(value_of(matches, "budget"), BUDGET, 1, MOST_BUDGET) else {
        return None;
    };
    let Some(seed) = number_or(value_of(matches, "seed"), 0, 0, u64::MAX) else {
        return None;
    };
    let trace = is_flagged(matches, "trace");
    let vcd = is_flagged(matches, "vcd");
    if !stands_apart(work, trace, vcd) {
        return None;
    }
    Some(Reading {
        work,
        budget,
        seed,
        trace,
        vcd,
    })
}

/// What an error of `clap` tells of the words.
fn fault_of(kind: ErrorKind) -> WordsFault
    ensures { result ≡ WordsFault.Usage → kind ≢ OutOfMemory }
{
    match kind {
        ErrorKind::OutOfMemory => WordsFault::OutOfMemory,
        _ => WordsFault::Usage,
    }
}

/// The one reading of the words of the command, without the program's name: `[--top NAME] [--budget N] [--seed N] [--trace | --vcd] DESIGN
/// TESTS` or `[--budget N] [--seed N] [--trace] --made N`.
///
/// Options and files stand in any order. An option's value is the next word, which doesn't begin with `-` unless it is `-`, or stands
/// behind `=`. Behind the word `--` all words are files. No option stands twice, no value and no name is empty. A number has 1 to 20
/// digits.
///
/// `Usage` comes exactly where the words have no reading. `OutOfMemory` comes where memory was short.
pub fn read_words<'a>(alloc: Global, words: &'a [String]) -> Result<Reading<'a>, WordsFault>
    ensures { MatchResult result (λ reading. Reads (map string_bytes words.now) (form_of reading))
        (λ fault. fault ≡ WordsFault.Usage → (form : Form) → Reads (map string_bytes words.now) form → ⊥) }
{
    let Ok(command) = simple_command(alloc) else {
        return Err(WordsFault::OutOfMemory);
    };
    match command.try_get_matches_from(words) {
        Ok(matches) => match reading(&matches) {
            Some(reading) => Ok(reading),
            None => Err(WordsFault::Usage),
        },
        Err(error) => Err(fault_of(error.kind())),
    }
}
