//! The answer for a row.
ghost use Rattle.std.specs.Prelude.{◌≡◌, IfOk, Some, string_bytes};
ghost use Rattle.table_rows.specs.Rows.{part_at};
ghost use Rattle.runner_tests.specs.Runner.Answers.{LeavesKept, ShowsAsked, ShowsRow, ShowsWord, asked_by};

use crate::runner::commands::{command_text, kept_text, long_text};
use crate::runner::designs::design_text;
use crate::runner::texts::tests_text;
use crate::runner::turns::turns_text;
use command::FileRunner;
use gpi::Gpi;
use port_io::NoMemory;
use std::alloc::Global;
use table_rows::{Row, push_bytes};

/// What is asked.
#[derive(Clone, Copy, Debug, PartialEq, Eq)]
enum Asked {
    /// A command.
    Command,
    /// A command on the simulator of these rows.
    Kept,
    /// A command over texts of a number of bytes.
    Long,
    /// What a design is read as.
    Design,
    /// What tests are read as.
    Tests,
    /// How many keys are registered after each turn of a test.
    Turns,
}

/// What a word asks, if anything.
fn asked_by(word: &[u8]) -> Option<Asked>
    ensures { result ≡ asked_by word.now }
{
    if word == b"command".as_slice() {
        Some(Asked::Command)
    } else if word == b"kept".as_slice() {
        Some(Asked::Kept)
    } else if word == b"long".as_slice() {
        Some(Asked::Long)
    } else if word == b"design".as_slice() {
        Some(Asked::Design)
    } else if word == b"tests".as_slice() {
        Some(Asked::Tests)
    } else if word == b"turns".as_slice() {
        Some(Asked::Turns)
    } else {
        None
    }
}

/// What a row comes to that asks this, where tests are run so. The first kernel is that of the `kept` rows: no other row touches it, and after an Err
/// of such a row nothing is said of it. The second one is that of the other commands. Only want of memory is an error, here and below.
fn asked_text<K: Gpi, R: FileRunner>(
    alloc: Global,
    asked: Asked,
    runner: &R,
    row: &Row<'_>,
    kept: &mut K,
    other: &mut K,
) -> Result<String, NoMemory>
    ensures shows { IfOk result (λ text. ShowsAsked K.content K.is_loaded asked row.now kept.old kept.new (string_bytes text)) }
    ensures leaves { LeavesKept (Some asked) kept.old kept.new }
{
    match asked {
        Asked::Command => command_text(alloc, runner, row, other),
        Asked::Kept => kept_text(alloc, runner, row, kept),
        Asked::Long => long_text(alloc, runner, row, other),
        Asked::Design => design_text(alloc, row),
        Asked::Tests => tests_text(alloc, row),
        Asked::Turns => turns_text(alloc, row),
    }
}

/// The same by the row's first word.
fn shown<K: Gpi, R: FileRunner>(
    alloc: Global,
    runner: &R,
    row: &Row<'_>,
    kept: &mut K,
    other: &mut K,
) -> Result<String, NoMemory>
    ensures shows { IfOk result
        (λ text. ShowsWord K.content K.is_loaded (asked_by (part_at 0 row.now)) row.now kept.old kept.new (string_bytes text)) }
    ensures leaves { LeavesKept (asked_by (part_at 0 row.now)) kept.old kept.new }
{
    match asked_by(row.part(0)) {
        Some(asked) => asked_text(alloc, asked, runner, row, kept, other),
        None => Ok(String::from_str(alloc, "not asked")?),
    }
}

/// The rule of a row, and what the row comes to.
pub fn answer<K: Gpi, R: FileRunner>(
    alloc: Global,
    runner: &R,
    line: &[u8],
    kept: &mut K,
    other: &mut K,
) -> Result<String, NoMemory>
    ensures shows { IfOk result (λ out. ShowsRow K.content K.is_loaded line.now kept.old kept.new (string_bytes out)) }
    ensures leaves { LeavesKept (asked_by (part_at 0 line.now)) kept.old kept.new }
{
    let row = Row::of(line);
    let mut out = String::new(alloc);
    push_bytes(&mut out, row.part(1))?;
    out.push_str(": ")?;
    let shown = shown(alloc, runner, &row, kept, other)?;
    out.push_str(&shown)?;
    Ok(out)
}
