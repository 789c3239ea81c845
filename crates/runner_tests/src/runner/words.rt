//! How a status, counts, digits and lines are shown.
ghost use Rattle.std.specs.Prelude.{◌≡◌, ◌++◌, IfOk, codes, string_bytes};
ghost use Rattle.table_rows.specs.Shown.{latin};
ghost use Rattle.runner_tests.specs.Runner.Words.{counted_word, counts_word, digit_word, ended_word, status_word};

use command::regression::Status;
use four_value::Digit;
use gpi::Gpi;
use port_io::NoMemory;
use std::alloc::{AllocError, Global};
use table_rows::{push_bytes, quoted};

/// Bytes as characters. Only want of memory is an error, here and below.
pub fn latin_text(alloc: Global, bytes: &[u8]) -> Result<String, AllocError>
    ensures { IfOk result (λ text. string_bytes text ≡ latin bytes.now) }
{
    let mut text = String::new(alloc);
    push_bytes(&mut text, bytes)?;
    Ok(text)
}

/// The name of a status.
pub fn status_name(status: Status) -> &'static str
    ensures { result.now ≡ status_word status }
{
    match status {
        Status::Passed => "Passed",
        Status::Failed => "Failed",
        Status::Usage => "Usage",
        Status::DesignRefused => "DesignRefused",
        Status::TestsRefused => "TestsRefused",
        Status::ReadFault => "ReadFault",
        Status::WriteFault => "WriteFault",
        Status::NoMemory => "NoMemory",
        Status::Budget => "Budget",
    }
}

/// The name of a digit.
pub fn digit_name(digit: Digit) -> &'static str
    ensures { result.now ≡ digit_word digit }
{
    match digit {
        Digit::Zero => "Zero",
        Digit::One => "One",
        Digit::X => "X",
        Digit::Z => "Z",
    }
}

/// How many keys a simulator registered, removed and fired since it was loaded.
pub fn counts_text<K: Gpi>(alloc: Global, kernel: &K) -> Result<String, NoMemory>
    ensures { IfOk result (λ text. string_bytes text ≡ counts_word (K.content kernel.now).counts) }
{
    let counts = kernel.counts();
    Ok(format!(in alloc;
        "primed={} removed={} fired={}",
        counts.primed, counts.removed, counts.fired
    )?)
}

/// A status by its number and its name, and the lines that were put.
pub fn ended_text(alloc: Global, status: Status, lines: &[u8]) -> Result<String, NoMemory>
    ensures { IfOk result (λ text. string_bytes text ≡ ended_word status lines.now) }
{
    let lines = quoted(alloc, lines)?;
    let name = status_name(status);
    Ok(format!(in alloc; "{} {name} {lines}", status.code())?)
}

/// Three texts between spaces.
fn spaced(alloc: Global, first: &str, second: &str, third: &str) -> Result<String, AllocError>
    ensures { IfOk result (λ text. string_bytes text ≡ first.now ++ (codes " " ++ (second.now ++ (codes " " ++ third.now)))) }
{
    format!(in alloc; "{first} {second} {third}")
}

/// A status, the counts of a simulator's keys, and the lines that were put.
pub fn counted_text<K: Gpi>(
    alloc: Global,
    status: Status,
    kernel: &K,
    lines: &[u8],
) -> Result<String, NoMemory>
    ensures { IfOk result (λ text. string_bytes text ≡ counted_word status (K.content kernel.now).counts lines.now) }
{
    let counts = counts_text(alloc, kernel)?;
    let lines = quoted(alloc, lines)?;
    Ok(spaced(alloc, status_name(status), &counts, &lines)?)
}
