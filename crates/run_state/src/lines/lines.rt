//! Lines that begin with the time. It is in steps.
ghost use Rattle.std.specs.Prelude.{◌≡◌, ◌++◌, IfOk, codes};
ghost use Rattle.std.specs.Fmt.{decimal};
ghost use Rattle.rig_model.specs.Run.Line as meaning;

use crate::lines::number::{add_digits, add_number};
use four_value::Bits;
use port_io::{Name, NoMemory};
use py_syntax::LogLevel;
use std::alloc::{AllocError, Global};

/// What a line of that time begins with: the time, and a text behind a blank.
fn timed(alloc: Global, time: u64, text: &[u8]) -> Result<Vec<u8>, AllocError>
    ensures { IfOk result (λ line. line.items ≡ decimal time ++ codes " " ++ text.now) }
{
    let mut line = Vec::new(alloc);
    add_number(alloc, &mut line, time)?;
    line.extend_from_slice(b" ")?;
    line.extend_from_slice(text)?;
    Ok(line)
}

/// The line of that time with one text right behind another.
fn line_of_two(alloc: Global, time: u64, first: &[u8], second: &[u8]) -> Result<Vec<u8>, NoMemory>
    ensures { IfOk result (λ line. line.items ≡ meaning.timed_line time (first.now ++ second.now)) }
{
    let mut line = timed(alloc, time, first)?;
    line.extend_from_slice(second)?;
    line.push(b'\n')?;
    Ok(line)
}

/// `<time> TEST <name>`: a test begins.
pub fn test_line(alloc: Global, time: u64, name: &[u8]) -> Result<Vec<u8>, NoMemory>
    ensures { IfOk result (λ line. line.items ≡ meaning.test_line time name.now) }
{
    line_of_two(alloc, time, b"TEST ", name)
}

/// `<time> SKIP <name>`: a test is skipped.
pub fn skip_line(alloc: Global, time: u64, name: &[u8]) -> Result<Vec<u8>, NoMemory>
    ensures { IfOk result (λ line. line.items ≡ meaning.skip_line time name.now) }
{
    line_of_two(alloc, time, b"SKIP ", name)
}

/// A level as it stands in a line, with the blank behind it.
fn level_front(level: LogLevel) -> &'static [u8]
    ensures { result.now ≡ meaning.level_word level ++ codes " " }
{
    match level {
        LogLevel::Info => b"INFO ",
        LogLevel::Warning => b"WARNING ",
        LogLevel::Error => b"ERROR ",
    }
}

/// `<time> <level> <text>`: a task writes a log line.
pub fn log_line(alloc: Global, time: u64, level: LogLevel, text: &[u8]) -> Result<Vec<u8>, NoMemory>
    ensures { IfOk result (λ line. line.items ≡ meaning.log_line time level text.now) }
{
    line_of_two(alloc, time, level_front(level), text)
}

/// `<time> SIG <path> <digits>`: from now on the signal of that path has these digits, which are `0`, `1`, `x` and `z`, the highest first
/// (IEEE 1364-2005, 17.1.1.4).
#[tactic(auto, using(crate::proofs::LinesLemmas::Parts::joined_four))]
pub fn sig_line(alloc: Global, time: u64, path: &[u8], bits: Bits) -> Result<Vec<u8>, NoMemory>
    ensures { IfOk result (λ line. line.items ≡ meaning.sig_line time path.now bits) }
{
    let mut line = timed(alloc, time, b"SIG ")?;
    line.extend_from_slice(path)?;
    line.extend_from_slice(b" ")?;
    add_digits(&mut line, bits)?;
    line.push(b'\n')?;
    Ok(line)
}

/// `<time> FAIL <name> (<reason>)`: a test failed for that reason.
#[tactic(auto, using(crate::proofs::LinesLemmas::Parts::joined_five))]
fn fail_line(alloc: Global, time: u64, name: &[u8], reason: &[u8]) -> Result<Vec<u8>, NoMemory>
    ensures { IfOk result (λ line. line.items ≡ meaning.timed_line time (codes "FAIL " ++ name.now ++ codes " (" ++ reason.now ++ codes ")")) }
{
    let mut line = timed(alloc, time, b"FAIL ")?;
    line.extend_from_slice(name)?;
    line.extend_from_slice(b" (")?;
    line.extend_from_slice(reason)?;
    line.extend_from_slice(b")")?;
    line.push(b'\n')?;
    Ok(line)
}

/// `<time> PASS <name>`, or `<time> FAIL <name> (<reason>)` where there is a reason: the verdict on a test.
pub fn verdict_line(
    alloc: Global,
    time: u64,
    name: &[u8],
    reason: &Option<Name>,
) -> Result<Vec<u8>, NoMemory>
    ensures { IfOk result (λ line. line.items ≡ meaning.verdict_line time name.now reason.now) }
{
    match reason {
        None => line_of_two(alloc, time, b"PASS ", name),
        Some(reason) => fail_line(alloc, time, name, reason.bytes()),
    }
}
