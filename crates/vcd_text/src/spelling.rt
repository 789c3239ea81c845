//! How times, signals and their values are spelled.
ghost use Rattle.std.specs.Prelude.{◌≡◌, ◌≤◌, ◌++◌, ℕ, List, IfOk};
ghost use Rattle.std.specs.Option.{option_map, option_or};
ghost use Rattle.vcd_text.specs.Spelling as meaning;
ghost use Rattle.vcd_text.specs.Steps.{spelled_in};

use port_io::NoMemory;
use std::alloc::Global;

/// The code of a signal, by its number (IEEE 1364-2005, clause 18.2.1). Only want of memory is an error.
#[tactic(auto, using(crate::proofs::Codes::code_more, crate::proofs::Codes::code_done))]
pub(crate) fn code(alloc: Global, signal: usize) -> Result<Vec<u8>, NoMemory>
    ensures { IfOk result (λ text. text.items ≡ meaning.code signal) }
{
    let mut text = Vec::new(alloc);
    let mut rest = signal;
    while rest >= 94 {
        text.push(b'!' + (rest % 94) as u8)?;
        rest /= 94;
    }
    text.push(b'!' + rest as u8)?;
    Ok(text)
}

/// `#<time>`: the time of the lines behind it, in steps (clause 18.2.1). Only want of memory is an error.
pub(crate) fn time_line(alloc: Global, time: u64) -> Result<Vec<u8>, NoMemory>
    ensures { IfOk result (λ line. line.items ≡ meaning.time_line time) }
{
    let number = time.to_string(alloc)?;
    let mut line = Vec::new(alloc);
    line.push(b'#')?;
    line.extend_from_slice(number.as_bytes())?;
    line.push(b'\n')?;
    Ok(line)
}

/// What stands before the code in the line of a value: one digit, or `b`, digits, the highest first, and a blank (clause 18.2.2).
fn value_front(alloc: Global, digits: &[u8]) -> Result<Vec<u8>, NoMemory>
    ensures { IfOk result (λ front. front.items ≡ meaning.value_front digits.now) }
{
    let mut front = Vec::new(alloc);
    if digits.len() == 1 {
        front.extend_from_slice(digits)?;
        return Ok(front);
    }
    front.push(b'b')?;
    front.extend_from_slice(digits)?;
    front.push(b' ')?;
    Ok(front)
}

/// The line after which a signal has these digits, which are `0`, `1`, `x` and `z`, the highest first (clause 18.2.2). Only want of memory
/// is an error.
pub(crate) fn value_line(alloc: Global, signal: usize, digits: &[u8]) -> Result<Vec<u8>, NoMemory>
    ensures { IfOk result (λ line. line.items ≡ meaning.value_line signal digits.now) }
{
    let code = code(alloc, signal)?;
    let mut line = value_front(alloc, digits)?;
    line.extend_from_slice(&code)?;
    line.push(b'\n')?;
    Ok(line)
}

/// How a step is spelled: `1 `, `10 ` or `100 `, and a unit.
#[derive(Clone, Copy, Drop)]
pub(crate) struct SpelledStep {
    pub(crate) count: &'static [u8],
    pub(crate) unit: &'static [u8],
}

/// How often a unit of so many femtoseconds is in a step, where that is 1, 10 or 100 times.
fn count_in(step: u64, unit: u64) -> Option<&'static [u8]>
    requires { unit ≤ 1_000_000_000_000_000 }
    ensures { (name : List ℕ) → option_map (λ count. count.now ++ name) result
        ≡ meaning.step_in step (record { femtoseconds = unit; name = name }) }
{
    if step == unit {
        Some(b"1 ".as_slice())
    } else if step == 10 * unit {
        Some(b"10 ".as_slice())
    } else if step == 100 * unit {
        Some(b"100 ".as_slice())
    } else {
        None
    }
}

/// A step by a unit, or else as it is spelled by the units behind it.
fn by_unit(
    step: u64,
    femtoseconds: u64,
    unit: &'static [u8],
    smaller: Option<SpelledStep>,
) -> Option<SpelledStep>
    requires { femtoseconds ≤ 1_000_000_000_000_000 }
    ensures { spelled_in result ≡ option_or (meaning.step_in step (record { femtoseconds = femtoseconds; name = unit.now })) (spelled_in smaller) }
{
    match count_in(step, femtoseconds) {
        Some(count) => Some(SpelledStep { count, unit }),
        None => smaller,
    }
}

/// A step of so many femtoseconds, by the greatest unit of which it is 1, 10 or 100 (clause 18.2.3, `$timescale`).
pub(crate) fn spelled_step(step: u64) -> Option<SpelledStep>
    ensures { spelled_in result ≡ meaning.spelled_step step }
{
    let by_fs = by_unit(step, 1, b"fs", None);
    let by_ps = by_unit(step, 1_000, b"ps", by_fs);
    let by_ns = by_unit(step, 1_000_000, b"ns", by_ps);
    let by_us = by_unit(step, 1_000_000_000, b"us", by_ns);
    let by_ms = by_unit(step, 1_000_000_000_000, b"ms", by_us);
    by_unit(step, 1_000_000_000_000_000, b"s", by_ms)
}
