//! The reader of VCD texts (IEEE 1364-2005, clause 18).
ghost use Rattle.std.specs.Prelude.{◌≡◌, ◌+◌, ◌<◌, ◌≤◌, ◌^◌, ℕ, [], length, Decides, IfOk, IsErrOf, MatchOption};
ghost use Rattle.vcd_text.specs.Reading.{IsOneLine};
ghost use Rattle.vcd_text.specs.Rules.{IsOver, IsRead, IsRefused, begun};
ghost use Rattle.vcd_text.specs.Reader.{IsBehind, IsKept, IsNextLine, last_number, state_of};
ghost use Rattle.vcd_text.specs.declared.change.VcdFault.TheVariants.{BadLine};

use crate::change::{Change, VcdFault};
use crate::reader::Reader;
use port_io::NoMemory;
use std::alloc::Global;

/// The first line of a text, with its line feed, and what stands behind it.
fn next_line(text: &[u8]) -> Option<(&[u8], &[u8])>
    ensures { MatchOption result (IsOneLine text.now) (λ parts. IsNextLine text.now parts.0.now parts.1.now) }
{
    for at in 0..text.len() {
        if text[at] == b'\n' {
            return Some(text.split_at(at + 1));
        }
    }
    None
}

/// Takes the lines of a text, and gives their number and what stands behind the last one.
fn read_lines<'t>(
    alloc: Global,
    reader: &mut Reader,
    text: &'t [u8],
) -> Result<(usize, &'t [u8]), VcdFault>
    requires begins { state_of reader.old ≡ begun }
    requires kept { IsKept reader.old.codes reader.old.known.items reader.old.free }
    ensures read { IfOk result (λ found.
        IsBehind text.now found.1.now found.0 (state_of reader.new) × IsOneLine found.1.now × (found.0 + length found.1.now ≤ length text.now)) }
    ensures refused { (line : ℕ) → IsErrOf result (BadLine line) → IsRefused text.now line }
{
    let mut rest = text;
    let mut number = 0;
    'lines: while let Some((line, behind)) = next_line(rest) {
        number += 1;
        match reader.take(alloc, line) {
            Ok(true) => rest = behind,
            Ok(false) => return Err(VcdFault::BadLine(number as u64)),
            Err(NoMemory) => return Err(VcdFault::OutOfMemory),
        }
    }
    Ok((number, rest))
}

/// The number of the last line of a text that has so many lines and this behind them, from 1; 1 where there is none.
fn last_number(number: usize, rest: &[u8]) -> u64
    requires { number + length rest.now < 2 ^ 64 }
    ensures { result ≡ last_number number rest.now }
{
    if rest.is_empty() {
        number.max(1) as u64
    } else {
        number as u64 + 1
    }
}

/// Whether a text may end behind the lines that were taken and this open line.
fn can_end(reader: &Reader, rest: &[u8]) -> bool
    ensures { Decides result ((rest.now ≡ []) × IsOver (state_of reader.now)) }
{
    rest.is_empty() && reader.is_over()
}

/// The changes that a VCD text tells, in order (IEEE 1364-2005, clause 18.2), where it keeps the rules of the texts that a
/// [`VcdSink`](crate::VcdSink) writes, line by line. `BadLine` is told of the first line that by these rules can't stand behind those before it, by
/// its number from 1. Where all lines can, but the text can't end there, it is told of the last one, and of line 1 of an empty text. `OutOfMemory`
/// comes only from want of memory.
pub fn read(alloc: Global, text: &[u8]) -> Result<Vec<Change>, VcdFault>
    ensures changes { IfOk result (λ changes. IsRead text.now changes.items) }
    ensures refused { (line : ℕ) → IsErrOf result (BadLine line) → IsRefused text.now line }
{
    let mut reader = Reader::new(alloc);
    let (number, rest) = read_lines(alloc, &mut reader, text)?;
    if can_end(&reader, rest) {
        return Ok(reader.changes);
    }
    Err(VcdFault::BadLine(last_number(number, rest)))
}
