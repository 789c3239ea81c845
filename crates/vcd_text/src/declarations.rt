//! The lines that declare instances and signals (IEEE 1364-2005, clause 18.2.3).
ghost use Rattle.std.specs.Prelude.{◌≡◌, IfOk};
ghost use Rattle.vcd_text.specs.Text as meaning;

use crate::spelling::code;
use four_value::Digit;
use gpi::Signal;
use port_io::NoMemory;
use std::alloc::Global;

/// `$scope module <name> $end`: an instance of that name begins. Only want of memory is an error.
pub(crate) fn scope_line(alloc: Global, name: &[u8]) -> Result<Vec<u8>, NoMemory>
    ensures { IfOk result (λ line. line.items ≡ meaning.scope_line name.now) }
{
    let mut line = Vec::new(alloc);
    line.extend_from_slice(b"$scope module ")?;
    line.extend_from_slice(name)?;
    line.extend_from_slice(b" $end")?;
    line.push(b'\n')?;
    Ok(line)
}

/// What kind of variable has this digit at the start: x a register, z a net.
fn kind_word(start: Digit) -> &'static [u8]
    ensures { result.now ≡ meaning.kind_word start }
{
    match start {
        Digit::X => b"reg",
        _ => b"wire",
    }
}

/// What stands behind the name of a signal of that width: the places of a vector's digits, and nothing for one digit.
pub(crate) fn range_text(alloc: Global, width: u8) -> Result<Vec<u8>, NoMemory>
    ensures { IfOk result (λ text. text.items ≡ meaning.range_text width) }
{
    let mut text = Vec::new(alloc);
    if width == 1 {
        return Ok(text);
    }
    let highest = width.saturating_sub(1).to_string(alloc)?;
    text.extend_from_slice(b" [")?;
    text.extend_from_slice(highest.as_bytes())?;
    text.extend_from_slice(b":0]")?;
    Ok(text)
}

/// `$var <wire or reg> <width> <code> <name> $end`, with the range of a vector behind its name: a signal of that number, by its name in its
/// instance. Only want of memory is an error.
pub(crate) fn signal_line(
    alloc: Global,
    number: usize,
    name: &[u8],
    signal: &Signal,
) -> Result<Vec<u8>, NoMemory>
    ensures { IfOk result (λ line. line.items ≡ meaning.signal_line number name.now signal.now) }
{
    let width = signal.width.to_string(alloc)?;
    let code = code(alloc, number)?;
    let range = range_text(alloc, signal.width)?;
    let mut line = Vec::new(alloc);
    line.extend_from_slice(b"$var ")?;
    line.extend_from_slice(kind_word(signal.start))?;
    line.push(b' ')?;
    line.extend_from_slice(width.as_bytes())?;
    line.push(b' ')?;
    line.extend_from_slice(&code)?;
    line.push(b' ')?;
    line.extend_from_slice(name)?;
    line.extend_from_slice(&range)?;
    line.extend_from_slice(b" $end")?;
    line.push(b'\n')?;
    Ok(line)
}
