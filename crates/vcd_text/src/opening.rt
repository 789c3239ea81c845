//! The lines of a text before its changes: the step, declarations and opening values (IEEE 1364-2005, clause 18.2.3).
ghost use Rattle.std.specs.Prelude.{◌≡◌, ◌∷◌, ◌++◌, [], OnOk, IfOk, map, replicate};
ghost use Rattle.four_value.specs.Vector.{digit_byte};
ghost use Rattle.vcd_text.specs.Spelling.{spelled_step};
ghost use Rattle.vcd_text.specs.Hierarchy as hierarchy;
ghost use Rattle.vcd_text.specs.Text as meaning;
ghost use Rattle.vcd_text.specs.OpeningLines.{signal_lines, instance_lines, inside_lines, inner_lines};

use crate::declarations::{scope_line, signal_line};
use crate::lines::add_line;
use crate::signals::TracedSignals;
use crate::spelling::{spelled_step, value_line};
use four_value::Digit;
use gpi::{Flat, Node, Signal, Spot};
use port_io::{Name, NoMemory, Sequence};
use std::alloc::Global;

/// How many instances may stand inside one another, the top among them.
const MOST_NESTED: u32 = 65;

/// `$timescale <1, 10 or 100> <unit> $end`, and no byte where the step has no spelling. Only want of memory is an error.
fn step_line(alloc: Global, step: u64) -> Result<Vec<u8>, NoMemory>
    ensures { IfOk result (λ line. line.items ≡ meaning.step_line (spelled_step step)) }
{
    let mut line = Vec::new(alloc);
    let Some(words) = spelled_step(step) else {
        return Ok(line);
    };
    line.extend_from_slice(b"$timescale ")?;
    line.extend_from_slice(words.count)?;
    line.extend_from_slice(words.unit)?;
    line.extend_from_slice(b" $end")?;
    line.push(b'\n')?;
    Ok(line)
}

/// The path of the top, which is its name.
fn top_path(nodes: &Sequence<Node>) -> &[u8]
    ensures { result.now ≡ hierarchy.top_path nodes.now }
{
    if nodes.is_empty() {
        &[]
    } else {
        nodes.get(0).path.bytes()
    }
}

/// The line that declares a signal by its number, which has no byte where there is no such signal.
fn declared_line(
    alloc: Global,
    signals: &Sequence<Signal>,
    number: usize,
    name: &[u8],
) -> Result<Vec<u8>, NoMemory>
    ensures { IfOk result (λ line. line.items ≡ meaning.declaration_line signals.now (hierarchy.Declares number name.now)) }
{
    if number < signals.len() {
        signal_line(alloc, number, name, signals.get(number))
    } else {
        Ok(Vec::new(alloc))
    }
}

/// Adds the line of a signal.
fn add_declared(
    alloc: Global,
    lines: &mut Sequence<Name>,
    signals: &Sequence<Signal>,
    number: usize,
    name: &[u8],
) -> Result<(), NoMemory>
    ensures { OnOk result (lines.new ≡ lines.old ++ meaning.declaration_line signals.now (hierarchy.Declares number name.now) ∷ []) }
{
    let line = declared_line(alloc, signals, number, name)?;
    add_line(alloc, lines, &line)
}

/// Adds the line of what a name stands for, where that is a signal.
fn add_signal(
    alloc: Global,
    lines: &mut Sequence<Name>,
    signals: &Sequence<Signal>,
    child: &(Name, Spot),
) -> Result<(), NoMemory>
    ensures { OnOk result (lines.new ≡ lines.old ++ map (meaning.declaration_line signals.now) (hierarchy.own_signals (child.now ∷ []))) }
{
    match child.1 {
        Spot::Sig(signal) => {
            add_declared(alloc, lines, signals, signal.0 as usize, child.0.bytes())
        }
        Spot::Inner(_) | Spot::Words { .. } => Ok(()),
    }
}

/// Adds the lines of the signals of an instance.
fn add_signals(
    alloc: Global,
    lines: &mut Sequence<Name>,
    signals: &Sequence<Signal>,
    children: &Sequence<(Name, Spot)>,
) -> Result<(), NoMemory>
    ensures { OnOk result (lines.new ≡ lines.old ++ signal_lines signals.now children.now) }
{
    for at in 0..children.len() {
        add_signal(alloc, lines, signals, children.get(at))?;
    }
    Ok(())
}

/// Adds the lines of an instance of that name and of all inside it, where so many instances may stand inside one another.
#[cycle(declaring)]
fn add_instance(
    alloc: Global,
    lines: &mut Sequence<Name>,
    flat: &Flat,
    name: &[u8],
    node: u32,
    room: u32,
) -> Result<(), NoMemory>
    ensures { OnOk result (lines.new ≡ lines.old ++ instance_lines flat.now room name.now node) }
{
    if room == 0 {
        return Ok(());
    }
    let line = scope_line(alloc, name)?;
    add_line(alloc, lines, &line)?;
    add_inside(alloc, lines, flat, node as usize, room - 1)?;
    add_line(alloc, lines, b"$upscope $end\n")
}

/// Adds the lines of what is declared in an instance.
#[cycle(declaring)]
fn add_inside(
    alloc: Global,
    lines: &mut Sequence<Name>,
    flat: &Flat,
    node: usize,
    room: u32,
) -> Result<(), NoMemory>
    ensures { OnOk result (lines.new ≡ lines.old ++ inside_lines flat.now room (hierarchy.children_of flat.now.nodes node)) }
{
    if node >= flat.nodes.len() {
        return Ok(());
    }
    let children = &flat.nodes.get(node).children;
    add_signals(alloc, lines, &flat.signals, children)?;
    add_instances(alloc, lines, flat, children, room)
}

/// Adds the lines of the instances of an instance.
#[cycle(declaring)]
fn add_instances(
    alloc: Global,
    lines: &mut Sequence<Name>,
    flat: &Flat,
    children: &Sequence<(Name, Spot)>,
    room: u32,
) -> Result<(), NoMemory>
    ensures { OnOk result (lines.new ≡ lines.old ++ inner_lines flat.now room children.now) }
{
    for at in 0..children.len() {
        add_inner(alloc, lines, flat, children.get(at), room)?;
    }
    Ok(())
}

/// Adds the lines of what a name stands for, where that is an instance.
#[cycle(declaring)]
fn add_inner(
    alloc: Global,
    lines: &mut Sequence<Name>,
    flat: &Flat,
    child: &(Name, Spot),
    room: u32,
) -> Result<(), NoMemory>
    ensures { OnOk result (lines.new ≡ lines.old ++ inner_lines flat.now room (child.now ∷ [])) }
{
    match child.1 {
        Spot::Inner(node) => add_instance(alloc, lines, flat, child.0.bytes(), node, room),
        Spot::Sig(_) | Spot::Words { .. } => Ok(()),
    }
}

/// A digit as it is written.
pub(crate) fn digit_byte(digit: Digit) -> u8
    ensures { result ≡ digit_byte digit }
{
    match digit {
        Digit::Zero => b'0',
        Digit::One => b'1',
        Digit::X => b'x',
        Digit::Z => b'z',
    }
}

/// The line of the opening value of a signal, which has no byte where there is no such signal.
fn opening_line(
    alloc: Global,
    signals: &Sequence<Signal>,
    number: usize,
) -> Result<Vec<u8>, NoMemory>
    ensures { IfOk result (λ line. line.items ≡ meaning.opening_line signals.now number) }
{
    if number >= signals.len() {
        return Ok(Vec::new(alloc));
    }
    let signal = signals.get(number);
    let digits = vec![in alloc; digit_byte(signal.start); signal.width as usize]?;
    value_line(alloc, number, &digits)
}

/// Adds the line of the opening value of a signal.
fn add_value(
    alloc: Global,
    lines: &mut Sequence<Name>,
    signals: &Sequence<Signal>,
    number: usize,
) -> Result<(), NoMemory>
    ensures { OnOk result (lines.new ≡ lines.old ++ meaning.opening_line signals.now number ∷ []) }
{
    let line = opening_line(alloc, signals, number)?;
    add_line(alloc, lines, &line)
}

/// Adds the lines of the opening values of these signals.
fn add_values(
    alloc: Global,
    lines: &mut Sequence<Name>,
    signals: &Sequence<Signal>,
    numbers: &[usize],
) -> Result<(), NoMemory>
    ensures { OnOk result (lines.new ≡ lines.old ++ map (meaning.opening_line signals.now) numbers.now) }
{
    for at in 0..numbers.len() {
        add_value(alloc, lines, signals, numbers[at])?;
    }
    Ok(())
}

/// Adds the lines of the third part: the end of the declarations, time 0 and the opening values.
fn add_opening(
    alloc: Global,
    lines: &mut Sequence<Name>,
    signals: &TracedSignals<'_>,
) -> Result<(), NoMemory>
    ensures { OnOk result (lines.new ≡ lines.old ++ meaning.opening_lines signals.now.flat.now) }
{
    add_line(alloc, lines, b"$enddefinitions $end\n")?;
    add_line(alloc, lines, b"#0\n")?;
    add_line(alloc, lines, b"$dumpvars\n")?;
    add_values(alloc, lines, &signals.flat.signals, &signals.numbers)?;
    add_line(alloc, lines, b"$end\n")
}

/// The lines of a text before its changes. Only want of memory is an error.
pub(crate) fn begin_lines(
    alloc: Global,
    signals: &TracedSignals<'_>,
) -> Result<Sequence<Name>, NoMemory>
    ensures { IfOk result (λ lines. lines ≡ meaning.begin_lines signals.now.flat.now) }
{
    let flat = signals.flat;
    let step = step_line(alloc, flat.step_fs)?;
    let mut lines = Sequence::new(alloc);
    add_line(alloc, &mut lines, &step)?;
    add_instance(
        alloc,
        &mut lines,
        flat,
        top_path(&flat.nodes),
        0,
        MOST_NESTED,
    )?;
    add_opening(alloc, &mut lines, signals)?;
    Ok(lines)
}
