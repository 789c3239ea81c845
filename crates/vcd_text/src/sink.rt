//! The sink that writes the VCD text of a run whose lines it is given.
ghost use Rattle.std.specs.Prelude.{◌≡◌, ◌≤◌, [], None, Some, OnOk, IsErrOf, IfOk, find, refl};
ghost use Rattle.std.specs.Result.{result_err};
ghost use Rattle.port_io.specs.Ports.{IsRaised};
ghost use Rattle.port_io.specs.Means.{PutsTo, sink_means};
ghost use Rattle.vcd_text.specs.Text.{begin_lines, lines_of_change};
ghost use Rattle.vcd_text.specs.Told.{change_of, time_lines, TellsFound, TellsParts};
ghost use Rattle.vcd_text.specs.Hierarchy.{traced_signals};
ghost use Rattle.vcd_text.specs.Paths.{has_path};

use crate::lines::{put_lines, put_made};
use crate::opening::begin_lines;
use crate::signals::TracedSignals;
use crate::spelling::{time_line, value_line};
use crate::traced_line::{Parts, parts_of};
use port_io::{NoMemory, Sink, SinkFault};
use std::alloc::Global;

/// A change that a line of a traced run tells: the time in steps, the number of the signal, and its digits, the highest first.
#[derive(Clone, Copy, Drop)]
pub(crate) struct Told<'a> {
    time: u64,
    signal: usize,
    digits: &'a [u8],
}

/// The change of this signal that the parts of a line tell, where they have a digit for each of the signal's.
fn change_at<'t>(signals: &TracedSignals<'_>, parts: Parts<'t>, signal: usize) -> Option<Told<'t>>
    requires { find (has_path signals.now.flat.now.signals parts.path.now) (traced_signals signals.now.flat.now) ≡ Some signal }
    ensures { TellsParts signals.now.flat.now parts.entry result }
{
    if signals.has_width(signal, parts.digits.len()) {
        Some(Told {
            time: parts.time,
            signal,
            digits: parts.digits,
        })
    } else {
        None
    }
}

/// The change that the parts of a line tell, if they tell one of a signal that is no word of a memory.
fn change_by<'t>(signals: &TracedSignals<'_>, parts: Parts<'t>) -> Option<Told<'t>>
    ensures { TellsParts signals.now.flat.now parts.entry result }
{
    match signals.find(parts.path) {
        Some(signal) => change_at(signals, parts, signal),
        None => None,
    }
}

/// The change that a line of a traced run tells, if it tells one of a signal that is no word of a memory. Only want of memory is an error.
fn change_in<'t>(
    alloc: Global,
    signals: &TracedSignals<'_>,
    line: &'t [u8],
) -> Result<Option<Told<'t>>, NoMemory>
    ensures { IfOk result (λ found. TellsFound signals.now.flat.now line.now found) }
{
    match parts_of(alloc, line) {
        Ok(Some(parts)) => Ok(change_by(signals, parts)),
        Ok(None) => Ok(None),
        Err(NoMemory) => Err(NoMemory),
    }
}

/// A sink for the lines of a traced run, one put each, that writes their VCD text into the sink behind it (IEEE 1364-2005, clause 18). Each line
/// that tells a change of a signal that is no word of a memory becomes the lines of that change, one put each, and nothing is written for others.
/// It tells no bytes of its own. `begin` comes before the first line.
#[derive(Drop)]
pub struct VcdSink<'a, O: Sink> {
    out: &'a mut O,
    signals: &'a TracedSignals<'a>,
    last: u64,
}

impl<'a, O: Sink> VcdSink<'a, O> {
    ghost use Rattle.vcd_text.specs.Sink.{IsOver, IsSameSink};

    /// A sink for the lines of a run on the design of these signals. It owns no memory, so that what stands behind it is known once it is gone.
    pub fn new(signals: &'a TracedSignals<'a>, out: &'a mut O) -> VcdSink<'a, O>
        ensures { IsOver signals.now.flat.now out.entry result }
    {
        VcdSink {
            out,
            signals,
            last: 0,
        }
    }

    /// Writes the lines before the changes: the step of time, the declarations and the opening values, one put each (clause 18.2.3). Either error
    /// leaves a front of them. `Failed` comes only where the sink behind it counted a fault.
    pub fn begin(&mut self, alloc: Global) -> Result<(), SinkFault>
        ensures puts { PutsTo (sink_means O.Sink) self.old.out.now (begin_lines self.old.signals.now.flat.now) (result_err result) self.new.out.now }
        ensures same { IsSameSink self.old self.new }
        ensures last { self.new.last ≡ self.old.last }
        ensures count { O.faults self.old.out.now ≤ O.faults self.new.out.now }
        ensures cause { IsErrOf result SinkFault.Failed → IsRaised (O.faults self.old.out.now) (O.faults self.new.out.now) }
    {
        match begin_lines(alloc, self.signals) {
            Ok(lines) => put_lines(alloc, &lines, &mut *self.out),
            Err(NoMemory) => Err(SinkFault::OutOfMemory),
        }
    }
}

impl<'a, O: Sink> VcdSink<'a, O> {
    ghost use Rattle.vcd_text.specs.Sink.{IsSameSink};

    /// Writes the time of a change, unless it is the one that was written last.
    fn write_time(&mut self, alloc: Global, time: u64) -> Result<(), SinkFault>
        ensures puts { PutsTo (sink_means O.Sink) self.old.out.now (time_lines self.old.last time) (result_err result) self.new.out.now }
        ensures last { self.new.last ≡ time }
        ensures same { IsSameSink self.old self.new }
        ensures count { O.faults self.old.out.now ≤ O.faults self.new.out.now }
        ensures cause { IsErrOf result SinkFault.Failed → IsRaised (O.faults self.old.out.now) (O.faults self.new.out.now) }
    {
        if time == self.last {
            return Ok(());
        }
        self.last = time;
        put_made(alloc, time_line(alloc, time), &mut *self.out)
    }

    /// Writes the lines of a change, one put each.
    fn write(&mut self, alloc: Global, change: Told<'_>) -> Result<(), SinkFault>
        ensures puts { PutsTo (sink_means O.Sink) self.old.out.now (lines_of_change self.old.last (change_of change.entry)) (result_err result) self.new.out.now }
        ensures last { OnOk result (self.new.last ≡ change.entry.time) }
        ensures same { IsSameSink self.old self.new }
        ensures count { O.faults self.old.out.now ≤ O.faults self.new.out.now }
        ensures cause { IsErrOf result SinkFault.Failed → IsRaised (O.faults self.old.out.now) (O.faults self.new.out.now) }
    {
        self.write_time(alloc, change.time)?;
        let value = value_line(alloc, change.signal, change.digits);
        put_made(alloc, value, &mut *self.out)
    }
}

impl<'a, O: Sink> Sink for VcdSink<'a, O> {
    ghost use Rattle.port_io.specs.ToldLaws.{puts_broken_count, takes_all_count};
    ghost use Rattle.vcd_text.specs.Sink.{BreaksLine, TakesLine};

    ghost told = { λ _. None };

    ghost faults = { λ sink. O.faults sink.out.now };

    ghost takes = { TakesLine O.takes };

    ghost breaks = { BreaksLine O.takes O.breaks };

    ghost takes_told = { λ before piece after taken. tt };

    ghost breaks_told = { λ before piece after broken. ([], piece, refl, tt) };

    ghost takes_count = { λ before piece after taken.
        takes_all_count O.faults O.takes O.breaks O.takes_count O.breaks_count before.out.now taken.lines after.out.now taken.taken };

    ghost breaks_count = { λ before piece after broken.
        puts_broken_count O.faults O.takes O.breaks O.takes_count O.breaks_count before.out.now broken.lines after.out.now broken.broken };

    fn put(&mut self, alloc: Global, bytes: &[u8]) -> Result<(), SinkFault> {
        match change_in(alloc, self.signals, bytes) {
            Ok(Some(change)) => self.write(alloc, change),
            Ok(None) => Ok(()),
            Err(NoMemory) => Err(SinkFault::OutOfMemory),
        }
    }
}
