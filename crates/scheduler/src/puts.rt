//! Lines that are put one after the other, until a put fails.
ghost use Rattle.std.specs.Prelude.{◌≡◌, ◌∷◌, [], length, Some, None, if◌then◌else◌};
ghost use Rattle.port_io.specs.Means.{sink_means};
ghost use Rattle.four_value.specs.Vector.{same_digits};
ghost use Rattle.rig_model.specs.Run.Line.{sig_line};
ghost use Rattle.scheduler.specs.Puts.{PutsOn};

use four_value::{Bits, Digit};
use gpi::{SigId, Told};
use port_io::{Sink, SinkFault};
use run_state::lines::sig_line;
use std::alloc::Global;

/// Puts a line: why it wasn't taken, if it wasn't.
fn put_line<O: Sink>(alloc: Global, out: &mut O, line: &[u8]) -> Option<SinkFault>
    ensures { PutsOn (sink_means O.Sink) None out.old (line.now ∷ []) result out.new }
{
    match out.put(alloc, line) {
        Ok(()) => None,
        Err(fault) => Some(fault),
    }
}

/// Puts the line of a change of the signal of that path.
pub(crate) fn put_change<O: Sink>(
    alloc: Global,
    out: &mut O,
    time: u64,
    path: &[u8],
    bits: Bits,
) -> Option<SinkFault>
    ensures { PutsOn (sink_means O.Sink) None out.old (sig_line time path.now bits ∷ []) result out.new }
{
    match sig_line(alloc, time, path, bits) {
        Ok(line) => put_line(alloc, out, line.as_slice()),
        Err(_) => Some(SinkFault::OutOfMemory),
    }
}

/// The change of a signal that showed one value and shows another, if they differ.
pub(crate) fn change_of(sig: SigId, old: Bits, new: Bits) -> Option<Told>
    requires { length old ≡ length new }
    ensures { result ≡ (if same_digits old new then None else Some (record { sig = sig; bits = new })) }
{
    match old.case_eq(new) {
        Digit::One => None,
        Digit::Zero | Digit::X | Digit::Z => Some(Told { sig, bits: new }),
    }
}
