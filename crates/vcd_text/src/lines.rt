//! Lines of a text, in order.
ghost use Rattle.std.specs.Prelude.{◌≡◌, ◌∷◌, ◌++◌, ◌≤◌, ℕ, [], List, IfOk, OnOk, IsErrOf};
ghost use Rattle.std.specs.Result.{result_err};
ghost use Rattle.port_io.specs.Means.{PutsTo, sink_means};
ghost use Rattle.port_io.specs.Ports.{IsRaised};

use port_io::{Name, NoMemory, Sequence, Sink, SinkFault};
use std::alloc::Global;

/// Adds a line at the end. Only want of memory is an error.
pub(crate) fn add_line(
    alloc: Global,
    lines: &mut Sequence<Name>,
    line: &[u8],
) -> Result<(), NoMemory>
    ensures { OnOk result (lines.new ≡ lines.old ++ line.now ∷ []) }
{
    let text = Name::of(alloc, line)?;
    lines.push(text)
}

/// Puts the lines one after the other, as long as they are taken.
pub(crate) fn put_lines<O: Sink>(
    alloc: Global,
    lines: &Sequence<Name>,
    out: &mut O,
) -> Result<(), SinkFault>
    ensures puts { PutsTo (sink_means O.Sink) out.old lines.now (result_err result) out.new }
    ensures count { O.faults out.old ≤ O.faults out.new }
    ensures cause { IsErrOf result SinkFault.Failed → IsRaised (O.faults out.old) (O.faults out.new) }
{
    for at in 0..lines.len() {
        out.put(alloc, lines.get(at).bytes())?;
    }
    Ok(())
}

/// Puts a line, unless memory was short for it.
pub(crate) fn put_made<O: Sink>(
    alloc: Global,
    made: Result<Vec<u8>, NoMemory>,
    out: &mut O,
) -> Result<(), SinkFault>
    ensures puts { (line : List ℕ) → IfOk made (λ text. text.items ≡ line) → PutsTo (sink_means O.Sink) out.old (line ∷ []) (result_err result) out.new }
    ensures count { O.faults out.old ≤ O.faults out.new }
    ensures cause { IsErrOf result SinkFault.Failed → IsRaised (O.faults out.old) (O.faults out.new) }
{
    match made {
        Ok(line) => out.put(alloc, &line),
        Err(NoMemory) => Err(SinkFault::OutOfMemory),
    }
}
