//! Answers rows of the edge and of the simulator: its standard input has one row in each line, and it prints a line for each.
//!
//! The first word of a row names the part that answers what stands behind the tab: `port` (reads, puts and the small types, `src/port.rt`)
//! or `kernel` (calls of the simulator's interface, `src/kernel.rt`). Both simulators answer each row, and where their answers differ the
//! program ends with an error. The gate compares what is printed with `stdout`.
#![tactic(auto)]

ghost use Rattle.std.specs.Prelude.{OnOk};
ghost use Rattle.edge_tests.specs.Kernel.Calls.{IsBook};

mod kernel;
mod port;

use anyhow::{Result, ensure};
use fast_kernel::FastKernel;
use gpi::Gpi;
use kernel::{Book, begun};
use list_kernel::ListKernel;
use port_io::{MOST_BYTES, NoMemory};
use std::alloc::Global;
use std::io::Read;
use std::rt::Files;
use table_rows::cut;

/// The answer for a row of the simulator. Only want of memory is an error, here and below.
fn kernel_text<K: Gpi>(
    alloc: Global,
    row: &[u8],
    simulator: &mut K,
    book: &mut Book,
) -> Result<String, NoMemory>
    requires loaded { K.is_loaded simulator.old }
    requires book { IsBook book.old (K.content simulator.old) }
    ensures loaded { OnOk result (K.is_loaded simulator.new) }
    ensures book { IsBook book.new (K.content simulator.new) }
{
    let shown = kernel::answer(alloc, row, simulator, book)?;
    Ok(String::from_utf8_lossy(alloc, &shown)?)
}

/// The answer for a row, by the part that its first word names.
fn answer<R: Files, K: Gpi>(
    rt: &R,
    alloc: Global,
    line: &[u8],
    simulator: &mut K,
    book: &mut Book,
) -> Result<String, NoMemory>
    requires loaded { K.is_loaded simulator.old }
    requires book { IsBook book.old (K.content simulator.old) }
    ensures loaded { OnOk result (K.is_loaded simulator.new) }
    ensures book { IsBook book.new (K.content simulator.new) }
{
    let (part, row) = cut(line, b'\t');
    match part {
        b"port" => port::answer(rt, alloc, row),
        b"kernel" => kernel_text(alloc, row, simulator, book),
        _ => Ok(String::from_str(alloc, "no such part")?),
    }
}

fn main(rt: HostRuntime) -> Result<()> {
    let alloc = rt.alloc();
    let mut rows = Vec::new(alloc);
    rt.reader().read_to_end(&mut rows)?;
    ensure!(rows.len() <= MOST_BYTES, "the rows are too long");
    let mut plain = ListKernel::new(alloc);
    let mut plain_book = begun(alloc, &mut plain)?;
    let mut fast = FastKernel::new();
    let mut fast_book = begun(alloc, &mut fast)?;
    for line in rows.split(|byte| *byte == b'\n') {
        if !line.is_empty() {
            let shown = answer(&rt, alloc, line, &mut plain, &mut plain_book)?;
            let other = answer(&rt, alloc, line, &mut fast, &mut fast_book)?;
            ensure!(shown == other, "the fast simulator answers: {other}");
            println!(rt; "{shown}")?;
        }
    }
    Ok(())
}
