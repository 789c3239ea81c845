//! Answers rows of Verilog texts and designs: its standard input has one row in each line, and it prints a line for each.
//!
//! The first word of a row names the part that answers what stands behind the tab: `verilog` (tokens and trees, `src/verilog.rt`) or
//! `elaboration` (designs and their values, `src/elaboration.rt`). Both simulators answer each row, and where their answers differ the program
//! ends with an error. The gate compares what is printed with `stdout`.
#![tactic(auto)]

mod elaboration;
mod verilog;

use anyhow::{Result, ensure};
use fast_kernel::FastKernel;
use gpi::Gpi;
use list_kernel::ListKernel;
use port_io::{MOST_BYTES, NoMemory};
use std::alloc::Global;
use std::io::Read;
use table_rows::cut;

/// The answer for a row of designs. Only want of memory is an error, here and below.
fn elaboration_text<K: Gpi>(
    alloc: Global,
    simulator: &mut K,
    row: &[u8],
) -> Result<String, NoMemory> {
    let shown = elaboration::answer(alloc, simulator, row)?;
    Ok(String::from_utf8_lossy(alloc, &shown)?)
}

/// The answer for a row, by the part that its first word names.
fn answer<K: Gpi>(alloc: Global, simulator: &mut K, line: &[u8]) -> Result<String, NoMemory> {
    let (part, row) = cut(line, b'\t');
    match part {
        b"verilog" => Ok(verilog::answer(alloc, row)?),
        b"elaboration" => elaboration_text(alloc, simulator, row),
        _ => Ok(String::from_str(alloc, "no such part")?),
    }
}

fn main(rt: HostRuntime) -> Result<()> {
    let alloc = rt.alloc();
    let mut rows = Vec::new(alloc);
    rt.reader().read_to_end(&mut rows)?;
    ensure!(rows.len() <= MOST_BYTES, "the rows are too long");
    let mut plain = ListKernel::new(alloc);
    let mut fast = FastKernel::new();
    for line in rows.split(|byte| *byte == b'\n') {
        if !line.is_empty() {
            let shown = answer(alloc, &mut plain, line)?;
            let other = answer(alloc, &mut fast, line)?;
            ensure!(shown == other, "the fast simulator answers: {other}");
            println!(rt; "{shown}")?;
        }
    }
    Ok(())
}
