//! Answers rows of vectors, of operations on values and of expressions: its standard input has one row in each line, and it prints a line
//! for each.
//!
//! The first word of a row names the part that answers what stands behind the tab: `vectors` (a table of Icarus Verilog's, `src/vectors.rt`),
//! `values` (operations on values, `src/values.rt`) or `expressions` (`src/expressions.rt`). The gate compares what is printed with `stdout`.
#![tactic(auto)]

mod expressions;
mod values;
mod vectors;

use anyhow::{Result, ensure};
use gpi::Flat;
use port_io::MOST_BYTES;
use std::alloc::Global;
use std::io::Read;
use std::rt::Files;
use table_rows::cut;
use values::design;

/// The answer for a row, by the part that its first word names.
fn answer<R: Files>(rt: &R, alloc: Global, flat: &Flat, line: &[u8]) -> Result<String> {
    let (part, row) = cut(line, b'\t');
    let shown = match part {
        b"vectors" => vectors::answer(rt, alloc, row)?,
        b"values" => values::answer(alloc, flat, row)?,
        b"expressions" => expressions::answer(alloc, row)?,
        _ => b"no such part".to_vec(alloc)?,
    };
    Ok(String::from_utf8_lossy(alloc, &shown)?)
}

fn main(rt: HostRuntime) -> Result<()> {
    let alloc = rt.alloc();
    let mut rows = Vec::new(alloc);
    rt.reader().read_to_end(&mut rows)?;
    ensure!(rows.len() <= MOST_BYTES, "the rows are too long");
    let flat = design(alloc)?;
    for line in rows.split(|byte| *byte == b'\n') {
        if !line.is_empty() {
            let shown = answer(&rt, alloc, &flat, line)?;
            println!(rt; "{shown}")?;
        }
    }
    Ok(())
}
