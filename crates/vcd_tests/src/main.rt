//! Answers rows of the reader of VCD texts: its standard input has one row in each line, and it prints what each comes to.
//!
//! A row is parted by a tab: the rule that it shows, and a text (`table_rows` tells the escapes in it). Behind the rule stand the changes that the text
//! tells, each with its time, its path and its digits, or the number of the line at which it is refused. The gate compares what is printed with `stdout`.
#![tactic(auto)]

use anyhow::{Result, ensure};
use port_io::{MOST_BYTES, NoMemory};
use std::alloc::Global;
use std::io::Read;
use table_rows::{Row, push_bytes};
use vcd_text::{Change, VcdFault, read};

/// Shows a change. Only want of memory is an error, here and below.
fn push_change(out: &mut String, change: &Change) -> Result<(), NoMemory> {
    write!(out, " {} ", change.time)?;
    push_bytes(out, change.path.bytes())?;
    out.push_str(" ")?;
    push_bytes(out, change.digits.bytes())?;
    Ok(())
}

/// Shows the changes of a text, one behind the other.
fn push_changes(out: &mut String, changes: &[Change]) -> Result<(), NoMemory> {
    for change in changes {
        push_change(out, change)?;
    }
    Ok(())
}

/// Shows what a text comes to.
fn push_read(alloc: Global, out: &mut String, text: &[u8]) -> Result<(), NoMemory> {
    match read(alloc, text) {
        Ok(changes) => push_changes(out, &changes),
        Err(VcdFault::BadLine(line)) => Ok(write!(out, " BadLine {line}")?),
        Err(VcdFault::OutOfMemory) => Err(NoMemory),
    }
}

/// The answer for a row: its rule, and what its text comes to.
fn answer(alloc: Global, line: &[u8]) -> Result<String, NoMemory> {
    let row = Row::of(line);
    let text = row.text(alloc, 1)?;
    let mut out = String::new(alloc);
    push_bytes(&mut out, row.part(0))?;
    out.push_str(":")?;
    push_read(alloc, &mut out, &text)?;
    Ok(out)
}

fn main(rt: HostRuntime) -> Result<()> {
    let alloc = rt.alloc();
    let mut rows = Vec::new(alloc);
    rt.reader().read_to_end(&mut rows)?;
    ensure!(rows.len() <= MOST_BYTES, "the rows are too long");
    for line in rows.split(|byte| *byte == b'\n') {
        if !line.is_empty() {
            let shown = answer(alloc, line)?;
            println!(rt; "{shown}")?;
        }
    }
    Ok(())
}
