//! Compares each call of `four_value` with a table of what Icarus Verilog answers.
//!
//! A row has two parts with a tab between: the rule that it shows, and the name of the table's file, in the folder that the program runs in;
//! `tools/rows/four_value_cases.py` made it. Behind the rule is printed how many of its rows agree, with each row that differs before that.

mod calls;
mod fields;
mod rows;

use anyhow::{Context, Result};
use rows::agrees;
use std::alloc::{AllocError, Global};
use std::fs::File;
use std::io::read_to_string;
use std::rt::Files;
use table_rows::Row;

/// What a table's rows come to.
fn table_text(alloc: Global, table: &str) -> Result<String, AllocError> {
    let mut out = String::new(alloc);
    let mut agreeing = 0u32;
    let mut others = 0u32;
    for row in table.lines() {
        if row.starts_with('#') {
            continue;
        }
        match agrees(row) {
            Some(true) => agreeing = agreeing.saturating_add(1),
            Some(false) => {
                others = others.saturating_add(1);
                write!(out, "differs: {row}\n")?;
            }
            None => {
                others = others.saturating_add(1);
                write!(out, "unreadable: {row}\n")?;
            }
        }
    }
    write!(
        out,
        "{agreeing} rows agree with Icarus Verilog, {others} don't"
    )?;
    Ok(out)
}

/// The rule of a row, and what the rows of its table come to.
pub fn answer<R: Files>(rt: &R, alloc: Global, line: &[u8]) -> Result<Vec<u8>> {
    let row = Row::of(line);
    let name = String::from_utf8_lossy(alloc, row.part(1))?;
    let file = File::open(rt, name.as_str()).context("opening the table")?;
    let table = read_to_string(alloc, file).context("reading the table")?;
    let mut out = row.part(0).to_vec(alloc)?;
    out.extend_from_slice(b": ")?;
    let shown = table_text(alloc, &table)?;
    out.extend_from_slice(shown.as_bytes())?;
    Ok(out)
}
