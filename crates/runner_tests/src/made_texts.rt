//! Texts of generated work.
//!
//! A row has the rule that it shows, a tab, and a number: behind a line of the two stands the text of the tests of that number. Where the number
//! is `-`, it is the text of the design. Each text ends with its own line feed.

use command::made_texts::{made_design, made_tests};
use port_io::NoMemory;
use std::alloc::Global;
use table_rows::{Row, push_bytes};

/// The text of the design, behind a line of the rule. Only want of memory is an error, here and below.
fn design_text(alloc: Global, rule: &[u8]) -> Result<String, NoMemory> {
    let mut out = String::new(alloc);
    push_bytes(&mut out, rule)?;
    out.push_str(":\n")?;
    push_bytes(&mut out, made_design())?;
    Ok(out)
}

/// The text of the tests of a number, behind a line of the rule and of the number.
fn tests_text(alloc: Global, rule: &[u8], number: u32) -> Result<String, NoMemory> {
    let tests = made_tests(alloc, number)?;
    let mut out = String::new(alloc);
    push_bytes(&mut out, rule)?;
    write!(out, ", {number}:\n")?;
    push_bytes(&mut out, &tests)?;
    Ok(out)
}

/// What a row comes to. A number beyond 32 bits counts as the largest.
pub fn answer(alloc: Global, line: &[u8]) -> Result<String, NoMemory> {
    let row = Row::of(line);
    match row.part(1) {
        b"-" => design_text(alloc, row.part(0)),
        _ => tests_text(
            alloc,
            row.part(0),
            u32::try_from(row.number(1)).unwrap_or(u32::MAX),
        ),
    }
}
