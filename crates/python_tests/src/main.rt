//! Answers rows of Python texts: its standard input has one row in each line, and it prints a line for each.
//!
//! A row is parted by tabs: what is asked, the rule that the row shows, and a text. Asked is `lines` (the logical lines and their
//! tokens), `starts` (the number and the indentation of each logical line), `tree` (the module), `read` (whether there is one), or
//! `repeat` (the same of a text that is put together of repeated parts: behind the rule stand how many times, a front, a part, a middle,
//! another part and a back); where it is another word, the answer is `not asked`. In a text `\` stands before two hexadecimal digits of
//! a byte. The gate compares what is printed with `stdout`.
#![tactic(auto)]

mod answer;
mod lines;
mod row;
mod tokens;
mod trees;

use answer::answer;
use anyhow::{Result, ensure};
use port_io::MOST_BYTES;
use std::io::Read;

fn main(rt: HostRuntime) -> Result<()> {
    let mut rows = Vec::new(rt.alloc());
    rt.reader().read_to_end(&mut rows)?;
    ensure!(rows.len() <= MOST_BYTES, "the rows are too long");
    for line in rows.split(|byte| *byte == b'\n') {
        if !line.is_empty() {
            let shown = answer(rt.alloc(), line)?;
            let shown = String::from_utf8_lossy(rt.alloc(), &shown)?;
            println!(rt; "{shown}")?;
        }
    }
    Ok(())
}
