//! Answers rows of tests files: its standard input has one row in each line, and it prints a line for each.
//!
//! A row is parted by a tab: its name, and the text of a tests file, in which `\` stands before two hexadecimal digits of a byte. Behind
//! the name is printed the rule that the text breaks, with its line; or of an accepted file what it stands for: of each function
//! `def`, its parameters, `/` and the other names that it assigns; how many tests there are; and of each of the first twelve, and of the
//! last, its name, `=`, its function's number, its arguments and its options. The gate compares what is printed with `stdout`.
#![tactic(auto)]

mod answer;
mod file;
mod pieces;

use answer::answer;
use anyhow::{Result, ensure};
use port_io::MOST_BYTES;
use std::io::Read;

fn main(rt: HostRuntime) -> Result<()> {
    let mut rows = Vec::new(rt.alloc());
    rt.reader().read_to_end(&mut rows)?;
    ensure!(rows.len() <= MOST_BYTES, "the rows are too long");
    for line in rows.split(|byte| *byte == b'\n') {
        if !line.is_empty() {
            let shown = answer(rt.alloc(), line)?;
            let shown = String::from_utf8_lossy(rt.alloc(), &shown)?;
            println!(rt; "{shown}")?;
        }
    }
    Ok(())
}
