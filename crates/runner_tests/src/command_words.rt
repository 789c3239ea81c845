//! Rows of words of the command.
//!
//! A row is parted by tabs: the rule that it shows, the number of words, and the words (`table_rows` tells the escapes in them).

use command::command_words::{Reading, WordsFault, Work, read_words};
use std::alloc::{AllocError, Global};
use table_rows::{Row, push_bytes};

/// Shows what is to be run.
fn push_work(alloc: Global, out: &mut String, work: &Work<'_>) -> Result<(), AllocError> {
    let text = match work {
        Work::Files {
            design,
            tests,
            top: Some(top),
        } => { format!(in alloc; "{tests} on {design} under {top}")? }
        Work::Files {
            design,
            tests,
            top: None,
        } => format!(in alloc; "{tests} on {design}")?,
        Work::Made(number) => format!(in alloc; "generated {number}")?,
    };
    out.push_str(&text)
}

/// Shows what the words come to.
fn push_answer(
    alloc: Global,
    out: &mut String,
    answer: Result<Reading<'_>, WordsFault>,
) -> Result<(), AllocError> {
    match answer {
        Ok(reading) => {
            push_work(alloc, out, &reading.work)?;
            let trace = if reading.trace { ", traced" } else { "" };
            let vcd = if reading.vcd { ", as a VCD text" } else { "" };
            let text = format!(in alloc;
                ", budget {}, seed {}{trace}{vcd}",
                reading.budget, reading.seed
            )?;
            out.push_str(&text)
        }
        Err(WordsFault::Usage) => out.push_str("usage"),
        Err(WordsFault::OutOfMemory) => out.push_str("no memory"),
    }
}

/// The words of a row, 64 at most.
fn words_of(alloc: Global, row: &Row<'_>) -> Result<Vec<String>, AllocError> {
    let mut words = Vec::new(alloc);
    let count = row.number(1);
    for i in 0..64usize {
        if i as u64 == count {
            break;
        }
        let text = row.text(alloc, 2 + i)?;
        words.push(String::from_utf8_lossy(alloc, &text)?)?;
    }
    Ok(words)
}

/// The answer for a row: its rule, and what its words come to.
pub fn answer(alloc: Global, line: &[u8]) -> Result<String, AllocError> {
    let row = Row::of(line);
    let words = words_of(alloc, &row)?;
    let mut out = String::new(alloc);
    push_bytes(&mut out, row.part(0))?;
    out.push_str(": ")?;
    push_answer(alloc, &mut out, read_words(alloc, &words))?;
    Ok(out)
}
