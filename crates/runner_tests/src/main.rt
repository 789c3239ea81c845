//! Answers rows of commands, of their words and of generated texts: its standard input has one row in each line, and it prints what each
//! comes to.
//!
//! The first word of a row names the part that answers what stands behind the tab: `runner` (commands and texts, `src/runner.rt`),
//! `command_words` (the words of a command, `src/command_words.rt`) or `made_texts` (the texts of generated work, `src/made_texts.rt`). The
//! gate compares what is printed with `stdout`.
#![tactic(auto)]

mod command_words;
mod made_texts;
mod runner;

use crate::runner::PlainRunner;
use anyhow::{Result, ensure};
use command::StateRunner;
use fast_kernel::FastKernel;
use list_kernel::ListKernel;
use port_io::{MOST_BYTES, NoMemory};
use std::alloc::Global;
use std::io::Read;
use table_rows::cut;
use trigger_table::{Records, TriggerTable};

/// Nothing is kept beside the records of waiting tasks.
const _: () = prove!(size_of::<TriggerTable>() == size_of::<Records>());

/// The simulators of rows that are run on one kind of them: that of the `kept` rows, and that of the other commands.
#[derive(Drop)]
struct Kernels<K> {
    kept: K,
    other: K,
}

/// What a row of `runner` comes to over plain parts and over those of the program. Only want of memory is an error, here and below.
fn run_answer(
    alloc: Global,
    row: &[u8],
    plain: &mut Kernels<ListKernel>,
    shipped: &mut Kernels<FastKernel>,
) -> Result<String, NoMemory> {
    let one = runner::answer(alloc, &PlainRunner, row, &mut plain.kept, &mut plain.other)?;
    let other = runner::answer(
        alloc,
        &StateRunner,
        row,
        &mut shipped.kept,
        &mut shipped.other,
    )?;
    if one == other {
        Ok(one)
    } else {
        Ok(format!(in alloc; "{one}, and by the parts of the program {other}")?)
    }
}

/// The answer for a row, by the part that its first word names.
fn answer(
    alloc: Global,
    line: &[u8],
    plain: &mut Kernels<ListKernel>,
    shipped: &mut Kernels<FastKernel>,
) -> Result<String, NoMemory> {
    let (part, row) = cut(line, b'\t');
    match part {
        b"runner" => run_answer(alloc, row, plain, shipped),
        b"command_words" => Ok(command_words::answer(alloc, row)?),
        b"made_texts" => made_texts::answer(alloc, row),
        _ => Ok(String::from_str(alloc, "no such part")?),
    }
}

fn main(rt: HostRuntime) -> Result<()> {
    let alloc = rt.alloc();
    let mut rows = Vec::new(alloc);
    rt.reader().read_to_end(&mut rows)?;
    ensure!(rows.len() <= 2 * MOST_BYTES, "the rows are too long");
    let mut plain = Kernels {
        kept: ListKernel::new(alloc),
        other: ListKernel::new(alloc),
    };
    let mut shipped = Kernels {
        kept: FastKernel::new(),
        other: FastKernel::new(),
    };
    for line in rows.split(|byte| *byte == b'\n') {
        if !line.is_empty() {
            let shown = answer(alloc, line, &mut plain, &mut shipped)?;
            println!(rt; "{shown}")?;
        }
    }
    Ok(())
}
