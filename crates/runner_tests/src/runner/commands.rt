//! The command with its words, over files and lines in memory.
ghost use Rattle.std.specs.Prelude.{◌≡◌, ◌⊎◌, ◌<◌, ◌++◌, IfOk, OnErr, OnOk, codes, map, string_bytes};
ghost use Rattle.std.specs.List.{slice_split};
ghost use Rattle.command.specs.Answer.{Answered, LeavesKernel, Quit};
ghost use Rattle.table_rows.specs.Rows.{is_byte, part_at};
ghost use Rattle.runner_tests.specs.Runner.Files.{decimal_at, file_means, line_means, sink_failing, store_at};
ghost use Rattle.runner_tests.specs.Runner.Commands.{Ends, ShowsCommand, ShowsKept, ShowsLong, word_in, words_of};

use crate::runner::files::{long_store, store_of};
use crate::runner::words::{counted_text, ended_text, latin_text};
use await_tree::wait_list::Steps;
use command::regression::Status;
use command::{FileRunner, cocorun};
use gpi::Gpi;
use port_io::{MemSink, MemStore, NoMemory};
use std::alloc::{AllocError, Global};
use std::marker::Brand;
use std::sync::ledger::{Blank, Ledger};
use table_rows::Row;

/// What stands between the spaces of a text. Only want of memory is an error, here and below.
fn parts_of(alloc: Global, text: &[u8]) -> Result<Vec<&[u8]>, AllocError>
    ensures { IfOk result (λ parts. map (λ part. part.now) parts.items ≡ slice_split (is_byte 32) text.now) }
{
    text.split(|byte| *byte == b' ').collect(alloc)
}

/// A word behind others, unless it is empty. After an Err the words are as they were.
fn push_word(alloc: Global, words: &mut Vec<String>, word: &[u8]) -> Result<(), AllocError>
    ensures ok { OnOk result (map string_bytes words.new.items ≡ map string_bytes words.old.items ++ word_in word.now) }
    ensures err { OnErr result (words.new.items ≡ words.old.items) }
{
    if !word.is_empty() {
        words.push(latin_text(alloc, word)?)?;
    }
    Ok(())
}

/// The words of a command, between spaces.
fn words_of(alloc: Global, text: &[u8]) -> Result<Vec<String>, AllocError>
    ensures { IfOk result (λ words. map string_bytes words.items ≡ words_of text.now) }
{
    let parts = parts_of(alloc, text)?;
    let mut words = Vec::new(alloc);
    for part in &parts {
        push_word(alloc, &mut words, part)?;
    }
    Ok(words)
}

/// The status of a command. The blank is for the counter of steps of work.
fn run<K: Gpi, R: FileRunner, L: Ledger>(
    alloc: Global,
    runner: &R,
    words: &[String],
    store: &mut MemStore,
    sink: &mut MemSink,
    kernel: &mut K,
    blank: Blank,
) -> Status
    requires name { blank.name ≡ L.name }
    requires parts { blank.parts ≡ L.parts }
    requires some { 0 < blank.parts }
    ensures answer { Answered file_means line_means (map string_bytes words.now) result store.old store.new (K.content kernel.new) sink.old sink.new
        ⊎ Quit result sink.old sink.new }
    ensures leaves { LeavesKernel K.is_loaded result kernel.old kernel.new }
{
    let mut steps = Steps::<L>::new(blank);
    cocorun(alloc, runner, words, store, sink, kernel, &mut steps)
}

/// The status of a command with words between spaces, over a store and on a kernel, and what it put into a sink of which that put fails.
/// After an Err the kernel is as it was.
fn ended<K: Gpi, R: FileRunner>(
    alloc: Global,
    runner: &R,
    text: &[u8],
    store: MemStore,
    failing: u64,
    kernel: &mut K,
) -> Result<(Status, MemSink), NoMemory>
    ensures ends { IfOk result (λ ended. Ends text.now store (sink_failing failing) (K.content kernel.new) ended.0 ended.1) }
    ensures leaves { IfOk result (λ ended. LeavesKernel K.is_loaded ended.0 kernel.old kernel.new) }
    ensures err { OnErr result (kernel.new ≡ kernel.old) }
{
    let words = words_of(alloc, text)?;
    let mut store = store;
    let mut sink = MemSink::new(alloc);
    sink.fail_at(failing)?;
    let status = run::<K, R, Brand>(
        alloc,
        runner,
        &words,
        &mut store,
        &mut sink,
        kernel,
        Blank::new(1),
    );
    Ok((status, sink))
}

/// The same of the words and the files of a row.
fn row_ended<K: Gpi, R: FileRunner>(
    alloc: Global,
    runner: &R,
    row: &Row<'_>,
    kernel: &mut K,
) -> Result<(Status, MemSink), NoMemory>
    ensures ends { IfOk result
        (λ ended. Ends (part_at 2 row.now) (store_at row.now) (sink_failing (decimal_at 6 row.now)) (K.content kernel.new) ended.0 ended.1) }
    ensures leaves { IfOk result (λ ended. LeavesKernel K.is_loaded ended.0 kernel.old kernel.new) }
    ensures err { OnErr result (kernel.new ≡ kernel.old) }
{
    let store = store_of(alloc, row)?;
    ended(alloc, runner, row.part(2), store, row.number(6), kernel)
}

/// The status of a row's command on this simulator, and what it put.
pub fn command_text<K: Gpi, R: FileRunner>(
    alloc: Global,
    runner: &R,
    row: &Row<'_>,
    kernel: &mut K,
) -> Result<String, NoMemory>
    ensures { IfOk result (λ text. ShowsCommand row.now (string_bytes text)) }
{
    let ended = row_ended(alloc, runner, row, kernel)?;
    ended_text(alloc, ended.0, ended.1.bytes())
}

/// The same, and the counts of the simulator. After an Err nothing is said of the simulator.
pub fn kept_text<K: Gpi, R: FileRunner>(
    alloc: Global,
    runner: &R,
    row: &Row<'_>,
    kernel: &mut K,
) -> Result<String, NoMemory>
    ensures { IfOk result (λ text. ShowsKept K.content K.is_loaded row.now kernel.old kernel.new (string_bytes text)) }
{
    let ended = row_ended(alloc, runner, row, kernel)?;
    counted_text(alloc, ended.0, kernel, ended.1.bytes())
}

/// The status of the command on the two files of a row of that many bytes each, and what it put.
pub fn long_text<K: Gpi, R: FileRunner>(
    alloc: Global,
    runner: &R,
    row: &Row<'_>,
    kernel: &mut K,
) -> Result<String, NoMemory>
    ensures { IfOk result (λ text. ShowsLong row.now (string_bytes text)) }
{
    let store = long_store(alloc, row)?;
    let ended = ended(alloc, runner, b"d.v t.py", store, 0, kernel)?;
    ended_text(alloc, ended.0, ended.1.bytes())
}
