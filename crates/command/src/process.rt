//! The command as a process: its words and its status are those of the system, its files those of the current folder.
ghost use Rattle.std.specs.Prelude.{◌≡◌, ◌<◌};
ghost use Rattle.std.specs.Global.{Global};
ghost use Rattle.std.specs.IoError.{error_kind};
ghost use Rattle.std.specs.Vec.Iter.{into_iter_items, into_iter_len};
ghost use Rattle.port_io.specs.Means.{sink_means, store_means};
ghost use Rattle.command.specs.Answer.{LeavesKernel};
ghost use Rattle.command.specs.Process.{AnswersGiven, EndsProcess, GivesWords, HasWords, IsFault, WordsOf};

use crate::command_words::WordsFault;
use crate::file_runner::FileRunner;
use crate::regression::Status;
use crate::state_runner::StateRunner;
use crate::top::{cocorun, refuse_words};
use await_tree::wait_list::Steps;
use gpi::Gpi;
use port_io::{CurrentFolder, DirStore, Sink, Store, WriteSink};
use std::alloc::Global;
use std::env::{Args, Env};
use std::io::{ErrorKind, Print, Printer};
use std::marker::Brand;
use std::process::ExitCode;
use std::rt::Files;
use std::sync::ledger::{Blank, Ledger};
use std::{env, io};

/// Why there are no words, by the kind of the fault that the system's library tells: a word that is no UTF-8 is data that isn't valid.
fn fault_of(kind: ErrorKind) -> WordsFault
    ensures { IsFault (kind ≡ ErrorKind.InvalidData) result }
{
    match kind {
        ErrorKind::InvalidData => WordsFault::Usage,
        _ => WordsFault::OutOfMemory,
    }
}

/// The words behind the first, which is the name of the program. Only want of memory is an error.
fn behind_name(alloc: Global, given: Args) -> Result<Vec<String>, WordsFault>
    ensures { HasWords (GivesWords into_iter_items into_iter_len given) result }
{
    let mut given = given;
    let _program = given.next();
    let mut words = Vec::new(alloc);
    while let Some(word) = given.next() {
        if words.push(word).is_err() {
            return Err(WordsFault::OutOfMemory);
        }
    }
    Ok(words)
}

/// The words of the command, by what the system's library gave as those of the process: all but the first. Where one of the process's words is no
/// UTF-8 they have no reading.
fn words_of(alloc: Global, given: io::Result<Args>) -> Result<Vec<String>, WordsFault>
    ensures { WordsOf (GivesWords into_iter_items into_iter_len) (λ fault. error_kind fault ≡ ErrorKind.InvalidData) given result }
{
    match given {
        Ok(given) => behind_name(alloc, given),
        Err(fault) => Err(fault_of(fault.kind())),
    }
}

/// Runs the command with the words of the process, by what the system's library gave of them. What is put and the status are those of `cocorun`
/// with the words behind the program's name; where a word is no UTF-8 it is the usage line and `Usage`, and nothing is read; where there
/// was no memory for them it is `NoMemory`. The blank is for the counter of steps of work.
fn run_words<S: Store, O: Sink, K: Gpi, L: Ledger, R: FileRunner>(
    alloc: Global,
    runner: &R,
    given: io::Result<Args>,
    store: &mut S,
    out: &mut O,
    kernel: &mut K,
    blank: Blank,
) -> Status
    requires name { blank.name ≡ L.name }
    requires parts { blank.parts ≡ L.parts }
    requires some { 0 < blank.parts }
    ensures answer { AnswersGiven (GivesWords into_iter_items into_iter_len) (λ fault. error_kind fault ≡ ErrorKind.InvalidData)
        (store_means S.Store) (sink_means O.Sink) given result store.old store.new (K.content kernel.new) out.old out.new }
    ensures kernel { LeavesKernel K.is_loaded result kernel.old kernel.new }
{
    let mut steps = Steps::<L>::new(blank);
    match words_of(alloc, given) {
        Ok(words) => cocorun(alloc, runner, &words, store, out, kernel, &mut steps),
        Err(WordsFault::Usage) => refuse_words(alloc, out),
        Err(WordsFault::OutOfMemory) => Status::NoMemory,
    }
}

/// Runs the command with the process's own words, on files of the current folder and standard output, over a simulator. It gives the
/// status that the process is to end with: that of `cocorun` with the words behind the program's name, 2 where a word is no UTF-8, or 7 where
/// there was no memory for the words. The simulator is as `cocorun` leaves it with that status.
pub fn run_process<'a, R: Env + Files + Print + AllocGlobal, K: Gpi>(
    rt: &'a R,
    kernel: &mut K,
) -> ExitCode
    ensures { EndsProcess {A = Global} (GivesWords (into_iter_items {Z = Global}) into_iter_len) (λ fault. error_kind fault ≡ ErrorKind.InvalidData)
        (store_means ⟦<DirStore<CurrentFolder<'a, R>> as Store>⟧) (sink_means ⟦<WriteSink<Printer<'a, R>> as Sink>⟧)
        K.is_loaded K.content result kernel.old kernel.new }
{
    let mut store = DirStore::new(rt);
    let mut out = WriteSink::new(io::writer(rt));
    let status = run_words::<_, _, K, Brand, _>(
        rt.alloc(),
        &StateRunner,
        env::args(rt),
        &mut store,
        &mut out,
        kernel,
        Blank::new(1),
    );
    ExitCode::from(status.code())
}
