//! Reading the two files, or generating their texts.
ghost use Rattle.std.specs.Prelude.{IfOk, option_copied};
ghost use Rattle.port_io.specs.Means.{store_means};
ghost use Rattle.gpi.specs.Soundness.{IsSoundFlat};
ghost use Rattle.command.specs.CommandWords.Forms.{asked_of};
ghost use Rattle.command.specs.Reading.{CanRun, IsMade, ReadsAsked, ReadsBoth, ReadsTests, TextOfTests, reading_of};

use crate::command_words::Work;
use crate::decision::Decision;
use crate::lines::{design_refused, tests_refused, unread};
use crate::made_texts::{made_design, made_tests};
use gpi::Flat;
use port_io::{NoMemory, Store, StoreFault};
use std::alloc::Global;
use test_file::text::{TestsFault, read_tests};
use v_design::{DesignFault, read_design};

/// How many bytes of a file are asked for: one more than a file may have.
const MOST: usize = 1_048_577;

/// What the bytes of the file of the tests come to, for this design. Only want of memory is an error.
fn decide_text(alloc: Global, tests: &str, flat: Flat, text: &[u8]) -> Result<Decision, NoMemory>
    requires { IsSoundFlat flat }
    ensures reads { IfOk result (λ decision. TextOfTests tests.now flat text.now (reading_of decision)) }
    ensures can_run { IfOk result (λ decision. CanRun decision) }
{
    match read_tests(alloc, text) {
        Ok(file) => Ok(Decision::Runs(flat, file)),
        Err(TestsFault::Refused(refusal)) => tests_refused(alloc, tests, refusal),
        Err(TestsFault::OutOfMemory) => Err(NoMemory),
    }
}

/// Reads the tests, for this design. Only want of memory is an error.
fn decide_tests<S: Store>(
    alloc: Global,
    tests: &str,
    flat: Flat,
    store: &mut S,
) -> Result<Decision, NoMemory>
    requires { IsSoundFlat flat }
    ensures reads { IfOk result (λ decision. ReadsTests (store_means S.Store) tests.now flat store.old (reading_of decision) store.new) }
    ensures can_run { IfOk result (λ decision. CanRun decision) }
{
    match store.read_file(alloc, tests, MOST) {
        Ok(text) => decide_text(alloc, tests, flat, text.as_slice()),
        Err(StoreFault::Failed) => unread(alloc, tests),
        Err(StoreFault::OutOfMemory) => Err(NoMemory),
    }
}

/// Reads the design, and then the tests. The top of the design is the module of that name, or else the only one that no module
/// instantiates. A file that can't be read and a text that is refused are decisions too; only want of memory is an error.
pub fn decide<S: Store>(
    alloc: Global,
    design: &str,
    tests: &str,
    top: Option<&str>,
    store: &mut S,
) -> Result<Decision, NoMemory>
    ensures reads { IfOk result
        (λ decision. ReadsBoth (store_means S.Store) (option_copied top.entry) design.now tests.now store.old (reading_of decision) store.new) }
    ensures can_run { IfOk result (λ decision. CanRun decision) }
{
    match store.read_file(alloc, design, MOST) {
        Ok(text) => match read_design(alloc, text.as_slice(), top) {
            Ok(flat) => decide_tests(alloc, tests, flat, store),
            Err(DesignFault::Refused(refusal)) => design_refused(alloc, design, refusal),
            Err(DesignFault::OutOfMemory) => Err(NoMemory),
        },
        Err(StoreFault::Failed) => unread(alloc, design),
        Err(StoreFault::OutOfMemory) => Err(NoMemory),
    }
}

/// What the generated texts of a number come to. They are taken as those of two files, and nothing is read. Only want of memory is an error.
fn decide_made(alloc: Global, number: u32) -> Result<Decision, NoMemory>
    ensures made { IfOk result (λ decision. IsMade number (reading_of decision)) }
    ensures can_run { IfOk result (λ decision. CanRun decision) }
{
    let tests = made_tests(alloc, number)?;
    match read_design(alloc, made_design(), None) {
        Ok(flat) => decide_text(alloc, "made.py", flat, tests.as_slice()),
        Err(DesignFault::Refused(refusal)) => design_refused(alloc, "made.v", refusal),
        Err(DesignFault::OutOfMemory) => Err(NoMemory),
    }
}

/// What the words' work comes to: the two files are read, or their texts are generated. Only want of memory is an error.
pub(crate) fn decide_work<S: Store>(
    alloc: Global,
    work: Work<'_>,
    store: &mut S,
) -> Result<Decision, NoMemory>
    ensures reads { IfOk result (λ decision. ReadsAsked (store_means S.Store) (asked_of work.entry) store.old (reading_of decision) store.new) }
    ensures can_run { IfOk result (λ decision. CanRun decision) }
{
    match work {
        Work::Files { design, tests, top } => decide(alloc, design, tests, top, store),
        Work::Made(number) => decide_made(alloc, number),
    }
}
