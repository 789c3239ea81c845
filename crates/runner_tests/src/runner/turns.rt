//! How many keys are registered after each turn of a test.
ghost use Rattle.std.specs.Prelude.{◌≡◌, ◌<◌, ℕ, IfOk, None, false, map, string_bytes, true};
ghost use Rattle.port_io.specs.Means.{sink_means};
ghost use Rattle.port_io.specs.Memory.{Lines};
ghost use Rattle.gpi.specs.Soundness.{IsSoundFlat};
ghost use Rattle.test_meaning.specs.Body.Sound.{is_sound, is_sound_case};
ghost use Rattle.test_meaning.specs.Body.Views.{view_case, view_file, view_function};
ghost use Rattle.task_core.specs.Code.Functions.{function_of};
ghost use Rattle.plain_task.specs.Tree.{read_tree};
ghost use Rattle.table_rows.specs.Rows.{part_at, written};
ghost use Rattle.command.specs.Answer.{setup_with};
ghost use Rattle.scheduler.specs.Engine.{Holds, rig_of, setup_of};
ghost use Rattle.scheduler.specs.Fits.{FitsKernel};
ghost use Rattle.scheduler.specs.Parts.{means};
ghost use Rattle.command.specs.Regression.Stages.{IsEmpty};
ghost use Rattle.runner_tests.specs.Runner.Files.{line_means};
ghost use Rattle.runner_tests.specs.Runner.Turns.{ShowsTurns, TellsFirst, TellsTest, TellsTests, TellsTurns, number_word, opening_rig, turns_budget};

use crate::runner::designs::design_of;
use crate::runner::texts::tests_of;
use await_tree::wait_list::{Awaits, Steps};
use gpi::{Flat, Gpi};
use list_kernel::ListKernel;
use plain_task::{TreeFunctions, TreeMaker};
use plain_waits::WaitList;
use port_io::{MemSink, NoMemory, Sink};
use rig_model::task::FlowMaker;
use scheduler::{Engine, Turn};
use std::alloc::{AllocError, Global};
use std::marker::Brand;
use std::sync::ledger::{Blank, Ledger};
use table_rows::Row;
use test_meaning::body::{TestCase, TestFile};

/// What the turns of a test may cost.
const TURNS_BUDGET: u64 = 10_000_000;

/// How many keys are registered, behind a space. Only want of memory is an error, here and below.
fn number_text<K: Gpi>(alloc: Global, kernel: &K) -> Result<String, AllocError>
    ensures { IfOk result (λ text. string_bytes text ≡ number_word (K.content kernel.now).counts) }
{
    let counts = kernel.counts();
    let left = counts.primed.saturating_sub(counts.removed);
    format!(in alloc; " {}", left.saturating_sub(counts.fired))
}

/// Gives the engine turns until one doesn't go on, and tells after each other one how many keys are registered.
fn turns_told<O: Sink, K: Gpi, L: Ledger, M: FlowMaker + Drop, W: Awaits>(
    alloc: Global,
    engine: &mut Engine<'_, M, W>,
    kernel: &mut K,
    out: &mut O,
    steps: &mut Steps<L>,
) -> Result<String, NoMemory>
    requires loaded { K.is_loaded kernel.old }
    requires fits { FitsKernel (means M.FlowMaker M.Flow.Flow W.Awaits) engine.old (K.content kernel.old) }
    requires none { (rig_of (means M.FlowMaker M.Flow.Flow W.Awaits) engine.old (K.content kernel.old)).planned ≡ None }
    ensures { IfOk result (λ text. Holds (means M.FlowMaker M.Flow.Flow W.Awaits) K.Gpi
        (λ setup c. (count : ℕ) × TellsTurns (sink_means O.Sink) setup count turns_budget c out.old (string_bytes text)) engine.old kernel.old) }
{
    let mut text = String::new(alloc);
    let mut fuel = TURNS_BUDGET;
    'turns: loop {
        let turn = engine.turn(alloc, kernel, out, &mut fuel, steps)?;
        if let Turn::Went = turn {
            let number = number_text(alloc, kernel)?;
            text.push_str(&number)?;
            continue;
        }
        return Ok(text);
    }
}

/// Begins a test, and tells its turns.
fn begun_told<O: Sink, K: Gpi, L: Ledger, M: FlowMaker + Drop, W: Awaits>(
    alloc: Global,
    case: &TestCase,
    engine: &mut Engine<'_, M, W>,
    kernel: &mut K,
    out: &mut O,
    steps: &mut Steps<L>,
) -> Result<String, NoMemory>
    requires loaded { K.is_loaded kernel.old }
    requires fits { FitsKernel (means M.FlowMaker M.Flow.Flow W.Awaits) engine.old (K.content kernel.old) }
    requires empty { IsEmpty (rig_of (means M.FlowMaker M.Flow.Flow W.Awaits) engine.old (K.content kernel.old)) }
    requires sound { is_sound_case
        (setup_of (means M.FlowMaker M.Flow.Flow W.Awaits) engine.old).functions (view_case case.now) ≡ true }
    ensures { IfOk result (λ text. Holds (means M.FlowMaker M.Flow.Flow W.Awaits) K.Gpi
        (λ setup c. TellsTest (sink_means O.Sink) setup (view_case case.now) c out.old (string_bytes text)) engine.old kernel.old) }
{
    match engine.begin_test(alloc, kernel, case, out, steps)? {
        Turn::Went => turns_told(alloc, engine, kernel, out, steps),
        _ => Ok(String::new(alloc)),
    }
}

/// Tells the turns of a test of a file on a design, by the file's functions.
fn functions_told<O: Sink, K: Gpi, L: Ledger>(
    alloc: Global,
    functions: &TreeFunctions,
    flat: &Flat,
    file: &TestFile,
    case: &TestCase,
    kernel: &mut K,
    out: &mut O,
    steps: &mut Steps<L>,
) -> Result<String, NoMemory>
    requires functions { map (function_of read_tree) functions.now.functions.items ≡ map view_function file.now.functions }
    requires flat { IsSoundFlat flat.now }
    requires file { is_sound (view_file file.now) ≡ true }
    requires case { is_sound_case (map view_function file.now.functions) (view_case case.now) ≡ true }
    ensures { IfOk result (λ text. TellsTest (sink_means O.Sink) (setup_with false flat.now (view_file file.now))
        (view_case case.now) (opening_rig (setup_with false flat.now (view_file file.now))) out.old (string_bytes text)) }
{
    kernel.load(alloc, flat)?;
    let maker = TreeMaker::new(functions);
    let awaits = WaitList::new(alloc);
    let mut engine = Engine::new(alloc, maker, awaits, flat, 0, false)?;
    begun_told(alloc, case, &mut engine, kernel, out, steps)
}

/// Tells the turns of a test of a file on a design.
fn test_told<O: Sink, K: Gpi, L: Ledger>(
    alloc: Global,
    flat: &Flat,
    file: &TestFile,
    case: &TestCase,
    kernel: &mut K,
    out: &mut O,
    steps: &mut Steps<L>,
) -> Result<String, NoMemory>
    requires flat { IsSoundFlat flat.now }
    requires file { is_sound (view_file file.now) ≡ true }
    requires case { is_sound_case (map view_function file.now.functions) (view_case case.now) ≡ true }
    ensures { IfOk result (λ text. TellsTest (sink_means O.Sink) (setup_with false flat.now (view_file file.now))
        (view_case case.now) (opening_rig (setup_with false flat.now (view_file file.now))) out.old (string_bytes text)) }
{
    let functions = TreeFunctions::of(alloc, file)?;
    functions_told(alloc, &functions, flat, file, case, kernel, out, steps)
}

/// The same on a new simulator. The blank is for the counter of steps of work.
fn test_shown<L: Ledger>(
    alloc: Global,
    flat: &Flat,
    file: &TestFile,
    case: &TestCase,
    blank: Blank,
) -> Result<String, NoMemory>
    requires name { blank.name ≡ L.name }
    requires parts { blank.parts ≡ L.parts }
    requires some { 0 < blank.parts }
    requires flat { IsSoundFlat flat.now }
    requires file { is_sound (view_file file.now) ≡ true }
    requires case { is_sound_case (map view_function file.now.functions) (view_case case.now) ≡ true }
    ensures { IfOk result (λ text. (out : Lines) × TellsTest line_means (setup_with false flat.now (view_file file.now))
        (view_case case.now) (opening_rig (setup_with false flat.now (view_file file.now))) out (string_bytes text)) }
{
    let mut kernel = ListKernel::new(alloc);
    let mut sink = MemSink::new(alloc);
    let mut steps = Steps::<L>::new(blank);
    test_told(alloc, flat, file, case, &mut kernel, &mut sink, &mut steps)
}

/// The first test of a file, if it has one.
fn file_shown(alloc: Global, flat: &Flat, file: &TestFile) -> Result<String, NoMemory>
    requires flat { IsSoundFlat flat.now }
    requires file { is_sound (view_file file.now) ≡ true }
    ensures { IfOk result (λ text. TellsFirst flat.now (view_file file.now) (view_file file.now).cases (string_bytes text)) }
{
    if file.cases.is_empty() {
        return Ok(String::from_str(alloc, "no test")?);
    }
    test_shown::<Brand>(alloc, flat, file, file.cases.get(0), Blank::new(1))
}

/// The first test of the file that a text is, if it is one.
fn tests_shown(alloc: Global, flat: &Flat, tests: &[u8]) -> Result<String, NoMemory>
    requires { IsSoundFlat flat.now }
    ensures { IfOk result (λ text. TellsTests flat.now tests.now (string_bytes text)) }
{
    match tests_of(alloc, tests)? {
        Ok(file) => file_shown(alloc, flat, &file),
        Err(_) => Ok(String::from_str(alloc, "refused")?),
    }
}

/// How many keys are registered after each turn of the first test of a row, but the one in which it ends.
pub fn turns_text(alloc: Global, row: &Row<'_>) -> Result<String, NoMemory>
    ensures { IfOk result (λ text. ShowsTurns (written (part_at 2 row.now)) (written (part_at 3 row.now)) (string_bytes text)) }
{
    let design = row.text(alloc, 2)?;
    let tests = row.text(alloc, 3)?;
    match design_of(alloc, &design)? {
        Ok(flat) => tests_shown(alloc, &flat, &tests),
        Err(_) => Ok(String::from_str(alloc, "refused")?),
    }
}
