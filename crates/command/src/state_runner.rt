//! Tests over numbered states and a table of triggers.
ghost use Rattle.std.specs.Prelude.{◌≡◌, true, OnOk, map};
ghost use Rattle.port_io.specs.Means.{sink_means};
ghost use Rattle.gpi.specs.Content as content;
ghost use Rattle.gpi.specs.Soundness.{IsSoundFlat};
ghost use Rattle.test_meaning.specs.Body.Sound.{is_sound};
ghost use Rattle.test_meaning.specs.Body.Views.{view_file, view_function};
ghost use Rattle.task_compile.specs.Reading.{functions_in};
ghost use Rattle.command.specs.Answer.{RunsFile};
ghost use Rattle.command.specs.Regression.Runs.{status_in};

use crate::file_runner::{FileRunner, run_with};
use crate::options::RunOptions;
use crate::regression::Status;
use await_tree::wait_list::Steps;
use gpi::{Flat, Gpi};
use port_io::{NoMemory, Sink};
use state_task::{StateFunctions, StateMaker};
use std::alloc::Global;
use std::sync::ledger::Ledger;
use task_compile::{Program, compile};
use test_meaning::body::TestFile;
use trigger_table::TriggerTable;

/// Runs the tests of a file as tasks over numbered states, which wait in a table of triggers.
#[derive(Clone, Copy)]
pub struct StateRunner;

/// Runs the tests of the file by the program of its functions.
fn run_program<O: Sink, K: Gpi, L: Ledger>(
    alloc: Global,
    program: &Program,
    flat: &Flat,
    file: &TestFile,
    options: RunOptions,
    kernel: &mut K,
    out: &mut O,
    steps: &mut Steps<L>,
) -> Result<Status, NoMemory>
    requires program { functions_in program.now ≡ map view_function file.now.functions }
    requires flat { IsSoundFlat flat.now }
    requires file { is_sound (view_file file.now) ≡ true }
    requires loaded { K.is_loaded kernel.old }
    requires opening { K.content kernel.old ≡ content.opening flat.now }
    ensures runs { RunsFile (sink_means O.Sink) options flat.now (view_file file.now) (status_in result) (K.content kernel.new) out.old out.new }
    ensures loaded { OnOk result (K.is_loaded kernel.new) }
{
    let functions = StateFunctions::of(alloc, program)?;
    let maker = StateMaker::new(&functions);
    let awaits = TriggerTable::new(alloc);
    run_with(
        alloc, maker, awaits, flat, file, options, kernel, out, steps,
    )
}

impl FileRunner for StateRunner {
    fn run_file<O: Sink, K: Gpi, L: Ledger>(
        &self,
        alloc: Global,
        flat: &Flat,
        file: &TestFile,
        options: RunOptions,
        kernel: &mut K,
        out: &mut O,
        steps: &mut Steps<L>,
    ) -> Result<Status, NoMemory> {
        let program = compile(alloc, file)?;
        run_program(alloc, &program, flat, file, options, kernel, out, steps)
    }
}
