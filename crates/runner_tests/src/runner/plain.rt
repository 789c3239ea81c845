//! Tests over trees and a plain list of waiting tasks.
ghost use Rattle.std.specs.Prelude.{◌≡◌, true, OnOk, map};
ghost use Rattle.port_io.specs.Means.{sink_means};
ghost use Rattle.gpi.specs.Content as content;
ghost use Rattle.gpi.specs.Soundness.{IsSoundFlat};
ghost use Rattle.test_meaning.specs.Body.Sound.{is_sound};
ghost use Rattle.test_meaning.specs.Body.Views.{view_file, view_function};
ghost use Rattle.task_core.specs.Code.Functions.{function_of};
ghost use Rattle.plain_task.specs.Tree.{read_tree};
ghost use Rattle.command.specs.Answer.{RunsFile};
ghost use Rattle.command.specs.Regression.Runs.{status_in};

use await_tree::wait_list::Steps;
use command::regression::Status;
use command::{FileRunner, RunOptions, run_with};
use gpi::{Flat, Gpi};
use plain_task::{TreeFunctions, TreeMaker};
use plain_waits::WaitList;
use port_io::{NoMemory, Sink};
use std::alloc::Global;
use std::sync::ledger::Ledger;
use test_meaning::body::TestFile;

/// Runs the tests of a file as tasks over trees, which wait in a plain list.
#[derive(Clone, Copy)]
pub struct PlainRunner;

/// Runs the tests of the file by its functions.
fn run_functions<O: Sink, K: Gpi, L: Ledger>(
    alloc: Global,
    functions: &TreeFunctions,
    flat: &Flat,
    file: &TestFile,
    options: RunOptions,
    kernel: &mut K,
    out: &mut O,
    steps: &mut Steps<L>,
) -> Result<Status, NoMemory>
    requires functions { map (function_of read_tree) functions.now.functions.items ≡ map view_function file.now.functions }
    requires flat { IsSoundFlat flat.now }
    requires file { is_sound (view_file file.now) ≡ true }
    requires loaded { K.is_loaded kernel.old }
    requires opening { K.content kernel.old ≡ content.opening flat.now }
    ensures runs { RunsFile (sink_means O.Sink) options flat.now (view_file file.now) (status_in result) (K.content kernel.new) out.old out.new }
    ensures loaded { OnOk result (K.is_loaded kernel.new) }
{
    let maker = TreeMaker::new(functions);
    let awaits = WaitList::new(alloc);
    run_with(
        alloc, maker, awaits, flat, file, options, kernel, out, steps,
    )
}

impl FileRunner for PlainRunner {
    fn run_file<O: Sink, K: Gpi, L: Ledger>(
        &self,
        alloc: Global,
        flat: &Flat,
        file: &TestFile,
        options: RunOptions,
        kernel: &mut K,
        out: &mut O,
        steps: &mut Steps<L>,
    ) -> Result<Status, NoMemory> {
        let functions = TreeFunctions::of(alloc, file)?;
        run_functions(alloc, &functions, flat, file, options, kernel, out, steps)
    }
}
