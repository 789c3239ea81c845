//! What runs the tests of a file.
ghost use Rattle.std.specs.Prelude.{◌≡◌, [], true, OnOk, map};
ghost use Rattle.port_io.specs.Means.{sink_means};
ghost use Rattle.await_tree.specs.WaitList.Keys.{AreAlike};
ghost use Rattle.gpi.specs.Content as content;
ghost use Rattle.gpi.specs.Soundness.{IsSoundFlat};
ghost use Rattle.test_meaning.specs.Body.Sound.{is_sound};
ghost use Rattle.test_meaning.specs.Body.Views.{view_file, view_function};
ghost use Rattle.command.specs.Answer.{RunsFile};
ghost use Rattle.command.specs.Regression.Runs.{status_in};

use crate::options::RunOptions;
use crate::regression::{Status, run_all};
use await_tree::wait_list::{Awaits, Steps};
use gpi::{Flat, Gpi};
use port_io::{NoMemory, Sink};
use rig_model::task::FlowMaker;
use scheduler::Engine;
use std::alloc::Global;
use std::sync::ledger::Ledger;
use test_meaning::body::TestFile;

/// What runs the tests of a file, by some form of tasks and some keeper of those that wait.
pub trait FileRunner {
    ghost use Rattle.std.specs.Prelude.{◌≡◌, true, OnOk};
    ghost use Rattle.port_io.specs.Means.{sink_means};
    ghost use Rattle.gpi.specs.Content as content;
    ghost use Rattle.gpi.specs.Soundness.{IsSoundFlat};
    ghost use Rattle.test_meaning.specs.Body.Sound.{is_sound};
    ghost use Rattle.test_meaning.specs.Body.Views.{view_file};
    ghost use Rattle.command.specs.Answer.{RunsFile};
    ghost use Rattle.command.specs.Regression.Runs.{status_in};

    /// Runs the tests of the file on a design, which the simulator holds in its opening state, and puts all lines of the run. Only want of memory
    /// is an error. `steps` counts the steps of work of the keeper of waiting tasks, if that keeper counts them.
    fn run_file<O: Sink, K: Gpi, L: Ledger>(
        &self,
        alloc: Global,
        flat: &Flat,
        file: &TestFile,
        options: RunOptions,
        kernel: &mut K,
        out: &mut O,
        steps: &mut Steps<L>,
    ) -> Result<Status, NoMemory>
        requires flat { IsSoundFlat flat.now }
        requires file { is_sound (view_file file.now) ≡ true }
        requires loaded { K.is_loaded kernel.old }
        requires opening { K.content kernel.old ≡ content.opening flat.now }
        ensures runs { RunsFile (sink_means O.Sink) options flat.now (view_file file.now) (status_in result) (K.content kernel.new) out.old out.new }
        ensures loaded { OnOk result (K.is_loaded kernel.new) };
}

/// Runs the tests of a file, as `run_file` of [`FileRunner`] says, by this maker of the tasks of its functions and this keeper, in which no task waits.
pub fn run_with<O: Sink, K: Gpi, L: Ledger, M: FlowMaker + Drop, W: Awaits>(
    alloc: Global,
    maker: M,
    awaits: W,
    flat: &Flat,
    file: &TestFile,
    options: RunOptions,
    kernel: &mut K,
    out: &mut O,
    steps: &mut Steps<L>,
) -> Result<Status, NoMemory>
    requires functions { M.functions maker ≡ map view_function file.now.functions }
    requires waiting { W.waiting awaits ≡ [] }
    requires held { AreAlike (W.held awaits) [] }
    requires flat { IsSoundFlat flat.now }
    requires file { is_sound (view_file file.now) ≡ true }
    requires loaded { K.is_loaded kernel.old }
    requires opening { K.content kernel.old ≡ content.opening flat.now }
    ensures runs { RunsFile (sink_means O.Sink) options flat.now (view_file file.now) (status_in result) (K.content kernel.new) out.old out.new }
    ensures loaded { OnOk result (K.is_loaded kernel.new) }
{
    let mut engine = Engine::new(alloc, maker, awaits, flat, options.seed, options.trace)?;
    Ok(run_all(alloc, file, &mut engine, kernel, out, options.budget, steps))
}
