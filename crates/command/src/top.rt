//! The top call.
ghost use Rattle.std.specs.Prelude.{◌≡◌, ◌⊎◌, ◌∷◌, [], true, OnOk, map, string_bytes};
ghost use Rattle.port_io.specs.Means.{sink_means, store_means};
ghost use Rattle.gpi.specs.Content as content;
ghost use Rattle.gpi.specs.Soundness.{IsSoundFlat};
ghost use Rattle.test_meaning.specs.Body.Sound.{is_sound};
ghost use Rattle.test_meaning.specs.Body.Views.{view_file};
ghost use Rattle.command.specs.Regression.Runs.{EndsTo, status_in};
ghost use Rattle.command.specs.Answer.{Answered, Answers, LeavesKernel, Quit, RaisedAt, RefusesWords, RunsLast, RunsShown, RunsText, setup_with};
ghost use Rattle.command.specs.Reading.{CanRun, reading_of};

use crate::command_words::{WordsFault, read_words};
use crate::decision::Decision;
use crate::file_runner::FileRunner;
use crate::files::decide_work;
use crate::last_line::LastLine;
use crate::lines::usage_text;
use crate::options::{RunOptions, Shown, options_of};
use crate::regression::Status;
use await_tree::wait_list::Steps;
use gpi::{Flat, Gpi};
use port_io::{NoMemory, Sink, SinkFault, Store};
use std::alloc::Global;
use std::sync::ledger::Ledger;
use test_meaning::body::TestFile;
use vcd_text::{TracedSignals, VcdSink};

/// Puts the one line of an answer, which has this status where it is taken.
fn put_line<O: Sink>(alloc: Global, own: Status, line: &[u8], out: &mut O) -> Status
    ensures { EndsTo (sink_means O.Sink) (line.now ∷ []) own result out.old out.new }
{
    let put = out.put(alloc, line);
    own.after(put)
}

/// Puts the usage line.
pub(crate) fn refuse_words<O: Sink>(alloc: Global, out: &mut O) -> Status
    ensures { RefusesWords (sink_means O.Sink) result out.old out.new }
{
    match usage_text(alloc) {
        Ok(line) => put_line(alloc, Status::Usage, line.as_slice(), out),
        Err(NoMemory) => Status::NoMemory,
    }
}

/// Runs the tests of the file on a design, which the simulator holds so, and puts the last line of the run alone. Only want of memory is an error, and then nothing was put.
fn run_last<O: Sink, K: Gpi, L: Ledger, R: FileRunner>(
    alloc: Global,
    runner: &R,
    flat: &Flat,
    file: &TestFile,
    options: RunOptions,
    kernel: &mut K,
    out: &mut O,
    steps: &mut Steps<L>,
) -> Result<Status, NoMemory>
    requires flat { IsSoundFlat flat.now }
    requires file { is_sound (view_file file.now) ≡ true }
    requires loaded { K.is_loaded kernel.old }
    requires opening { K.content kernel.old ≡ content.opening flat.now }
    ensures runs { RunsLast (sink_means O.Sink) options flat.now (view_file file.now) (status_in result) (K.content kernel.new) out.old out.new }
    ensures loaded { OnOk result (K.is_loaded kernel.new) }
{
    let mut last = LastLine::new(alloc);
    match runner.run_file(alloc, flat, file, options, kernel, &mut last, steps)? {
        Status::NoMemory => Err(NoMemory),
        own => Ok(put_line(alloc, own, last.bytes(), out)),
    }
}

/// Runs the tests of the file on a design, which the simulator holds so, and puts the VCD text of the run. Only want of memory is an error.
fn run_text<O: Sink, K: Gpi, L: Ledger, R: FileRunner>(
    alloc: Global,
    runner: &R,
    flat: &Flat,
    file: &TestFile,
    options: RunOptions,
    kernel: &mut K,
    out: &mut O,
    steps: &mut Steps<L>,
) -> Result<Status, NoMemory>
    requires flat { IsSoundFlat flat.now }
    requires file { is_sound (view_file file.now) ≡ true }
    requires loaded { K.is_loaded kernel.old }
    requires opening { K.content kernel.old ≡ content.opening flat.now }
    ensures runs { RunsText (sink_means O.Sink) (setup_with options.trace flat.now (view_file file.now)) options.seed
        (view_file file.now).cases options.budget (status_in result) (K.content kernel.new) out.old out.new }
    ensures loaded { OnOk result (K.is_loaded kernel.new) }
{
    let signals = TracedSignals::new(alloc, flat)?;
    let mut text = VcdSink::new(&signals, out);
    match text.begin(alloc) {
        Ok(()) => runner.run_file(alloc, flat, file, options, kernel, &mut text, steps),
        Err(SinkFault::Failed) => Ok(Status::WriteFault),
        Err(SinkFault::OutOfMemory) => Err(NoMemory),
    }
}

/// Runs the tests of the file on a design, and puts of the run what the options ask for. Only want of memory is an error.
fn run_shown<O: Sink, K: Gpi, L: Ledger, R: FileRunner>(
    alloc: Global,
    runner: &R,
    flat: &Flat,
    file: &TestFile,
    options: RunOptions,
    kernel: &mut K,
    out: &mut O,
    steps: &mut Steps<L>,
) -> Result<Status, NoMemory>
    requires flat { IsSoundFlat flat.now }
    requires file { is_sound (view_file file.now) ≡ true }
    ensures runs { RunsShown options.shown (sink_means O.Sink) options flat.now
        (view_file file.now) (status_in result) (K.content kernel.new) out.old out.new }
    ensures loaded { OnOk result (K.is_loaded kernel.new) }
{
    kernel.load(alloc, flat)?;
    match options.shown {
        Shown::AllLines => runner.run_file(alloc, flat, file, options, kernel, out, steps),
        Shown::LastLine => run_last(alloc, runner, flat, file, options, kernel, out, steps),
        Shown::VcdText => run_text(alloc, runner, flat, file, options, kernel, out, steps),
    }
}

/// Does what was decided.
fn answer<O: Sink, K: Gpi, L: Ledger, R: FileRunner>(
    alloc: Global,
    runner: &R,
    decision: &Decision,
    options: RunOptions,
    kernel: &mut K,
    out: &mut O,
    steps: &mut Steps<L>,
) -> Status
    requires { CanRun decision.now }
    ensures answers { Answers (sink_means O.Sink) options (reading_of decision.now) result (K.content kernel.new) out.old out.new }
    ensures kernel { LeavesKernel K.is_loaded result kernel.old kernel.new }
{
    match decision {
        Decision::Refused(own, line) => put_line(alloc, *own, line.as_slice(), out),
        Decision::Runs(flat, file) => {
            match run_shown(alloc, runner, flat, file, options, kernel, out, steps) {
                Ok(status) => status,
                Err(NoMemory) => Status::NoMemory,
            }
        }
    }
}

/// Runs the tests of a file on a design, or generated ones.
///
/// `words` are those of the command without the program's name: `[--top NAME] [--budget N] [--seed N] [--trace | --vcd] DESIGN TESTS`, or
/// `[--budget N] [--seed N] [--trace] --made N`, options and files in any order, as `read_words` of `command::command_words` takes them. DESIGN and
/// TESTS are the names of the two files. The top of the design is the module that `--top` names, or else the only one that no module
/// instantiates. The design is read first. With `--made` no file is read: the texts are those that `command::made_texts` makes of the number, which
/// count as
/// those of the files `made.v` and `made.py`. What is put, one put for each line, and the status:
///
/// - words without a reading: the usage line, `Usage`, and nothing is read;
/// - a file that cannot be read: `error: cannot read <file>`, `ReadFault`;
/// - a design that has more than 1,048,576 bytes: `error: <file>: TooLong`, `DesignRefused`; one that breaks a rule:
///   `error: <file>: <rule> at <line>:<column>`, `DesignRefused`, by the rule that it breaks first;
/// - tests that have more than 1,048,576 bytes: `error: <file>: TooLong`, `TestsRefused`; ones that break a rule:
///   `error: <file>: <rule> at line <line>`, `TestsRefused`, by the rule that they break first;
/// - else the lines of the run of all tests, in which random numbers are drawn by the seed of `--seed`, or of seed 0, and in which each
///   told change of a signal has a line where `--trace` asks for it; with `--made`, and without `--trace`, the last of these lines alone; with
///   `--vcd` the VCD text of what these lines tell (IEEE 1364-2005, clause 18), and no other line. The status is `Passed`, or `Failed` where a
///   test failed. Where the next step doesn't fit what is left of the budget it is `Budget`, and the run's last line, which a VCD text doesn't have,
///   is `BUDGET <budget>`: the budget of `--budget`, or 10,000,000.
///
/// Where the store tells its files, the texts are the first bytes of the files that it told when it was handed in.
///
/// `WriteFault` comes where a put failed, and nothing is put after it. `NoMemory` comes where memory was short, and then a front of
/// that answer was put, which may be nothing; of a VCD text the lines before its changes were put as far as memory went, or all of them were taken,
/// and of those behind them nothing is said. The count of faults of the store rose where the status is `ReadFault`, and that of the sink where it is
/// `WriteFault`.
///
/// The run is simulated by `kernel`, whatever it held before: the design is loaded into it once both texts are accepted. After
/// `Passed`, `Failed` and `Budget` it stands for the run's last configuration: it holds that configuration's state, its awaited keys are
/// the registered ones, and its counts are those of the run. After `Usage`, `DesignRefused`,
/// `TestsRefused` and `ReadFault` it is as it was handed in. After `WriteFault` it holds a design, or it is as it was handed in. After
/// `NoMemory` nothing is said of it. Tasks and those that wait are kept by `runner`, of which nothing else rests; `steps` counts the steps of work of the keeper of waiting tasks, if that keeper counts them.
pub fn cocorun<S: Store, O: Sink, K: Gpi, L: Ledger, R: FileRunner>(
    alloc: Global,
    runner: &R,
    words: &[String],
    store: &mut S,
    out: &mut O,
    kernel: &mut K,
    steps: &mut Steps<L>,
) -> Status
    ensures answer { Answered (store_means S.Store) (sink_means O.Sink) (map string_bytes words.now) result
        store.old store.new (K.content kernel.new) out.old out.new
        ⊎ Quit result out.old out.new }
    ensures kernel { LeavesKernel K.is_loaded result kernel.old kernel.new }
    ensures read_fault { RaisedAt Status.ReadFault (S.faults store.old) (S.faults store.new) result }
    ensures write_fault { RaisedAt Status.WriteFault (O.faults out.old) (O.faults out.new) result }
{
    let reading = match read_words(alloc, words) {
        Ok(reading) => reading,
        Err(WordsFault::Usage) => return refuse_words(alloc, out),
        Err(WordsFault::OutOfMemory) => return Status::NoMemory,
    };
    match decide_work(alloc, reading.work, store) {
        Ok(decision) => answer(
            alloc,
            runner,
            &decision,
            options_of(reading),
            kernel,
            out,
            steps,
        ),
        Err(NoMemory) => Status::NoMemory,
    }
}
