//! Tasks that write signals and lines.
ghost use Rattle.std.specs.Prelude.{◌≡◌, ◌∷◌, [], List, IfOk, OnOk, Ok, Some, None};
ghost use Rattle.gpi.specs.declared.design.Flat.{Flat};
ghost use Rattle.port_io.specs.Means.{PutsTo, sink_means};
ghost use Rattle.py_value.specs.declared.trigger.TaskNo.{TaskNo};
ghost use Rattle.scheduler.specs.Setups.{setup_of};
ghost use Rattle.rig_model.specs.Run.Effect.{effect};
ghost use Rattle.rig_model.specs.Run.Line.{log_line};
ghost use Rattle.rig_model.specs.Parts.Fits.{IsSoundWrite};
ghost use Rattle.run_state.specs.Queue.Fits.{Fits, Keeps};
ghost use Rattle.scheduler.specs.Turns.{IsLogged, LeadsTo, next_fault};
ghost use Rattle.rig_model.specs.declared.task.task.Turned.TheVariants as turned;
ghost use Rattle.test_meaning.specs.Body.BodyTrees.{Function};

use crate::teller::Teller;
use crate::test::RunningTest;
use crate::turned::{Next, Turn};
use await_tree::Given;
use await_tree::wait_list::{Awaits, Steps};
use gpi::{Gpi, Region, SigId, Write};
use port_io::{Name, NoMemory, Sink, SinkFault};
use py_syntax::LogLevel;
use py_value::Value;
use rig_model::run::Outcome;
use rig_model::task::FlowMaker;
use run_state::lines::log_line;
use run_view::signal_port::Staged;
use std::alloc::Global;
use std::sync::ledger::Ledger;

/// A put was done: the task goes on with `None`, the put broke, or memory was wanting.
fn after_put(fault: Option<SinkFault>) -> Result<Next, NoMemory>
    ensures next { IfOk result IsLogged }
    ensures fault { next_fault result ≡ fault }
{
    match fault {
        None => Ok(Next::GoesOn(Given::Value(Value::Absent))),
        Some(SinkFault::Failed) => Ok(Next::Ends(Turn::WriteFault)),
        Some(SinkFault::OutOfMemory) => Err(NoMemory),
    }
}

/// Puts a line: why it wasn't taken, if it wasn't.
fn put_line<O: Sink>(alloc: Global, out: &mut O, line: &[u8]) -> Option<SinkFault>
    ensures { PutsTo (sink_means O.Sink) out.old (line.now ∷ []) result out.new }
{
    match out.put(alloc, line) {
        Ok(()) => None,
        Err(fault) => Some(fault),
    }
}

/// A task writes a log line.
pub(crate) fn write_log<O: Sink>(
    alloc: Global,
    time: u64,
    level: LogLevel,
    text: &Name,
    out: &mut O,
) -> Result<Next, NoMemory>
    ensures next { IfOk result IsLogged }
    ensures puts { PutsTo (sink_means O.Sink) out.old (log_line time level text.now ∷ []) (next_fault result) out.new }
{
    let line = log_line(alloc, time, level, text.bytes())?;
    after_put(put_line(alloc, out, line.as_slice()))
}

impl<M: FlowMaker + Drop, W: Awaits> RunningTest<M, W> {
    ghost use Rattle.scheduler.specs.TestFits.{HasRoom, Kept, LeadsOn};
    ghost use Rattle.scheduler.specs.Parts.{Relates, means, rig_of};

    /// A task stages a write (cocotb 1.8, "Writing values to signals"). In the read-only phase no signal may be written: such a write ends the test,
    /// and nothing is staged.
    pub(crate) fn stage_write<K: Gpi, L: Ledger>(
        &mut self,
        kernel: &mut K,
        sig: SigId,
        act: Write,
        steps: &mut Steps<L>,
    ) -> Result<Next, NoMemory>
        requires loaded { K.is_loaded kernel.old }
        requires keeps { Keeps W.waiting W.held self.old.queue (K.content kernel.old) }
        requires room { HasRoom (means M.FlowMaker M.Flow.Flow W.Awaits) self.old }
        ensures leads { IfOk result (λ next. (task : TaskNo)
            → LeadsOn (means M.FlowMaker M.Flow.Flow W.Awaits) K.Gpi task (turned.Stage sig act) self.old kernel.old next self.new kernel.new) }
        ensures fits { (flat : Flat) → IsSoundWrite flat.signals (record { sig = sig; act = act })
            → Fits flat W.waiting W.held self.old.queue (K.content kernel.old) → Fits flat W.waiting W.held self.new.queue (K.content kernel.new) }
        ensures kept { Kept (means M.FlowMaker M.Flow.Flow W.Awaits) K.Gpi self.old self.new kernel.new }
    {
        if kernel.region() == Region::End {
            return Ok(Next::Ends(Turn::Over(Outcome::ReadOnlyWrite(sig))));
        }
        self.queue.stage(kernel, sig, act, steps)?;
        Ok(Next::GoesOn(Given::Value(Value::Absent)))
    }

    /// A task writes a signal at once. In the read-only phase such a write ends the test, and nothing is written.
    pub(crate) fn put_write<O: Sink, K: Gpi, L: Ledger>(
        &mut self,
        alloc: Global,
        kernel: &mut K,
        teller: &Teller<'_>,
        write: Staged,
        out: &mut O,
        steps: &mut Steps<L>,
    ) -> Result<Next, NoMemory>
        requires loaded { K.is_loaded kernel.old }
        requires fits { Fits teller.now.flat.now W.waiting W.held self.old.queue (K.content kernel.old) }
        requires sound { IsSoundWrite teller.now.flat.now.signals write }
        requires room { HasRoom (means M.FlowMaker M.Flow.Flow W.Awaits) self.old }
        ensures leads { IfOk result (λ next. (functions : List Function) → (task : TaskNo) → Relates (means M.FlowMaker M.Flow.Flow W.Awaits) K.Gpi
            (λ c d. LeadsTo (setup_of functions teller.now) task (turned.Put write.sig write.act) c next d)
            self.old kernel.old self.new kernel.new) }
        ensures puts { (functions : List Function) → (task : TaskNo)
            → PutsTo (sink_means O.Sink) out.old (effect (setup_of functions teller.now) task (turned.Put write.sig write.act)
            (rig_of (means M.FlowMaker M.Flow.Flow W.Awaits) self.old (K.content kernel.old))).lines
            (next_fault result) out.new }
        ensures room { OnOk result (HasRoom (means M.FlowMaker M.Flow.Flow W.Awaits) self.new) }
        ensures fits { Fits teller.now.flat.now W.waiting W.held self.new.queue (K.content kernel.new) }
        ensures kept { Kept (means M.FlowMaker M.Flow.Flow W.Awaits) K.Gpi self.old self.new kernel.new }
    {
        if kernel.region() == Region::End {
            return Ok(Next::Ends(Turn::Over(Outcome::ReadOnlyWrite(write.sig))));
        }
        after_put(teller.put_now(alloc, &mut self.queue, kernel, write, out, steps))
    }
}
