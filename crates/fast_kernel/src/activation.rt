//! An activation of a process.
ghost use Rattle.std.specs.Prelude.{◌≡◌, ◌<◌, ◌≤◌, ℕ, length, OnOk, OnErr, slice_get, vec_capacity};
ghost use Rattle.gpi.specs.Activation.{Map};
ghost use Rattle.gpi.specs.State.{changes};
ghost use Rattle.v_exec.specs.declared.code.Code.{Code as AnyCode};
ghost use Rattle.v_exec.specs.Workspace.{AreTouched, AreMarks, IsWorkspace, IsReady, sigs_of};
ghost use Rattle.kernel_base.specs.Lists.{AreBelow, AreDistinct};
ghost use Rattle.kernel_base.specs.Steps.{ran};
ghost use Rattle.fast_kernel.specs.Kernel.{content_of, IsLoaded, Stays, noted, woken_by, own_in};

use crate::changes::tell_changes;
use crate::simulation::Simulation;
use crate::wake::wake;
use four_value::Bits;
use gpi::{Region, Report};
use kernel_base::own_of;
use port_io::NoMemory;
use v_exec::Workspace;

/// Notes the changes among the signals that an activation touched, and takes the marks of these away.
fn note_changes(work: &mut Workspace, shown: &[Bits], reports: &mut Vec<Report>)
    requires below { AreBelow (length shown.now) (sigs_of work.old.touched.items) }
    requires distinct { AreDistinct (sigs_of work.old.touched.items) }
    requires marks { AreMarks work.old.flags.items work.old.touched.items }
    requires room { length shown.now ≤ vec_capacity reports.old }
    ensures is { (before : Map) → length before ≡ length shown.now → AreTouched before shown.now work.old.touched.items
        → reports.new.items ≡ changes 0 before shown.now }
    ensures ready { (code : AnyCode) (n : ℕ) → IsWorkspace code n work.old → IsReady code n work.new }
    ensures room { vec_capacity reports.old ≤ vec_capacity reports.new }
{
    reports.clear();
    tell_changes(work.touched(), shown, reports);
    work.clear();
}

impl Simulation {
    /// Runs the body of a process, and notes its changes.
    pub fn run_body(&mut self, process: u32) -> Result<(), NoMemory>
        requires loaded { IsLoaded self.old }
        requires below { process < length self.old.headers.items }
        ensures stays { Stays self.old self.new }
        ensures headers { self.new.headers ≡ self.old.headers }
        ensures told { OnOk result (self.new.told ≡ 0) }
        ensures is { let c = content_of self.old in
            OnOk result (content_of self.new ≡ record c { state = noted c.state (ran (slice_get c.procs process) c.state.signals c.state.hidden) }) }
        ensures kept { OnErr result (content_of self.new ≡ content_of self.old) }
    {
        self.queue.make_room(self.code.most_stores())?;
        self.code.run_process(
            process,
            &mut self.shown,
            &mut self.hidden,
            &mut self.appended,
            &mut self.work,
        )?;
        self.queue.enqueue(self.time, &self.appended);
        self.appended.clear();
        note_changes(&mut self.work, &self.shown, &mut self.reports);
        self.told = 0;
        Ok(())
    }

    /// The processes that wait for the changes of an activation become active, but for the one that ran if it is an `always`.
    pub fn end_activation(&mut self, process: u32)
        requires loaded { IsLoaded self.old }
        requires below { process < length self.old.headers.items }
        requires untold { self.old.told ≡ 0 }
        ensures stays { Stays self.old self.new }
        ensures is { let c = content_of self.old in
            content_of self.new ≡ record c { state = woken_by c.procs c.state (own_in (slice_get c.procs process) process) } }
    {
        let kind = self.headers[process as usize].kind;
        wake(
            &mut self.waiters,
            &self.reports,
            own_of(kind, process),
            &mut self.queue,
        );
        self.region = Region::Active;
    }
}
