//! The running of packed processes.
ghost use Rattle.std.specs.Prelude.{◌≡◌, ◌≤◌, ◌<◌, ◌+◌, length, vec_capacity, OnOk, OnErr};
ghost use Rattle.gpi.specs.Terms.{widths_of};
ghost use Rattle.gpi.specs.Targets.{AreFitting};
ghost use Rattle.gpi.specs.Activation.{Map, AreHidden};
ghost use Rattle.v_exec.specs.Machine.{exec};
ghost use Rattle.v_exec.specs.Code.{run_of, code_at, IsSoundCode, HasRun};
ghost use Rattle.v_exec.specs.Running.{machine_of, IsRunning, IsSomewhere, Grows};
ghost use Rattle.v_exec.specs.Workspace.{IsReady, IsWorkspace, AreTouched};

use crate::code::Code;
use crate::step::step;
use crate::workspace::Workspace;
use four_value::Bits;
use gpi::Update;
use port_io::NoMemory;

impl Code {
    /// Does one activation of a process: the shown and the hidden values become what it leaves, its updates are appended to `later`, and
    /// `work` tells which signals were written. `hidden` has one place for each signal. Only want of memory for `later` is an error, and then
    /// all is as before.
    pub fn run_process(
        &self,
        process: u32,
        shown: &mut [Bits],
        hidden: &mut [Option<Bits>],
        later: &mut Vec<Update>,
        work: &mut Workspace,
    ) -> Result<(), NoMemory>
        requires sound { IsSoundCode self.now (widths_of shown.old) }
        requires known { process < length self.now.starts.items }
        requires hidden { AreHidden hidden.old (widths_of shown.old) }
        requires fits { AreFitting later.old.items (widths_of shown.old) }
        requires ready { IsReady self.now (length shown.old) work.old }
        ensures widths { widths_of shown.new ≡ widths_of shown.old }
        ensures hidden { AreHidden hidden.new (widths_of shown.old) }
        ensures is { OnOk result (HasRun (run_of self.now process shown.old hidden.old) later.old.items shown.new hidden.new later.new.items) }
        ensures touched { OnOk result (AreTouched shown.old shown.new work.new.touched.items) }
        ensures fits { AreFitting later.new.items (widths_of shown.old) }
        ensures few { length later.new.items ≤ length later.old.items + self.now.most_stores }
        ensures work { IsWorkspace self.now (length shown.old) work.new }
        ensures room { vec_capacity later.old ≤ vec_capacity later.new }
        ensures err_shown { OnErr result (shown.new ≡ shown.old) }
        ensures err_hidden { OnErr result (hidden.new ≡ hidden.old) }
        ensures err_later { OnErr result (later.new.items ≡ later.old.items) }
        ensures err_work { OnErr result (work.new ≡ work.old) }
    {
        later.reserve(self.most_stores)?;
        work.stack.clear();
        work.noted.clear();
        self.run_from(self.starts[process as usize], shown, hidden, later, work);
        Ok(())
    }

    /// Does the instructions from a place on, up to the end of the process.
    fn run_from(
        &self,
        start: usize,
        shown: &mut [Bits],
        hidden: &mut [Option<Bits>],
        later: &mut Vec<Update>,
        work: &mut Workspace,
    )
        ghost before: { Map }
        requires there { IsSomewhere self.now (widths_of shown.old) start work.old (length later.old.items) (length later.old.items)
            (vec_capacity later.old) }
        requires running { IsRunning before shown.old hidden.old work.old }
        requires fits { AreFitting later.old.items (widths_of shown.old) }
        ensures is { machine_of work.new shown.new hidden.new later.new.items
            ≡ exec (code_at self.now start) 0 (machine_of work.old shown.old hidden.old later.old.items) }
        ensures widths { widths_of shown.new ≡ widths_of shown.old }
        ensures running { IsRunning before shown.new hidden.new work.new }
        ensures fits { AreFitting later.new.items (widths_of shown.old) }
        ensures few { length later.new.items ≤ length later.old.items + self.now.most_stores }
        ensures grows { Grows self.now.most_stores work.old work.new }
        ensures room { vec_capacity later.new ≡ vec_capacity later.old }
    {
        let mut at = start;
        while let Some(passed) = step(&self.instructions[at], shown, hidden, later, work) {
            at += 1 + passed;
        }
    }
}
