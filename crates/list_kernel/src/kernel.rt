//! The plain simulator.
ghost use Rattle.std.specs.Prelude.{
  ◌≡◌,
  ℕ,
  ◌<◌,
  ◌≤◌,
  ◌+◌,
  ◌++◌,
  ◌∷◌,
  [],
  true,
  false,
  length,
  OnOk,
  OnErr,
  IfOk,
  IsTrue,
  MatchOption,
  vec_capacity,
  None,
  Some,
  List,
  slice_get,
  slice_index_or,
};
ghost use Rattle.gpi.specs.Limits.{most_elements};
ghost use Rattle.gpi.specs.Design.{procs_of, proc_of, starters};
ghost use Rattle.gpi.specs.Soundness.{IsSoundFlat, AreProcesses};
ghost use Rattle.gpi.specs.Activation.{IsSound, with_part};
ghost use Rattle.gpi.specs.Keys.{fired_of, holds, least};
ghost use Rattle.gpi.specs.State.{delayed_times};
ghost use Rattle.gpi.specs.Events.{
  show,
  put,
  release_over,
  value_at,
  stored_at,
  with_hidden,
  report_case,
  due_case,
  active_case,
  later_case,
  settle_case,
  end_case,
  tells,
  edge_keys,
};
ghost use Rattle.gpi.specs.Content.{Content, opening, no_design, Does, IsRunning};
ghost use Rattle.kernel_base.specs.Lists.{is_empty};
ghost use Rattle.list_kernel.specs.Kernel.{content_of, IsLoaded, Stays};
ghost use Rattle.kernel_base.specs.Steps.{
  TellsIt,
  Answered,
  ran,
  with_run,
  ended,
  from_time,
  from_end,
  from_settle,
  from_later,
  from_active,
  from_due,
  from_reports,
};

use crate::registered::Registered;
use crate::run::activate;
use crate::updates::{Updates, soonest};
use crate::values::Values;
use crate::wake::{tell_changes, wake};
use four_value::Bits;
use gpi::{
    Advance, Counts, Fired, Flat, Gpi, Key, Kind, Moved, Process, Region, Report, SigId, Told,
    Update,
};
use kernel_base::{Simulated, are_same, copy_wakes, own_of, start_nets, unseen};
use port_io::{NoMemory, Sequence};
use std::alloc::Global;
use std::mem::swap;

/// A simulator of one design over plain lists; none before the first `load`.
#[derive(Drop)]
pub struct ListKernel {
    processes: Vec<Process>,
    nets: Vec<bool>,
    values: Values,
    active: Vec<u32>,
    reports: Vec<Report>,
    updates: Updates,
    time: u64,
    region: Region,
    book: Registered,
}

impl ListKernel {
    /// Runs the body of a process. The values keep what was shown before it.
    fn run_body(&mut self, p: u32) -> Result<(), NoMemory>
        requires loaded { IsLoaded self.old }
        requires below { p < length self.old.processes.items }
        ensures stays { Stays self.old self.new }
        ensures before { self.new.values.shown_before.items ≡ self.old.values.shown.items }
        ensures procs { self.new.processes.items ≡ self.old.processes.items }
        ensures nets { self.new.nets.items ≡ self.old.nets.items }
        ensures book { self.new.book ≡ self.old.book }
        ensures is { let c = content_of self.old in
            OnOk result ((content_of self.new).state ≡ with_run c.state (ran (slice_get c.procs p) c.state.signals c.state.hidden)) }
        ensures kept { OnErr result (content_of self.new ≡ content_of self.old) }
    {
        let process = &self.processes[p as usize];
        activate(
            &process.body,
            self.time,
            &mut self.values,
            &mut self.updates,
        )
    }

    /// Tells the changes of an activation of a process that is no longer in the active list, and wakes what waits for them.
    fn end_activation(&mut self, p: u32)
        requires loaded { IsLoaded self.old }
        requires quiet { self.old.reports.items ≡ [] }
        requires below { p < length self.old.processes.items }
        requires free { holds p self.old.active.items ≡ false }
        ensures loaded { IsLoaded self.new }
        ensures procs { self.new.processes.items ≡ self.old.processes.items }
        ensures nets { self.new.nets.items ≡ self.old.nets.items }
        ensures book { self.new.book ≡ self.old.book }
        ensures is { let c = content_of self.old in (content_of self.new).state
            ≡ ended c.procs c.state self.old.values.shown_before.items p (slice_get c.procs p) }
    {
        tell_changes(
            &self.values.shown_before,
            &self.values.shown,
            &mut self.reports,
        );
        let process = &self.processes[p as usize];
        wake(
            &self.processes,
            &self.reports,
            &mut self.active,
            own_of(process.kind, p),
        );
        self.region = Region::Active;
    }

    /// The next time at which something is to happen: a registered one, or that of a delayed update.
    fn next_time(&self) -> Option<u64>
        ensures { let c = content_of self.now in result ≡ least (delayed_times c.state.delayed ++ c.keys.times) }
    {
        soonest(&self.updates.delayed, self.book.least_time())
    }
}

impl Simulated for ListKernel {
    ghost use Rattle.list_kernel.specs.Kernel.{content_of, IsLoaded};

    ghost held = { content_of };

    ghost is_held = { IsLoaded };

    fn enter(&mut self, region: Region) {
        self.region = region;
    }

    fn shown_at(&self, sig: SigId) -> Bits {
        self.values.shown[sig.0 as usize]
    }

    #[tactic(auto, using(kernel_base::proofs::Hiding::hidden_places))]
    fn hidden_at(&self, sig: SigId) -> Option<Bits> {
        self.values.hidden[sig.0 as usize]
    }

    #[tactic(auto, using(kernel_base::proofs::Hiding::hidden_places))]
    fn hide(&mut self, sig: SigId, bits: Bits) {
        self.values.hide(sig, bits);
    }

    fn unhide(&mut self, sig: SigId) {
        self.values.unhide(sig);
    }

    fn is_net(&self, sig: SigId) -> bool {
        self.nets[sig.0 as usize]
    }

    #[tactic(auto, using(gpi::proofs::Widths::widths, crate::proofs::Loaded::loaded))]
    fn show(&mut self, sig: SigId, bits: Bits) -> Moved {
        let before = self.values.shown[sig.0 as usize];
        if are_same(before, bits) {
            return unseen();
        }
        self.values.show(sig, bits);
        let reports = [Report {
            sig,
            before,
            after: bits,
        }];
        wake(&self.processes, &reports, &mut self.active, None);
        let fired = self.book.change(&reports[0]);
        Moved {
            change: Some(Told { sig, bits }),
            fired,
        }
    }

    fn fire(&mut self, report: &Report) -> Fired {
        self.book.change(report)
    }

    fn next_report(&mut self) -> Option<Report> {
        take_first(&mut self.reports)
    }

    fn next_due(&mut self) -> Option<Update> {
        take_first(&mut self.updates.due)
    }

    fn next_later(&mut self) -> Option<Update> {
        match take_first(&mut self.updates.later) {
            Some(update) => {
                swap(&mut self.updates.due, &mut self.updates.later);
                Some(update)
            }
            None => None,
        }
    }

    fn run_first(&mut self) -> Result<bool, NoMemory> {
        if self.active.is_empty() {
            return Ok(false);
        }
        let p = self.active[0];
        match self.run_body(p) {
            Ok(()) => {
                self.active.remove(0);
                self.end_activation(p);
                Ok(true)
            }
            Err(e) => Err(e),
        }
    }

    fn settle(&mut self) -> Option<Moved> {
        if self.region == Region::End || !self.book.take(Key::ReadWrite) {
            return None;
        }
        self.region = Region::Settle;
        Some(Moved {
            change: None,
            fired: Fired {
                first: Some(Key::ReadWrite),
                second: None,
            },
        })
    }

    fn end(&mut self) -> Option<Moved> {
        if self.region == Region::End || !self.book.take(Key::ReadOnly) {
            return None;
        }
        self.region = Region::End;
        Some(Moved {
            change: None,
            fired: Fired {
                first: Some(Key::ReadOnly),
                second: None,
            },
        })
    }

    fn move_time(&mut self) -> Option<Moved> {
        let time = self.next_time()?;
        let fired = self.book.begin_step(time);
        self.updates.arrive(time);
        self.time = time;
        self.region = Region::Begin;
        Some(Moved {
            change: None,
            fired,
        })
    }
}

impl Gpi for ListKernel {
    ghost use Rattle.list_kernel.specs.Kernel.{content_of, IsLoaded};

    ghost content = { content_of };

    ghost is_loaded = { IsLoaded };

    fn load(&mut self, alloc: Global, flat: &Flat) -> Result<(), NoMemory> {
        match opened(alloc, flat) {
            Ok(kernel) => {
                *self = kernel;
                Ok(())
            }
            Err(e) => {
                *self = ListKernel::new(alloc);
                Err(e)
            }
        }
    }

    fn now(&self) -> u64 {
        self.time
    }

    fn region(&self) -> Region {
        self.region
    }

    fn counts(&self) -> Counts {
        self.book.counts()
    }

    fn read(&self, sig: SigId) -> Bits {
        self.values.shown[sig.0 as usize]
    }

    fn deposit(&mut self, sig: SigId, bits: Bits) -> Fired {
        self.put(sig, bits).fired
    }

    fn force(&mut self, sig: SigId, bits: Bits) -> Fired {
        self.put_force(sig, bits).fired
    }

    fn release(&mut self, sig: SigId) -> Fired {
        self.end_force(sig).fired
    }

    fn is_forced(&self, sig: SigId) -> bool {
        self.hidden_at(sig).is_some()
    }

    #[tactic(auto, using(callback_book::proofs::Placed::asked_placed))]
    fn register(&mut self, key: Key) -> Result<(), NoMemory> {
        self.book.add(key)
    }

    #[tactic(auto, using(callback_book::proofs::Placed::has_placed))]
    fn remove(&mut self, key: Key) {
        self.book.remove(key);
    }

    #[tactic(auto, using(kernel_base::proofs::Idle::idle_is))]
    fn idle(&self) -> bool {
        let open = self.region != Region::End;
        empty(&self.reports)
            && empty(&self.updates.due)
            && empty(&self.active)
            && empty(&self.updates.later)
            && !(self.book.has(Key::ReadWrite) && open)
            && !(self.book.has(Key::ReadOnly) && open)
            && self.next_time().is_none()
    }

    fn advance(&mut self) -> Result<Advance, NoMemory> {
        self.one_event()
    }
}

/// Whether the list has nothing.
fn empty<T>(list: &Vec<T>) -> bool
    ensures { result ≡ is_empty list.now.items }
{
    list.is_empty()
}

impl ListKernel {
    /// A simulator without a design. It takes no memory.
    pub fn new(alloc: Global) -> ListKernel
        ensures { content_of result ≡ no_design }
    {
        ListKernel {
            processes: Vec::new(alloc),
            nets: Vec::new(alloc),
            values: Values::new(alloc),
            active: Vec::new(alloc),
            reports: Vec::new(alloc),
            updates: Updates::new(alloc),
            time: 0,
            region: Region::Begin,
            book: Registered::of_none(alloc),
        }
    }
}

/// A kernel in the opening state of the design.
fn opened(alloc: Global, flat: &Flat) -> Result<ListKernel, NoMemory>
    requires { IsSoundFlat flat.now }
    ensures { IfOk result (λ kernel. (content_of kernel ≡ opening flat.now) × IsLoaded kernel) }
{
    let processes = copy_processes(alloc, &flat.processes)?;
    let nets = start_nets(alloc, &flat.signals)?;
    let values = Values::opened(alloc, &flat.signals)?;
    let active = start_active(alloc, &processes)?;
    let reports = Vec::with_capacity(alloc, flat.signals.len())?;
    let book = Registered::new(alloc, flat.signals.len() as u32)?;
    Ok(ListKernel {
        processes,
        nets,
        values,
        active,
        reports,
        updates: Updates::new(alloc),
        time: 0,
        region: Region::Begin,
        book,
    })
}

/// Copies of the processes, which mean the same.
fn copy_processes(alloc: Global, processes: &Sequence<Process>) -> Result<Vec<Process>, NoMemory>
    ensures procs { IfOk result (λ copies. procs_of copies.items ≡ procs_of processes.now) }
    ensures count { IfOk result (λ copies. length copies.items ≡ length processes.now) }
    ensures sound { IfOk result (λ copies. (ws : List ℕ) → AreProcesses processes.now ws → AreProcesses copies.items ws) }
{
    let mut copies = Vec::new(alloc);
    for at in 0..processes.len() {
        let copy = copy_process(alloc, processes.get(at))?;
        copies.push(copy)?;
    }
    Ok(copies)
}

/// A copy of a process, which means the same.
fn copy_process(alloc: Global, process: &Process) -> Result<Process, NoMemory>
    ensures { IfOk result (λ copy. (proc_of copy ≡ proc_of process.now) × (copy.wakes ≡ process.now.wakes)
        × ((ws : List ℕ) → IsSound process.now.body ws → IsSound copy.body ws)) }
{
    let wakes = copy_wakes(alloc, &process.wakes)?;
    let body = process.body.copy(alloc)?;
    Ok(Process {
        kind: process.kind,
        wakes,
        body,
    })
}

/// The processes that are active from the start.
fn start_active(alloc: Global, processes: &[Process]) -> Result<Vec<u32>, NoMemory>
    requires { length processes.now ≤ most_elements }
    ensures { IfOk result (λ active. (active.items ≡ starters 0 (procs_of processes.now)) × (length processes.now ≤ vec_capacity active)) }
{
    let mut active = Vec::with_capacity(alloc, processes.len())?;
    let mut at = 0;
    while at < processes.len() {
        match processes[at].kind {
            Kind::Always => {}
            _ => active.push(at as u32)?,
        }
        at += 1;
    }
    Ok(active)
}

/// Takes the first element.
fn take_first<T>(list: &mut Vec<T>) -> Option<T>
    ensures is { MatchOption result
        ((list.old.items ≡ []) × (list.new.items ≡ []))
        (λ x. list.old.items ≡ x ∷ list.new.items) }
    ensures room { vec_capacity list.old ≤ vec_capacity list.new }
{
    if list.is_empty() {
        return None;
    }
    Some(list.remove(0))
}
