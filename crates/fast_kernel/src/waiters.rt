//! Who waits for which signal.
ghost use Rattle.std.specs.Prelude.{
  ◌≡◌,
  ℕ,
  suc,
  ◌<◌,
  ◌≤◌,
  ◌++◌,
  ◌∷◌,
  ◌==◌,
  ◌||◌,
  [],
  false,
  true,
  length,
  IfOk,
  IsTrue,
  OnOk,
  OnErr,
  List,
  drop,
  replicate,
  vec_capacity,
  if◌then◌else◌,
};
ghost use Rattle.gpi.specs.Limits.{most_elements};
ghost use Rattle.gpi.specs.Keys.{holds};
ghost use Rattle.gpi.specs.Design.{procs_of};
ghost use Rattle.gpi.specs.Soundness.{are_wakes};
ghost use Rattle.kernel_base.specs.Steps.{AreInside};
ghost use Rattle.fast_kernel.specs.Waiters.{
  AreWaiters,
  AreMarked,
  AreUnmarked,
  IsChained,
  AreOf,
  HaveSignals,
  awaiting,
  own,
  is_among,
  is_reached,
  picked,
  chain_of,
};

use four_value::edge;
use gpi::{Process, Report, Wake, WakeEdge};
use kernel_base::{low_digit, meets_edge, push_once};
use port_io::{NoMemory, Sequence};
use std::alloc::Global;

/// A process that waits for an edge of a signal, and the next one that waits for the signal: links count from 1, and 0 is the end.
#[derive(Clone, Copy)]
struct Link {
    process: u32,
    edge: WakeEdge,
    next: usize,
}

/// For each signal the chain of those that wait for it, by rising number of the process.
#[derive(Drop)]
pub struct Chains {
    /// By signal, the first link.
    first: Vec<usize>,
    links: Vec<Link>,
}

/// Processes that were found, each once.
#[derive(Drop)]
pub struct Finds {
    /// By process, whether it is among the found ones.
    is_found: Vec<bool>,
    /// The found ones.
    processes: Vec<u32>,
}

/// Who waits for which signal.
#[derive(Drop)]
pub struct Waiters {
    chains: Chains,
    finds: Finds,
}

impl Waiters {
    /// Those that wait in a design with so many signals.
    pub fn of(
        alloc: Global,
        processes: &Sequence<Process>,
        signals: usize,
    ) -> Result<Waiters, NoMemory>
        requires few { length processes.now ≤ most_elements }
        requires wakes { HaveSignals processes.now signals }
        ensures waiters { IfOk result AreWaiters }
        ensures of { IfOk result (λ w. AreOf w (procs_of processes.now)) }
        ensures signals { IfOk result (λ w. length w.chains.first.items ≡ signals) }
    {
        let chains = Chains::of(alloc, processes, signals)?;
        let is_found = vec![in alloc; false; processes.len()]?;
        let found = Vec::with_capacity(alloc, processes.len())?;
        let finds = Finds {
            is_found,
            processes: found,
        };
        Ok(Waiters { chains, finds })
    }

    /// Finds the processes that wait for one of the changes, by rising number. It takes no memory.
    pub fn find(&mut self, reports: &[Report])
        requires waiters { AreWaiters self.old }
        requires inside { AreInside reports.now (length self.old.chains.first.items) }
        ensures is { self.new.finds.processes.items ≡ picked 0 (length self.old.finds.is_found.items) (is_reached self.old.chains reports.now) }
        ensures waiters { AreWaiters self.new }
        ensures chains { self.new.chains ≡ self.old.chains }
        ensures count { length self.new.finds.is_found.items ≡ length self.old.finds.is_found.items }
    {
        self.finds.processes.clear();
        self.chains.follow_all(reports, &mut self.finds);
        self.finds.put_in_order();
        self.finds.unmark();
    }

    /// The processes that were found last.
    pub fn found(&self) -> &[u32]
        ensures { result.now ≡ self.now.finds.processes.items }
    {
        &self.finds.processes
    }
}

impl Chains {
    /// The chains of so many signals.
    fn of(alloc: Global, processes: &Sequence<Process>, signals: usize) -> Result<Chains, NoMemory>
        requires few { length processes.now ≤ most_elements }
        requires wakes { HaveSignals processes.now signals }
        ensures chained { IfOk result (IsChained (length processes.now)) }
        ensures chains { IfOk result (λ c. (s : ℕ) → s < signals → chain_of c s ≡ awaiting s 0 (procs_of processes.now)) }
        ensures signals { IfOk result (λ c. length c.first.items ≡ signals) }
    {
        let first = vec![in alloc; 0; signals]?;
        let mut chains = Chains {
            first,
            links: Vec::new(alloc),
        };
        let mut at = processes.len();
        while at > 0 {
            at -= 1;
            chains.add_process(at as u32, &processes.get(at).wakes)?;
        }
        Ok(chains)
    }

    /// Puts what a process waits for before the chains.
    fn add_process(&mut self, process: u32, wakes: &Sequence<Wake>) -> Result<(), NoMemory>
        requires few { process < most_elements }
        requires wakes { IsTrue (are_wakes wakes.now (length self.old.first.items)) }
        ensures chained { (n : ℕ) → process < n → IsChained n self.old → OnOk result (IsChained n self.new) }
        ensures chains { OnOk result ((n : ℕ) → process < n → IsChained n self.old
            → (s : ℕ) → s < length self.old.first.items → chain_of self.new s ≡ own s process wakes.now ++ chain_of self.old s) }
        ensures signals { OnOk result (length self.new.first.items ≡ length self.old.first.items) }
    {
        let mut at = wakes.len();
        while at > 0 {
            at -= 1;
            self.push(process, *wakes.get(at))?;
        }
        Ok(())
    }

    /// Puts a process before the chain of the signal that it waits for.
    fn push(&mut self, process: u32, wake: Wake) -> Result<(), NoMemory>
        requires inside { wake.sig.0 < length self.old.first.items }
        ensures chained { (n : ℕ) → process < n → IsChained n self.old → OnOk result (IsChained n self.new) }
        ensures chains { OnOk result ((n : ℕ) → IsChained n self.old → (s : ℕ) → s < length self.old.first.items
            → chain_of self.new s ≡ (if wake.sig.0 == s then record { process = process; edge = wake.edge } ∷ chain_of self.old s
            else chain_of self.old s)) }
        ensures signals { OnOk result (length self.new.first.items ≡ length self.old.first.items) }
    {
        let sig = wake.sig.0 as usize;
        self.links.push(Link {
            process,
            edge: wake.edge,
            next: self.first[sig],
        })?;
        self.first[sig] = self.links.len();
        Ok(())
    }

    /// Adds the processes that the changes reach.
    fn follow_all(&self, reports: &[Report], finds: &mut Finds)
        requires chains { IsChained (length finds.old.is_found.items) self.now }
        requires marked { AreMarked finds.old }
        requires none { finds.old.processes.items ≡ [] }
        requires inside { AreInside reports.now (length self.now.first.items) }
        ensures reached { (q : ℕ) → holds q finds.new.processes.items ≡ is_reached self.now reports.now q }
        ensures marked { AreMarked finds.new }
        ensures count { length finds.new.is_found.items ≡ length finds.old.is_found.items }
    {
        let mut at = reports.len();
        while at > 0 {
            at -= 1;
            self.follow(&reports[at], finds);
        }
    }

    /// Adds the processes that a change reaches.
    fn follow(&self, report: &Report, finds: &mut Finds)
        requires chains { IsChained (length finds.old.is_found.items) self.now }
        requires marked { AreMarked finds.old }
        requires inside { report.now.sig.0 < length self.now.first.items }
        ensures reached { (q : ℕ) → holds q finds.new.processes.items
            ≡ (holds q finds.old.processes.items || is_among q report.now (chain_of self.now report.now.sig.0)) }
        ensures marked { AreMarked finds.new }
        ensures count { length finds.new.is_found.items ≡ length finds.old.is_found.items }
    {
        let change = edge(low_digit(report.before), low_digit(report.after));
        let mut number = self.first[report.sig.0 as usize];
        while number > 0 {
            let link = self.links[number - 1];
            if meets_edge(link.edge, change) {
                finds.add(link.process);
            }
            number = link.next;
        }
    }
}

impl Finds {
    /// Adds a process, if it isn't there.
    fn add(&mut self, process: u32)
        requires marked { AreMarked self.old }
        requires inside { process < length self.old.is_found.items }
        ensures found { (q : ℕ) → holds q self.new.processes.items ≡ (holds q self.old.processes.items || (q == process)) }
        ensures marked { AreMarked self.new }
        ensures count { length self.new.is_found.items ≡ length self.old.is_found.items }
    {
        if !self.is_found[process as usize] {
            self.is_found[process as usize] = true;
            push_once(&mut self.processes, process, self.is_found.len());
        }
    }

    /// Puts the found processes in order by number.
    fn put_in_order(&mut self)
        requires marked { AreMarked self.old }
        ensures is { self.new.processes.items ≡ picked 0 (length self.old.is_found.items) (λ q. holds q self.old.processes.items) }
        ensures marked { AreMarked self.new }
        ensures count { length self.new.is_found.items ≡ length self.old.is_found.items }
    {
        if !self.processes.is_sorted() {
            self.processes.sort_unstable();
        }
    }

    /// Takes all marks away.
    fn unmark(&mut self)
        requires marked { AreMarked self.old }
        ensures found { self.new.processes.items ≡ self.old.processes.items }
        ensures finds { AreUnmarked self.new }
        ensures count { length self.new.is_found.items ≡ length self.old.is_found.items }
    {
        let mut at = 0;
        while at < self.processes.len() {
            let process = self.processes[at] as usize;
            self.is_found[process] = false;
            at += 1;
        }
    }
}
