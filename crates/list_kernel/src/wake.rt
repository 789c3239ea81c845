//! Changes, and the processes that they wake.
ghost use Rattle.std.specs.Prelude.{◌≡◌, ◌≤◌, ◌<◌, ◌+◌, ◌++◌, ◌^◌, length, [], ◌∷◌, vec_capacity, vec_len, ℕ, false, not, ◌&&◌};
ghost use Rattle.gpi.specs.Limits.{most_elements};
ghost use Rattle.gpi.specs.Design.{procs_of};
ghost use Rattle.gpi.specs.Keys.{holds};
ghost use Rattle.gpi.specs.State.{meets, meets_any, waits, changes, woken};
ghost use Rattle.kernel_base.specs.Lists.{barred, AreBelow, AreDistinct};

use four_value::{Bits, edge};
use gpi::{Process, Report, SigId, Wake};
use kernel_base::{are_same, low_digit, meets_edge, push_once};
use port_io::Sequence;

/// Whether the number is in the list.
pub fn holds(list: &[u32], n: u32) -> bool
    ensures { result ≡ holds n list.now }
{
    list.contains(&n)
}

/// Whether a wake waits for this change.
fn meets(wake: &Wake, report: &Report) -> bool
    ensures { result ≡ meets wake.now report.now }
{
    wake.sig.0 == report.sig.0
        && meets_edge(
            wake.edge,
            edge(low_digit(report.before), low_digit(report.after)),
        )
}

/// Whether a wake waits for one of the changes.
#[tactic(auto, using(crate::proofs::Wakes::walks))]
fn meets_any(wake: &Wake, reports: &[Report]) -> bool
    ensures { result ≡ meets_any wake.now reports.now }
{
    for report in reports {
        if meets(wake, report) {
            return true;
        }
    }
    false
}

/// Whether one of the wakes waits for one of the changes.
fn waits(wakes: &Sequence<Wake>, reports: &[Report]) -> bool
    ensures { result ≡ waits wakes.now reports.now }
{
    for at in 0..wakes.len() {
        if meets_any(wakes.get(at), reports) {
            return true;
        }
    }
    false
}

/// The changes between two maps.
pub fn tell_changes(before: &[Bits], signals: &[Bits], reports: &mut Vec<Report>)
    requires same { length before.now ≡ length signals.now }
    requires few { length before.now ≤ most_elements }
    requires none { reports.old.items ≡ [] }
    requires room { length before.now ≤ vec_capacity reports.old }
    ensures is { reports.new.items ≡ changes 0 before.now signals.now }
    ensures room { vec_capacity reports.old ≤ vec_capacity reports.new }
{
    let mut n = 0;
    while n < before.len() {
        let earlier = before[n];
        let after = signals[n];
        if !are_same(earlier, after) {
            reports
                .push(Report {
                    sig: SigId(n as u32),
                    before: earlier,
                    after,
                })
                .unwrap();
        }
        n += 1;
    }
}

/// Whether the changes wake this process: it waits for one of them, and isn't barred.
#[tactic(auto, using(crate::proofs::Wakes::turned))]
fn is_woken(process: &Process, n: u32, reports: &[Report], own: Option<u32>, active: &[u32]) -> bool
    ensures { result ≡ (not (holds n (barred own active.now)) && waits process.now.wakes reports.now) }
{
    waits(&process.wakes, reports) && !is_barred(own, active, n)
}

/// Puts the processes that the changes wake at the end of the active list.
pub fn wake(processes: &[Process], reports: &[Report], active: &mut Vec<u32>, own: Option<u32>)
    requires few { length processes.now ≤ most_elements }
    requires below { AreBelow (length processes.now) active.old.items }
    requires distinct { AreDistinct active.old.items }
    requires room { length processes.now ≤ vec_capacity active.old }
    ensures is { active.new.items ≡ active.old.items ++ woken 0 (procs_of processes.now) reports.now (barred own active.old.items) }
    ensures below { AreBelow (length processes.now) active.new.items }
    ensures distinct { AreDistinct active.new.items }
    ensures room { vec_capacity active.old ≤ vec_capacity active.new }
{
    if reports.is_empty() {
        return;
    }
    wake_each(processes, reports, active, own);
}

/// The same, process by process.
#[tactic(auto, using(kernel_base::proofs::Lists::steps))]
fn wake_each(processes: &[Process], reports: &[Report], active: &mut Vec<u32>, own: Option<u32>)
    requires few { length processes.now ≤ most_elements }
    requires below { AreBelow (length processes.now) active.old.items }
    requires distinct { AreDistinct active.old.items }
    requires room { length processes.now ≤ vec_capacity active.old }
    ensures is { active.new.items ≡ active.old.items ++ woken 0 (procs_of processes.now) reports.now (barred own active.old.items) }
    ensures below { AreBelow (length processes.now) active.new.items }
    ensures distinct { AreDistinct active.new.items }
    ensures room { vec_capacity active.old ≤ vec_capacity active.new }
{
    let len = active.len();
    let mut n = 0;
    while n < processes.len() {
        if is_woken(&processes[n], n as u32, reports, own, &active[..len]) {
            push_once(active, n as u32, processes.len());
        }
        n += 1;
    }
}

/// Whether a process is active, or is the one that isn't to wake itself.
fn is_barred(own: Option<u32>, active: &[u32], n: u32) -> bool
    ensures { result ≡ holds n (barred own active.now) }
{
    match own {
        Some(p) => n == p || holds(active, n),
        None => holds(active, n),
    }
}
