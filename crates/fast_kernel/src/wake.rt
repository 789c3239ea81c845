//! The processes that changes wake.
ghost use Rattle.std.specs.Prelude.{◌≡◌, ◌<◌, ◌++◌, ◌∷◌, [], List, length};
ghost use Rattle.gpi.specs.Design.{Proc};
ghost use Rattle.gpi.specs.Keys.{holds};
ghost use Rattle.gpi.specs.State.{woken};
ghost use Rattle.kernel_base.specs.Lists.{barred, AreBelow, AreDistinct};
ghost use Rattle.kernel_base.specs.Steps.{AreInside};
ghost use Rattle.event_queue.specs.Queues.{held, processes_of};
ghost use Rattle.fast_kernel.specs.Waiters.{AreWaiters, AreOf};
ghost use Rattle.fast_kernel.specs.Woken.{unbarred, KeepsWaiters};

use crate::waiters::Waiters;
use event_queue::Queue;
use gpi::Report;

/// Puts the processes that wait for one of the changes behind the active ones, by rising number, but for `own`. It takes no memory, and as
/// long as there are wakes of the changed signals.
pub fn wake(waiters: &mut Waiters, reports: &[Report], own: Option<u32>, queue: &mut Queue)
    requires waiters { AreWaiters waiters.old }
    requires inside { AreInside reports.now (length waiters.old.chains.first.items) }
    requires processes { processes_of queue.old ≡ length waiters.old.finds.is_found.items }
    ensures waiters { KeepsWaiters waiters.old waiters.new }
    ensures woken { (ps : List Proc) → AreOf waiters.old ps → let h = held queue.old in
        held queue.new ≡ record h { active = h.active ++ woken 0 ps reports.now (barred own h.active) } }
    ensures processes { processes_of queue.new ≡ processes_of queue.old }
{
    waiters.find(reports);
    wake_found(waiters.found(), own, queue);
}

/// Puts these processes behind the active ones, but for `own`.
fn wake_found(found: &[u32], own: Option<u32>, queue: &mut Queue)
    requires below { AreBelow (processes_of queue.old) found.now }
    requires distinct { AreDistinct found.now }
    ensures woken { let h = held queue.old in held queue.new ≡ record h { active = h.active ++ unbarred (barred own h.active) found.now } }
    ensures processes { processes_of queue.new ≡ processes_of queue.old }
{
    for process in found {
        wake_other(*process, own, queue);
    }
}

/// Puts a process behind the active ones, but not if it is `own`.
fn wake_other(process: u32, own: Option<u32>, queue: &mut Queue)
    requires { process < processes_of queue.old }
    ensures woken { let h = held queue.old in held queue.new ≡ record h { active = h.active ++ unbarred (barred own h.active) (process ∷ []) } }
    ensures processes { processes_of queue.new ≡ processes_of queue.old }
{
    if is_own(process, own) {
        return;
    }
    queue.wake(process);
}

/// Whether a process is `own`.
fn is_own(process: u32, own: Option<u32>) -> bool
    ensures { result ≡ holds process (barred own []) }
{
    match own {
        Some(other) => process == other,
        None => false,
    }
}
