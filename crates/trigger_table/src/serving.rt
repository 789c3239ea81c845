//! How a cause is served.
ghost use Rattle.std.specs.Prelude.{◌≡◌, ◌==◌, ◌+◌, ◌*◌, ◌≤◌, ◌<◌, ◌++◌, ◌∷◌, [], Some, length, slice_get};
ghost use Rattle.await_tree.specs.Fire as fire;
ghost use Rattle.await_tree.specs.Steps.{step_of};
ghost use Rattle.await_tree.specs.WaitList.Limits.{waiting_limit};
ghost use Rattle.await_tree.specs.WaitList.Parts.{Fits, Narrows};
ghost use Rattle.await_tree.specs.WaitList.Waiting.{Waiting, entry_of, fired_keys, reached_tasks, still_waiting, woken};
ghost use Rattle.trigger_table.specs.Entries.{HasCause};
ghost use Rattle.trigger_table.specs.Keys.{record_keys, runner_keys};
ghost use Rattle.trigger_table.specs.Links.{IsIn};
ghost use Rattle.trigger_table.specs.Members.{after, beyond, members_on, own_members, waiters_of};
ghost use Rattle.trigger_table.specs.Records.{causes_in, rows_in, state_in};
ghost use Rattle.trigger_table.specs.Serving.{Served, Settles, Untied, leaves_at};
ghost use Rattle.trigger_table.specs.State.{AllNeeded, HasRow, HeldStays, entry_at, links_at, without_row};
ghost use Rattle.trigger_table.specs.Tied.{IsKept, Shrinks, waiting_in};
ghost use Rattle.trigger_table.specs.Work.{leaf_count, reached_by};

use crate::entries::TaskRecord;
use crate::members::Member;
use crate::parting::trim_row;
use crate::records::Records;
use crate::table::{drop_row, let_fall};
use await_tree::wait_list::{Ready, Steps};
use await_tree::{Cause, Given, Step};
use gpi::{Fired, Gpi};
use py_value::{LockNo, TaskNo};
use std::sync::ledger::Ledger;

/// Whether it is a waiter of this task.
fn is_of(member: Member, number: usize) -> bool
    ensures { result ≡ (member.number == number) }
{
    member.number == number
}

/// The first waiter on a cause behind this one that is of another task.
fn next_on<L: Ledger>(
    records: &Records,
    cause: usize,
    member: Member,
    steps: &mut Steps<L>,
) -> Option<Member>
    requires { IsIn member.waiter (waiters_of (members_on cause (rows_in records.now))) }
    ensures value { result ≡ slice_get (beyond member.number (after member.waiter (members_on cause (rows_in records.now)))) 0 }
    ensures ticks { steps.new ≤ steps.old + 1 + length (own_members member.number (after member.waiter (members_on cause (rows_in records.now)))) }
{
    let mut next = records.next_member(cause, member.waiter, steps);
    'members: while let Some(other) = next {
        if !is_of(other, member.number) {
            return Some(other);
        }
        next = records.next_member(cause, other.waiter, steps);
    }
    None
}

/// The task of a record, which is let go.
fn task_in(gone: TaskRecord) -> TaskNo
    ensures { result ≡ gone.task }
{
    let TaskRecord { task, tree } = gone;
    let_fall(tree);
    task
}

/// A task waits no more, and is ready.
fn leave<K: Gpi, L: Ledger>(
    kernel: &mut K,
    records: &mut Records,
    number: usize,
    given: Given,
    fired: Fired,
    ready: &mut Ready,
    steps: &mut Steps<L>,
)
    requires loaded { K.is_loaded kernel.old }
    requires has { HasRow number (rows_in records.old) }
    requires needed { AllNeeded (state_in records.old) }
    requires room { length ready.old.entries < ready.old.room }
    requires fits { Fits (K.content kernel.old) (fired_keys fired) (runner_keys (causes_in records.old)) (record_keys (causes_in records.old)) }
    ensures rows { rows_in records.new ≡ without_row number (rows_in records.old) }
    ensures ready { (w : Waiting) → entry_at number (rows_in records.old) ≡ Some w
        → ready.new.entries ≡ ready.old.entries ++ record { task = w.task; given = given } ∷ [] }
    ensures room { ready.new.room ≡ ready.old.room }
    ensures needed { AllNeeded (state_in records.new) }
    ensures held { HeldStays (causes_in records.old) (causes_in records.new) }
    ensures shrinks { Shrinks (causes_in records.old) (causes_in records.new) }
    ensures loaded { K.is_loaded kernel.new }
    ensures keys { Narrows (K.content kernel.old) (K.content kernel.new) (record_keys (causes_in records.old)) (record_keys (causes_in records.new)) }
    ensures ticks { steps.new ≤ steps.old + 3 * length (links_at number (rows_in records.old)) + 2 }
{
    let gone = drop_row(kernel, records, number, fired, steps);
    let task = task_in(gone);
    ready.put(task, given);
}

/// A task's tree has answered so. It waits on with the waiters on its leaves, or no more.
fn settle<K: Gpi, L: Ledger>(
    kernel: &mut K,
    records: &mut Records,
    number: usize,
    step: Step,
    fired: Fired,
    ready: &mut Ready,
    steps: &mut Steps<L>,
)
    requires loaded { K.is_loaded kernel.old }
    requires untied { Untied number step (leaves_at number (rows_in records.old)) (state_in records.old) }
    requires some { 0 < length (links_at number (rows_in records.old)) }
    requires room { length ready.old.entries < ready.old.room }
    requires fits { Fits (K.content kernel.old) (fired_keys fired) (runner_keys (causes_in records.old)) (record_keys (causes_in records.old)) }
    ensures settles { Settles number step (rows_in records.old) (rows_in records.new) }
    ensures ready { (w : Waiting) → entry_at number (rows_in records.old) ≡ Some w
        → ready.new.entries ≡ ready.old.entries ++ entry_of w.task step }
    ensures room { ready.new.room ≡ ready.old.room }
    ensures kept { IsKept (state_in records.new) }
    ensures held { HeldStays (causes_in records.old) (causes_in records.new) }
    ensures shrinks { Shrinks (causes_in records.old) (causes_in records.new) }
    ensures loaded { K.is_loaded kernel.new }
    ensures keys { Narrows (K.content kernel.old) (K.content kernel.new) (record_keys (causes_in records.old)) (record_keys (causes_in records.new)) }
    ensures ticks { steps.new + 1 ≤ steps.old + 7 * length (links_at number (rows_in records.old)) }
{
    match step {
        Step::Still => trim_row(kernel, records, number, fired, steps),
        Step::Done(given) => leave(kernel, records, number, given, fired, ready, steps),
    }
}

/// A waiting task is told the cause. If its tree is done it goes into the ring, and waits no more.
fn serve_task<K: Gpi, L: Ledger>(
    kernel: &mut K,
    records: &mut Records,
    number: usize,
    cause: Cause,
    fired: Fired,
    ready: &mut Ready,
    steps: &mut Steps<L>,
)
    requires loaded { K.is_loaded kernel.old }
    requires has { HasRow number (rows_in records.old) }
    requires kept { IsKept (state_in records.old) }
    requires some { 0 < length (links_at number (rows_in records.old)) }
    requires room { length ready.old.entries < ready.old.room }
    requires fits { Fits (K.content kernel.old) (fired_keys fired) (runner_keys (causes_in records.old)) (record_keys (causes_in records.old)) }
    ensures served { Served number (fire.fire cause) (rows_in records.old) (rows_in records.new) }
    ensures ready { (w : Waiting) → entry_at number (rows_in records.old) ≡ Some w
        → ready.new.entries ≡ ready.old.entries ++ entry_of w.task (step_of (fire.fire cause w.tree)) }
    ensures room { ready.new.room ≡ ready.old.room }
    ensures kept { IsKept (state_in records.new) }
    ensures held { HeldStays (causes_in records.old) (causes_in records.new) }
    ensures shrinks { Shrinks (causes_in records.old) (causes_in records.new) }
    ensures loaded { K.is_loaded kernel.new }
    ensures keys { Narrows (K.content kernel.old) (K.content kernel.new) (record_keys (causes_in records.old)) (record_keys (causes_in records.new)) }
    ensures ticks { steps.new ≤ steps.old + 7 * length (links_at number (rows_in records.old)) }
{
    let step = records.fire(number, cause, steps);
    settle(kernel, records, number, step, fired, ready, steps);
}

/// A waiting task is handed the lock. If its tree is done it goes into the ring, and waits no more.
pub(crate) fn hand<K: Gpi, L: Ledger>(
    kernel: &mut K,
    records: &mut Records,
    number: usize,
    lock: LockNo,
    fired: Fired,
    ready: &mut Ready,
    steps: &mut Steps<L>,
)
    requires loaded { K.is_loaded kernel.old }
    requires has { HasRow number (rows_in records.old) }
    requires kept { IsKept (state_in records.old) }
    requires some { 0 < length (links_at number (rows_in records.old)) }
    requires room { length ready.old.entries < ready.old.room }
    requires fits { Fits (K.content kernel.old) (fired_keys fired) (runner_keys (causes_in records.old)) (record_keys (causes_in records.old)) }
    ensures served { Served number (fire.grant lock) (rows_in records.old) (rows_in records.new) }
    ensures ready { (w : Waiting) → entry_at number (rows_in records.old) ≡ Some w
        → ready.new.entries ≡ ready.old.entries ++ entry_of w.task (step_of (fire.grant lock w.tree)) }
    ensures room { ready.new.room ≡ ready.old.room }
    ensures kept { IsKept (state_in records.new) }
    ensures held { HeldStays (causes_in records.old) (causes_in records.new) }
    ensures shrinks { Shrinks (causes_in records.old) (causes_in records.new) }
    ensures loaded { K.is_loaded kernel.new }
    ensures keys { Narrows (K.content kernel.old) (K.content kernel.new) (record_keys (causes_in records.old)) (record_keys (causes_in records.new)) }
    ensures ticks { steps.new ≤ steps.old + 7 * length (links_at number (rows_in records.old)) }
{
    let step = records.grant(number, lock, steps);
    settle(kernel, records, number, step, fired, ready, steps);
}

/// The tasks that wait on the record of a cause are told it, in the order in which they began to wait. Answers how many there are.
fn serve<K: Gpi, L: Ledger>(
    kernel: &mut K,
    records: &mut Records,
    number: usize,
    cause: Cause,
    fired: Fired,
    ready: &mut Ready,
    steps: &mut Steps<L>,
) -> u32
    requires loaded { K.is_loaded kernel.old }
    requires of { HasCause (causes_in records.old) number (fire.reach_of cause) }
    requires kept { IsKept (state_in records.old) }
    requires few { length (rows_in records.old) ≤ waiting_limit }
    requires room { length ready.old.entries + length (waiting_in (rows_in records.old)) ≤ ready.old.room }
    requires fits { Fits (K.content kernel.old) (fired_keys fired) (runner_keys (causes_in records.old)) (record_keys (causes_in records.old)) }
    ensures answer { result ≡ reached_tasks cause (waiting_in (rows_in records.old)) }
    ensures waiting { waiting_in (rows_in records.new) ≡ still_waiting cause (waiting_in (rows_in records.old)) }
    ensures ready { ready.new.entries ≡ ready.old.entries ++ woken cause (waiting_in (rows_in records.old)) }
    ensures room { ready.new.room ≡ ready.old.room }
    ensures kept { IsKept (state_in records.new) }
    ensures held { HeldStays (causes_in records.old) (causes_in records.new) }
    ensures shrinks { Shrinks (causes_in records.old) (causes_in records.new) }
    ensures few { length (rows_in records.new) ≤ length (rows_in records.old) }
    ensures loaded { K.is_loaded kernel.new }
    ensures keys { Narrows (K.content kernel.old) (K.content kernel.new) (record_keys (causes_in records.old)) (record_keys (causes_in records.new)) }
    ensures ticks { steps.new ≤ steps.old + 8 * leaf_count (reached_by cause (waiting_in (rows_in records.old))) + 1 }
{
    let mut reached = 0;
    let mut at = records.first_member(number, steps);
    'tasks: while let Some(member) = at {
        at = next_on(records, number, member, steps);
        serve_task(kernel, records, member.number, cause, fired, ready, steps);
        reached += 1;
    }
    reached
}

/// All waiting tasks are told the cause. Those that it wakes go into the ring, and the keys leave that nothing names then, but for those that
/// fired. Answers how many of them have a leaf on it.
pub(crate) fn reach<K: Gpi, L: Ledger>(
    kernel: &mut K,
    records: &mut Records,
    cause: Cause,
    fired: Fired,
    ready: &mut Ready,
    steps: &mut Steps<L>,
) -> u32
    requires loaded { K.is_loaded kernel.old }
    requires kept { IsKept (state_in records.old) }
    requires few { length (rows_in records.old) ≤ waiting_limit }
    requires room { length ready.old.entries + length (waiting_in (rows_in records.old)) ≤ ready.old.room }
    requires fits { Fits (K.content kernel.old) (fired_keys fired) (runner_keys (causes_in records.old)) (record_keys (causes_in records.old)) }
    ensures answer { result ≡ reached_tasks cause (waiting_in (rows_in records.old)) }
    ensures waiting { waiting_in (rows_in records.new) ≡ still_waiting cause (waiting_in (rows_in records.old)) }
    ensures ready { ready.new.entries ≡ ready.old.entries ++ woken cause (waiting_in (rows_in records.old)) }
    ensures room { ready.new.room ≡ ready.old.room }
    ensures kept { IsKept (state_in records.new) }
    ensures held { HeldStays (causes_in records.old) (causes_in records.new) }
    ensures shrinks { Shrinks (causes_in records.old) (causes_in records.new) }
    ensures few { length (rows_in records.new) ≤ length (rows_in records.old) }
    ensures loaded { K.is_loaded kernel.new }
    ensures keys { Narrows (K.content kernel.old) (K.content kernel.new) (record_keys (causes_in records.old)) (record_keys (causes_in records.new)) }
    ensures ticks { steps.new ≤ steps.old + 8 * leaf_count (reached_by cause (waiting_in (rows_in records.old))) + 2 }
{
    match records.find(cause.reach(), steps) {
        Some(number) => serve(kernel, records, number, cause, fired, ready, steps),
        None => 0,
    }
}
