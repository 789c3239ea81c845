//! How the waiters of a task leave that its tree has no use for any more.
ghost use Rattle.std.specs.Prelude.{◌≡◌, ℕ, ◌+◌, ◌*◌, ◌≤◌, List, drop, length, true, false};
ghost use Rattle.await_tree.specs.Laws.{IsSubsequence};
ghost use Rattle.await_tree.specs.WaitList.Parts.{Fits, Narrows};
ghost use Rattle.await_tree.specs.WaitList.Waiting.{fired_keys};
ghost use Rattle.await_tree.specs.declared.cause.Awaited.{Awaited};
ghost use Rattle.trigger_table.specs.Cursor.{cause_at, waiters_at};
ghost use Rattle.trigger_table.specs.Entries.{HasCause};
ghost use Rattle.trigger_table.specs.Keys.{record_keys, runner_keys};
ghost use Rattle.trigger_table.specs.Links.{IsIn};
ghost use Rattle.trigger_table.specs.Records.{causes_in, rows_in, state_in};
ghost use Rattle.trigger_table.specs.Serving.{Trimmed, is_first, leaves_at};
ghost use Rattle.trigger_table.specs.State.{AllNeeded, HasLink, HasRow, HeldStays, drop_link, links_at};
ghost use Rattle.trigger_table.specs.Tied.{AreOn, Shrinks};

use crate::records::Records;
use crate::table::let_go;
use await_tree::Awaited;
use await_tree::wait_list::Steps;
use gpi::{Fired, Gpi};
use std::sync::ledger::Ledger;

/// Takes out a waiter, and lets go of what it was on where nothing needs that then.
fn part<K: Gpi, L: Ledger>(
    kernel: &mut K,
    records: &mut Records,
    waiter: usize,
    fired: Fired,
    steps: &mut Steps<L>,
)
    requires loaded { K.is_loaded kernel.old }
    requires has { HasLink waiter (rows_in records.old) }
    requires needed { AllNeeded (state_in records.old) }
    requires fits { Fits (K.content kernel.old) (fired_keys fired) (runner_keys (causes_in records.old)) (record_keys (causes_in records.old)) }
    ensures rows { rows_in records.new ≡ drop_link waiter (rows_in records.old) }
    ensures needed { AllNeeded (state_in records.new) }
    ensures held { HeldStays (causes_in records.old) (causes_in records.new) }
    ensures shrinks { Shrinks (causes_in records.old) (causes_in records.new) }
    ensures loaded { K.is_loaded kernel.new }
    ensures keys { Narrows (K.content kernel.old) (K.content kernel.new) (record_keys (causes_in records.old)) (record_keys (causes_in records.new)) }
    ensures ticks { steps.new ≤ steps.old + 3 }
{
    if let Some(cause) = records.unlink(waiter, steps) {
        let_go(kernel, records, cause, fired, steps);
    }
}

/// Whether the waiter is on the leaf at this place.
fn is_on<L: Ledger>(
    records: &Records,
    waiter: usize,
    leaves: &[Awaited],
    at: usize,
    steps: &mut Steps<L>,
) -> bool
    ensures value { (number cause : ℕ) (on : Awaited) → HasRow number (rows_in records.now) → IsIn waiter (waiters_at number (rows_in records.now))
        → cause_at waiter (links_at number (rows_in records.now)) ≡ Some cause → HasCause (causes_in records.now) cause on
        → result ≡ is_first on (drop at leaves.now) }
    ensures ticks { steps.new ≤ steps.old + 1 }
{
    match records.on_of(waiter, steps) {
        Some(on) => at < leaves.len() && on.is_same(leaves[at]),
        None => false,
    }
}

/// The waiters of a task leave but for one on each of its leaves, which are some of those that its waiters are on, in the same order.
fn trim<K: Gpi, L: Ledger>(
    kernel: &mut K,
    records: &mut Records,
    number: usize,
    leaves: &[Awaited],
    fired: Fired,
    steps: &mut Steps<L>,
)
    requires loaded { K.is_loaded kernel.old }
    requires has { HasRow number (rows_in records.old) }
    requires on { (before : List Awaited) × AreOn (causes_in records.old) (links_at number (rows_in records.old)) before
        × IsSubsequence leaves.now before }
    requires needed { AllNeeded (state_in records.old) }
    requires fits { Fits (K.content kernel.old) (fired_keys fired) (runner_keys (causes_in records.old)) (record_keys (causes_in records.old)) }
    ensures trimmed { Trimmed number leaves.now (causes_in records.new) (rows_in records.old) (rows_in records.new) }
    ensures needed { AllNeeded (state_in records.new) }
    ensures held { HeldStays (causes_in records.old) (causes_in records.new) }
    ensures shrinks { Shrinks (causes_in records.old) (causes_in records.new) }
    ensures loaded { K.is_loaded kernel.new }
    ensures keys { Narrows (K.content kernel.old) (K.content kernel.new) (record_keys (causes_in records.old)) (record_keys (causes_in records.new)) }
    ensures ticks { steps.new ≤ steps.old + 5 * length (links_at number (rows_in records.old)) + 1 }
{
    let mut kept = 0;
    let mut at = records.first_of_task(number, steps);
    'waiters: while let Some(waiter) = at {
        at = records.next_of_task(number, waiter, steps);
        if is_on(records, waiter, leaves, kept, steps) {
            kept += 1;
        } else {
            part(kernel, records, waiter, fired, steps);
        }
    }
}

/// The waiters of a waiting task leave but for one on each of its tree's leaves.
fn trim_all<K: Gpi, L: Ledger>(
    kernel: &mut K,
    records: &mut Records,
    number: usize,
    fired: Fired,
    steps: &mut Steps<L>,
)
    requires loaded { K.is_loaded kernel.old }
    requires has { HasRow number (rows_in records.old) }
    requires on { (before : List Awaited) × AreOn (causes_in records.old) (links_at number (rows_in records.old)) before
        × IsSubsequence (leaves_at number (rows_in records.old)) before }
    requires needed { AllNeeded (state_in records.old) }
    requires fits { Fits (K.content kernel.old) (fired_keys fired) (runner_keys (causes_in records.old)) (record_keys (causes_in records.old)) }
    ensures trimmed { Trimmed number (leaves_at number (rows_in records.old)) (causes_in records.new) (rows_in records.old) (rows_in records.new) }
    ensures needed { AllNeeded (state_in records.new) }
    ensures held { HeldStays (causes_in records.old) (causes_in records.new) }
    ensures shrinks { Shrinks (causes_in records.old) (causes_in records.new) }
    ensures loaded { K.is_loaded kernel.new }
    ensures keys { Narrows (K.content kernel.old) (K.content kernel.new) (record_keys (causes_in records.old)) (record_keys (causes_in records.new)) }
    ensures ticks { steps.new ≤ steps.old + 5 * length (links_at number (rows_in records.old)) + 1 }
{
    let leaves = records.leaves(number);
    trim(kernel, records, number, leaves.as_slice(), fired, steps);
}

/// The waiters of a waiting task leave but for one on each of its tree's leaves, of which there is mostly one.
pub(crate) fn trim_row<K: Gpi, L: Ledger>(
    kernel: &mut K,
    records: &mut Records,
    number: usize,
    fired: Fired,
    steps: &mut Steps<L>,
)
    requires loaded { K.is_loaded kernel.old }
    requires has { HasRow number (rows_in records.old) }
    requires on { (before : List Awaited) × AreOn (causes_in records.old) (links_at number (rows_in records.old)) before
        × IsSubsequence (leaves_at number (rows_in records.old)) before }
    requires needed { AllNeeded (state_in records.old) }
    requires fits { Fits (K.content kernel.old) (fired_keys fired) (runner_keys (causes_in records.old)) (record_keys (causes_in records.old)) }
    ensures trimmed { Trimmed number (leaves_at number (rows_in records.old)) (causes_in records.new) (rows_in records.old) (rows_in records.new) }
    ensures needed { AllNeeded (state_in records.new) }
    ensures held { HeldStays (causes_in records.old) (causes_in records.new) }
    ensures shrinks { Shrinks (causes_in records.old) (causes_in records.new) }
    ensures loaded { K.is_loaded kernel.new }
    ensures keys { Narrows (K.content kernel.old) (K.content kernel.new) (record_keys (causes_in records.old)) (record_keys (causes_in records.new)) }
    ensures ticks { steps.new ≤ steps.old + 5 * length (links_at number (rows_in records.old)) + 1 }
{
    match records.lone(number) {
        Some(on) => trim(kernel, records, number, &[on], fired, steps),
        None => trim_all(kernel, records, number, fired, steps),
    }
}
