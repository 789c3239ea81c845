//! What the table does with its records.
ghost use Rattle.std.specs.Prelude.{◌≡◌, ◌≢◌, ℕ, ◌+◌, ◌*◌, ◌≤◌, [], None, Some, length, slice_index_or};
ghost use Rattle.trigger_table.specs.Kept.{kept_as};
ghost use Rattle.trigger_table.specs.Keys.{record_keys, runner_keys};
ghost use Rattle.await_tree.specs.WaitList.Parts.{Fits, Narrows};
ghost use Rattle.trigger_table.specs.Records.{causes_in, rows_in, state_in};
ghost use Rattle.trigger_table.specs.State.{AllNeeded, HasRow, HeldStays, IsNeeded, entry_at, links_at, without_row};
ghost use Rattle.trigger_table.specs.Tied.{IsKept, Shrinks, waiting_in};
ghost use Rattle.trigger_table.specs.Work.{leaf_count, of_task};
ghost use Rattle.await_tree.specs.WaitList.Waiting.{fired_keys, without_task};

use crate::entries::TaskRecord;
use crate::fired::has_fired;
use crate::records::Records;
use await_tree::Awaited;
use await_tree::wait_list::Steps;
use gpi::{Fired, Gpi};
use py_value::TaskNo;
use std::sync::ledger::Ledger;

/// Lets go of a record, and of its key, where neither a waiter nor the runner needs it. A key that fired isn't registered.
pub(crate) fn let_go<K: Gpi, L: Ledger>(
    kernel: &mut K,
    records: &mut Records,
    number: usize,
    fired: Fired,
    steps: &mut Steps<L>,
)
    requires loaded { K.is_loaded kernel.old }
    requires known { slice_index_or (causes_in records.old) number None ≢ None }
    requires fits { Fits (K.content kernel.old) (fired_keys fired) (runner_keys (causes_in records.old)) (record_keys (causes_in records.old)) }
    ensures rows { rows_in records.new ≡ rows_in records.old }
    ensures others { (other : ℕ) → other ≢ number
        → slice_index_or (causes_in records.new) other None ≡ slice_index_or (causes_in records.old) other None }
    ensures stays { IsNeeded number (state_in records.old) → causes_in records.new ≡ causes_in records.old }
    ensures needed { slice_index_or (causes_in records.new) number None ≢ None → IsNeeded number (state_in records.new) }
    ensures shrinks { Shrinks (causes_in records.old) (causes_in records.new) }
    ensures loaded { K.is_loaded kernel.new }
    ensures keys { Narrows (K.content kernel.old) (K.content kernel.new) (record_keys (causes_in records.old)) (record_keys (causes_in records.new)) }
    ensures ticks { steps.new ≤ steps.old + 2 }
{
    if !records.is_bare(number, steps) {
        return;
    }
    let record = records.remove_cause(number, steps);
    if let Awaited::Key(key) = record.on {
        if !has_fired(key, fired) {
            kernel.remove(key);
        }
    }
}

/// Drops a waiting task: its waiters, and each record and key that nothing needs then.
pub(crate) fn drop_row<K: Gpi, L: Ledger>(
    kernel: &mut K,
    records: &mut Records,
    number: usize,
    fired: Fired,
    steps: &mut Steps<L>,
) -> TaskRecord
    requires loaded { K.is_loaded kernel.old }
    requires has { HasRow number (rows_in records.old) }
    requires needed { AllNeeded (state_in records.old) }
    requires fits { Fits (K.content kernel.old) (fired_keys fired) (runner_keys (causes_in records.old)) (record_keys (causes_in records.old)) }
    ensures entry { entry_at number (rows_in records.old) ≡ kept_as (Some result) }
    ensures rows { rows_in records.new ≡ without_row number (rows_in records.old) }
    ensures needed { AllNeeded (state_in records.new) }
    ensures held { HeldStays (causes_in records.old) (causes_in records.new) }
    ensures shrinks { Shrinks (causes_in records.old) (causes_in records.new) }
    ensures loaded { K.is_loaded kernel.new }
    ensures keys { Narrows (K.content kernel.old) (K.content kernel.new) (record_keys (causes_in records.old)) (record_keys (causes_in records.new)) }
    ensures ticks { steps.new ≤ steps.old + 3 * length (links_at number (rows_in records.old)) + 2 }
{
    'links: while let Some(cause) = records.pop(number, steps) {
        let_go(kernel, records, cause, fired, steps);
    }
    records.remove_task(number, steps)
}

/// Lets go of a value.
pub(crate) fn let_fall<T: Drop>(_value: T) {}

/// Drops a waiting task, as `drop_row`, and what is kept of it.
pub(crate) fn forget_row<K: Gpi, L: Ledger>(
    kernel: &mut K,
    records: &mut Records,
    number: usize,
    fired: Fired,
    steps: &mut Steps<L>,
)
    requires loaded { K.is_loaded kernel.old }
    requires has { HasRow number (rows_in records.old) }
    requires needed { AllNeeded (state_in records.old) }
    requires fits { Fits (K.content kernel.old) (fired_keys fired) (runner_keys (causes_in records.old)) (record_keys (causes_in records.old)) }
    ensures rows { rows_in records.new ≡ without_row number (rows_in records.old) }
    ensures needed { AllNeeded (state_in records.new) }
    ensures held { HeldStays (causes_in records.old) (causes_in records.new) }
    ensures shrinks { Shrinks (causes_in records.old) (causes_in records.new) }
    ensures loaded { K.is_loaded kernel.new }
    ensures keys { Narrows (K.content kernel.old) (K.content kernel.new) (record_keys (causes_in records.old)) (record_keys (causes_in records.new)) }
    ensures ticks { steps.new ≤ steps.old + 3 * length (links_at number (rows_in records.old)) + 2 }
{
    let gone = drop_row(kernel, records, number, fired, steps);
    let_fall(gone);
}

/// That no key fired.
pub(crate) fn none_fired() -> Fired
    ensures { fired_keys result ≡ [] }
{
    Fired {
        first: None,
        second: None,
    }
}

/// Drops a task's tree, if it waits.
pub(crate) fn drop_task<K: Gpi, L: Ledger>(
    kernel: &mut K,
    records: &mut Records,
    task: TaskNo,
    steps: &mut Steps<L>,
)
    requires loaded { K.is_loaded kernel.old }
    requires kept { IsKept (state_in records.old) }
    requires fits { Fits (K.content kernel.old) [] (runner_keys (causes_in records.old)) (record_keys (causes_in records.old)) }
    ensures waiting { waiting_in (rows_in records.new) ≡ without_task task (waiting_in (rows_in records.old)) }
    ensures kept { IsKept (state_in records.new) }
    ensures held { HeldStays (causes_in records.old) (causes_in records.new) }
    ensures shrinks { Shrinks (causes_in records.old) (causes_in records.new) }
    ensures few { length (rows_in records.new) ≤ length (rows_in records.old) }
    ensures loaded { K.is_loaded kernel.new }
    ensures keys { Narrows (K.content kernel.old) (K.content kernel.new) (record_keys (causes_in records.old)) (record_keys (causes_in records.new)) }
    ensures ticks { steps.new ≤ steps.old + 3 * leaf_count (of_task task (waiting_in (rows_in records.old))) + 3 }
{
    if let Some(number) = records.find_task(task, steps) {
        let none = none_fired();
        forget_row(kernel, records, number, none, steps);
    }
}

/// Drops all trees.
pub(crate) fn clear<K: Gpi, L: Ledger>(kernel: &mut K, records: &mut Records, steps: &mut Steps<L>)
    requires loaded { K.is_loaded kernel.old }
    requires kept { IsKept (state_in records.old) }
    requires fits { Fits (K.content kernel.old) [] (runner_keys (causes_in records.old)) (record_keys (causes_in records.old)) }
    ensures waiting { waiting_in (rows_in records.new) ≡ [] }
    ensures kept { IsKept (state_in records.new) }
    ensures held { HeldStays (causes_in records.old) (causes_in records.new) }
    ensures shrinks { Shrinks (causes_in records.old) (causes_in records.new) }
    ensures few { length (rows_in records.new) ≤ length (rows_in records.old) }
    ensures loaded { K.is_loaded kernel.new }
    ensures keys { Narrows (K.content kernel.old) (K.content kernel.new) (record_keys (causes_in records.old)) (record_keys (causes_in records.new)) }
    ensures ticks { steps.new ≤ steps.old + 3 * leaf_count (waiting_in (rows_in records.old)) + 3 * length (waiting_in (rows_in records.old)) + 1 }
{
    'tasks: while let Some(number) = records.first_task(steps) {
        let none = none_fired();
        forget_row(kernel, records, number, none, steps);
    }
}
