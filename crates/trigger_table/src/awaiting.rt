//! How a task begins to wait.
ghost use Rattle.std.specs.Prelude.{◌≡◌, ℕ, ◌+◌, ◌*◌, ◌≤◌, ◌++◌, ◌∷◌, [], false, length, true, OnErr, OnOk};
ghost use Rattle.gpi.specs.Keys.{among, has};
ghost use Rattle.gpi.specs.declared.types.Key.{Key};
ghost use Rattle.await_tree.specs.Tree.{leaves};
ghost use Rattle.await_tree.specs.Whole.{tree_in};
ghost use Rattle.await_tree.specs.WaitList.Begun.{IsBegun};
ghost use Rattle.await_tree.specs.WaitList.Keys.{AreAlike, AreAsked, AreKeys, KeepsKeys, Rekeyed};
ghost use Rattle.await_tree.specs.WaitList.Waiting.{is_waiting, keys_among, tree_keys};
ghost use Rattle.trigger_table.specs.Awaiting.{Adds, FallsShort, Reaches};
ghost use Rattle.trigger_table.specs.Entries.{HasCause};
ghost use Rattle.trigger_table.specs.Keys.{record_keys, runner_keys};
ghost use Rattle.trigger_table.specs.Records.{causes_in, rows_in, state_in};
ghost use Rattle.trigger_table.specs.State.{AllNeeded, IsLast};
ghost use Rattle.trigger_table.specs.Tied.{IsKept, waiting_in};

use crate::records::Records;
use crate::table::{forget_row, let_go, none_fired};
use await_tree::wait_list::Steps;
use await_tree::{Awaited, Tree};
use gpi::Gpi;
use port_io::NoMemory;
use py_value::TaskNo;
use std::sync::ledger::Ledger;

/// Registers what is awaited, if it is a key. It isn't registered. The one error is the want of memory, and then nothing has changed.
pub(crate) fn register_new<K: Gpi>(kernel: &mut K, on: Awaited) -> Result<(), NoMemory>
    requires loaded { K.is_loaded kernel.old }
    requires new { (k : Key) → among k (keys_among (on ∷ [])) ≡ true → has k (K.content kernel.old).keys ≡ false }
    requires asked { AreAsked (K.content kernel.old) (keys_among (on ∷ [])) }
    ensures loaded { K.is_loaded kernel.new }
    ensures ok { OnOk result (Adds (K.content kernel.old) on (K.content kernel.new)) }
    ensures err { OnErr result (K.content kernel.new ≡ K.content kernel.old) }
{
    match on {
        Awaited::Key(key) => kernel.register(key),
        _ => Ok(()),
    }
}

/// The last task comes to wait for what has no record yet. After `NoMemory` it waits for what it did.
fn await_new<K: Gpi, L: Ledger>(
    kernel: &mut K,
    records: &mut Records,
    number: usize,
    on: Awaited,
    steps: &mut Steps<L>,
) -> Result<(), NoMemory>
    requires loaded { K.is_loaded kernel.old }
    requires last { IsLast number (rows_in records.old) }
    requires needed { AllNeeded (state_in records.old) }
    requires absent { (other : ℕ) → ¬ HasCause (causes_in records.old) other on }
    requires keys { AreKeys (K.content kernel.old).keys (record_keys (causes_in records.old)) }
    requires asked { AreAsked (K.content kernel.old) (keys_among (on ∷ [])) }
    ensures loaded { K.is_loaded kernel.new }
    ensures ok { OnOk result (Reaches number (on ∷ []) (state_in records.old) (state_in records.new)) }
    ensures adds { OnOk result (Adds (K.content kernel.old) on (K.content kernel.new)) }
    ensures err { OnErr result (FallsShort number 0 (K.content kernel.old) (K.content kernel.new) (state_in records.old) (state_in records.new)) }
    ensures ticks { steps.new ≤ steps.old + 4 }
{
    let cause = records.make(on, steps)?;
    if let Err(NoMemory) = register_new(kernel, on) {
        records.remove_cause(cause, steps);
        return Err(NoMemory);
    }
    if let Err(NoMemory) = records.link(number, cause, steps) {
        let none = none_fired();
        let_go(kernel, records, cause, none, steps);
        return Err(NoMemory);
    }
    Ok(())
}

/// The last task comes to wait for this too. After `NoMemory` it waits for what it did.
fn await_one<K: Gpi, L: Ledger>(
    kernel: &mut K,
    records: &mut Records,
    number: usize,
    on: Awaited,
    steps: &mut Steps<L>,
) -> Result<(), NoMemory>
    requires loaded { K.is_loaded kernel.old }
    requires last { IsLast number (rows_in records.old) }
    requires needed { AllNeeded (state_in records.old) }
    requires keys { AreKeys (K.content kernel.old).keys (record_keys (causes_in records.old)) }
    requires asked { AreAsked (K.content kernel.old) (keys_among (on ∷ [])) }
    ensures loaded { K.is_loaded kernel.new }
    ensures ok { OnOk result (Reaches number (on ∷ []) (state_in records.old) (state_in records.new)) }
    ensures adds { OnOk result (Adds (K.content kernel.old) on (K.content kernel.new)) }
    ensures err { OnErr result (FallsShort number 0 (K.content kernel.old) (K.content kernel.new) (state_in records.old) (state_in records.new)) }
    ensures ticks { steps.new ≤ steps.old + 5 }
{
    match records.find(on, steps) {
        Some(cause) => records.link(number, cause, steps),
        None => await_new(kernel, records, number, on, steps),
    }
}

/// The last task comes to wait for all of these. After `NoMemory` it waits for some of them.
pub(crate) fn await_all<K: Gpi, L: Ledger>(
    kernel: &mut K,
    records: &mut Records,
    number: usize,
    awaited: &[Awaited],
    steps: &mut Steps<L>,
) -> Result<(), NoMemory>
    requires loaded { K.is_loaded kernel.old }
    requires last { IsLast number (rows_in records.old) }
    requires needed { AllNeeded (state_in records.old) }
    requires keys { AreKeys (K.content kernel.old).keys (record_keys (causes_in records.old)) }
    requires asked { AreAsked (K.content kernel.old) (keys_among awaited.now) }
    ensures loaded { K.is_loaded kernel.new }
    ensures ok { OnOk result (Reaches number awaited.now (state_in records.old) (state_in records.new)) }
    ensures adds { OnOk result (Rekeyed (K.content kernel.old) (K.content kernel.new) (keys_among awaited.now)
        (record_keys (causes_in records.old)) (record_keys (causes_in records.new))) }
    ensures err { OnErr result (FallsShort number (length awaited.now) (K.content kernel.old) (K.content kernel.new)
        (state_in records.old) (state_in records.new)) }
    ensures ticks { steps.new ≤ steps.old + 5 * length awaited.now }
{
    let mut at = 0;
    while at < awaited.len() {
        await_one(kernel, records, number, awaited[at], steps)?;
        at += 1;
    }
    Ok(())
}

/// A task begins to wait, as the last, for these, which the leaves of its tree wait for. The tree was begun and isn't done. After `NoMemory` the
/// task waits for nothing, and the same keys are registered as before.
fn begin_on<K: Gpi, L: Ledger>(
    kernel: &mut K,
    records: &mut Records,
    task: TaskNo,
    tree: Tree,
    awaited: &[Awaited],
    steps: &mut Steps<L>,
) -> Result<(), NoMemory>
    requires loaded { K.is_loaded kernel.old }
    requires new { is_waiting task (waiting_in (rows_in records.old)) ≡ false }
    requires kept { IsKept (state_in records.old) }
    requires begun { IsBegun (tree_in tree) }
    requires leaves { awaited.now ≡ leaves (tree_in tree) }
    requires keys { AreKeys (K.content kernel.old).keys (record_keys (causes_in records.old)) }
    requires asked { AreAsked (K.content kernel.old) (tree_keys (tree_in tree)) }
    ensures ok { OnOk result (waiting_in (rows_in records.new)
        ≡ waiting_in (rows_in records.old) ++ record { task = task; tree = tree_in tree } ∷ []) }
    ensures err { OnErr result (rows_in records.new ≡ rows_in records.old) }
    ensures kept { IsKept (state_in records.new) }
    ensures held { AreAlike (runner_keys (causes_in records.new)) (runner_keys (causes_in records.old)) }
    ensures few { length (rows_in records.new) ≤ length (rows_in records.old) + 1 }
    ensures loaded { K.is_loaded kernel.new }
    ensures keys { OnOk result (Rekeyed (K.content kernel.old) (K.content kernel.new) (tree_keys (tree_in tree))
        (record_keys (causes_in records.old)) (record_keys (causes_in records.new))) }
    ensures back { OnErr result (KeepsKeys (K.content kernel.old) (K.content kernel.new)) }
    ensures ticks { steps.new ≤ steps.old + 8 * length (leaves (tree_in tree)) + 3 }
{
    let number = records.add_task(task, tree, steps)?;
    if let Err(NoMemory) = await_all(kernel, records, number, awaited, steps) {
        let none = none_fired();
        forget_row(kernel, records, number, none, steps);
        return Err(NoMemory);
    }
    Ok(())
}

/// A task begins to wait, as the last. Its tree was begun and isn't done. After `NoMemory` it waits for nothing, and the same keys are
/// registered as before.
pub(crate) fn begin<K: Gpi, L: Ledger>(
    kernel: &mut K,
    records: &mut Records,
    task: TaskNo,
    tree: Tree,
    steps: &mut Steps<L>,
) -> Result<(), NoMemory>
    requires loaded { K.is_loaded kernel.old }
    requires new { is_waiting task (waiting_in (rows_in records.old)) ≡ false }
    requires kept { IsKept (state_in records.old) }
    requires begun { IsBegun (tree_in tree) }
    requires keys { AreKeys (K.content kernel.old).keys (record_keys (causes_in records.old)) }
    requires asked { AreAsked (K.content kernel.old) (tree_keys (tree_in tree)) }
    ensures ok { OnOk result (waiting_in (rows_in records.new)
        ≡ waiting_in (rows_in records.old) ++ record { task = task; tree = tree_in tree } ∷ []) }
    ensures err { OnErr result (rows_in records.new ≡ rows_in records.old) }
    ensures kept { IsKept (state_in records.new) }
    ensures held { AreAlike (runner_keys (causes_in records.new)) (runner_keys (causes_in records.old)) }
    ensures few { length (rows_in records.new) ≤ length (rows_in records.old) + 1 }
    ensures loaded { K.is_loaded kernel.new }
    ensures keys { OnOk result (Rekeyed (K.content kernel.old) (K.content kernel.new) (tree_keys (tree_in tree))
        (record_keys (causes_in records.old)) (record_keys (causes_in records.new))) }
    ensures back { OnErr result (KeepsKeys (K.content kernel.old) (K.content kernel.new)) }
    ensures ticks { steps.new ≤ steps.old + 8 * length (leaves (tree_in tree)) + 3 }
{
    match tree.lone() {
        Some(on) => begin_on(kernel, records, task, tree, &[on], steps),
        None => {
            let leaves = tree.leaves();
            begin_on(kernel, records, task, tree, leaves.as_slice(), steps)
        }
    }
}
