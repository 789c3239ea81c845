//! The keys that the runner itself holds.
ghost use Rattle.std.specs.Prelude.{◌≡◌, ℕ, ◌+◌, ◌≤◌, ◌∷◌, [], false, length, true, IfOk, OnErr, OnOk};
ghost use Rattle.gpi.specs.Content.{IsAsked};
ghost use Rattle.gpi.specs.Keys.{among, has};
ghost use Rattle.await_tree.specs.declared.cause.Awaited.TheVariants as awaited;
ghost use Rattle.await_tree.specs.WaitList.Keys.{AreAlike, AreKeysBut, without};
ghost use Rattle.await_tree.specs.WaitList.Parts.{Fits, Joins, Narrows};
ghost use Rattle.await_tree.specs.WaitList.Waiting.{fired_keys};
ghost use Rattle.trigger_table.specs.Entries.{HasCause};
ghost use Rattle.trigger_table.specs.Awaiting.{Joined};
ghost use Rattle.trigger_table.specs.Keys.{record_keys, runner_keys};
ghost use Rattle.trigger_table.specs.Records.{causes_in, rows_in, state_in};
ghost use Rattle.trigger_table.specs.Tied.{IsKept, SameSlots};

use crate::records::Records;
use crate::table::{let_go, none_fired};
use await_tree::Awaited;
use await_tree::wait_list::Steps;
use gpi::{Fired, Gpi, Key};
use port_io::NoMemory;
use std::sync::ledger::Ledger;

/// Makes the record of a key that has none, and registers the key. After `NoMemory` nothing has changed.
fn make_key<K: Gpi, L: Ledger>(
    kernel: &mut K,
    records: &mut Records,
    key: Key,
    steps: &mut Steps<L>,
) -> Result<usize, NoMemory>
    requires loaded { K.is_loaded kernel.old }
    requires absent { (other : ℕ) → ¬ HasCause (causes_in records.old) other (awaited.Key key) }
    requires out { has key (K.content kernel.old).keys ≡ false }
    requires asked { IsAsked (length (K.content kernel.old).state.signals) (K.content kernel.old).state key }
    ensures rows { rows_in records.new ≡ rows_in records.old }
    ensures made { IfOk result (λ number. Joined (awaited.Key key) number (causes_in records.old) (causes_in records.new)) }
    ensures err { OnErr result (SameSlots (causes_in records.old) (causes_in records.new)) }
    ensures loaded { K.is_loaded kernel.new }
    ensures joins { OnOk result (Joins (K.content kernel.old) key (K.content kernel.new)) }
    ensures kept { OnErr result (K.content kernel.new ≡ K.content kernel.old) }
    ensures ticks { steps.new ≤ steps.old + 2 }
{
    let number = records.make(Awaited::Key(key), steps)?;
    if let Err(NoMemory) = kernel.register(key) {
        records.remove_cause(number, steps);
        return Err(NoMemory);
    }
    Ok(number)
}

/// The record of a key, which is registered with it if it had none. After `NoMemory` nothing has changed.
fn find_or_make<K: Gpi, L: Ledger>(
    kernel: &mut K,
    records: &mut Records,
    key: Key,
    steps: &mut Steps<L>,
) -> Result<usize, NoMemory>
    requires loaded { K.is_loaded kernel.old }
    requires there { has key (K.content kernel.old).keys ≡ among key (record_keys (causes_in records.old)) }
    requires asked { has key (K.content kernel.old).keys ≡ false
        → IsAsked (length (K.content kernel.old).state.signals) (K.content kernel.old).state key }
    ensures rows { rows_in records.new ≡ rows_in records.old }
    ensures found { IfOk result (λ number. Joined (awaited.Key key) number (causes_in records.old) (causes_in records.new)) }
    ensures err { OnErr result (SameSlots (causes_in records.old) (causes_in records.new)) }
    ensures loaded { K.is_loaded kernel.new }
    ensures joins { OnOk result (Joins (K.content kernel.old) key (K.content kernel.new)) }
    ensures kept { OnErr result (K.content kernel.new ≡ K.content kernel.old) }
    ensures ticks { steps.new ≤ steps.old + 3 }
{
    match records.find(Awaited::Key(key), steps) {
        Some(number) => Ok(number),
        None => make_key(kernel, records, key, steps),
    }
}

/// The runner holds the key, which it doesn't yet. After `NoMemory` nothing has changed.
pub(crate) fn hold<K: Gpi, L: Ledger>(
    kernel: &mut K,
    records: &mut Records,
    key: Key,
    steps: &mut Steps<L>,
) -> Result<(), NoMemory>
    requires loaded { K.is_loaded kernel.old }
    requires kept { IsKept (state_in records.old) }
    requires there { has key (K.content kernel.old).keys ≡ among key (record_keys (causes_in records.old)) }
    requires asked { has key (K.content kernel.old).keys ≡ false
        → IsAsked (length (K.content kernel.old).state.signals) (K.content kernel.old).state key }
    ensures rows { rows_in records.new ≡ rows_in records.old }
    ensures kept { IsKept (state_in records.new) }
    ensures ok { OnOk result (AreAlike (runner_keys (causes_in records.new)) (key ∷ runner_keys (causes_in records.old))) }
    ensures err { OnErr result (AreAlike (runner_keys (causes_in records.new)) (runner_keys (causes_in records.old))) }
    ensures loaded { K.is_loaded kernel.new }
    ensures joins { OnOk result (Joins (K.content kernel.old) key (K.content kernel.new)) }
    ensures same { OnErr result (K.content kernel.new ≡ K.content kernel.old) }
    ensures ticks { steps.new ≤ steps.old + 4 }
{
    let number = find_or_make(kernel, records, key, steps)?;
    records.set_held(number, true, steps);
    Ok(())
}

/// The runner holds the key no more. It is registered, or fired.
pub(crate) fn unhold<K: Gpi, L: Ledger>(
    kernel: &mut K,
    records: &mut Records,
    key: Key,
    fired: Fired,
    steps: &mut Steps<L>,
)
    requires loaded { K.is_loaded kernel.old }
    requires kept { IsKept (state_in records.old) }
    requires there { among key (fired_keys fired) ≡ false → has key (K.content kernel.old).keys ≡ true }
    requires fits { Fits (K.content kernel.old) (fired_keys fired) (runner_keys (causes_in records.old)) (record_keys (causes_in records.old)) }
    ensures rows { rows_in records.new ≡ rows_in records.old }
    ensures kept { IsKept (state_in records.new) }
    ensures held { AreAlike (runner_keys (causes_in records.new)) (without key (runner_keys (causes_in records.old))) }
    ensures loaded { K.is_loaded kernel.new }
    ensures fits { Fits (K.content kernel.new) (fired_keys fired) (runner_keys (causes_in records.new)) (record_keys (causes_in records.new)) }
    ensures keys { Narrows (K.content kernel.old) (K.content kernel.new) (record_keys (causes_in records.old)) (record_keys (causes_in records.new)) }
    ensures ticks { steps.new ≤ steps.old + 4 }
{
    if let Some(number) = records.find(Awaited::Key(key), steps) {
        records.set_held(number, false, steps);
        let_go(kernel, records, number, fired, steps);
    }
}

/// The runner holds the key no more, which is registered.
pub(crate) fn release<K: Gpi, L: Ledger>(
    kernel: &mut K,
    records: &mut Records,
    key: Key,
    steps: &mut Steps<L>,
)
    requires loaded { K.is_loaded kernel.old }
    requires kept { IsKept (state_in records.old) }
    requires registered { has key (K.content kernel.old).keys ≡ true }
    requires keys { AreKeysBut (K.content kernel.old).keys (runner_keys (causes_in records.old)) (record_keys (causes_in records.old)) }
    ensures rows { rows_in records.new ≡ rows_in records.old }
    ensures kept { IsKept (state_in records.new) }
    ensures held { AreAlike (runner_keys (causes_in records.new)) (without key (runner_keys (causes_in records.old))) }
    ensures loaded { K.is_loaded kernel.new }
    ensures keys { Narrows (K.content kernel.old) (K.content kernel.new) (record_keys (causes_in records.old)) (record_keys (causes_in records.new)) }
    ensures ticks { steps.new ≤ steps.old + 4 }
{
    let none = none_fired();
    unhold(kernel, records, key, none, steps);
}
