//! How keys that fired are served, and a lock is handed on.
ghost use Rattle.std.specs.Prelude.{◌≡◌, ◌+◌, ◌*◌, ◌≤◌, ◌<◌, ◌++◌, [], true, length};
ghost use Rattle.gpi.specs.Keys.{among, has};
ghost use Rattle.gpi.specs.declared.types.Key.{Key};
ghost use Rattle.await_tree.specs.WaitList.Edges.{is_edge};
ghost use Rattle.await_tree.specs.WaitList.Keys.{AreAlike, AreFired, AreKeysBut, AreOut, IsOfDesign, Rekeyed, without, without_all};
ghost use Rattle.await_tree.specs.WaitList.Limits.{waiting_limit};
ghost use Rattle.await_tree.specs.WaitList.Parts.{Fits, Narrows};
ghost use Rattle.await_tree.specs.WaitList.Waiting.{all_waiting, all_woken, fired_keys, granted, is_wanted, key_list};
ghost use Rattle.await_tree.specs.declared.cause.Awaited.TheVariants as awaited;
ghost use Rattle.trigger_table.specs.Entries.{HasCause};
ghost use Rattle.trigger_table.specs.Keys.{record_keys, runner_keys};
ghost use Rattle.trigger_table.specs.Records.{causes_in, rows_in, state_in};
ghost use Rattle.trigger_table.specs.State.{HeldStays};
ghost use Rattle.trigger_table.specs.Tied.{IsKept, Shrinks, waiting_in};
ghost use Rattle.trigger_table.specs.Work.{first_wanting, fired_work, leaf_count};

use crate::holding::unhold;
use crate::records::Records;
use crate::serving::{hand, reach};
use crate::table::none_fired;
use await_tree::wait_list::{Ready, Steps};
use await_tree::{Awaited, Cause};
use gpi::{Fired, Gpi, Key};
use port_io::NoMemory;
use py_value::LockNo;
use std::sync::ledger::Ledger;

/// The runner holds a key that fired no more, if there is one.
fn unhold_one<K: Gpi, L: Ledger>(
    kernel: &mut K,
    records: &mut Records,
    key: Option<Key>,
    fired: Fired,
    steps: &mut Steps<L>,
)
    requires loaded { K.is_loaded kernel.old }
    requires kept { IsKept (state_in records.old) }
    requires fired { (k : Key) → among k (key_list key) ≡ true → among k (fired_keys fired) ≡ true }
    requires fits { Fits (K.content kernel.old) (fired_keys fired) (runner_keys (causes_in records.old)) (record_keys (causes_in records.old)) }
    ensures rows { rows_in records.new ≡ rows_in records.old }
    ensures kept { IsKept (state_in records.new) }
    ensures held { AreAlike (runner_keys (causes_in records.new)) (without_all (key_list key) (runner_keys (causes_in records.old))) }
    ensures loaded { K.is_loaded kernel.new }
    ensures fits { Fits (K.content kernel.new) (fired_keys fired) (runner_keys (causes_in records.new)) (record_keys (causes_in records.new)) }
    ensures keys { Narrows (K.content kernel.old) (K.content kernel.new) (record_keys (causes_in records.old)) (record_keys (causes_in records.new)) }
    ensures ticks { steps.new ≤ steps.old + 4 * length (key_list key) }
{
    if let Some(key) = key {
        unhold(kernel, records, key, fired, steps);
    }
}

/// A key that fired is served, if there is one.
fn reach_one<K: Gpi, L: Ledger>(
    kernel: &mut K,
    records: &mut Records,
    key: Option<Key>,
    fired: Fired,
    ready: &mut Ready,
    steps: &mut Steps<L>,
)
    requires loaded { K.is_loaded kernel.old }
    requires kept { IsKept (state_in records.old) }
    requires few { length (rows_in records.old) ≤ waiting_limit }
    requires room { length ready.old.entries + length (waiting_in (rows_in records.old)) ≤ ready.old.room }
    requires fits { Fits (K.content kernel.old) (fired_keys fired) (runner_keys (causes_in records.old)) (record_keys (causes_in records.old)) }
    ensures waiting { waiting_in (rows_in records.new) ≡ all_waiting (key_list key) (waiting_in (rows_in records.old)) }
    ensures ready { ready.new.entries ≡ ready.old.entries ++ all_woken (key_list key) (waiting_in (rows_in records.old)) }
    ensures room { ready.new.room ≡ ready.old.room }
    ensures kept { IsKept (state_in records.new) }
    ensures held { HeldStays (causes_in records.old) (causes_in records.new) }
    ensures shrinks { Shrinks (causes_in records.old) (causes_in records.new) }
    ensures few { length (rows_in records.new) ≤ length (rows_in records.old) }
    ensures loaded { K.is_loaded kernel.new }
    ensures keys { Narrows (K.content kernel.old) (K.content kernel.new) (record_keys (causes_in records.old)) (record_keys (causes_in records.new)) }
    ensures ticks { steps.new + 6 * length (key_list key) ≤ steps.old + fired_work (key_list key) (waiting_in (rows_in records.old)) }
{
    if let Some(key) = key {
        reach(kernel, records, Cause::Key(key), fired, ready, steps);
    }
}

/// Whether the key is that of a rise or a fall.
fn is_edge(key: Key) -> bool
    ensures { result ≡ is_edge key }
{
    matches!(key, Key::Rise(_) | Key::Fall(_))
}

/// Whether the key has a record, of which none but that of a rise or a fall may have one.
fn is_named<L: Ledger>(records: &Records, key: Key, steps: &mut Steps<L>) -> bool
    requires edges { among key (record_keys (causes_in records.now)) ≡ true → is_edge key ≡ true }
    ensures value { result ≡ among key (record_keys (causes_in records.now)) }
    ensures ticks { steps.new ≤ steps.old + 1 }
{
    if !is_edge(key) {
        return false;
    }
    records.find(Awaited::Key(key), steps).is_some()
}

/// Registers a key that has fired, if there is one, where it is awaited still. It is an edge then, so no memory is wanted.
fn register_again<K: Gpi, L: Ledger>(
    kernel: &mut K,
    records: &Records,
    key: Option<Key>,
    steps: &mut Steps<L>,
)
    requires loaded { K.is_loaded kernel.old }
    requires out { AreOut (K.content kernel.old).keys (key_list key) }
    requires edges { (k : Key) → among k (key_list key) ≡ true → among k (record_keys (causes_in records.now)) ≡ true
        → (is_edge k ≡ true) × IsOfDesign (K.content kernel.old) k }
    requires named { (k : Key) → has k (K.content kernel.old).keys ≡ true → among k (record_keys (causes_in records.now)) ≡ true }
    ensures loaded { K.is_loaded kernel.new }
    ensures keys { Rekeyed (K.content kernel.old) (K.content kernel.new) (key_list key)
        (record_keys (causes_in records.now)) (record_keys (causes_in records.now)) }
    ensures ticks { steps.new ≤ steps.old + length (key_list key) }
{
    if let Some(key) = key {
        if is_named(records, key, steps) {
            match kernel.register(key) {
                Ok(()) => {}
                Err(NoMemory) => unreachable!(),
            }
        }
    }
}

/// Registers those of the keys that fired that are awaited still, which are edges then.
fn register_fired<K: Gpi, L: Ledger>(
    kernel: &mut K,
    records: &Records,
    fired: Fired,
    steps: &mut Steps<L>,
)
    requires loaded { K.is_loaded kernel.old }
    requires fired { AreFired (K.content kernel.old) (fired_keys fired) }
    requires edges { (k : Key) → among k (fired_keys fired) ≡ true → among k (record_keys (causes_in records.now)) ≡ true → is_edge k ≡ true }
    requires named { (k : Key) → has k (K.content kernel.old).keys ≡ true → among k (record_keys (causes_in records.now)) ≡ true }
    ensures loaded { K.is_loaded kernel.new }
    ensures keys { Rekeyed (K.content kernel.old) (K.content kernel.new) (fired_keys fired)
        (record_keys (causes_in records.now)) (record_keys (causes_in records.now)) }
    ensures ticks { steps.new ≤ steps.old + length (fired_keys fired) }
{
    register_again(kernel, records, fired.first, steps);
    register_again(kernel, records, fired.second, steps);
}

/// The runner holds none of the keys that fired any more.
fn unhold_fired<K: Gpi, L: Ledger>(
    kernel: &mut K,
    records: &mut Records,
    fired: Fired,
    steps: &mut Steps<L>,
)
    requires loaded { K.is_loaded kernel.old }
    requires kept { IsKept (state_in records.old) }
    requires fits { Fits (K.content kernel.old) (fired_keys fired) (runner_keys (causes_in records.old)) (record_keys (causes_in records.old)) }
    ensures rows { rows_in records.new ≡ rows_in records.old }
    ensures kept { IsKept (state_in records.new) }
    ensures held { AreAlike (runner_keys (causes_in records.new)) (without_all (fired_keys fired) (runner_keys (causes_in records.old))) }
    ensures loaded { K.is_loaded kernel.new }
    ensures fits { Fits (K.content kernel.new) (fired_keys fired) (runner_keys (causes_in records.new)) (record_keys (causes_in records.new)) }
    ensures keys { Narrows (K.content kernel.old) (K.content kernel.new) (record_keys (causes_in records.old)) (record_keys (causes_in records.new)) }
    ensures ticks { steps.new ≤ steps.old + 4 * length (fired_keys fired) }
{
    unhold_one(kernel, records, fired.first, fired, steps);
    unhold_one(kernel, records, fired.second, fired, steps);
}

/// The keys that fired are served, in order. None of them is registered again yet.
fn reach_fired<K: Gpi, L: Ledger>(
    kernel: &mut K,
    records: &mut Records,
    fired: Fired,
    ready: &mut Ready,
    steps: &mut Steps<L>,
)
    requires loaded { K.is_loaded kernel.old }
    requires kept { IsKept (state_in records.old) }
    requires few { length (rows_in records.old) ≤ waiting_limit }
    requires room { length ready.old.entries + length (waiting_in (rows_in records.old)) ≤ ready.old.room }
    requires fits { Fits (K.content kernel.old) (fired_keys fired) (runner_keys (causes_in records.old)) (record_keys (causes_in records.old)) }
    ensures waiting { waiting_in (rows_in records.new) ≡ all_waiting (fired_keys fired) (waiting_in (rows_in records.old)) }
    ensures ready { ready.new.entries ≡ ready.old.entries ++ all_woken (fired_keys fired) (waiting_in (rows_in records.old)) }
    ensures room { ready.new.room ≡ ready.old.room }
    ensures kept { IsKept (state_in records.new) }
    ensures held { HeldStays (causes_in records.old) (causes_in records.new) }
    ensures shrinks { Shrinks (causes_in records.old) (causes_in records.new) }
    ensures few { length (rows_in records.new) ≤ length (rows_in records.old) }
    ensures loaded { K.is_loaded kernel.new }
    ensures keys { Narrows (K.content kernel.old) (K.content kernel.new) (record_keys (causes_in records.old)) (record_keys (causes_in records.new)) }
    ensures ticks { steps.new + 6 * length (fired_keys fired) ≤ steps.old + fired_work (fired_keys fired) (waiting_in (rows_in records.old)) }
{
    reach_one(kernel, records, fired.first, fired, ready, steps);
    reach_one(kernel, records, fired.second, fired, ready, steps);
}

/// Serves the keys that fired, in order, and registers again those that a tree waits for then. The runner holds none of them any more.
pub(crate) fn fire<K: Gpi, L: Ledger>(
    kernel: &mut K,
    records: &mut Records,
    fired: Fired,
    ready: &mut Ready,
    steps: &mut Steps<L>,
)
    requires loaded { K.is_loaded kernel.old }
    requires kept { IsKept (state_in records.old) }
    requires few { length (rows_in records.old) ≤ waiting_limit }
    requires room { length ready.old.entries + length (waiting_in (rows_in records.old)) ≤ ready.old.room }
    requires fired { AreFired (K.content kernel.old) (fired_keys fired) }
    requires keys { AreKeysBut (K.content kernel.old).keys (fired_keys fired ++ runner_keys (causes_in records.old))
        (record_keys (causes_in records.old)) }
    ensures waiting { waiting_in (rows_in records.new) ≡ all_waiting (fired_keys fired) (waiting_in (rows_in records.old)) }
    ensures held { AreAlike (runner_keys (causes_in records.new)) (without_all (fired_keys fired) (runner_keys (causes_in records.old))) }
    ensures ready { ready.new.entries ≡ ready.old.entries ++ all_woken (fired_keys fired) (waiting_in (rows_in records.old)) }
    ensures room { ready.new.room ≡ ready.old.room }
    ensures kept { IsKept (state_in records.new) }
    ensures few { length (rows_in records.new) ≤ length (rows_in records.old) }
    ensures loaded { K.is_loaded kernel.new }
    ensures keys { Rekeyed (K.content kernel.old) (K.content kernel.new) (fired_keys fired)
        (record_keys (causes_in records.old)) (record_keys (causes_in records.new)) }
    ensures ticks { steps.new ≤ steps.old + fired_work (fired_keys fired) (waiting_in (rows_in records.old)) }
{
    unhold_fired(kernel, records, fired, steps);
    reach_fired(kernel, records, fired, ready, steps);
    register_fired(kernel, records, fired, steps);
}

/// Hands a lock to the first task that waits on its record. False where there is none, and then nothing has changed.
fn grant_on<K: Gpi, L: Ledger>(
    kernel: &mut K,
    records: &mut Records,
    cause: usize,
    lock: LockNo,
    ready: &mut Ready,
    steps: &mut Steps<L>,
) -> bool
    requires loaded { K.is_loaded kernel.old }
    requires of { HasCause (causes_in records.old) cause (awaited.Lock lock) }
    requires kept { IsKept (state_in records.old) }
    requires room { length ready.old.entries + length (waiting_in (rows_in records.old)) ≤ ready.old.room }
    requires fits { Fits (K.content kernel.old) [] (runner_keys (causes_in records.old)) (record_keys (causes_in records.old)) }
    ensures answer { result ≡ is_wanted lock (waiting_in (rows_in records.old)) }
    ensures waiting { waiting_in (rows_in records.new) ≡ (granted lock (waiting_in (rows_in records.old))).waiting }
    ensures ready { ready.new.entries ≡ ready.old.entries ++ (granted lock (waiting_in (rows_in records.old))).entries }
    ensures room { ready.new.room ≡ ready.old.room }
    ensures kept { IsKept (state_in records.new) }
    ensures held { HeldStays (causes_in records.old) (causes_in records.new) }
    ensures shrinks { Shrinks (causes_in records.old) (causes_in records.new) }
    ensures few { length (rows_in records.new) ≤ length (rows_in records.old) }
    ensures loaded { K.is_loaded kernel.new }
    ensures keys { Narrows (K.content kernel.old) (K.content kernel.new) (record_keys (causes_in records.old)) (record_keys (causes_in records.new)) }
    ensures ticks { steps.new ≤ steps.old + 8 * leaf_count (first_wanting lock (waiting_in (rows_in records.old))) + 7 }
{
    match records.first_member(cause, steps) {
        Some(member) => {
            let none = none_fired();
            hand(kernel, records, member.number, lock, none, ready, steps);
            true
        }
        None => false,
    }
}

/// Hands a lock to the first waiting task with a leaf on it. False where there is none, and then nothing has changed.
pub(crate) fn grant<K: Gpi, L: Ledger>(
    kernel: &mut K,
    records: &mut Records,
    lock: LockNo,
    ready: &mut Ready,
    steps: &mut Steps<L>,
) -> bool
    requires loaded { K.is_loaded kernel.old }
    requires kept { IsKept (state_in records.old) }
    requires room { length ready.old.entries + length (waiting_in (rows_in records.old)) ≤ ready.old.room }
    requires fits { Fits (K.content kernel.old) [] (runner_keys (causes_in records.old)) (record_keys (causes_in records.old)) }
    ensures answer { result ≡ is_wanted lock (waiting_in (rows_in records.old)) }
    ensures waiting { waiting_in (rows_in records.new) ≡ (granted lock (waiting_in (rows_in records.old))).waiting }
    ensures ready { ready.new.entries ≡ ready.old.entries ++ (granted lock (waiting_in (rows_in records.old))).entries }
    ensures room { ready.new.room ≡ ready.old.room }
    ensures kept { IsKept (state_in records.new) }
    ensures held { HeldStays (causes_in records.old) (causes_in records.new) }
    ensures shrinks { Shrinks (causes_in records.old) (causes_in records.new) }
    ensures few { length (rows_in records.new) ≤ length (rows_in records.old) }
    ensures loaded { K.is_loaded kernel.new }
    ensures keys { Narrows (K.content kernel.old) (K.content kernel.new) (record_keys (causes_in records.old)) (record_keys (causes_in records.new)) }
    ensures ticks { steps.new ≤ steps.old + 8 * leaf_count (first_wanting lock (waiting_in (rows_in records.old))) + 8 }
{
    match records.find(Awaited::Lock(lock), steps) {
        Some(cause) => grant_on(kernel, records, cause, lock, ready, steps),
        None => false,
    }
}
