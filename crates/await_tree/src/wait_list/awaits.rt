//! Keeping the waiting tasks, by what is kept.
ghost use Rattle.std.specs.Prelude.{◌≡◌, ◌≤◌, ◌<◌, ◌+◌, ◌++◌, ◌∷◌, [], List, length, OnOk, OnErr, true, false};
ghost use Rattle.gpi.specs.Content.{IsAsked};
ghost use Rattle.gpi.specs.Keys.{among, has};
ghost use Rattle.gpi.specs.declared.types.Key.{Key};
ghost use Rattle.await_tree.specs.Whole.{tree_in};
ghost use Rattle.await_tree.specs.WaitList.Begun.{IsBegun};
ghost use Rattle.await_tree.specs.WaitList.Keys.{AreAlike, AreAsked, AreFired, AreKeys, AreKeysBut, KeepsKeys, Rekeyed, without, without_all};
ghost use Rattle.await_tree.specs.WaitList.Limits.{waiting_limit};
ghost use Rattle.await_tree.specs.WaitList.Waiting.{
  IsNoKey,
  Waiting,
  all_waiting,
  all_woken,
  fired_keys,
  granted,
  is_waiting,
  is_wanted,
  named,
  reached_tasks,
  still_waiting,
  tree_keys,
  without_task,
  woken,
};

use crate::wait_list::ready::Ready;
use crate::wait_list::steps::Steps;
use crate::{Cause, Tree};
use gpi::{Fired, Gpi, Key};
use port_io::NoMemory;
use py_value::{LockNo, TaskNo};
use std::sync::ledger::Ledger;

/// Keeps the tasks that wait for triggers (cocotb 1.8, "Triggers"), and the keys that the runner itself holds. Its keys are those that a
/// waiting leaf or the runner names.
///
/// Each call asks that the registered keys of the simulator are among these, and that each of these that isn't registered fired and is still
/// to be served: it is given to this call of `fire`, or the runner holds it. Of the simulator a call changes the registered keys and the
/// counts alone. The count of registrations rises by one for each key that is registered after the call and wasn't before it, that of
/// removals by one for each that was and isn't, and a count at 2^64-1 stays there. Only `begin` and `hold` take memory, and their one error
/// is the want of it. A call that is handed the ring asks that it has room for every waiting task. Each call is handed a counter of its steps
/// of work, the number of which is left open here.
pub trait Awaits: Drop {
    /// The waiting tasks with their trees, in the order in which they began to wait.
    ghost waiting: { Self → List Waiting };

    /// The keys that the runner itself holds. In which order and how often they stand here is left open.
    ghost held: { Self → List Key };

    /// The task begins to wait, as the last. It doesn't wait yet, fewer than 65,536 tasks wait, each key is registered, and the tree was begun
    /// and isn't done. The keys of the tree that weren't registered are registered. After `NoMemory` the task waits for nothing, and the same
    /// keys are registered as before; the counts of registrations and removals may have risen then.
    fn begin<K: Gpi, L: Ledger>(
        &mut self,
        kernel: &mut K,
        task: TaskNo,
        tree: Tree,
        steps: &mut Steps<L>,
    ) -> Result<(), NoMemory>
        requires loaded { K.is_loaded kernel.old }
        requires new { is_waiting task (waiting self.old) ≡ false }
        requires few { length (waiting self.old) < waiting_limit }
        requires begun { IsBegun (tree_in tree) }
        requires keys { AreKeys (K.content kernel.old).keys (named (waiting self.old) (held self.old)) }
        requires asked { AreAsked (K.content kernel.old) (tree_keys (tree_in tree)) }
        ensures ok { OnOk result (waiting self.new ≡ waiting self.old ++ record { task = task; tree = tree_in tree } ∷ []) }
        ensures err { OnErr result (waiting self.new ≡ waiting self.old) }
        ensures held { AreAlike (held self.new) (held self.old) }
        ensures loaded { K.is_loaded kernel.new }
        ensures keys { OnOk result (Rekeyed (K.content kernel.old) (K.content kernel.new) (tree_keys (tree_in tree))
            (named (waiting self.old) (held self.old)) (named (waiting self.new) (held self.new))) }
        ensures kept { OnErr result (KeepsKeys (K.content kernel.old) (K.content kernel.new)) };

    /// Serves the keys that fired, in order: each reaches all leaves on it, whom it wakes goes into the ring in the order in which they began
    /// to wait, and the runner holds it no more. The keys differ, none of them is registered, and their signals are of the design. After
    /// the last key is served, those that a tree waits for again are registered. It takes no memory.
    fn fire<K: Gpi, L: Ledger>(
        &mut self,
        kernel: &mut K,
        fired: Fired,
        ready: &mut Ready,
        steps: &mut Steps<L>,
    )
        requires loaded { K.is_loaded kernel.old }
        requires room { length ready.old.entries + length (waiting self.old) ≤ ready.old.room }
        requires fired { AreFired (K.content kernel.old) (fired_keys fired) }
        requires keys { AreKeysBut (K.content kernel.old).keys (fired_keys fired ++ held self.old) (named (waiting self.old) (held self.old)) }
        ensures waiting { waiting self.new ≡ all_waiting (fired_keys fired) (waiting self.old) }
        ensures held { AreAlike (held self.new) (without_all (fired_keys fired) (held self.old)) }
        ensures ready { ready.new.entries ≡ ready.old.entries ++ all_woken (fired_keys fired) (waiting self.old) }
        ensures room { ready.new.room ≡ ready.old.room }
        ensures loaded { K.is_loaded kernel.new }
        ensures keys { Rekeyed (K.content kernel.old) (K.content kernel.new) (fired_keys fired)
            (named (waiting self.old) (held self.old)) (named (waiting self.new) (held self.new)) };

    /// Serves an event that was set or a task that has ended: it reaches all leaves on it, and whom it wakes goes into the ring in the order in
    /// which they began to wait. Answers how many of the waiting tasks have such a leaf. It takes no memory.
    fn wake<K: Gpi, L: Ledger>(
        &mut self,
        kernel: &mut K,
        cause: Cause,
        ready: &mut Ready,
        steps: &mut Steps<L>,
    ) -> u32
        requires loaded { K.is_loaded kernel.old }
        requires cause { IsNoKey cause }
        requires room { length ready.old.entries + length (waiting self.old) ≤ ready.old.room }
        requires keys { AreKeysBut (K.content kernel.old).keys (held self.old) (named (waiting self.old) (held self.old)) }
        ensures answer { result ≡ reached_tasks cause (waiting self.old) }
        ensures waiting { waiting self.new ≡ still_waiting cause (waiting self.old) }
        ensures held { AreAlike (held self.new) (held self.old) }
        ensures ready { ready.new.entries ≡ ready.old.entries ++ woken cause (waiting self.old) }
        ensures room { ready.new.room ≡ ready.old.room }
        ensures loaded { K.is_loaded kernel.new }
        ensures keys { Rekeyed (K.content kernel.old) (K.content kernel.new) []
            (named (waiting self.old) (held self.old)) (named (waiting self.new) (held self.new)) };

    /// Hands a lock to the first waiting task with a leaf on it, which goes into the ring if its tree is done then. False exactly where no
    /// waiting task has such a leaf, and then nothing has changed. It takes no memory.
    fn grant<K: Gpi, L: Ledger>(
        &mut self,
        kernel: &mut K,
        lock: LockNo,
        ready: &mut Ready,
        steps: &mut Steps<L>,
    ) -> bool
        requires loaded { K.is_loaded kernel.old }
        requires room { length ready.old.entries + length (waiting self.old) ≤ ready.old.room }
        requires keys { AreKeysBut (K.content kernel.old).keys (held self.old) (named (waiting self.old) (held self.old)) }
        ensures answer { result ≡ is_wanted lock (waiting self.old) }
        ensures waiting { waiting self.new ≡ (granted lock (waiting self.old)).waiting }
        ensures held { AreAlike (held self.new) (held self.old) }
        ensures ready { ready.new.entries ≡ ready.old.entries ++ (granted lock (waiting self.old)).entries }
        ensures room { ready.new.room ≡ ready.old.room }
        ensures loaded { K.is_loaded kernel.new }
        ensures keys { Rekeyed (K.content kernel.old) (K.content kernel.new) []
            (named (waiting self.old) (held self.old)) (named (waiting self.new) (held self.new)) };

    /// Drops the task's tree, if it waits. It takes no memory.
    fn drop_task<K: Gpi, L: Ledger>(&mut self, kernel: &mut K, task: TaskNo, steps: &mut Steps<L>)
        requires loaded { K.is_loaded kernel.old }
        requires keys { AreKeysBut (K.content kernel.old).keys (held self.old) (named (waiting self.old) (held self.old)) }
        ensures waiting { waiting self.new ≡ without_task task (waiting self.old) }
        ensures held { AreAlike (held self.new) (held self.old) }
        ensures loaded { K.is_loaded kernel.new }
        ensures keys { Rekeyed (K.content kernel.old) (K.content kernel.new) []
            (named (waiting self.old) (held self.old)) (named (waiting self.new) (held self.new)) };

    /// The runner holds the key, which it doesn't yet. The key is registered, or may be registered and is. After `NoMemory` nothing has
    /// changed.
    fn hold<K: Gpi, L: Ledger>(
        &mut self,
        kernel: &mut K,
        key: Key,
        steps: &mut Steps<L>,
    ) -> Result<(), NoMemory>
        requires loaded { K.is_loaded kernel.old }
        requires new { among key (held self.old) ≡ false }
        requires keys { AreKeysBut (K.content kernel.old).keys (held self.old) (named (waiting self.old) (held self.old)) }
        requires asked { has key (K.content kernel.old).keys ≡ false
            → IsAsked (length (K.content kernel.old).state.signals) (K.content kernel.old).state key }
        ensures ok { OnOk result (AreAlike (held self.new) (key ∷ held self.old)) }
        ensures err { OnErr result (AreAlike (held self.new) (held self.old)) }
        ensures waiting { waiting self.new ≡ waiting self.old }
        ensures loaded { K.is_loaded kernel.new }
        ensures keys { OnOk result (Rekeyed (K.content kernel.old) (K.content kernel.new) (key ∷ [])
            (named (waiting self.old) (held self.old)) (named (waiting self.new) (held self.new))) }
        ensures kept { OnErr result (K.content kernel.new ≡ K.content kernel.old) };

    /// The runner holds the key no more, which it holds, and which is registered. It takes no memory.
    fn release<K: Gpi, L: Ledger>(&mut self, kernel: &mut K, key: Key, steps: &mut Steps<L>)
        requires loaded { K.is_loaded kernel.old }
        requires there { among key (held self.old) ≡ true }
        requires registered { has key (K.content kernel.old).keys ≡ true }
        requires keys { AreKeysBut (K.content kernel.old).keys (held self.old) (named (waiting self.old) (held self.old)) }
        ensures held { AreAlike (held self.new) (without key (held self.old)) }
        ensures waiting { waiting self.new ≡ waiting self.old }
        ensures loaded { K.is_loaded kernel.new }
        ensures keys { Rekeyed (K.content kernel.old) (K.content kernel.new) []
            (named (waiting self.old) (held self.old)) (named (waiting self.new) (held self.new)) };

    /// Drops all trees. The runner holds on what it holds. It takes no memory.
    fn clear<K: Gpi, L: Ledger>(&mut self, kernel: &mut K, steps: &mut Steps<L>)
        requires loaded { K.is_loaded kernel.old }
        requires keys { AreKeysBut (K.content kernel.old).keys (held self.old) (named (waiting self.old) (held self.old)) }
        ensures waiting { waiting self.new ≡ [] }
        ensures held { AreAlike (held self.new) (held self.old) }
        ensures loaded { K.is_loaded kernel.new }
        ensures keys { Rekeyed (K.content kernel.old) (K.content kernel.new) []
            (named (waiting self.old) (held self.old)) (named (waiting self.new) (held self.new)) };
}
