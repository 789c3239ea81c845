//! What is asked of the table.
ghost use Rattle.std.specs.Prelude.{◌≡◌, ◌+◌, ◌*◌, ◌≤◌, ◌<◌, ◌∷◌, ◌++◌, [], false, true, length, OnErr, OnOk};
ghost use Rattle.gpi.specs.Content.{IsAsked};
ghost use Rattle.gpi.specs.Keys.{among, has};
ghost use Rattle.await_tree.specs.Tree.{leaves};
ghost use Rattle.await_tree.specs.Whole.{tree_in};
ghost use Rattle.await_tree.specs.WaitList.Begun.{IsBegun};
ghost use Rattle.await_tree.specs.WaitList.Keys.{AreAlike, AreAsked, AreFired, AreKeys, AreKeysBut, KeepsKeys, Rekeyed, without, without_all};
ghost use Rattle.await_tree.specs.WaitList.Limits.{waiting_limit};
ghost use Rattle.await_tree.specs.WaitList.Waiting.{
  IsNoKey,
  all_waiting,
  all_woken,
  fired_keys,
  granted,
  is_waiting,
  is_wanted,
  reached_tasks,
  still_waiting,
  tree_keys,
  without_task,
  woken,
};
ghost use Rattle.trigger_table.specs.Table.{held_in, names_in, waiting_in};
ghost use Rattle.trigger_table.specs.Work.{first_wanting, fired_work, leaf_count, of_task, reached_by};

use crate::awaiting::begin;
use crate::firing::{fire, grant};
use crate::holding::{hold, release};
use crate::keeper::TriggerTable;
use crate::records::Records;
use crate::serving::reach;
use crate::table::{clear, drop_task, none_fired};
use await_tree::wait_list::{Ready, Steps};
use await_tree::{Cause, Tree};
use gpi::{Fired, Gpi, Key};
use port_io::NoMemory;
use py_value::{LockNo, TaskNo};
use std::alloc::Global;
use std::sync::ledger::Ledger;

impl TriggerTable {
    /// Nothing waits, and no key is held. It takes no memory.
    pub fn new(alloc: Global) -> Self
        ensures waiting { waiting_in result ≡ [] }
        ensures held { held_in result ≡ [] }
    {
        TriggerTable {
            records: Records::new(alloc),
        }
    }

    /// The records, which hold all that the table keeps. It takes no memory.
    pub fn records(&self) -> &Records
        ensures { result.now ≡ self.now.records }
    {
        &self.records
    }

    /// Drops the task's tree, if it waits. It takes no memory, and at most three steps for each waiting leaf of that tree and three more.
    pub fn drop_task<K: Gpi, L: Ledger>(
        &mut self,
        kernel: &mut K,
        task: TaskNo,
        steps: &mut Steps<L>,
    )
        requires loaded { K.is_loaded kernel.old }
        requires keys { AreKeysBut (K.content kernel.old).keys (held_in self.old) (names_in self.old) }
        ensures waiting { waiting_in self.new ≡ without_task task (waiting_in self.old) }
        ensures held { AreAlike (held_in self.new) (held_in self.old) }
        ensures loaded { K.is_loaded kernel.new }
        ensures keys { Rekeyed (K.content kernel.old) (K.content kernel.new) [] (names_in self.old) (names_in self.new) }
        ensures ticks { steps.new ≤ steps.old + 3 * leaf_count (of_task task (waiting_in self.old)) + 3 }
    {
        drop_task(kernel, &mut self.records, task, steps);
    }

    /// Drops all trees. The runner holds on what it holds. It takes no memory, and at most three steps for each waiting leaf, three for each
    /// waiting task, and one more.
    pub fn clear<K: Gpi, L: Ledger>(&mut self, kernel: &mut K, steps: &mut Steps<L>)
        requires loaded { K.is_loaded kernel.old }
        requires keys { AreKeysBut (K.content kernel.old).keys (held_in self.old) (names_in self.old) }
        ensures waiting { waiting_in self.new ≡ [] }
        ensures held { AreAlike (held_in self.new) (held_in self.old) }
        ensures loaded { K.is_loaded kernel.new }
        ensures keys { Rekeyed (K.content kernel.old) (K.content kernel.new) [] (names_in self.old) (names_in self.new) }
        ensures ticks { steps.new ≤ steps.old + 3 * leaf_count (waiting_in self.old) + 3 * length (waiting_in self.old) + 1 }
    {
        clear(kernel, &mut self.records, steps);
    }

    /// The task begins to wait, as the last. It doesn't wait yet, fewer than 65,536 tasks wait, each key is registered, and the tree was begun
    /// and isn't done. The keys of the tree that weren't registered are registered. After `NoMemory` the task waits for nothing, and the same
    /// keys are registered as before; the counts of registrations and removals may have risen then. It takes at most eight steps for each
    /// waiting leaf of the tree and three more.
    pub fn begin<K: Gpi, L: Ledger>(
        &mut self,
        kernel: &mut K,
        task: TaskNo,
        tree: Tree,
        steps: &mut Steps<L>,
    ) -> Result<(), NoMemory>
        requires loaded { K.is_loaded kernel.old }
        requires new { is_waiting task (waiting_in self.old) ≡ false }
        requires few { length (waiting_in self.old) < waiting_limit }
        requires begun { IsBegun (tree_in tree) }
        requires keys { AreKeys (K.content kernel.old).keys (names_in self.old) }
        requires asked { AreAsked (K.content kernel.old) (tree_keys (tree_in tree)) }
        ensures ok { OnOk result (waiting_in self.new ≡ waiting_in self.old ++ record { task = task; tree = tree_in tree } ∷ []) }
        ensures err { OnErr result (waiting_in self.new ≡ waiting_in self.old) }
        ensures held { AreAlike (held_in self.new) (held_in self.old) }
        ensures loaded { K.is_loaded kernel.new }
        ensures keys { OnOk result (Rekeyed (K.content kernel.old) (K.content kernel.new) (tree_keys (tree_in tree))
            (names_in self.old) (names_in self.new)) }
        ensures kept { OnErr result (KeepsKeys (K.content kernel.old) (K.content kernel.new)) }
        ensures ticks { steps.new ≤ steps.old + 8 * length (leaves (tree_in tree)) + 3 }
    {
        begin(kernel, &mut self.records, task, tree, steps)
    }

    /// Serves the keys that fired, in order: each reaches all leaves on it, whom it wakes goes into the ring in the order in which they began
    /// to wait, and the runner holds it no more. The keys differ, none of them is registered, and their signals are of the design. After
    /// the last key is served, those that a tree waits for again are registered. It takes no memory, and at most eight steps for each key and
    /// for each waiting leaf of the trees that it reaches.
    pub fn fire<K: Gpi, L: Ledger>(
        &mut self,
        kernel: &mut K,
        fired: Fired,
        ready: &mut Ready,
        steps: &mut Steps<L>,
    )
        requires loaded { K.is_loaded kernel.old }
        requires room { length ready.old.entries + length (waiting_in self.old) ≤ ready.old.room }
        requires fired { AreFired (K.content kernel.old) (fired_keys fired) }
        requires keys { AreKeysBut (K.content kernel.old).keys (fired_keys fired ++ held_in self.old) (names_in self.old) }
        ensures waiting { waiting_in self.new ≡ all_waiting (fired_keys fired) (waiting_in self.old) }
        ensures held { AreAlike (held_in self.new) (without_all (fired_keys fired) (held_in self.old)) }
        ensures ready { ready.new.entries ≡ ready.old.entries ++ all_woken (fired_keys fired) (waiting_in self.old) }
        ensures room { ready.new.room ≡ ready.old.room }
        ensures loaded { K.is_loaded kernel.new }
        ensures keys { Rekeyed (K.content kernel.old) (K.content kernel.new) (fired_keys fired) (names_in self.old) (names_in self.new) }
        ensures ticks { steps.new ≤ steps.old + fired_work (fired_keys fired) (waiting_in self.old) }
    {
        fire(kernel, &mut self.records, fired, ready, steps);
    }

    /// Serves an event that was set or a task that has ended: it reaches all leaves on it, and whom it wakes goes into the ring in the order in
    /// which they began to wait. Answers how many of the waiting tasks have such a leaf. It takes no memory, and at most eight steps for each
    /// waiting leaf of their trees and eight more.
    pub fn wake<K: Gpi, L: Ledger>(
        &mut self,
        kernel: &mut K,
        cause: Cause,
        ready: &mut Ready,
        steps: &mut Steps<L>,
    ) -> u32
        requires loaded { K.is_loaded kernel.old }
        requires cause { IsNoKey cause }
        requires room { length ready.old.entries + length (waiting_in self.old) ≤ ready.old.room }
        requires keys { AreKeysBut (K.content kernel.old).keys (held_in self.old) (names_in self.old) }
        ensures answer { result ≡ reached_tasks cause (waiting_in self.old) }
        ensures waiting { waiting_in self.new ≡ still_waiting cause (waiting_in self.old) }
        ensures held { AreAlike (held_in self.new) (held_in self.old) }
        ensures ready { ready.new.entries ≡ ready.old.entries ++ woken cause (waiting_in self.old) }
        ensures room { ready.new.room ≡ ready.old.room }
        ensures loaded { K.is_loaded kernel.new }
        ensures keys { Rekeyed (K.content kernel.old) (K.content kernel.new) [] (names_in self.old) (names_in self.new) }
        ensures ticks { steps.new ≤ steps.old + 8 * leaf_count (reached_by cause (waiting_in self.old)) + 8 }
    {
        let none = none_fired();
        reach(kernel, &mut self.records, cause, none, ready, steps)
    }

    /// Hands a lock to the first waiting task with a leaf on it, which goes into the ring if its tree is done then. False exactly where no
    /// waiting task has such a leaf, and then nothing has changed. It takes no memory, and at most eight steps for each waiting leaf of that
    /// task's tree and eight more.
    pub fn grant<K: Gpi, L: Ledger>(
        &mut self,
        kernel: &mut K,
        lock: LockNo,
        ready: &mut Ready,
        steps: &mut Steps<L>,
    ) -> bool
        requires loaded { K.is_loaded kernel.old }
        requires room { length ready.old.entries + length (waiting_in self.old) ≤ ready.old.room }
        requires keys { AreKeysBut (K.content kernel.old).keys (held_in self.old) (names_in self.old) }
        ensures answer { result ≡ is_wanted lock (waiting_in self.old) }
        ensures waiting { waiting_in self.new ≡ (granted lock (waiting_in self.old)).waiting }
        ensures held { AreAlike (held_in self.new) (held_in self.old) }
        ensures ready { ready.new.entries ≡ ready.old.entries ++ (granted lock (waiting_in self.old)).entries }
        ensures room { ready.new.room ≡ ready.old.room }
        ensures loaded { K.is_loaded kernel.new }
        ensures keys { Rekeyed (K.content kernel.old) (K.content kernel.new) [] (names_in self.old) (names_in self.new) }
        ensures ticks { steps.new ≤ steps.old + 8 * leaf_count (first_wanting lock (waiting_in self.old)) + 8 }
    {
        grant(kernel, &mut self.records, lock, ready, steps)
    }

    /// The runner holds the key, which it doesn't yet. The key is registered, or may be registered and is. After `NoMemory` nothing has
    /// changed. It takes at most four steps.
    pub fn hold<K: Gpi, L: Ledger>(
        &mut self,
        kernel: &mut K,
        key: Key,
        steps: &mut Steps<L>,
    ) -> Result<(), NoMemory>
        requires loaded { K.is_loaded kernel.old }
        requires new { among key (held_in self.old) ≡ false }
        requires keys { AreKeysBut (K.content kernel.old).keys (held_in self.old) (names_in self.old) }
        requires asked { has key (K.content kernel.old).keys ≡ false
            → IsAsked (length (K.content kernel.old).state.signals) (K.content kernel.old).state key }
        ensures ok { OnOk result (AreAlike (held_in self.new) (key ∷ held_in self.old)) }
        ensures err { OnErr result (AreAlike (held_in self.new) (held_in self.old)) }
        ensures waiting { waiting_in self.new ≡ waiting_in self.old }
        ensures loaded { K.is_loaded kernel.new }
        ensures keys { OnOk result (Rekeyed (K.content kernel.old) (K.content kernel.new) (key ∷ []) (names_in self.old) (names_in self.new)) }
        ensures kept { OnErr result (K.content kernel.new ≡ K.content kernel.old) }
        ensures ticks { steps.new ≤ steps.old + 4 }
    {
        hold(kernel, &mut self.records, key, steps)
    }

    /// The runner holds the key no more, which it holds, and which is registered. It takes no memory, and at most four steps.
    pub fn release<K: Gpi, L: Ledger>(&mut self, kernel: &mut K, key: Key, steps: &mut Steps<L>)
        requires loaded { K.is_loaded kernel.old }
        requires there { among key (held_in self.old) ≡ true }
        requires registered { has key (K.content kernel.old).keys ≡ true }
        requires keys { AreKeysBut (K.content kernel.old).keys (held_in self.old) (names_in self.old) }
        ensures held { AreAlike (held_in self.new) (without key (held_in self.old)) }
        ensures waiting { waiting_in self.new ≡ waiting_in self.old }
        ensures loaded { K.is_loaded kernel.new }
        ensures keys { Rekeyed (K.content kernel.old) (K.content kernel.new) [] (names_in self.old) (names_in self.new) }
        ensures ticks { steps.new ≤ steps.old + 4 }
    {
        release(kernel, &mut self.records, key, steps);
    }
}
