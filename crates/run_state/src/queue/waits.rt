//! Tasks that wait, are woken, or are killed.
ghost use Rattle.std.specs.Prelude.{◌≡◌, ◌≤◌, ◌<◌, ◌+◌, [], List, length, OnOk, OnErr, true, false};
ghost use Rattle.await_tree.specs.Whole.{tree_in};
ghost use Rattle.gpi.specs.declared.design.Flat.{Flat};
ghost use Rattle.rig_model.specs.Run.Effect.{waits};
ghost use Rattle.rig_model.specs.Parts.Queue.{Leads};
ghost use Rattle.run_state.specs.Queue.Effects.{granting, killing, waking};
ghost use Rattle.run_state.specs.Queue.Fits.{Fits, Keeps, Stays, queue_of};
ghost use Rattle.run_state.specs.Queue.Still.{AreStill, is_reached};
ghost use Rattle.await_tree.specs.WaitList.Begun.{IsBegun};
ghost use Rattle.await_tree.specs.WaitList.Keys.{AreAsked};
ghost use Rattle.await_tree.specs.WaitList.Limits.{waiting_limit};
ghost use Rattle.await_tree.specs.WaitList.Waiting.{IsNoKey, is_waiting, is_wanted, tree_keys};

use crate::queue::RunQueue;
use await_tree::wait_list::{Awaits, Steps};
use await_tree::{Cause, Tree};
use gpi::Gpi;
use port_io::NoMemory;
use py_value::{LockNo, TaskNo};
use std::sync::ledger::Ledger;

impl<W: Awaits> RunQueue<W> {
    /// The task begins to wait, as the last (cocotb 1.8, "Triggers"). It doesn't wait yet, fewer than 65,536 tasks wait, the tree was begun and
    /// isn't done, its keys may be registered, and there is room for one task more.
    pub fn wait<K: Gpi, L: Ledger>(
        &mut self,
        kernel: &mut K,
        task: TaskNo,
        tree: Tree,
        steps: &mut Steps<L>,
    ) -> Result<(), NoMemory>
        requires loaded { K.is_loaded kernel.old }
        requires keeps { Keeps W.waiting W.held self.old (K.content kernel.old) }
        requires room { length self.old.ready.entries + length (W.waiting self.old.awaits) < self.old.ready.room }
        requires new { is_waiting task (W.waiting self.old.awaits) ≡ false }
        requires few { length (W.waiting self.old.awaits) < waiting_limit }
        requires begun { IsBegun (tree_in tree) }
        requires asked { AreAsked (K.content kernel.old) (tree_keys (tree_in tree)) }
        ensures leads { OnOk result (Leads (waits task (tree_in tree))
            (queue_of W.waiting self.old) (K.content kernel.old) (queue_of W.waiting self.new) (K.content kernel.new)) }
        ensures kept { OnErr result (queue_of W.waiting self.new ≡ queue_of W.waiting self.old) }
        ensures loaded { K.is_loaded kernel.new }
        ensures stays { Stays (K.content kernel.old) (K.content kernel.new) }
        ensures keeps { Keeps W.waiting W.held self.new (K.content kernel.new) }
        ensures fits { (flat : Flat) → Fits flat W.waiting W.held self.old (K.content kernel.old)
            → Fits flat W.waiting W.held self.new (K.content kernel.new) }
        ensures room { self.new.ready.room ≡ self.old.ready.room }
    {
        self.awaits.begin(kernel, task, tree, steps)?;
        Ok(())
    }

    /// An event was set or a task has ended: all leaves on it are reached, and whom that wakes is ready, in the order in which they began to wait.
    /// Tells whether a waiting task has such a leaf; where none has, nothing has changed. It takes no memory.
    pub fn wake<K: Gpi, L: Ledger>(
        &mut self,
        kernel: &mut K,
        cause: Cause,
        steps: &mut Steps<L>,
    ) -> bool
        requires loaded { K.is_loaded kernel.old }
        requires keeps { Keeps W.waiting W.held self.old (K.content kernel.old) }
        requires room { length self.old.ready.entries + length (W.waiting self.old.awaits) ≤ self.old.ready.room }
        requires cause { IsNoKey cause }
        ensures answer { result ≡ is_reached cause (W.waiting self.old.awaits) }
        ensures leads { Leads (waking cause) (queue_of W.waiting self.old)
            (K.content kernel.old) (queue_of W.waiting self.new) (K.content kernel.new) }
        ensures none { AreStill (W.waiting self.old.awaits) → result ≡ false
            → (queue_of W.waiting self.new ≡ queue_of W.waiting self.old) × ((K.content kernel.new).counts ≡ (K.content kernel.old).counts) }
        ensures loaded { K.is_loaded kernel.new }
        ensures stays { Stays (K.content kernel.old) (K.content kernel.new) }
        ensures keeps { Keeps W.waiting W.held self.new (K.content kernel.new) }
        ensures fits { (flat : Flat) → Fits flat W.waiting W.held self.old (K.content kernel.old)
            → Fits flat W.waiting W.held self.new (K.content kernel.new) }
        ensures room { self.new.ready.room ≡ self.old.ready.room }
    {
        self.awaits.wake(kernel, cause, &mut self.ready, steps) > 0
    }

    /// Hands a lock to the first waiting task that wants it. False exactly where none does, and then nothing has changed. It takes no memory.
    pub fn grant<K: Gpi, L: Ledger>(
        &mut self,
        kernel: &mut K,
        lock: LockNo,
        steps: &mut Steps<L>,
    ) -> bool
        requires loaded { K.is_loaded kernel.old }
        requires keeps { Keeps W.waiting W.held self.old (K.content kernel.old) }
        requires room { length self.old.ready.entries + length (W.waiting self.old.awaits) ≤ self.old.ready.room }
        ensures answer { result ≡ is_wanted lock (W.waiting self.old.awaits) }
        ensures leads { Leads (granting lock) (queue_of W.waiting self.old)
            (K.content kernel.old) (queue_of W.waiting self.new) (K.content kernel.new) }
        ensures none { result ≡ false
            → (queue_of W.waiting self.new ≡ queue_of W.waiting self.old) × ((K.content kernel.new).counts ≡ (K.content kernel.old).counts) }
        ensures loaded { K.is_loaded kernel.new }
        ensures stays { Stays (K.content kernel.old) (K.content kernel.new) }
        ensures keeps { Keeps W.waiting W.held self.new (K.content kernel.new) }
        ensures fits { (flat : Flat) → Fits flat W.waiting W.held self.old (K.content kernel.old)
            → Fits flat W.waiting W.held self.new (K.content kernel.new) }
        ensures room { self.new.ready.room ≡ self.old.ready.room }
    {
        self.awaits.grant(kernel, lock, &mut self.ready, steps)
    }

    /// The task leaves the ready tasks and those that wait, and those who join it are served, as one effect. It takes no memory.
    pub fn kill<K: Gpi, L: Ledger>(&mut self, kernel: &mut K, task: TaskNo, steps: &mut Steps<L>)
        requires loaded { K.is_loaded kernel.old }
        requires keeps { Keeps W.waiting W.held self.old (K.content kernel.old) }
        requires room { length self.old.ready.entries + length (W.waiting self.old.awaits) ≤ self.old.ready.room }
        ensures leads { Leads (killing task) (queue_of W.waiting self.old)
            (K.content kernel.old) (queue_of W.waiting self.new) (K.content kernel.new) }
        ensures loaded { K.is_loaded kernel.new }
        ensures stays { Stays (K.content kernel.old) (K.content kernel.new) }
        ensures keeps { Keeps W.waiting W.held self.new (K.content kernel.new) }
        ensures fits { (flat : Flat) → Fits flat W.waiting W.held self.old (K.content kernel.old)
            → Fits flat W.waiting W.held self.new (K.content kernel.new) }
        ensures room { self.new.ready.room ≡ self.old.ready.room }
    {
        self.ready.take_out(task);
        self.awaits.drop_task(kernel, task, steps);
        let ended = Cause::Ended {
            task,
            failed: false,
        };
        self.awaits.wake(kernel, ended, &mut self.ready, steps);
    }
}
