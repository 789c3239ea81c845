//! What is asked of the records of waiting tasks.
ghost use Rattle.std.specs.Prelude.{◌≡◌, ◌≢◌, ℕ, [], ◌∷◌, Some, None, IfOk, OnErr, IfSome, IfNone, slice_index_or, ◌<◌};
ghost use Rattle.await_tree.specs.Fire as fire;
ghost use Rattle.await_tree.specs.Tree.{leaves};
ghost use Rattle.await_tree.specs.Whole.{tree_in};
ghost use Rattle.trigger_table.specs.Entries.{HasTask, Told};
ghost use Rattle.trigger_table.specs.Indexed.{Sets};
ghost use Rattle.trigger_table.specs.declared.entries.TaskRecord.{TaskRecord};

use crate::entries::TaskRecord;
use crate::tasks::Tasks;
use await_tree::{Awaited, Cause, Leaves, Step, Tree};
use port_io::NoMemory;
use py_value::{LockNo, TaskNo};
use slab::Slab;
use std::alloc::Global;
use std::collections::HashMap;

impl Tasks {
    /// No record. It takes no memory.
    pub(crate) fn new(alloc: Global) -> Self
        ensures { result.slab.slots ≡ [] }
    {
        Tasks {
            slab: Slab::new(alloc),
            index: HashMap::new(alloc),
        }
    }

    /// The number of the task's record.
    pub(crate) fn find(&self, task: TaskNo) -> Option<usize>
        ensures some { IfSome result (λ number. HasTask self.now.slab.slots number task) }
        ensures none { IfNone result ((number : ℕ) → ¬ HasTask self.now.slab.slots number task) }
    {
        self.index.get(&task.0).copied()
    }

    /// The number that the next record gets.
    pub(crate) fn next_number(&self) -> usize
        ensures { result ≡ self.now.slab.vacant_key }
    {
        self.slab.vacant_key()
    }

    /// Makes a record of a task that has none. After an error the task is let go.
    pub(crate) fn make(&mut self, task: TaskNo, tree: Tree) -> Result<usize, NoMemory>
        requires { (number : ℕ) → ¬ HasTask self.old.slab.slots number task }
        ensures number { IfOk result (λ number. number ≡ self.old.slab.vacant_key) }
        ensures vacant { IfOk result (λ number. slice_index_or self.old.slab.slots number None ≡ None) }
        ensures ok { IfOk result (λ number. Sets self.old.slab.slots self.new.slab.slots number (Some (record { task = task; tree = tree }))) }
        ensures err { OnErr result (self.new.slab.slots ≡ self.old.slab.slots) }
    {
        self.slab.reserve(1)?;
        let number = self.slab.vacant_key();
        self.index.insert(task.0, number)?;
        self.slab.insert_reserved(TaskRecord { task, tree });
        Ok(number)
    }

    /// The task's tree is told the cause.
    pub(crate) fn fire(&mut self, number: usize, cause: Cause) -> Step
        requires { slice_index_or self.old.slab.slots number None ≢ None }
        ensures { (kept : TaskRecord) → slice_index_or self.old.slab.slots number None ≡ Some kept
            → Told self.old.slab.slots self.new.slab.slots number kept.task (fire.fire cause (tree_in kept.tree)) result }
    {
        self.slab[number].tree.fire(&cause)
    }

    /// The task's tree is handed the lock.
    pub(crate) fn grant(&mut self, number: usize, lock: LockNo) -> Step
        requires { slice_index_or self.old.slab.slots number None ≢ None }
        ensures { (kept : TaskRecord) → slice_index_or self.old.slab.slots number None ≡ Some kept
            → Told self.old.slab.slots self.new.slab.slots number kept.task (fire.grant lock (tree_in kept.tree)) result }
    {
        self.slab[number].tree.grant(lock)
    }

    /// What the waiting leaves of the task's tree wait for.
    pub(crate) fn leaves(&self, number: usize) -> Leaves
        requires { slice_index_or self.now.slab.slots number None ≢ None }
        ensures { (kept : TaskRecord) → slice_index_or self.now.slab.slots number None ≡ Some kept → result ≡ leaves (tree_in kept.tree) }
    {
        self.slab[number].tree.leaves()
    }

    /// What the task's tree waits for, where it is one leaf or counts edges.
    pub(crate) fn lone(&self, number: usize) -> Option<Awaited>
        requires { slice_index_or self.now.slab.slots number None ≢ None }
        ensures { (kept : TaskRecord) → slice_index_or self.now.slab.slots number None ≡ Some kept
            → IfSome result (λ on. leaves (tree_in kept.tree) ≡ on ∷ []) }
    {
        self.slab[number].tree.lone()
    }

    /// Takes out a record.
    pub(crate) fn remove(&mut self, number: usize) -> TaskRecord
        requires { slice_index_or self.old.slab.slots number None ≢ None }
        ensures value { slice_index_or self.old.slab.slots number None ≡ Some result }
        ensures sets { Sets self.old.slab.slots self.new.slab.slots number None }
    {
        let record = self.slab.remove(number);
        self.index.remove(&record.task.0);
        record
    }
}
