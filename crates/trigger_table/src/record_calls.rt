//! What is asked of the records. Each call counts one step, and reads or changes one link or one record.
ghost use Rattle.std.specs.Prelude.{
  ◌≡◌,
  ◌≢◌,
  ℕ,
  ◌+◌,
  ◌++◌,
  ◌∷◌,
  [],
  OnOk,
  IfOk,
  OnErr,
  Some,
  None,
  IsSome,
  slice_index_or,
  slice_get,
  map,
  List,
  IfSome,
  IfNone,
  OnSome,
  true,
  false,
};
ghost use Rattle.await_tree.specs.Fire as fire;
ghost use Rattle.await_tree.specs.Steps.{rest_of, step_of};
ghost use Rattle.await_tree.specs.Whole.{tree_in};
ghost use Rattle.trigger_table.specs.Entries.{HasCause};
ghost use Rattle.trigger_table.specs.declared.entries.CauseRecord.{CauseRecord};
ghost use Rattle.await_tree.specs.WaitList.Waiting.{Waiting};
ghost use Rattle.trigger_table.specs.Indexed.{Sets};
ghost use Rattle.trigger_table.specs.Kept.{kept_as};
ghost use Rattle.trigger_table.specs.Records.{causes_in, rows_in, state_in};
ghost use Rattle.trigger_table.specs.Serving.{leaves_at};
ghost use Rattle.trigger_table.specs.State.{
  HasLink,
  HasNoLinks,
  HasRow,
  IsAbsent,
  IsLast,
  IsNeeded,
  Link,
  add_link,
  behead,
  drop_link,
  entry_at,
  first_on,
  links_at,
  numbers_of,
  waiters_on,
  with_entry,
  without_row,
};

use crate::causes::Causes;
use crate::entries::{CauseRecord, TaskRecord};
use crate::records::Records;
use crate::rings::Rings;
use crate::tasks::Tasks;
use await_tree::wait_list::Steps;
use await_tree::{Awaited, Cause, Leaves, Step, Tree};
use port_io::NoMemory;
use py_value::{LockNo, TaskNo};
use slab::Slab;
use std::alloc::Global;
use std::sync::ledger::Ledger;

impl Records {
    /// No record. It takes no memory.
    pub(crate) fn new(alloc: Global) -> Self
        ensures rows { rows_in result ≡ [] }
        ensures causes { causes_in result ≡ [] }
    {
        Records {
            causes: Causes::new(alloc),
            tasks: Tasks::new(alloc),
            waiters: Slab::new(alloc),
            by_cause: Rings::new(alloc),
            by_task: Rings::new(alloc),
            order: Rings::new(alloc),
        }
    }

    /// The number of the record of what is awaited.
    pub fn find<L: Ledger>(&self, on: Awaited, steps: &mut Steps<L>) -> Option<usize>
        ensures some { IfSome result (λ number. HasCause (causes_in self.now) number on) }
        ensures none { IfNone result ((number : ℕ) → ¬ HasCause (causes_in self.now) number on) }
        ensures ticks { steps.new ≡ steps.old + 1 }
    {
        steps.tick();
        self.causes.find(on)
    }

    /// Makes a record of what is awaited, where there is none.
    pub fn make<L: Ledger>(&mut self, on: Awaited, steps: &mut Steps<L>) -> Result<usize, NoMemory>
        requires { (number : ℕ) → ¬ HasCause (causes_in self.old) number on }
        ensures rows { rows_in self.new ≡ rows_in self.old }
        ensures vacant { IfOk result (λ number. slice_index_or (causes_in self.old) number None ≡ None) }
        ensures ok { IfOk result (λ number. Sets (causes_in self.old) (causes_in self.new) number (Some (record { on = on; held = false }))) }
        ensures err { OnErr result (causes_in self.new ≡ causes_in self.old) }
        ensures ticks { steps.new ≡ steps.old + 1 }
    {
        steps.tick();
        self.causes.make(on)
    }

    /// Takes out the record of what no waiter is on.
    pub fn remove_cause<L: Ledger>(&mut self, number: usize, steps: &mut Steps<L>) -> CauseRecord
        requires kept { slice_index_or (causes_in self.old) number None ≢ None }
        requires bare { waiters_on number (rows_in self.old) ≡ [] }
        ensures value { slice_index_or (causes_in self.old) number None ≡ Some result }
        ensures sets { Sets (causes_in self.old) (causes_in self.new) number None }
        ensures gone { (other : ℕ) → ¬ HasCause (causes_in self.new) other result.on }
        ensures rows { rows_in self.new ≡ rows_in self.old }
        ensures ticks { steps.new ≡ steps.old + 1 }
    {
        steps.tick();
        self.causes.remove(number)
    }

    /// Whether no waiter is on it, and the runner doesn't hold it.
    pub fn is_bare<L: Ledger>(&self, number: usize, steps: &mut Steps<L>) -> bool
        requires { slice_index_or (causes_in self.now) number None ≢ None }
        ensures bare { result ≡ true → waiters_on number (rows_in self.now) ≡ [] }
        ensures free { result ≡ true → ¬ IsNeeded number (state_in self.now) }
        ensures needed { result ≡ false → IsNeeded number (state_in self.now) }
        ensures ticks { steps.new ≡ steps.old + 1 }
    {
        steps.tick();
        if self.by_cause.front(number).is_some() {
            return false;
        }
        match self.causes.get(number) {
            Some(record) => !record.held,
            None => true,
        }
    }

    /// The first waiter on a cause.
    pub fn first_of_cause<L: Ledger>(&self, cause: usize, steps: &mut Steps<L>) -> Option<usize>
        ensures value { result ≡ slice_get (map (λ link. link.waiter) (waiters_on cause (rows_in self.now))) 0 }
        ensures ticks { steps.new ≡ steps.old + 1 }
    {
        steps.tick();
        self.by_cause.front(cause)
    }

    /// The number of the first task that waits on a cause.
    pub fn first_on<L: Ledger>(&self, cause: usize, steps: &mut Steps<L>) -> Option<usize>
        ensures value { result ≡ first_on cause (rows_in self.now) }
        ensures ticks { steps.new ≡ steps.old + 1 }
    {
        steps.tick();
        let waiter = self.by_cause.front(cause)?;
        self.by_task.list_of(waiter)
    }

    /// Adds a waiting task without a waiter, as the last. It doesn't wait yet.
    pub fn add_task<L: Ledger>(
        &mut self,
        task: TaskNo,
        tree: Tree,
        steps: &mut Steps<L>,
    ) -> Result<usize, NoMemory>
        requires { IsAbsent task (rows_in self.old) }
        ensures ok { IfOk result (λ number. rows_in self.new ≡ rows_in self.old
            ++ record { number = number; entry = Some (record { task = task; tree = tree_in tree }); links = [] } ∷ []) }
        ensures err { OnErr result (rows_in self.new ≡ rows_in self.old) }
        ensures causes { causes_in self.new ≡ causes_in self.old }
        ensures ticks { steps.new ≡ steps.old + 1 }
    {
        steps.tick();
        let number = self.tasks.next_number();
        self.order.reserve(number)?;
        self.by_task.reserve(number)?;
        let number = self.tasks.make(task, tree)?;
        self.order.push_back(0, number);
        Ok(number)
    }

    /// Adds a waiter of the last task, as its last.
    pub fn link<L: Ledger>(
        &mut self,
        number: usize,
        cause: usize,
        steps: &mut Steps<L>,
    ) -> Result<(), NoMemory>
        requires last { IsLast number (rows_in self.old) }
        requires known { IsSome (slice_index_or (causes_in self.old) cause None) }
        ensures ok { OnOk result
            ((waiter : ℕ) × (rows_in self.new ≡ add_link number (record { waiter = waiter; cause = cause }) (rows_in self.old))) }
        ensures err { OnErr result (rows_in self.new ≡ rows_in self.old) }
        ensures causes { causes_in self.new ≡ causes_in self.old }
        ensures ticks { steps.new ≡ steps.old + 1 }
    {
        steps.tick();
        let waiter = self.waiters.vacant_key();
        self.by_cause.reserve(waiter.max(cause))?;
        self.by_task.reserve(waiter)?;
        self.waiters.reserve(1)?;
        let waiter = self.waiters.insert_reserved(());
        self.by_cause.push_back(cause, waiter);
        self.by_task.push_back(number, waiter);
        Ok(())
    }

    /// Takes a waiter out of both of its chains, and tells the number of what it was on.
    pub fn unlink<L: Ledger>(&mut self, waiter: usize, steps: &mut Steps<L>) -> Option<usize>
        requires { HasLink waiter (rows_in self.old) }
        ensures is { IsSome result }
        ensures known { IfSome result (λ cause. slice_index_or (causes_in self.old) cause None ≢ None) }
        ensures others { IfSome result (λ cause. (other : ℕ) → other ≢ cause
            → waiters_on other (rows_in self.new) ≡ waiters_on other (rows_in self.old)) }
        ensures rows { rows_in self.new ≡ drop_link waiter (rows_in self.old) }
        ensures causes { causes_in self.new ≡ causes_in self.old }
        ensures ticks { steps.new ≡ steps.old + 1 }
    {
        steps.tick();
        let cause = self.by_cause.unlink(waiter);
        self.by_task.unlink(waiter);
        self.waiters.remove(waiter);
        cause
    }

    /// Takes out the leftmost waiter of a task, and tells the number of what it was on.
    pub fn pop<L: Ledger>(&mut self, number: usize, steps: &mut Steps<L>) -> Option<usize>
        requires { HasRow number (rows_in self.old) }
        ensures some { IfSome result (λ cause. (waiter : ℕ) × (rest : List Link)
            × (links_at number (rows_in self.old) ≡ record { waiter = waiter; cause = cause } ∷ rest)) }
        ensures known { IfSome result (λ cause. slice_index_or (causes_in self.old) cause None ≢ None) }
        ensures none { IfNone result (links_at number (rows_in self.old) ≡ []) }
        ensures rows { OnSome result (rows_in self.new ≡ behead number (rows_in self.old)) }
        ensures same { IfNone result (rows_in self.new ≡ rows_in self.old) }
        ensures causes { causes_in self.new ≡ causes_in self.old }
        ensures ticks { steps.new ≡ steps.old + 1 }
    {
        steps.tick();
        let waiter = self.by_task.front(number)?;
        self.by_task.unlink(waiter);
        let cause = self.by_cause.unlink(waiter);
        self.waiters.remove(waiter);
        cause
    }

    /// Takes out a waiting task that has no waiter.
    pub fn remove_task<L: Ledger>(&mut self, number: usize, steps: &mut Steps<L>) -> TaskRecord
        requires { HasNoLinks number (rows_in self.old) }
        ensures entry { entry_at number (rows_in self.old) ≡ kept_as (Some result) }
        ensures rows { rows_in self.new ≡ without_row number (rows_in self.old) }
        ensures causes { causes_in self.new ≡ causes_in self.old }
        ensures ticks { steps.new ≡ steps.old + 1 }
    {
        steps.tick();
        self.order.unlink(number);
        self.tasks.remove(number)
    }

    /// Notes whether the runner holds what is awaited.
    pub fn set_held<L: Ledger>(&mut self, number: usize, held: bool, steps: &mut Steps<L>)
        requires { slice_index_or (causes_in self.old) number None ≢ None }
        ensures sets { (kept : CauseRecord) → slice_index_or (causes_in self.old) number None ≡ Some kept
            → Sets (causes_in self.old) (causes_in self.new) number (Some (record kept { held = held })) }
        ensures rows { rows_in self.new ≡ rows_in self.old }
        ensures ticks { steps.new ≡ steps.old + 1 }
    {
        steps.tick();
        self.causes.set_held(number, held);
    }

    /// The number of a task's record, if it waits.
    pub fn find_task<L: Ledger>(&self, task: TaskNo, steps: &mut Steps<L>) -> Option<usize>
        ensures some { IfSome result (λ number. (w : Waiting) × (entry_at number (rows_in self.now) ≡ Some w) × (w.task ≡ task)) }
        ensures has { IfSome result (λ number. HasRow number (rows_in self.now)) }
        ensures none { IfNone result (IsAbsent task (rows_in self.now)) }
        ensures ticks { steps.new ≡ steps.old + 1 }
    {
        steps.tick();
        self.tasks.find(task)
    }

    /// The number of the first of the waiting tasks.
    pub fn first_task<L: Ledger>(&self, steps: &mut Steps<L>) -> Option<usize>
        ensures value { result ≡ slice_get (numbers_of (rows_in self.now)) 0 }
        ensures ticks { steps.new ≡ steps.old + 1 }
    {
        steps.tick();
        self.order.front(0)
    }

    /// What a waiting task's leaves wait for, from left to right. It counts no step.
    pub(crate) fn leaves(&self, number: usize) -> Leaves
        requires { HasRow number (rows_in self.now) }
        ensures { result ≡ leaves_at number (rows_in self.now) }
    {
        self.tasks.leaves(number)
    }

    /// What a waiting task's tree waits for, where it is one leaf or counts edges. It counts no step.
    pub(crate) fn lone(&self, number: usize) -> Option<Awaited>
        requires { HasRow number (rows_in self.now) }
        ensures { IfSome result (λ on. leaves_at number (rows_in self.now) ≡ on ∷ []) }
    {
        self.tasks.lone(number)
    }

    /// A waiting task's tree is told the cause. Its waiters stay.
    pub fn fire<L: Ledger>(&mut self, number: usize, cause: Cause, steps: &mut Steps<L>) -> Step
        requires { HasRow number (rows_in self.old) }
        ensures answer { (w : Waiting) → entry_at number (rows_in self.old) ≡ Some w → result ≡ step_of (fire.fire cause w.tree) }
        ensures rows { (w : Waiting) → entry_at number (rows_in self.old) ≡ Some w
            → rows_in self.new ≡ with_entry number (Some (record w { tree = rest_of (fire.fire cause w.tree) })) (rows_in self.old) }
        ensures causes { causes_in self.new ≡ causes_in self.old }
        ensures ticks { steps.new ≡ steps.old + 1 }
    {
        steps.tick();
        self.tasks.fire(number, cause)
    }

    /// A waiting task's tree is handed the lock. Its waiters stay.
    pub fn grant<L: Ledger>(&mut self, number: usize, lock: LockNo, steps: &mut Steps<L>) -> Step
        requires { HasRow number (rows_in self.old) }
        ensures answer { (w : Waiting) → entry_at number (rows_in self.old) ≡ Some w → result ≡ step_of (fire.grant lock w.tree) }
        ensures rows { (w : Waiting) → entry_at number (rows_in self.old) ≡ Some w
            → rows_in self.new ≡ with_entry number (Some (record w { tree = rest_of (fire.grant lock w.tree) })) (rows_in self.old) }
        ensures causes { causes_in self.new ≡ causes_in self.old }
        ensures ticks { steps.new ≡ steps.old + 1 }
    {
        steps.tick();
        self.tasks.grant(number, lock)
    }
}
