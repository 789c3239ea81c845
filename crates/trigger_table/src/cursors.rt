//! Going over the waiters of one task, from left to right. Each call counts one step, and reads one link.
ghost use Rattle.std.specs.Prelude.{◌≡◌, ℕ, ◌+◌, Some, slice_get};
ghost use Rattle.await_tree.specs.declared.cause.Awaited.{Awaited};
ghost use Rattle.trigger_table.specs.Cursor.{cause_at, waiters_at};
ghost use Rattle.trigger_table.specs.Entries.{HasCause};
ghost use Rattle.trigger_table.specs.Links.{IsIn, behind};
ghost use Rattle.trigger_table.specs.Records.{causes_in, rows_in};
ghost use Rattle.trigger_table.specs.State.{HasRow, links_at};

use crate::records::Records;
use await_tree::Awaited;
use await_tree::wait_list::Steps;
use std::sync::ledger::Ledger;

impl Records {
    /// The leftmost waiter of a task.
    pub fn first_of_task<L: Ledger>(&self, number: usize, steps: &mut Steps<L>) -> Option<usize>
        requires { HasRow number (rows_in self.now) }
        ensures value { result ≡ slice_get (waiters_at number (rows_in self.now)) 0 }
        ensures ticks { steps.new ≡ steps.old + 1 }
    {
        steps.tick();
        self.by_task.front(number)
    }

    /// The waiter of a task that stands next behind this one.
    pub fn next_of_task<L: Ledger>(
        &self,
        number: usize,
        waiter: usize,
        steps: &mut Steps<L>,
    ) -> Option<usize>
        requires has { HasRow number (rows_in self.now) }
        requires of { IsIn waiter (waiters_at number (rows_in self.now)) }
        ensures value { result ≡ behind waiter (waiters_at number (rows_in self.now)) }
        ensures ticks { steps.new ≡ steps.old + 1 }
    {
        steps.tick();
        self.by_task.next(number, waiter)
    }

    /// What a waiter is on.
    pub fn on_of<L: Ledger>(&self, waiter: usize, steps: &mut Steps<L>) -> Option<Awaited>
        ensures value { (number cause : ℕ) (on : Awaited) → HasRow number (rows_in self.now) → IsIn waiter (waiters_at number (rows_in self.now))
            → cause_at waiter (links_at number (rows_in self.now)) ≡ Some cause → HasCause (causes_in self.now) cause on → result ≡ Some on }
        ensures ticks { steps.new ≡ steps.old + 1 }
    {
        steps.tick();
        let cause = self.by_cause.list_of(waiter)?;
        let record = self.causes.get(cause)?;
        Some(record.on)
    }
}
