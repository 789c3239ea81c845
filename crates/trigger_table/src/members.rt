//! Going over the waiters on one cause, in the order in which their tasks began to wait. Each call counts one step, and reads one link.
ghost use Rattle.std.specs.Prelude.{◌≡◌, ℕ, ◌+◌, IfSome, slice_get};
ghost use Rattle.trigger_table.specs.Links.{IsIn};
ghost use Rattle.trigger_table.specs.Members.{after, members_on, waiters_of, with_task};
ghost use Rattle.trigger_table.specs.Records.{rows_in};
ghost use Rattle.trigger_table.specs.Rings.{list_of};

use crate::records::Records;
use await_tree::wait_list::Steps;
use std::sync::ledger::Ledger;

/// A waiter, and the number of its task.
#[derive(Clone, Copy)]
pub struct Member {
    pub waiter: usize,
    pub number: usize,
}

impl Records {
    /// The waiter with its task, if it has one.
    fn member_of(&self, waiter: usize) -> Option<Member>
        ensures { result ≡ with_task waiter (list_of self.now.by_task waiter) }
    {
        let number = self.by_task.list_of(waiter)?;
        Some(Member { waiter, number })
    }

    /// The first waiter on a cause.
    pub fn first_member<L: Ledger>(&self, cause: usize, steps: &mut Steps<L>) -> Option<Member>
        ensures value { result ≡ slice_get (members_on cause (rows_in self.now)) 0 }
        ensures member { IfSome result (λ m. IsIn m.waiter (waiters_of (members_on cause (rows_in self.now)))) }
        ensures ticks { steps.new ≡ steps.old + 1 }
    {
        steps.tick();
        let waiter = self.by_cause.front(cause)?;
        self.member_of(waiter)
    }

    /// The waiter on a cause that stands next behind this one.
    pub fn next_member<L: Ledger>(
        &self,
        cause: usize,
        waiter: usize,
        steps: &mut Steps<L>,
    ) -> Option<Member>
        requires { IsIn waiter (waiters_of (members_on cause (rows_in self.now))) }
        ensures value { result ≡ slice_get (after waiter (members_on cause (rows_in self.now))) 0 }
        ensures member { IfSome result (λ m. IsIn m.waiter (waiters_of (members_on cause (rows_in self.now)))) }
        ensures ticks { steps.new ≡ steps.old + 1 }
    {
        steps.tick();
        let next = self.by_cause.next(cause, waiter)?;
        self.member_of(next)
    }
}
