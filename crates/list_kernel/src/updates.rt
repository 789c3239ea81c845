//! The updates that are due or wait.
ghost use Rattle.std.specs.Prelude.{◌≡◌, ◌<◌, ◌≤◌, ◌+◌, ◌++◌, ◌∷◌, [], ℕ, List, length, vec_capacity, vec_len, OnOk, Option};
ghost use Rattle.gpi.specs.Keys.{lesser};
ghost use Rattle.gpi.specs.Targets.{AreFitting};
ghost use Rattle.gpi.specs.State.{at_once, with_delayed, delaying, all_delaying, arriving, waiting_on};
ghost use Rattle.list_kernel.specs.Updates.{soonest, AreUpdates, HasRoom};

use gpi::{Delayed, LATEST_UPDATE, Update};
use port_io::NoMemory;
use std::alloc::Global;

/// The updates that are due, those that wait for the active processes, those that wait for their time, and those that an
/// activation has just appended.
#[derive(Drop)]
pub struct Updates {
    pub due: Vec<Update>,
    pub later: Vec<Update>,
    pub delayed: Vec<Delayed>,
    pub appended: Vec<Update>,
}

impl Updates {
    /// No updates. It takes no memory.
    pub fn new(alloc: Global) -> Updates
        ensures due { result.due.items ≡ [] }
        ensures later { result.later.items ≡ [] }
        ensures delayed { result.delayed.items ≡ [] }
        ensures updates { (ws : List ℕ) → AreUpdates result ws }
    {
        Updates {
            due: Vec::new(alloc),
            later: Vec::new(alloc),
            delayed: Vec::new(alloc),
            appended: Vec::new(alloc),
        }
    }

    /// Makes room for all that is appended, wherever it is to wait, and for when delayed updates come due.
    pub fn make_room(&mut self) -> Result<(), NoMemory>
        ensures due { self.new.due.items ≡ self.old.due.items }
        ensures later { self.new.later.items ≡ self.old.later.items }
        ensures delayed { self.new.delayed.items ≡ self.old.delayed.items }
        ensures appended { self.new.appended.items ≡ self.old.appended.items }
        ensures due_capacity { vec_capacity self.old.due ≤ vec_capacity self.new.due }
        ensures later_capacity { vec_capacity self.old.later ≤ vec_capacity self.new.later }
        ensures room { OnOk result (HasRoom (length self.old.appended.items) self.new) }
    {
        let most = self.delayed.len() + self.appended.len();
        self.due.reserve(most)?;
        self.later.reserve(most)?;
        self.delayed.reserve(self.appended.len())?;
        Ok(())
    }

    /// All that is appended goes to where it waits: without a delay behind the later updates, else among the delayed ones.
    pub fn enqueue_appended(&mut self, now: u64)
        requires { HasRoom (length self.old.appended.items) self.old }
        ensures due { self.new.due ≡ self.old.due }
        ensures later { self.new.later.items ≡ self.old.later.items ++ at_once self.old.appended.items }
        ensures delayed { self.new.delayed.items ≡ all_delaying now self.old.appended.items self.old.delayed.items }
        ensures appended { self.new.appended.items ≡ [] }
        ensures room { HasRoom 0 self.new }
    {
        let mut at = 0;
        while at < self.appended.len() {
            let update = self.appended[at];
            self.enqueue(now, &update);
            at += 1;
        }
        self.appended.clear();
    }

    /// One of the appended updates goes to where it waits. One that would come later than the latest time is given up.
    fn enqueue(&mut self, now: u64, update: &Update)
        requires { HasRoom 1 self.old }
        ensures due { self.new.due ≡ self.old.due }
        ensures appended { self.new.appended ≡ self.old.appended }
        ensures later { self.new.later.items ≡ self.old.later.items ++ at_once (update.now ∷ []) }
        ensures delayed { self.new.delayed.items ≡ delaying now update.now self.old.delayed.items }
        ensures room { (more : ℕ) → HasRoom (1 + more) self.old → HasRoom more self.new }
    {
        if update.delay == 0 {
            self.later.push_reserved(*update);
            return;
        }
        match now.checked_add(update.delay) {
            Some(time) if time <= LATEST_UPDATE => insert_delayed(
                &mut self.delayed,
                &Delayed {
                    time,
                    update: *update,
                },
            ),
            _ => {}
        }
    }

    /// The updates that wait for this time become the later ones.
    pub fn arrive(&mut self, time: u64)
        requires { length self.old.delayed.items ≤ vec_capacity self.old.later }
        ensures due { self.new.due ≡ self.old.due }
        ensures appended { self.new.appended ≡ self.old.appended }
        ensures later { self.new.later.items ≡ arriving time self.old.delayed.items }
        ensures delayed { self.new.delayed.items ≡ waiting_on time self.old.delayed.items }
        ensures room { vec_capacity self.new.later ≡ vec_capacity self.old.later }
        ensures fewer { length self.new.delayed.items ≤ length self.old.delayed.items }
    {
        self.later.clear();
        let mut at = 0;
        while at < self.delayed.len() {
            if self.delayed[at].time == time {
                let delayed = self.delayed.remove(at);
                self.later.push_reserved(delayed.update);
            } else {
                at += 1;
            }
        }
    }
}

/// The least of this time, if there is one, and of those for which the updates wait.
pub fn soonest(delayed: &[Delayed], other: Option<u64>) -> Option<u64>
    ensures { result ≡ soonest delayed.now other }
{
    let mut found = other;
    let mut at = delayed.len();
    while at > 0 {
        at -= 1;
        found = Some(lesser(delayed[at].time, found));
    }
    found
}

/// The lesser of a time and another, if there is one.
fn lesser(t: u64, other: Option<u64>) -> u64
    ensures { Option.Some result ≡ lesser t other }
{
    match other {
        Some(u) if u < t => u,
        _ => t,
    }
}

/// Puts an update that waits behind those of its time, and before all later ones.
fn insert_delayed(list: &mut Vec<Delayed>, delayed: &Delayed)
    requires { vec_len list.old < vec_capacity list.old }
    ensures is { list.new.items ≡ with_delayed delayed.now list.old.items }
    ensures count { length list.new.items ≡ length list.old.items + 1 }
    ensures room { vec_capacity list.old ≤ vec_capacity list.new }
{
    let mut at = 0;
    while at < list.len() && list[at].time <= delayed.time {
        at += 1;
    }
    list.insert(at, *delayed).unwrap();
}
