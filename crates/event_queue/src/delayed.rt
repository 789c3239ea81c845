//! The updates that wait for their time (IEEE 1364-2005, clause 9.2.2).
ghost use Rattle.std.specs.Prelude.{◌≡◌, ℕ, ◌+◌, ◌<◌, ◌≤◌, ◌++◌, ◌∷◌, [], length, IsTrue, true, MatchOption, OnOk};
ghost use Rattle.std.specs.VecDeque.{deque_len, deque_capacity};
ghost use Rattle.gpi.specs.Keys.{least};
ghost use Rattle.gpi.specs.State.{with_delayed, arriving, waiting_on, delayed_times};
ghost use Rattle.event_queue.specs.Waiting.{are_in_order, are_from, are_before, sorted_of, time_of_first, Arrives, Turns};

use gpi::{Delayed, Update};
use kernel_base::sooner;
use port_io::NoMemory;
use std::alloc::Global;
use std::collections::{BTreeMap, VecDeque};

/// The updates that wait for their time. Those that came last wait in a list until there is memory to put them among the others.
#[derive(Drop)]
pub struct Delays {
    /// By time, and for one time by number.
    sorted: BTreeMap<(u64, u64), Update>,
    /// Those that came last, in the order in which they came.
    fresh: VecDeque<Delayed>,
    /// The number of the next one that is put among the others.
    number: u64,
    ghost numbered: { IsTrue (are_before number sorted.entries) },
    ghost ordered: { IsTrue (are_in_order (sorted_of sorted.entries)) },
}

impl Delays {
    ghost use Rattle.event_queue.specs.Delays.{waiting_in, room_in};

    /// No updates. It takes no memory.
    pub fn new(alloc: Global) -> Delays
        ensures { waiting_in result ≡ [] }
    {
        Delays {
            sorted: BTreeMap::new(alloc),
            fresh: VecDeque::new(alloc),
            number: 0,
        }
    }

    /// How many there are.
    pub fn len(&self) -> usize
        ensures { result ≡ length (waiting_in self.now) }
    {
        self.fresh.len() + self.sorted.len()
    }

    /// Makes room for so many more. Its one error is the want of memory. It takes the logarithm of how many there are, for each that came since the
    /// last call.
    pub fn make_room(&mut self, more: usize) -> Result<(), NoMemory>
        ensures same { waiting_in self.new ≡ waiting_in self.old }
        ensures room { OnOk result (more ≤ room_in self.new) }
    {
        self.sort()?;
        self.fresh.reserve(more)?;
        Ok(())
    }

    /// Puts those that came last among the others. Its one error is the want of memory, and then some are left.
    fn sort(&mut self) -> Result<(), NoMemory>
        ensures { waiting_in self.new ≡ waiting_in self.old }
    {
        while self.fresh.len() > 0 {
            self.sort_first()?;
        }
        Ok(())
    }

    /// Puts the first of those that came last among the others. Its one error is the want of memory, or of numbers, and then nothing has changed.
    fn sort_first(&mut self) -> Result<(), NoMemory>
        requires { 0 < deque_len self.old.fresh }
        ensures same { waiting_in self.new ≡ waiting_in self.old }
        ensures fewer { OnOk result (deque_len self.new.fresh < deque_len self.old.fresh) }
    {
        let first = self.fresh[0];
        let Some(next) = self.number.checked_add(1) else {
            return Err(NoMemory);
        };
        self.sorted.insert((first.time, self.number), first.update)?;
        self.number = next;
        self.fresh.pop_front();
        Ok(())
    }

    /// An update waits for its time, behind those of that time that came before. There must be room.
    pub fn push(&mut self, delayed: &Delayed)
        requires { 0 < room_in self.old }
        ensures is { waiting_in self.new ≡ with_delayed delayed.now (waiting_in self.old) }
        ensures room { room_in self.new + 1 ≡ room_in self.old }
    {
        self.fresh.push_back_reserved(*delayed);
    }

    /// The least time for which an update waits, in steps.
    pub fn least_time(&self) -> Option<u64>
        ensures { result ≡ least (delayed_times (waiting_in self.now)) }
    {
        sooner(least_of(&self.fresh), first_time(&self.sorted))
    }

    /// Moves the updates that wait for this time behind the others, in order. None may wait for an earlier time.
    pub fn arrive(&mut self, time: u64, updates: &mut VecDeque<Update>)
        requires none_earlier { IsTrue (are_from time (waiting_in self.old)) }
        requires room { deque_len updates.old + length (waiting_in self.old) ≤ deque_capacity updates.old }
        ensures arrived { updates.new.items ≡ updates.old.items ++ arriving time (waiting_in self.old) }
        ensures left { waiting_in self.new ≡ waiting_on time (waiting_in self.old) }
        ensures count { deque_len updates.new + length (waiting_in self.new) ≡ deque_len updates.old + length (waiting_in self.old) }
        ensures room { deque_capacity updates.new ≡ deque_capacity updates.old }
    {
        move_sorted(&mut self.sorted, time, updates);
        move_fresh(&mut self.fresh, time, updates);
    }
}

/// The time of the first update.
fn first_time(sorted: &BTreeMap<(u64, u64), Update>) -> Option<u64>
    requires { IsTrue (are_in_order (sorted_of sorted.now.entries)) }
    ensures first { result ≡ time_of_first (sorted_of sorted.now.entries) }
    ensures least { result ≡ least (delayed_times (sorted_of sorted.now.entries)) }
{
    match sorted.first_key_value() {
        Some((key, _)) => Some(key.0),
        None => None,
    }
}

/// The least time of these updates.
fn least_of(fresh: &VecDeque<Delayed>) -> Option<u64>
    ensures { result ≡ least (delayed_times fresh.now.items) }
{
    let mut found = None;
    let mut at = fresh.len();
    while at > 0 {
        at -= 1;
        found = sooner(Some(fresh[at].time), found);
    }
    found
}

/// Takes the first update, if it waits for this time.
fn take_arrived(sorted: &mut BTreeMap<(u64, u64), Update>, time: u64) -> Option<Update>
    requires { IsTrue (are_in_order (sorted_of sorted.old.entries)) }
    ensures is { Arrives time (sorted_of sorted.old.entries) result (sorted_of sorted.new.entries) }
    ensures count { MatchOption result (length sorted.new.entries ≡ length sorted.old.entries)
        (λ u. length sorted.new.entries + 1 ≡ length sorted.old.entries) }
    ensures numbers { (n : ℕ) → are_before n sorted.old.entries ≡ true → are_before n sorted.new.entries ≡ true }
{
    let first = first_time(sorted)?;
    if first != time {
        return None;
    }
    match sorted.pop_first() {
        Some((_, update)) => Some(update),
        None => None,
    }
}

/// Moves the updates that wait for this time behind the others.
fn move_sorted(sorted: &mut BTreeMap<(u64, u64), Update>, time: u64, updates: &mut VecDeque<Update>)
    requires ordered { IsTrue (are_in_order (sorted_of sorted.old.entries)) }
    requires none_earlier { IsTrue (are_from time (sorted_of sorted.old.entries)) }
    requires room { deque_len updates.old + length sorted.old.entries ≤ deque_capacity updates.old }
    ensures arrived { updates.new.items ≡ updates.old.items ++ arriving time (sorted_of sorted.old.entries) }
    ensures left { sorted_of sorted.new.entries ≡ waiting_on time (sorted_of sorted.old.entries) }
    ensures ordered { IsTrue (are_in_order (sorted_of sorted.new.entries)) }
    ensures numbers { (n : ℕ) → are_before n sorted.old.entries ≡ true → are_before n sorted.new.entries ≡ true }
    ensures count { deque_len updates.new + length sorted.new.entries ≡ deque_len updates.old + length sorted.old.entries }
    ensures room { deque_capacity updates.new ≡ deque_capacity updates.old }
{
    while let Some(update) = take_arrived(sorted, time) {
        updates.push_back_reserved(update);
    }
}

/// Takes the first of these updates. One that waits for another time goes to the end.
fn turn_first(fresh: &mut VecDeque<Delayed>, time: u64) -> Option<Update>
    requires { 0 < deque_len fresh.old }
    ensures is { Turns time fresh.old.items result fresh.new.items }
    ensures count { MatchOption result (deque_len fresh.new ≡ deque_len fresh.old) (λ u. deque_len fresh.new + 1 ≡ deque_len fresh.old) }
{
    let first = fresh.pop_front()?;
    if first.time == time {
        return Some(first.update);
    }
    fresh.push_back_reserved(first);
    None
}

/// Moves those of these updates that wait for this time behind the others.
fn move_fresh(fresh: &mut VecDeque<Delayed>, time: u64, updates: &mut VecDeque<Update>)
    requires room { deque_len updates.old + deque_len fresh.old ≤ deque_capacity updates.old }
    ensures arrived { updates.new.items ≡ updates.old.items ++ arriving time fresh.old.items }
    ensures left { fresh.new.items ≡ waiting_on time fresh.old.items }
    ensures count { deque_len updates.new + deque_len fresh.new ≡ deque_len updates.old + deque_len fresh.old }
    ensures room { deque_capacity updates.new ≡ deque_capacity updates.old }
{
    let mut left = fresh.len();
    while left > 0 {
        left -= 1;
        if let Some(update) = turn_first(fresh, time) {
            updates.push_back_reserved(update);
        }
    }
}
