//! Causes and locks reach waiting tasks.
ghost use Rattle.std.specs.Prelude.{◌≡◌, ◌≤◌, ◌<◌, ◌+◌, ◌++◌, [], drop, filter, length, take, true, false, if◌then◌else◌};
ghost use Rattle.std.specs.List.{list_any};
ghost use Rattle.await_tree.specs.Fire.{awaits, fire, grant};
ghost use Rattle.await_tree.specs.WaitList.Waiting.{Waiting, all_waiting, all_woken, fired_keys, key_list, still_waiting, woken};
ghost use Rattle.plain_waits.specs.Kept.{names_of, waiting_in};
ghost use Rattle.await_tree.specs.WaitList.Parts.{Fits, Narrows};
ghost use Rattle.plain_waits.specs.Parts.{Passes, left_after, left_by, woken_after, woken_by};

use crate::keeper::WaitList;
use crate::named::has_leaf;
use crate::waiter::take_away;
use await_tree::wait_list::Ready;
use await_tree::{Awaited, Cause, Step};
use gpi::{Fired, Gpi, Key};
use py_value::LockNo;

/// One more than a count, if so.
fn raised_if(count: u32, more: bool) -> u32
    requires { count < 65536 }
    ensures { result ≡ (if more then count + 1 else count) }
{
    if more { count + 1 } else { count }
}

impl WaitList {
    /// How many of the waiting tasks have a leaf on this.
    pub(crate) fn reached(&self, on: Awaited) -> u32
        ensures { result ≡ length (filter (λ (w : Waiting). awaits on w.tree) (waiting_in self.now)) }
    {
        let mut count = 0;
        let mut at = self.waiting.len();
        'back: while at > 0 {
            at -= 1;
            let is = has_leaf(self.waiting[at].tree.leaves().as_slice(), on);
            count = raised_if(count, is);
        }
        count
    }

    /// The place of the first waiting task with a leaf on this, or how many tasks wait where none has one.
    pub(crate) fn first_on(&self, on: Awaited) -> usize
        ensures inside { result ≤ length self.now.waiting.items }
        ensures before { list_any (λ (w : Waiting). awaits on w.tree) (take result (waiting_in self.now)) ≡ false }
        ensures there { result < length self.now.waiting.items
            → list_any (λ (w : Waiting). awaits on w.tree) (take 1 (drop result (waiting_in self.now))) ≡ true }
    {
        let mut at = 0;
        while at < self.waiting.len() {
            if has_leaf(self.waiting[at].tree.leaves().as_slice(), on) {
                return at;
            }
            at += 1;
        }
        at
    }

    /// The tree of the task at this place has answered so. If it is done the task goes into the ring, and waits no more. Answers the place of
    /// the next one.
    fn settle(&mut self, at: usize, step: Step, ready: &mut Ready) -> usize
        requires at { at < length self.old.waiting.items }
        requires room { length ready.old.entries < ready.old.room }
        ensures passes { Passes (waiting_in self.old) (waiting_in self.new) at result (left_by step (take 1 (drop at (waiting_in self.old)))) }
        ensures held { self.new.held ≡ self.old.held }
        ensures ready { ready.new.entries ≡ ready.old.entries ++ woken_by step (take 1 (drop at (waiting_in self.old))) }
        ensures room { ready.new.room ≡ ready.old.room }
    {
        match step {
            Step::Still => at + 1,
            Step::Done(given) => {
                let task = self.waiting[at].task;
                take_away(&mut self.waiting, at);
                ready.put(task, given);
                at
            }
        }
    }

    /// The task at this place is told the cause. Answers the place of the next one.
    fn fire_at(&mut self, at: usize, cause: Cause, ready: &mut Ready) -> usize
        requires at { at < length self.old.waiting.items }
        requires room { length ready.old.entries < ready.old.room }
        ensures passes { Passes (waiting_in self.old) (waiting_in self.new) at result
            (left_after (fire cause) (take 1 (drop at (waiting_in self.old)))) }
        ensures held { self.new.held ≡ self.old.held }
        ensures ready { ready.new.entries ≡ ready.old.entries ++ woken_after (fire cause) (take 1 (drop at (waiting_in self.old))) }
        ensures room { ready.new.room ≡ ready.old.room }
    {
        let step = self.waiting[at].fire(cause);
        self.settle(at, step, ready)
    }

    /// The task at this place is handed the lock. Answers the place of the next one.
    fn hand_at(&mut self, at: usize, lock: LockNo, ready: &mut Ready) -> usize
        requires at { at < length self.old.waiting.items }
        requires room { length ready.old.entries < ready.old.room }
        ensures passes { Passes (waiting_in self.old) (waiting_in self.new) at result
            (left_after (grant lock) (take 1 (drop at (waiting_in self.old)))) }
        ensures held { self.new.held ≡ self.old.held }
        ensures ready { ready.new.entries ≡ ready.old.entries ++ woken_after (grant lock) (take 1 (drop at (waiting_in self.old))) }
        ensures room { ready.new.room ≡ ready.old.room }
    {
        let step = self.waiting[at].grant(lock);
        self.settle(at, step, ready)
    }

    /// The task at this place is told the cause, and the keys leave that nothing names then. Answers the place of the next one.
    fn serve_at<K: Gpi>(
        &mut self,
        kernel: &mut K,
        at: usize,
        cause: Cause,
        fired: Fired,
        ready: &mut Ready,
    ) -> usize
        requires loaded { K.is_loaded kernel.old }
        requires at { at < length self.old.waiting.items }
        requires room { length ready.old.entries < ready.old.room }
        requires fits { Fits (K.content kernel.old) (fired_keys fired) self.old.held.items (names_of self.old) }
        ensures passes { Passes (waiting_in self.old) (waiting_in self.new) at result
            (left_after (fire cause) (take 1 (drop at (waiting_in self.old)))) }
        ensures held { self.new.held ≡ self.old.held }
        ensures ready { ready.new.entries ≡ ready.old.entries ++ woken_after (fire cause) (take 1 (drop at (waiting_in self.old))) }
        ensures room { ready.new.room ≡ ready.old.room }
        ensures loaded { K.is_loaded kernel.new }
        ensures keys { Narrows (K.content kernel.old) (K.content kernel.new) (names_of self.old) (names_of self.new) }
    {
        let leaves = self.waiting[at].tree.leaves();
        let next = self.fire_at(at, cause, ready);
        self.let_go(kernel, leaves.as_slice(), fired);
        next
    }

    /// The task at this place is handed the lock, and the keys leave that nothing names then.
    pub(crate) fn grant_at<K: Gpi>(
        &mut self,
        kernel: &mut K,
        at: usize,
        lock: LockNo,
        ready: &mut Ready,
    )
        requires loaded { K.is_loaded kernel.old }
        requires at { at < length self.old.waiting.items }
        requires room { length ready.old.entries < ready.old.room }
        requires fits { Fits (K.content kernel.old) [] self.old.held.items (names_of self.old) }
        ensures waiting { waiting_in self.new
            ≡ take at (waiting_in self.old)
            ++ (left_after (grant lock) (take 1 (drop at (waiting_in self.old))) ++ drop (at + 1) (waiting_in self.old)) }
        ensures held { self.new.held ≡ self.old.held }
        ensures ready { ready.new.entries ≡ ready.old.entries ++ woken_after (grant lock) (take 1 (drop at (waiting_in self.old))) }
        ensures room { ready.new.room ≡ ready.old.room }
        ensures loaded { K.is_loaded kernel.new }
        ensures keys { Narrows (K.content kernel.old) (K.content kernel.new) (names_of self.old) (names_of self.new) }
    {
        let leaves = self.waiting[at].tree.leaves();
        self.hand_at(at, lock, ready);
        let none = Fired {
            first: None,
            second: None,
        };
        self.let_go(kernel, leaves.as_slice(), none);
    }

    /// All waiting tasks are told the cause. Those that it wakes go into the ring, and the keys leave that nothing names then, but for those
    /// that fired.
    pub(crate) fn serve<K: Gpi>(
        &mut self,
        kernel: &mut K,
        cause: Cause,
        fired: Fired,
        ready: &mut Ready,
    )
        requires loaded { K.is_loaded kernel.old }
        requires room { length ready.old.entries + length (waiting_in self.old) ≤ ready.old.room }
        requires fits { Fits (K.content kernel.old) (fired_keys fired) self.old.held.items (names_of self.old) }
        ensures waiting { waiting_in self.new ≡ still_waiting cause (waiting_in self.old) }
        ensures held { self.new.held ≡ self.old.held }
        ensures ready { ready.new.entries ≡ ready.old.entries ++ woken cause (waiting_in self.old) }
        ensures room { ready.new.room ≡ ready.old.room }
        ensures loaded { K.is_loaded kernel.new }
        ensures keys { Narrows (K.content kernel.old) (K.content kernel.new) (names_of self.old) (names_of self.new) }
    {
        let mut at = 0;
        while at < self.waiting.len() {
            at = self.serve_at(kernel, at, cause, fired, ready);
        }
    }

    /// One of the keys that fired is served, if there is one.
    fn serve_one<K: Gpi>(
        &mut self,
        kernel: &mut K,
        key: Option<Key>,
        fired: Fired,
        ready: &mut Ready,
    )
        requires loaded { K.is_loaded kernel.old }
        requires room { length ready.old.entries + length (waiting_in self.old) ≤ ready.old.room }
        requires fits { Fits (K.content kernel.old) (fired_keys fired) self.old.held.items (names_of self.old) }
        ensures waiting { waiting_in self.new ≡ all_waiting (key_list key) (waiting_in self.old) }
        ensures held { self.new.held ≡ self.old.held }
        ensures ready { ready.new.entries ≡ ready.old.entries ++ all_woken (key_list key) (waiting_in self.old) }
        ensures room { ready.new.room ≡ ready.old.room }
        ensures loaded { K.is_loaded kernel.new }
        ensures keys { Narrows (K.content kernel.old) (K.content kernel.new) (names_of self.old) (names_of self.new) }
    {
        if let Some(key) = key {
            self.serve(kernel, Cause::Key(key), fired, ready);
        }
    }

    /// The keys that fired are served, in order. None of them is registered again yet.
    pub(crate) fn serve_all<K: Gpi>(&mut self, kernel: &mut K, fired: Fired, ready: &mut Ready)
        requires loaded { K.is_loaded kernel.old }
        requires room { length ready.old.entries + length (waiting_in self.old) ≤ ready.old.room }
        requires fits { Fits (K.content kernel.old) (fired_keys fired) self.old.held.items (names_of self.old) }
        ensures waiting { waiting_in self.new ≡ all_waiting (fired_keys fired) (waiting_in self.old) }
        ensures held { self.new.held ≡ self.old.held }
        ensures ready { ready.new.entries ≡ ready.old.entries ++ all_woken (fired_keys fired) (waiting_in self.old) }
        ensures room { ready.new.room ≡ ready.old.room }
        ensures loaded { K.is_loaded kernel.new }
        ensures keys { Narrows (K.content kernel.old) (K.content kernel.new) (names_of self.old) (names_of self.new) }
    {
        self.serve_one(kernel, fired.first, fired, ready);
        self.serve_one(kernel, fired.second, fired, ready);
    }
}
