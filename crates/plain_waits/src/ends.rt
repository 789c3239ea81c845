//! Tasks that wait no more, and keys that the runner holds no more.
ghost use Rattle.std.specs.Prelude.{◌≡◌, ◌<◌, ◌+◌, ◌++◌, [], drop, length, take};
ghost use Rattle.await_tree.specs.WaitList.Keys.{without, without_all};
ghost use Rattle.await_tree.specs.WaitList.Waiting.{fired_keys, key_list, without_task};
ghost use Rattle.plain_waits.specs.Kept.{names_of, waiting_in};
ghost use Rattle.await_tree.specs.WaitList.Parts.{Fits, Narrows};
ghost use Rattle.plain_waits.specs.Parts.{Passes};

use crate::keeper::WaitList;
use crate::named::is_same;
use crate::waiter::take_away;
use gpi::{Fired, Gpi, Key};
use py_value::TaskNo;

impl WaitList {
    /// The task at this place waits no more.
    fn leave(&mut self, at: usize)
        requires { at < length self.old.waiting.items }
        ensures waiting { waiting_in self.new ≡ take at (waiting_in self.old) ++ drop (at + 1) (waiting_in self.old) }
        ensures held { self.new.held ≡ self.old.held }
    {
        take_away(&mut self.waiting, at);
    }

    /// The task at this place waits no more, and the keys leave that nothing names then.
    fn drop_at<K: Gpi>(&mut self, kernel: &mut K, at: usize)
        requires loaded { K.is_loaded kernel.old }
        requires at { at < length self.old.waiting.items }
        requires fits { Fits (K.content kernel.old) [] self.old.held.items (names_of self.old) }
        ensures waiting { waiting_in self.new ≡ take at (waiting_in self.old) ++ drop (at + 1) (waiting_in self.old) }
        ensures held { self.new.held ≡ self.old.held }
        ensures loaded { K.is_loaded kernel.new }
        ensures keys { Narrows (K.content kernel.old) (K.content kernel.new) (names_of self.old) (names_of self.new) }
    {
        let leaves = self.waiting[at].tree.leaves();
        self.leave(at);
        let none = Fired {
            first: None,
            second: None,
        };
        self.let_go(kernel, leaves.as_slice(), none);
    }

    /// The task at this place waits no more, if it is this one. Answers the place of the next one.
    fn pass<K: Gpi>(&mut self, kernel: &mut K, at: usize, task: TaskNo) -> usize
        requires loaded { K.is_loaded kernel.old }
        requires at { at < length self.old.waiting.items }
        requires fits { Fits (K.content kernel.old) [] self.old.held.items (names_of self.old) }
        ensures passes { Passes (waiting_in self.old) (waiting_in self.new) at result (without_task task (take 1 (drop at (waiting_in self.old)))) }
        ensures held { self.new.held ≡ self.old.held }
        ensures loaded { K.is_loaded kernel.new }
        ensures keys { Narrows (K.content kernel.old) (K.content kernel.new) (names_of self.old) (names_of self.new) }
    {
        if self.waiting[at].task.0 == task.0 {
            self.drop_at(kernel, at);
            return at;
        }
        at + 1
    }

    /// The task waits no more, if it does, and the keys leave that nothing names then.
    pub(crate) fn drop_all_of<K: Gpi>(&mut self, kernel: &mut K, task: TaskNo)
        requires loaded { K.is_loaded kernel.old }
        requires fits { Fits (K.content kernel.old) [] self.old.held.items (names_of self.old) }
        ensures waiting { waiting_in self.new ≡ without_task task (waiting_in self.old) }
        ensures held { self.new.held ≡ self.old.held }
        ensures loaded { K.is_loaded kernel.new }
        ensures keys { Narrows (K.content kernel.old) (K.content kernel.new) (names_of self.old) (names_of self.new) }
    {
        let mut at = 0;
        while at < self.waiting.len() {
            at = self.pass(kernel, at, task);
        }
    }

    /// No task waits any more, and the keys leave that the runner doesn't hold.
    pub(crate) fn drop_all<K: Gpi>(&mut self, kernel: &mut K)
        requires loaded { K.is_loaded kernel.old }
        requires fits { Fits (K.content kernel.old) [] self.old.held.items (names_of self.old) }
        ensures waiting { waiting_in self.new ≡ [] }
        ensures held { self.new.held ≡ self.old.held }
        ensures loaded { K.is_loaded kernel.new }
        ensures keys { Narrows (K.content kernel.old) (K.content kernel.new) (names_of self.old) (names_of self.new) }
    {
        let mut left = self.waiting.len();
        while left > 0 {
            left -= 1;
            self.drop_at(kernel, left);
        }
    }

    /// The runner holds the key no more.
    pub(crate) fn take_out(&mut self, key: Key)
        ensures held { self.new.held.items ≡ without key self.old.held.items }
        ensures waiting { self.new.waiting ≡ self.old.waiting }
    {
        let mut at = 0;
        while at < self.held.len() {
            if is_same(key, self.held[at]) {
                self.held.remove(at);
            } else {
                at += 1;
            }
        }
    }

    /// The runner holds the key no more, if there is one.
    fn take_out_one(&mut self, key: Option<Key>)
        ensures held { self.new.held.items ≡ without_all (key_list key) self.old.held.items }
        ensures waiting { self.new.waiting ≡ self.old.waiting }
    {
        if let Some(key) = key {
            self.take_out(key);
        }
    }

    /// The runner holds none of the keys that fired any more.
    pub(crate) fn take_out_all(&mut self, fired: Fired)
        ensures held { self.new.held.items ≡ without_all (fired_keys fired) self.old.held.items }
        ensures waiting { self.new.waiting ≡ self.old.waiting }
    {
        self.take_out_one(fired.first);
        self.take_out_one(fired.second);
    }
}
