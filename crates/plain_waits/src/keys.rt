//! Keys that leave the simulator, and keys that come to it.
ghost use Rattle.std.specs.Prelude.{◌≡◌, ◌||◌, ◌++◌, ◌<◌, drop, take, length, true, false, OnOk, OnErr, vec_len, vec_capacity};
ghost use Rattle.gpi.specs.Content.{IsAsked};
ghost use Rattle.gpi.specs.Keys.{among, has};
ghost use Rattle.gpi.specs.declared.types.Key.{Key};
ghost use Rattle.await_tree.specs.WaitList.Keys.{AreAsked, AreFired, AreKeys, AreOut, IsOfDesign, KeepsKeys, Rekeyed};
ghost use Rattle.await_tree.specs.WaitList.Waiting.{fired_keys, key_list, keys_among};
ghost use Rattle.await_tree.specs.WaitList.Edges.{is_edge};
ghost use Rattle.plain_waits.specs.Kept.{names_of};
ghost use Rattle.await_tree.specs.WaitList.Parts.{Fits, Joins, Narrows};

use crate::keeper::WaitList;
use crate::named::{has_key, is_fired};
use await_tree::Awaited;
use gpi::{Fired, Gpi, Key};
use port_io::NoMemory;

/// Registers a key, unless it is registered already. Its one error is the want of memory, and then nothing has changed.
#[tactic(auto, using(await_tree::proofs::WaitListLemmas::Rekeys::joins_registered, await_tree::proofs::WaitListLemmas::Rekeys::joins_there))]
pub(crate) fn register_unless<K: Gpi>(kernel: &mut K, there: bool, key: Key) -> Result<(), NoMemory>
    requires loaded { K.is_loaded kernel.old }
    requires there { has key (K.content kernel.old).keys ≡ there }
    requires asked { there ≡ false → IsAsked (length (K.content kernel.old).state.signals) (K.content kernel.old).state key }
    ensures loaded { K.is_loaded kernel.new }
    ensures ok { OnOk result (Joins (K.content kernel.old) key (K.content kernel.new)) }
    ensures err { OnErr result (K.content kernel.new ≡ K.content kernel.old) }
{
    if there {
        return Ok(());
    }
    kernel.register(key)
}

impl WaitList {
    /// Whether the key is among these, or named.
    fn is_taken(&self, awaited: &[Awaited], key: Key) -> bool
        ensures { result ≡ among key (keys_among awaited.now ++ names_of self.now) }
    {
        let stands = has_key(awaited, key);
        stands || self.names(key)
    }

    /// Whether a key that was awaited is left: it fired, or stands among these too, or is named still.
    fn is_left(&self, rest: &[Awaited], key: Key, fired: Fired) -> bool
        ensures { result ≡ (among key (fired_keys fired) || among key (keys_among rest.now ++ names_of self.now)) }
    {
        let has_fired = is_fired(fired, key);
        has_fired || self.is_taken(rest, key)
    }

    /// Removes the key that stands first among what was awaited, if it is one, unless it is left.
    fn let_go_first<K: Gpi>(&self, kernel: &mut K, left: &[Awaited], fired: Fired)
        requires loaded { K.is_loaded kernel.old }
        requires some { 0 < length left.now }
        requires fits { Fits (K.content kernel.old) (fired_keys fired) self.now.held.items (keys_among left.now ++ names_of self.now) }
        ensures loaded { K.is_loaded kernel.new }
        ensures keys { Narrows (K.content kernel.old) (K.content kernel.new)
            (keys_among left.now ++ names_of self.now) (keys_among (drop 1 left.now) ++ names_of self.now) }
    {
        if let Awaited::Key(key) = left[0] {
            if !self.is_left(&left[1..], key, fired) {
                kernel.remove(key);
            }
        }
    }

    /// Removes the keys among what was awaited that nothing names any more. Those that fired aren't registered.
    pub(crate) fn let_go<K: Gpi>(&self, kernel: &mut K, left: &[Awaited], fired: Fired)
        requires loaded { K.is_loaded kernel.old }
        requires fits { Fits (K.content kernel.old) (fired_keys fired) self.now.held.items (keys_among left.now ++ names_of self.now) }
        ensures loaded { K.is_loaded kernel.new }
        ensures keys { Narrows (K.content kernel.old) (K.content kernel.new) (keys_among left.now ++ names_of self.now) (names_of self.now) }
    {
        let mut at = 0;
        while at < left.len() {
            self.let_go_first(kernel, &left[at..], fired);
            at += 1;
        }
    }

    /// Registers the key at this place among what is to be awaited, if it is one, unless it is named or stands before that place too. After
    /// `NoMemory` nothing has changed.
    fn register_at<K: Gpi>(
        &self,
        kernel: &mut K,
        awaited: &[Awaited],
        at: usize,
    ) -> Result<(), NoMemory>
        requires loaded { K.is_loaded kernel.old }
        requires at { at < length awaited.now }
        requires keys { AreKeys (K.content kernel.old).keys (keys_among (take at awaited.now) ++ names_of self.now) }
        requires asked { AreAsked (K.content kernel.old) (keys_among awaited.now) }
        ensures loaded { K.is_loaded kernel.new }
        ensures ok { OnOk result (Rekeyed (K.content kernel.old) (K.content kernel.new) (keys_among (take 1 (drop at awaited.now)))
            (keys_among awaited.now ++ names_of self.now) (keys_among awaited.now ++ names_of self.now)) }
        ensures err { OnErr result (K.content kernel.new ≡ K.content kernel.old) }
    {
        match awaited[at] {
            Awaited::Key(key) => {
                let there = self.is_taken(&awaited[..at], key);
                register_unless(kernel, there, key)
            }
            _ => Ok(()),
        }
    }

    /// Registers the keys among what is to be awaited that aren't named. After `NoMemory` the same keys are registered as before.
    pub(crate) fn register_all<K: Gpi>(
        &self,
        kernel: &mut K,
        awaited: &[Awaited],
    ) -> Result<(), NoMemory>
        requires loaded { K.is_loaded kernel.old }
        requires keys { AreKeys (K.content kernel.old).keys (names_of self.now) }
        requires asked { AreAsked (K.content kernel.old) (keys_among awaited.now) }
        ensures loaded { K.is_loaded kernel.new }
        ensures ok { OnOk result (Rekeyed (K.content kernel.old) (K.content kernel.new) (keys_among awaited.now)
            (names_of self.now) (keys_among awaited.now ++ names_of self.now)) }
        ensures err { OnErr result (KeepsKeys (K.content kernel.old) (K.content kernel.new)) }
    {
        let mut at = 0;
        while at < awaited.len() {
            if let Err(NoMemory) = self.register_at(kernel, awaited, at) {
                let none = Fired {
                    first: None,
                    second: None,
                };
                self.let_go(kernel, &awaited[..at], none);
                return Err(NoMemory);
            }
            at += 1;
        }
        Ok(())
    }

    /// Makes room for a task more, and registers the keys among what it is to await that aren't named. After `NoMemory` the same keys are
    /// registered as before.
    pub(crate) fn prepare<K: Gpi>(
        &mut self,
        kernel: &mut K,
        awaited: &[Awaited],
    ) -> Result<(), NoMemory>
        requires loaded { K.is_loaded kernel.old }
        requires keys { AreKeys (K.content kernel.old).keys (names_of self.old) }
        requires asked { AreAsked (K.content kernel.old) (keys_among awaited.now) }
        ensures waiting { self.new.waiting.items ≡ self.old.waiting.items }
        ensures held { self.new.held ≡ self.old.held }
        ensures room { OnOk result (vec_len self.new.waiting < vec_capacity self.new.waiting) }
        ensures loaded { K.is_loaded kernel.new }
        ensures ok { OnOk result (Rekeyed (K.content kernel.old) (K.content kernel.new) (keys_among awaited.now)
            (names_of self.old) (keys_among awaited.now ++ names_of self.old)) }
        ensures err { OnErr result (KeepsKeys (K.content kernel.old) (K.content kernel.new)) }
    {
        self.waiting.reserve(1)?;
        self.register_all(kernel, awaited)
    }

    /// Registers a key that has fired, if there is one, where it is named still. It is an edge then, so no memory is wanted.
    fn register_again<K: Gpi>(&self, kernel: &mut K, fired: Option<Key>)
        requires loaded { K.is_loaded kernel.old }
        requires out { AreOut (K.content kernel.old).keys (key_list fired) }
        requires edges { (k : Key) → among k (key_list fired) ≡ true → among k (names_of self.now) ≡ true
            → (is_edge k ≡ true) × IsOfDesign (K.content kernel.old) k }
        requires named { (k : Key) → has k (K.content kernel.old).keys ≡ true → among k (names_of self.now) ≡ true }
        ensures loaded { K.is_loaded kernel.new }
        ensures keys { Rekeyed (K.content kernel.old) (K.content kernel.new) (key_list fired) (names_of self.now) (names_of self.now) }
    {
        if let Some(key) = fired {
            if self.names(key) {
                match kernel.register(key) {
                    Ok(()) => {}
                    Err(NoMemory) => unreachable!(),
                }
            }
        }
    }
    /// Registers those of the keys that fired that are named still, which are edges then.
    pub(crate) fn register_fired<K: Gpi>(&self, kernel: &mut K, fired: Fired)
        requires loaded { K.is_loaded kernel.old }
        requires fired { AreFired (K.content kernel.old) (fired_keys fired) }
        requires edges { (k : Key) → among k (fired_keys fired) ≡ true → among k (names_of self.now) ≡ true → is_edge k ≡ true }
        requires named { (k : Key) → has k (K.content kernel.old).keys ≡ true → among k (names_of self.now) ≡ true }
        ensures loaded { K.is_loaded kernel.new }
        ensures keys { Rekeyed (K.content kernel.old) (K.content kernel.new) (fired_keys fired) (names_of self.now) (names_of self.now) }
    {
        self.register_again(kernel, fired.first);
        self.register_again(kernel, fired.second);
    }
}
