//! Which keys are named by waiting tasks, and which are held.
ghost use Rattle.std.specs.Prelude.{◌≡◌, ◌∷◌, []};
ghost use Rattle.await_tree.specs.Fire.{is_among};
ghost use Rattle.gpi.specs.Keys.{among, same_key};
ghost use Rattle.await_tree.specs.WaitList.Waiting.{fired_keys, key_list, keys_among, keys_of};
ghost use Rattle.plain_waits.specs.Kept.{names_of, waiting_in};

use crate::keeper::WaitList;
use await_tree::Awaited;
use gpi::{Fired, Key};

/// Whether the two are one key.
pub(crate) fn is_same(key: Key, other: Key) -> bool
    ensures { result ≡ same_key key other }
{
    key == other
}

/// Whether what is awaited is this key.
#[tactic(auto, using(await_tree::proofs::WaitListLemmas::Members::or_none))]
fn is_on(on: Awaited, key: Key) -> bool
    ensures { result ≡ among key (keys_among (on ∷ [])) }
{
    match on {
        Awaited::Key(own) => is_same(key, own),
        _ => false,
    }
}

/// Whether the key is among what is awaited.
#[tactic(auto, using(await_tree::proofs::WaitListLemmas::Members::key_on))]
pub(crate) fn has_key(awaited: &[Awaited], key: Key) -> bool
    ensures { result ≡ among key (keys_among awaited.now) }
{
    let mut found = false;
    let mut at = awaited.len();
    'back: while at > 0 {
        at -= 1;
        found = is_on(awaited[at], key) || found;
    }
    found
}

/// Whether this is among what is awaited.
pub(crate) fn has_leaf(awaited: &[Awaited], on: Awaited) -> bool
    ensures { result ≡ is_among on awaited.now }
{
    let mut found = false;
    let mut at = awaited.len();
    'back: while at > 0 {
        at -= 1;
        found = on.is_same(awaited[at]) || found;
    }
    found
}

/// Whether the key is the fired one, if there is one.
#[tactic(auto, using(await_tree::proofs::WaitListLemmas::Members::or_none))]
fn is_one(fired: Option<Key>, key: Key) -> bool
    ensures { result ≡ among key (key_list fired) }
{
    match fired {
        Some(own) => is_same(key, own),
        None => false,
    }
}

/// Whether the key is one of those that fired.
pub(crate) fn is_fired(fired: Fired, key: Key) -> bool
    ensures { result ≡ among key (fired_keys fired) }
{
    let first = is_one(fired.first, key);
    first || is_one(fired.second, key)
}

impl WaitList {
    /// Whether a task waits for the key. The last one is asked first: tasks that began to wait one after the other often wait for one key.
    pub(crate) fn is_waited(&self, key: Key) -> bool
        ensures { result ≡ among key (keys_of (waiting_in self.now)) }
    {
        let mut at = self.waiting.len();
        'back: while at > 0 {
            at -= 1;
            if has_key(self.waiting[at].tree.leaves().as_slice(), key) {
                return true;
            }
        }
        false
    }

    /// Whether the runner holds the key.
    fn is_held(&self, key: Key) -> bool
        ensures { result ≡ among key self.now.held.items }
    {
        let mut found = false;
        let mut at = self.held.len();
        'back: while at > 0 {
            at -= 1;
            found = is_same(key, self.held[at]) || found;
        }
        found
    }

    /// Whether a task waits for the key, or the runner holds it.
    pub(crate) fn names(&self, key: Key) -> bool
        ensures { result ≡ among key (names_of self.now) }
    {
        let waited = self.is_waited(key);
        waited || self.is_held(key)
    }
}
