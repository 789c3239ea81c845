//! Keys that fired.
ghost use Rattle.std.specs.Prelude.{◌≡◌, ◌||◌};
ghost use Rattle.gpi.specs.Keys.{among, same_key};
ghost use Rattle.await_tree.specs.WaitList.Waiting.{fired_keys, key_list};

use await_tree::Awaited;
use gpi::{Fired, Key};

/// Whether the two keys are the same.
fn is_same(a: Key, b: Key) -> bool
    ensures { result ≡ same_key a b }
{
    Awaited::Key(a).is_same(Awaited::Key(b))
}

/// Whether there is a key, and it is this one.
fn is_one(key: Key, one: Option<Key>) -> bool
    ensures { result ≡ among key (key_list one) }
{
    match one {
        Some(other) => is_same(key, other),
        None => false,
    }
}

/// Whether the key is one of those that fired.
pub(crate) fn has_fired(key: Key, fired: Fired) -> bool
    ensures { result ≡ among key (fired_keys fired) }
{
    let first = is_one(key, fired.first);
    let second = is_one(key, fired.second);
    first || second
}
