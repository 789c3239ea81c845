//! What a leaf waits for, as the index looks it up.
ghost use Rattle.std.specs.Prelude.{◌≡◌};
ghost use Rattle.trigger_table.specs.Name.{key_name, name_of};

use await_tree::Awaited;
use gpi::Key;

/// What a leaf waits for, by plain numbers: a key of the simulator, an event, a lock or a task that is joined.
#[derive(Clone, Copy, PartialEq, Eq, Hash)]
pub(crate) enum Name {
    At(u64),
    Rise(u32),
    Fall(u32),
    Change(u32),
    ReadWrite,
    ReadOnly,
    NextStep,
    Event(u32),
    Lock(u32),
    Join(u32),
}

/// The name of a key.
fn key_name(key: Key) -> Name
    ensures { result ≡ key_name key }
{
    match key {
        Key::At(time) => Name::At(time),
        Key::Rise(sig) => Name::Rise(sig.0),
        Key::Fall(sig) => Name::Fall(sig.0),
        Key::Change(sig) => Name::Change(sig.0),
        Key::ReadWrite => Name::ReadWrite,
        Key::ReadOnly => Name::ReadOnly,
        Key::NextStep => Name::NextStep,
    }
}

/// The name of what a leaf waits for.
pub(crate) fn name_of(on: Awaited) -> Name
    ensures { result ≡ name_of on }
{
    match on {
        Awaited::Key(key) => key_name(key),
        Awaited::Event(event) => Name::Event(event.0),
        Awaited::Lock(lock) => Name::Lock(lock.0),
        Awaited::Join(task) => Name::Join(task.0),
    }
}
