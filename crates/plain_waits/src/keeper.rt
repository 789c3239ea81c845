//! The list of waiting tasks.
ghost use Rattle.std.specs.Prelude.{◌≤◌, length};
ghost use Rattle.await_tree.specs.WaitList.Limits.{waiting_limit};

use crate::waiter::Waiter;
use gpi::Key;

/// A list of the tasks that wait for triggers (cocotb 1.8, "Triggers"), in the order in which they began to wait, and one of the keys that
/// the runner itself holds. It goes through the whole lists in each call.
#[derive(Drop)]
pub struct WaitList {
    pub(crate) waiting: Vec<Waiter>,
    pub(crate) held: Vec<Key>,
    ghost few: { length waiting.items ≤ waiting_limit },
}
