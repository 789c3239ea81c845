//! A task that waits, as it is kept.
ghost use Rattle.std.specs.Prelude.{◌≡◌, ◌+◌, ◌++◌, ◌<◌, drop, length, take, true};
ghost use Rattle.await_tree.specs.Fire as fire;
ghost use Rattle.await_tree.specs.Steps.{rest_of, step_of};
ghost use Rattle.await_tree.specs.Whole.{tree_in};
ghost use Rattle.await_tree.specs.WaitList.Begun.{IsBegun};
ghost use Rattle.await_tree.specs.WaitList.Edges.{has_edges};

use await_tree::{Cause, Step, Tree};
use py_value::{LockNo, TaskNo};

/// A task that waits, with its tree, which was begun.
#[derive(Drop)]
pub(crate) struct Waiter {
    pub(crate) task: TaskNo,
    pub(crate) tree: Tree,
    ghost edges: { has_edges (tree_in tree) ≡ true },
}

/// Lets go of what stands at this place.
pub(crate) fn take_away<T: Drop>(list: &mut Vec<T>, at: usize)
    requires { at < length list.old.items }
    ensures { list.new.items ≡ take at list.old.items ++ drop (at + 1) list.old.items }
{
    list.remove(at);
}

/// Lets go of a value.
pub(crate) fn let_fall<T: Drop>(_value: T) {}

impl Waiter {
    /// A task that begins to wait.
    #[tactic(auto, using(await_tree::proofs::WaitListLemmas::Edges::begun_edges))]
    pub(crate) fn new(task: TaskNo, tree: Tree) -> Waiter
        requires { IsBegun (tree_in tree) }
        ensures task { result.task ≡ task }
        ensures tree { result.tree ≡ tree }
    {
        Waiter { task, tree }
    }

    /// All waiting leaves of its tree on the cause are reached at once. It takes no memory.
    #[tactic(auto, using(await_tree::proofs::WaitListLemmas::Edges::fired_edges))]
    pub(crate) fn fire(&mut self, cause: Cause) -> Step
        ensures task { self.new.task ≡ self.old.task }
        ensures answer { result ≡ step_of (fire.fire cause (tree_in self.old.tree)) }
        ensures rest { tree_in self.new.tree ≡ rest_of (fire.fire cause (tree_in self.old.tree)) }
    {
        self.tree.fire(&cause)
    }

    /// The leftmost waiting leaf of its tree on the lock gets it. It takes no memory.
    #[tactic(auto, using(await_tree::proofs::WaitListLemmas::Edges::granted_edges))]
    pub(crate) fn grant(&mut self, lock: LockNo) -> Step
        ensures task { self.new.task ≡ self.old.task }
        ensures answer { result ≡ step_of (fire.grant lock (tree_in self.old.tree)) }
        ensures rest { tree_in self.new.tree ≡ rest_of (fire.grant lock (tree_in self.old.tree)) }
    {
        self.tree.grant(lock)
    }
}
