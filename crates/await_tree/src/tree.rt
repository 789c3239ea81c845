//! Trees of triggers.
ghost use Rattle.std.specs.Prelude.{◌≤◌, length};
ghost use Rattle.await_tree.specs.Tree.{leaves};
ghost use Rattle.await_tree.specs.Shape.{shape};

use crate::node::Node;

/// What a task waits for, as a tree of triggers, and what is left of it. Contracts see it as the `Tree` of `specs/Tree.antt` that
/// `tree_in` gives.
#[derive(Drop)]
pub struct Tree {
    pub(crate) node: Node,
    ghost few: { length (leaves (shape node)) ≤ 64 },
}
