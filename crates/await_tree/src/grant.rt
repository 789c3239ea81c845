//! How a lock is handed to a leaf of a tree.
ghost use Rattle.std.specs.Prelude.{◌≡◌};
ghost use Rattle.await_tree.specs.Tree as tree;
ghost use Rattle.await_tree.specs.Fire as fire;
ghost use Rattle.await_tree.specs.Shape.{shape, shapes};

use crate::cause::Awaited;
use crate::finish::Finish;
use crate::node::{Node, Parts};
use gpi::Key;
use py_value::{LockNo, Trig};
use std::mem;

impl Node {
    /// Whether a waiting leaf is on this.
    #[cycle(awaiting)]
    #[tactic(auto, using(crate::proofs::AmongLaws::among_one, crate::proofs::AmongLaws::among_left, crate::proofs::AmongLaws::among_last))]
    fn awaits(&self, on: Awaited) -> bool
        ensures { result ≡ fire.awaits on (shape self.now) }
    {
        match self {
            Node::Over(_) => false,
            Node::Leaf { on: own, .. } => on.is_same(*own),
            Node::Cycles { key, .. } => on.is_same(Awaited::Key(*key)),
            Node::First(parts) => parts.await_this(on),
            Node::Combine { parts, .. } => parts.await_this(on),
            Node::Limit { due, inner } => {
                inner.awaits(on) || on.is_same(Awaited::Key(Key::At(*due)))
            }
        }
    }
}

impl Parts {
    /// Whether a waiting leaf of the parts is on this.
    #[cycle(awaiting)]
    #[tactic(auto, using(crate::proofs::AmongLaws::among_left, crate::proofs::AmongLaws::among_right))]
    fn await_this(&self, on: Awaited) -> bool
        ensures { result ≡ fire.is_among on (tree.all_leaves (shapes self.now)) }
    {
        match self {
            Parts::End => false,
            Parts::Then(first, rest) => first.awaits(on) || rest.await_this(on),
        }
    }
}

/// A leaf gets the lock, if it is on that.
fn granted_leaf(lock: LockNo, on: Awaited, trig: Trig) -> Node
    ensures { shape result ≡ fire.grant lock (tree.Leaf on trig) }
{
    if Awaited::Lock(lock).is_same(on) {
        Node::Over(Finish::Reached(trig))
    } else {
        Node::Leaf { on, trig }
    }
}

/// The leftmost waiting leaf of the parts on the lock gets it.
#[cycle(granting)]
fn grant_parts(parts: &mut Parts, lock: LockNo)
    ensures { shapes parts.new ≡ fire.grant_one lock (shapes parts.old) }
{
    match parts {
        Parts::End => {}
        Parts::Then(first, rest) => {
            if first.awaits(Awaited::Lock(lock)) {
                grant_node(first, lock);
            } else {
                grant_parts(rest, lock);
            }
        }
    }
}

/// The leftmost waiting leaf on the lock gets it.
#[cycle(granting)]
pub fn grant_node(node: &mut Node, lock: LockNo)
    ensures { shape node.new ≡ fire.grant lock (shape node.old) }
{
    let old = mem::replace(node, Node::gone());
    *node = match old {
        Node::Over(finish) => Node::Over(finish),
        Node::Leaf { on, trig } => granted_leaf(lock, on, trig),
        Node::Cycles { key, left, trig } => Node::Cycles { key, left, trig },
        Node::First(parts) => {
            let mut parts = parts;
            grant_parts(&mut parts, lock);
            Node::first(parts)
        }
        Node::Combine { trig, parts } => {
            let mut parts = parts;
            grant_parts(&mut parts, lock);
            Node::combine(trig, parts)
        }
        Node::Limit { due, inner } => {
            let mut inner = inner;
            grant_node(&mut inner, lock);
            Node::limit(false, due, inner)
        }
    };
}
