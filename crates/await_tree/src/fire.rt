//! How causes reach the leaves of trees.
ghost use Rattle.std.specs.Prelude.{◌≡◌};
ghost use Rattle.await_tree.specs.Tree as tree;
ghost use Rattle.await_tree.specs.Fire as fire;
ghost use Rattle.await_tree.specs.Shape.{shape, shapes};
ghost use Rattle.await_tree.specs.Staying.{is_beyond};

use crate::cause::{Awaited, Cause};
use crate::finish::Finish;
use crate::node::{Node, Parts};
use gpi::Key;
use py_value::Trig;
use std::mem;

impl Node {
    /// Whether it is one leaf or counts edges, and waits for something else than this.
    fn is_beyond(&self, on: Awaited) -> bool
        ensures { result ≡ is_beyond on (shape self.now) }
    {
        match self {
            Node::Leaf { on: own, .. } => !on.is_same(*own),
            Node::Cycles { key, .. } => !on.is_same(Awaited::Key(*key)),
            _ => false,
        }
    }
}

/// How a leaf is done that the cause reaches.
fn reached(cause: Cause, trig: Trig) -> Finish
    ensures { result ≡ fire.reached cause trig }
{
    match cause {
        Cause::Ended { task, failed } => Finish::Ended { task, failed },
        Cause::Key(_) | Cause::Event(_) => Finish::Reached(trig),
    }
}

/// A leaf after the cause.
fn fired_leaf(cause: Cause, on: Awaited, trig: Trig) -> Node
    ensures { shape result ≡ fire.fire cause (tree.Leaf on trig) }
{
    if cause.reach().is_same(on) {
        Node::Over(reached(cause, trig))
    } else {
        Node::Leaf { on, trig }
    }
}

/// So many edges after one of them.
fn edge_passed(left: u64, key: Key, trig: Trig) -> Node
    ensures { shape result ≡ fire.edge_passed left key trig }
{
    if left > 1 {
        Node::Cycles {
            key,
            left: left - 1,
            trig,
        }
    } else {
        Node::Over(Finish::Reached(trig))
    }
}

/// So many edges after the cause.
fn fired_cycles(cause: Cause, key: Key, left: u64, trig: Trig) -> Node
    ensures { shape result ≡ fire.fire cause (tree.Cycles key left trig) }
{
    if cause.reach().is_same(Awaited::Key(key)) {
        edge_passed(left, key, trig)
    } else {
        Node::Cycles { key, left, trig }
    }
}

/// All leaves of the parts that wait for the cause are reached.
#[cycle(firing)]
fn fire_parts(parts: &mut Parts, cause: Cause)
    ensures { shapes parts.new ≡ fire.fire_all cause (shapes parts.old) }
{
    match parts {
        Parts::End => {}
        Parts::Then(first, rest) => {
            fire_node(first, cause);
            fire_parts(rest, cause);
        }
    }
}

/// All leaves that wait for the cause are reached.
#[cycle(firing)]
#[tactic(auto, using(crate::proofs::Staying::beyond_stays))]
pub fn fire_node(node: &mut Node, cause: Cause)
    ensures { shape node.new ≡ fire.fire cause (shape node.old) }
{
    if node.is_beyond(cause.reach()) {
        return;
    }
    let old = mem::replace(node, Node::gone());
    *node = match old {
        Node::Over(finish) => Node::Over(finish),
        Node::Leaf { on, trig } => fired_leaf(cause, on, trig),
        Node::Cycles { key, left, trig } => fired_cycles(cause, key, left, trig),
        Node::First(parts) => {
            let mut parts = parts;
            fire_parts(&mut parts, cause);
            Node::first(parts)
        }
        Node::Combine { trig, parts } => {
            let mut parts = parts;
            fire_parts(&mut parts, cause);
            Node::combine(trig, parts)
        }
        Node::Limit { due, inner } => {
            let mut inner = inner;
            fire_node(&mut inner, cause);
            let late = cause.reach().is_same(Awaited::Key(Key::At(due)));
            Node::limit(late, due, inner)
        }
    };
}
