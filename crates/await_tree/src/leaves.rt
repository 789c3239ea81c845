//! What a tree waits for still.
ghost use Rattle.std.specs.Prelude.{◌≡◌, ◌+◌, ◌<◌, ◌≤◌, ◌++◌, ◌∷◌, [], length};
ghost use Rattle.await_tree.specs.Tree as tree;
ghost use Rattle.await_tree.specs.Shape.{shape, shapes};

use crate::cause::Awaited;
use crate::node::{Node, Parts};
use gpi::Key;
use py_value::EventNo;
use std::marker::Model;

/// How many leaves a tree may have, `leaf_limit` of `py_value`.
const LEAF_LIMIT: usize = 64;

/// What the waiting leaves of a tree wait for, from left to right: at most 64, which contracts see as their list. It takes no memory.
#[derive(Drop)]
pub struct Leaves {
    items: [Awaited; 64],
    count: usize,
}

impl Model for Leaves {
    ghost use Rattle.std.specs.Prelude.{◌≤◌, List, take};
    ghost use Rattle.await_tree.specs.declared.cause.Awaited.{Awaited};

    ghost Value = { List Awaited };

    ghost view = { λ s. take s.count s.items };

    ghost invariant = { λ s. s.count ≤ 64 };
}

impl Leaves {
    /// None.
    pub(crate) fn none() -> Leaves
        ensures { result ≡ [] }
    {
        Leaves {
            items: [Awaited::Event(EventNo(0)); LEAF_LIMIT],
            count: 0,
        }
    }

    /// One more, behind the others.
    fn push(&mut self, on: Awaited)
        requires { length self.old < 64 }
        ensures { self.new ≡ self.old ++ on ∷ [] }
    {
        self.items[self.count] = on;
        self.count += 1;
    }

    /// All of them, in order.
    pub fn as_slice(&self) -> &[Awaited]
        ensures is { result.now ≡ self.now }
        ensures few { length self.now ≤ 64 }
    {
        &self.items[..self.count]
    }

    /// Those of a tree too, behind the others.
    #[cycle(gathering)]
    pub(crate) fn add_node(&mut self, node: &Node)
        requires { length self.old + length (tree.leaves (shape node.now)) ≤ 64 }
        ensures { self.new ≡ self.old ++ tree.leaves (shape node.now) }
    {
        match node {
            Node::Over(_) => {}
            Node::Leaf { on, .. } => self.push(*on),
            Node::Cycles { key, .. } => self.push(Awaited::Key(*key)),
            Node::First(parts) => self.add_parts(parts),
            Node::Combine { parts, .. } => self.add_parts(parts),
            Node::Limit { due, inner } => {
                self.add_node(inner);
                self.push(Awaited::Key(Key::At(*due)));
            }
        }
    }

    /// Those of parts too, behind the others.
    #[cycle(gathering)]
    fn add_parts(&mut self, parts: &Parts)
        requires { length self.old + length (tree.all_leaves (shapes parts.now)) ≤ 64 }
        ensures { self.new ≡ self.old ++ tree.all_leaves (shapes parts.now) }
    {
        match parts {
            Parts::End => {}
            Parts::Then(first, rest) => {
                self.add_node(first);
                self.add_parts(rest);
            }
        }
    }
}
