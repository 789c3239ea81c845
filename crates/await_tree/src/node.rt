//! Trees and their parts, and what becomes of a tree when parts of it are done.
ghost use Rattle.std.specs.Prelude.{◌≡◌, IfNone, option_map};
ghost use Rattle.await_tree.specs.Tree as tree;
ghost use Rattle.await_tree.specs.Steps.{gone};
ghost use Rattle.await_tree.specs.Shape.{shape, shapes};

use crate::cause::Awaited;
use crate::finish::Finish;
use gpi::Key;
use py_value::Trig;
use std::mem;

/// A trigger that is waited for, or what is left of it.
#[cycle(tree)]
#[derive(Drop)]
pub enum Node {
    /// It is done.
    Over(Finish),
    /// It waits for one thing.
    Leaf { on: Awaited, trig: Trig },
    /// It waits for so many edges.
    Cycles { key: Key, left: u64, trig: Trig },
    /// It waits for one of these.
    First(Parts),
    /// It waits for all of these.
    Combine { trig: Trig, parts: Parts },
    /// It waits for this, until that time, in steps.
    Limit { due: u64, inner: Box<Node> },
}

/// Parts, from left to right.
#[cycle(tree)]
#[derive(Drop)]
pub enum Parts {
    End,
    Then(Box<Node>, Box<Parts>),
}

impl Node {
    /// What stands where a node was taken out.
    pub fn gone() -> Node
        ensures { shape result ≡ gone }
    {
        Node::First(Parts::End)
    }

    /// Whether it is done.
    pub fn is_over(&self) -> bool
        ensures { result ≡ tree.is_over (shape self.now) }
    {
        match self {
            Node::Over(_) => true,
            _ => false,
        }
    }

    /// Whether it is done with a fault.
    fn is_faulted(&self) -> bool
        ensures { result ≡ tree.is_faulted (shape self.now) }
    {
        match self {
            Node::Over(finish) => finish.is_fault(),
            _ => false,
        }
    }

    /// A First of these parts.
    pub fn first(parts: Parts) -> Node
        ensures { shape result ≡ tree.first_of (shapes parts) }
    {
        let mut parts = parts;
        match parts.take_over() {
            Some(node) => node,
            None => Node::First(parts),
        }
    }

    /// A Combine of these parts.
    pub fn combine(trig: Trig, parts: Parts) -> Node
        ensures { shape result ≡ tree.combine_of trig (shapes parts) }
    {
        let mut parts = parts;
        match parts.take_faulted() {
            Some(node) => node,
            None => {
                if parts.are_over() {
                    Node::Over(Finish::Reached(trig))
                } else {
                    Node::Combine { trig, parts }
                }
            }
        }
    }

    /// A limit of this tree, whose time has come or hasn't.
    pub fn limit(late: bool, due: u64, inner: Box<Node>) -> Node
        ensures { shape result ≡ tree.limit_of late due (shape inner.value) }
    {
        if inner.is_over() {
            Box::into_inner(inner)
        } else if late {
            Node::Over(Finish::TimedOut)
        } else {
            Node::Limit { due, inner }
        }
    }
}

impl Parts {
    /// Takes the leftmost part that is done; the other parts are of no use then.
    fn take_over(&mut self) -> Option<Node>
        ensures found { option_map shape result ≡ tree.first_over (shapes self.old) }
        ensures kept { IfNone result (shapes self.new ≡ shapes self.old) }
    {
        match self {
            Parts::End => None,
            Parts::Then(first, rest) => {
                if first.is_over() {
                    Some(mem::replace(&mut **first, Node::gone()))
                } else {
                    rest.take_over()
                }
            }
        }
    }

    /// Takes the leftmost part that is done with a fault; the other parts are of no use then.
    fn take_faulted(&mut self) -> Option<Node>
        ensures found { option_map shape result ≡ tree.first_faulted (shapes self.old) }
        ensures kept { IfNone result (shapes self.new ≡ shapes self.old) }
    {
        match self {
            Parts::End => None,
            Parts::Then(first, rest) => {
                if first.is_faulted() {
                    Some(mem::replace(&mut **first, Node::gone()))
                } else {
                    rest.take_faulted()
                }
            }
        }
    }

    /// Whether all are done.
    fn are_over(&self) -> bool
        ensures { result ≡ tree.are_over (shapes self.now) }
    {
        match self {
            Parts::End => true,
            Parts::Then(first, rest) => first.is_over() && rest.are_over(),
        }
    }
}
