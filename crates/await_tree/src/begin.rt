//! How trees begin.
ghost use Rattle.std.specs.Prelude.{◌≡◌, false, true, not};
ghost use Rattle.await_tree.specs.Begin as begin;
ghost use Rattle.await_tree.specs.Tree as tree;
ghost use Rattle.await_tree.specs.Shape.{shape, shapes};
ghost use Rattle.await_tree.specs.Staying.{is_on_keys};

use crate::cause::Awaited;
use crate::finish::Finish;
use crate::node::{Node, Parts};
use py_value::{EventNo, LockNo, TaskNo, Trig};
use std::mem;

/// What tells a tree that begins of the events, locks and tasks of its test. Contracts see it as `Facts` of `specs/Begin.antt`. Each call
/// asks that its number is that of one that was made, and none takes memory.
pub trait Facts {
    ghost use Rattle.std.specs.Prelude.{◌≡◌, ◌<◌, length, true, false, not};
    ghost use Rattle.await_tree.specs.Begin as begin;

    /// What it tells.
    ghost facts: { Self → begin.Facts };

    /// Whether the event is set.
    fn is_set(&self, event: EventNo) -> bool
        requires { event.0 < length (facts self.now).events }
        ensures { result ≡ begin.is_set event (facts self.now) };

    /// Takes the lock where it is free, and tells whether it was. It is held then, and all else stays.
    fn take(&mut self, lock: LockNo) -> bool
        requires { lock.0 < length (facts self.old).locks }
        ensures free { result ≡ not (begin.is_held lock (facts self.old)) }
        ensures held { result ≡ false → facts self.new ≡ facts self.old }
        ensures taken { result ≡ true → facts self.new ≡ begin.with_held lock (facts self.old) };

    /// Whether the task failed, or None where it hasn't ended.
    fn ended(&self, task: TaskNo) -> Option<bool>
        requires { task.0 < length (facts self.now).tasks }
        ensures { result ≡ begin.ended task (facts self.now) };
}

impl Node {
    /// Whether it is one leaf on a key, or counts edges.
    fn is_on_keys(&self) -> bool
        ensures { result ≡ is_on_keys (shape self.now) }
    {
        match self {
            Node::Leaf { on, .. } => matches!(on, Awaited::Key(_)),
            Node::Cycles { .. } => true,
            _ => false,
        }
    }
}

/// A leaf on a lock begins.
#[tactic(auto, using(crate::proofs::BeginLaws::taken_made))]
fn begun_lock<Q: Facts>(lock: LockNo, trig: Trig, facts: &mut Q) -> Node
    requires { begin.IsMade (begin.made (Q.facts facts.old)) (Awaited.Lock lock) }
    ensures made { begin.made (Q.facts facts.new) ≡ begin.made (Q.facts facts.old) }
    ensures begun { begin.begun (shape result) (Q.facts facts.new) ≡ begin.leaf_begun (Awaited.Lock lock) trig (Q.facts facts.old) }
{
    if facts.take(lock) {
        Node::Over(Finish::Reached(trig))
    } else {
        Node::Leaf {
            on: Awaited::Lock(lock),
            trig,
        }
    }
}

/// A leaf on a task begins.
fn begun_join(ended: Option<bool>, task: TaskNo, trig: Trig) -> Node
    ensures { shape result ≡ begin.join_begun ended task trig }
{
    match ended {
        Some(failed) => Node::Over(Finish::Ended { task, failed }),
        None => Node::Leaf {
            on: Awaited::Join(task),
            trig,
        },
    }
}

/// A leaf begins.
fn begun_leaf<Q: Facts>(on: Awaited, trig: Trig, facts: &mut Q) -> Node
    requires { begin.IsMade (begin.made (Q.facts facts.old)) on }
    ensures made { begin.made (Q.facts facts.new) ≡ begin.made (Q.facts facts.old) }
    ensures begun { begin.begun (shape result) (Q.facts facts.new) ≡ begin.leaf_begun on trig (Q.facts facts.old) }
{
    match on {
        Awaited::Key(_) => Node::Leaf { on, trig },
        Awaited::Event(event) => {
            if facts.is_set(event) {
                Node::Over(Finish::Reached(trig))
            } else {
                Node::Leaf { on, trig }
            }
        }
        Awaited::Lock(lock) => begun_lock(lock, trig, facts),
        Awaited::Join(task) => begun_join(facts.ended(task), task, trig),
    }
}

/// Parts begin, from left to right, up to the first that is done.
#[cycle(beginning)]
#[tactic(auto, using(crate::proofs::BeginLaws::until_over, crate::proofs::BeginLaws::until_more, crate::proofs::BeginLaws::known_after))]
fn begin_until<Q: Facts>(parts: &mut Parts, facts: &mut Q)
    requires { begin.KnowsAll (begin.made (Q.facts facts.old)) (shapes parts.old) }
    ensures made { begin.made (Q.facts facts.new) ≡ begin.made (Q.facts facts.old) }
    ensures begun { begin.all_begun (shapes parts.new) (Q.facts facts.new) ≡ begin.begin_until (shapes parts.old) (Q.facts facts.old) }
{
    match parts {
        Parts::End => {}
        Parts::Then(first, rest) => {
            begin_node(first, facts);
            if !first.is_over() {
                begin_until(rest, facts);
            }
        }
    }
}

/// All parts begin, from left to right.
#[cycle(beginning)]
#[tactic(auto, using(crate::proofs::BeginLaws::all_more, crate::proofs::BeginLaws::known_after))]
fn begin_all<Q: Facts>(parts: &mut Parts, facts: &mut Q)
    requires { begin.KnowsAll (begin.made (Q.facts facts.old)) (shapes parts.old) }
    ensures made { begin.made (Q.facts facts.new) ≡ begin.made (Q.facts facts.old) }
    ensures begun { begin.all_begun (shapes parts.new) (Q.facts facts.new) ≡ begin.begin_all (shapes parts.old) (Q.facts facts.old) }
{
    match parts {
        Parts::End => {}
        Parts::Then(first, rest) => {
            begin_node(first, facts);
            begin_all(rest, facts);
        }
    }
}

/// A tree begins.
#[cycle(beginning)]
#[tactic(auto, using(crate::proofs::Staying::keys_stay, crate::proofs::BeginLaws::first_begun, crate::proofs::BeginLaws::combine_begun, crate::proofs::BeginLaws::limit_begun))]
pub fn begin_node<Q: Facts>(node: &mut Node, facts: &mut Q)
    requires { begin.Knows (begin.made (Q.facts facts.old)) (shape node.old) }
    ensures made { begin.made (Q.facts facts.new) ≡ begin.made (Q.facts facts.old) }
    ensures begun { begin.begun (shape node.new) (Q.facts facts.new) ≡ begin.begin (shape node.old) (Q.facts facts.old) }
{
    if node.is_on_keys() {
        return;
    }
    let old = mem::replace(node, Node::gone());
    *node = match old {
        Node::Over(finish) => Node::Over(finish),
        Node::Leaf { on, trig } => begun_leaf(on, trig, facts),
        Node::Cycles { key, left, trig } => Node::Cycles { key, left, trig },
        Node::First(parts) => {
            let mut parts = parts;
            begin_until(&mut parts, facts);
            Node::first(parts)
        }
        Node::Combine { trig, parts } => {
            let mut parts = parts;
            begin_all(&mut parts, facts);
            Node::combine(trig, parts)
        }
        Node::Limit { due, inner } => {
            let mut inner = inner;
            begin_node(&mut inner, facts);
            Node::limit(false, due, inner)
        }
    };
}
