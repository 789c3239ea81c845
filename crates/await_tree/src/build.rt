//! The tree of a trigger, and why it may not begin.
ghost use Rattle.std.specs.Prelude.{◌≡◌, ◌+◌, ◌<◌, ◌≤◌, ◌^◌, IfOk};
ghost use Rattle.py_value.specs.Trigger as trigger;
ghost use Rattle.py_value.specs.Trigger.{IsSound, AreSound, IsSoundForm, IsOne, row};
ghost use Rattle.await_tree.specs.Tree as tree;
ghost use Rattle.await_tree.specs.Check as check;
ghost use Rattle.await_tree.specs.Shape.{shape, shapes};

use crate::cause::Awaited;
use crate::finish::Finish;
use crate::node::{Node, Parts};
use gpi::{Key, Region, SigId};
use port_io::{NoMemory, boxed, boxed_both};
use py_syntax::FaultKind;
use py_value::{Fault, Form, Trig, Trigs};
use std::alloc::Global;

/// The latest time for which a leaf may be due, in steps.
const LAST_TIME: u64 = 4_611_686_018_427_387_904;

/// Why a leaf may not begin in a region, if it may not. It takes no memory.
pub fn refusal(on: Awaited, region: Region) -> Option<Fault>
    ensures { result ≡ check.refusal on region }
{
    match on {
        Awaited::Key(Key::At(due)) if due > LAST_TIME => {
            Some(Fault::plain(FaultKind::OverflowError))
        }
        Awaited::Key(Key::ReadWrite | Key::ReadOnly) if region == Region::End => {
            Some(Fault::plain(FaultKind::RuntimeError))
        }
        _ => None,
    }
}

/// The fault of the first waiting leaf of a tree that may not begin, if there is one. It takes no memory.
#[cycle(refusing)]
#[tactic(auto, using(crate::proofs::Refusing::refused_one, crate::proofs::Refusing::refused_before, crate::proofs::Refusing::refused_last))]
pub fn node_refusal(node: &Node, region: Region) -> Option<Fault>
    ensures { result ≡ check.refusals (tree.leaves (shape node.now)) region }
{
    match node {
        Node::Over(_) => None,
        Node::Leaf { on, .. } => refusal(*on, region),
        Node::Cycles { key, .. } => refusal(Awaited::Key(*key), region),
        Node::First(parts) => parts_refusal(parts, region),
        Node::Combine { parts, .. } => parts_refusal(parts, region),
        Node::Limit { due, inner } => match node_refusal(inner, region) {
            Some(fault) => Some(fault),
            None => refusal(Awaited::Key(Key::At(*due)), region),
        },
    }
}

/// The fault of the first waiting leaf of parts that may not begin, if there is one.
#[cycle(refusing)]
#[tactic(auto, using(crate::proofs::Refusing::refused_before, crate::proofs::Refusing::refused_later))]
fn parts_refusal(parts: &Parts, region: Region) -> Option<Fault>
    ensures { result ≡ check.refusals (tree.all_leaves (shapes parts.now)) region }
{
    match parts {
        Parts::End => None,
        Parts::Then(first, rest) => match node_refusal(first, region) {
            Some(fault) => Some(fault),
            None => parts_refusal(rest, region),
        },
    }
}

/// The key of an edge.
fn edge(rising: bool, sig: SigId) -> Key
    ensures { result ≡ check.edge rising sig }
{
    if rising {
        Key::Rise(sig)
    } else {
        Key::Fall(sig)
    }
}

/// A leaf that gives a copy of its trigger.
fn leaf(alloc: Global, on: Awaited, trig: &Trig) -> Result<Node, NoMemory>
    ensures { IfOk result (λ node. shape node ≡ tree.Leaf on trig.now) }
{
    Ok(Node::Leaf {
        on,
        trig: trig.copy(alloc)?,
    })
}

/// So many edges, with a copy of the trigger.
fn cycles(alloc: Global, key: Key, left: u64, trig: &Trig) -> Result<Node, NoMemory>
    ensures { IfOk result (λ node. shape node ≡ tree.Cycles key left trig.now) }
{
    Ok(Node::Cycles {
        key,
        left,
        trig: trig.copy(alloc)?,
    })
}

/// One part more, in front of the others.
fn before(alloc: Global, first: Node, rest: Parts) -> Result<Parts, NoMemory>
    ensures { IfOk result (λ parts. shapes parts ≡ tree.Then (shape first) (shapes rest)) }
{
    let (first, rest) = boxed_both(alloc, first, rest)?;
    Ok(Parts::Then(first, rest))
}

/// The tree of a trigger at a time, in steps. Only want of memory is an error.
#[cycle(building)]
pub fn node_of(alloc: Global, trig: &Trig, now: u64) -> Result<Node, NoMemory>
    requires sound { IsSound trig.now }
    requires time { now ≤ 2 ^ 63 }
    ensures { IfOk result (λ node. shape node ≡ check.tree_of trig.now now) }
{
    match &trig.form {
        Form::Time(steps) => leaf(alloc, Awaited::Key(Key::At(now + *steps)), trig),
        Form::Rise(sig) => leaf(alloc, Awaited::Key(Key::Rise(*sig)), trig),
        Form::Fall(sig) => leaf(alloc, Awaited::Key(Key::Fall(*sig)), trig),
        Form::Change(sig) => leaf(alloc, Awaited::Key(Key::Change(*sig)), trig),
        Form::ReadWrite => leaf(alloc, Awaited::Key(Key::ReadWrite), trig),
        Form::ReadOnly => leaf(alloc, Awaited::Key(Key::ReadOnly), trig),
        Form::NextStep => leaf(alloc, Awaited::Key(Key::NextStep), trig),
        Form::Cycles { sig, count, rising } => cycles(alloc, edge(*rising, *sig), *count, trig),
        Form::Event(event) => leaf(alloc, Awaited::Event(*event), trig),
        Form::Lock(lock) => leaf(alloc, Awaited::Lock(*lock), trig),
        Form::Join(task) => leaf(alloc, Awaited::Join(*task), trig),
        Form::First(trigs) => first(alloc, trigs, now),
        Form::Combine(trigs) => combine(alloc, trig, trigs, now),
        Form::Limit { inner, steps } => limit(alloc, inner, now + *steps, now),
    }
}

/// A First of the trees of triggers.
#[cycle(building)]
fn first(alloc: Global, trigs: &Trigs, now: u64) -> Result<Node, NoMemory>
    requires sound { AreSound (row trigs.now.list.items) }
    requires time { now ≤ 2 ^ 63 }
    ensures { IfOk result (λ node. shape node ≡ tree.First (check.all_trees (row trigs.now.list.items) now)) }
{
    Ok(Node::First(parts_of(alloc, trigs, now)?))
}

/// A Combine of the trees of triggers, with a copy of its own trigger.
#[cycle(building)]
fn combine(alloc: Global, trig: &Trig, trigs: &Trigs, now: u64) -> Result<Node, NoMemory>
    requires sound { AreSound (row trigs.now.list.items) }
    requires time { now ≤ 2 ^ 63 }
    ensures { IfOk result (λ node. shape node ≡ tree.Combine trig.now (check.all_trees (row trigs.now.list.items) now)) }
{
    let trig = trig.copy(alloc)?;
    Ok(Node::Combine {
        trig,
        parts: parts_of(alloc, trigs, now)?,
    })
}

/// The tree of one trigger, until a time.
#[cycle(building)]
#[tactic(auto, using(crate::proofs::Building::item_falls, crate::proofs::Building::item_sound, crate::proofs::Building::only_tree, crate::proofs::Building::one_is_there))]
fn limit(alloc: Global, inner: &Trigs, due: u64, now: u64) -> Result<Node, NoMemory>
    requires sound { AreSound (row inner.now.list.items) }
    requires one { IsOne (row inner.now.list.items) }
    requires time { now ≤ 2 ^ 63 }
    ensures { IfOk result (λ node. shape node ≡ tree.Limit due (check.only (check.all_trees (row inner.now.list.items) now))) }
{
    let node = node_of(alloc, inner.get(0), now)?;
    Ok(Node::Limit {
        due,
        inner: boxed(alloc, node)?,
    })
}

/// The trees of triggers at a time, in the same order, from the last one on, since each stands in front of those behind it.
#[cycle(building)]
#[tactic(auto, using(crate::proofs::Building::item_falls, crate::proofs::Building::item_sound, crate::proofs::Building::next_trees, crate::proofs::Building::no_trees, crate::proofs::Building::whole_row))]
fn parts_of(alloc: Global, trigs: &Trigs, now: u64) -> Result<Parts, NoMemory>
    requires sound { AreSound (row trigs.now.list.items) }
    requires time { now ≤ 2 ^ 63 }
    ensures { IfOk result (λ parts. shapes parts ≡ check.all_trees (row trigs.now.list.items) now) }
{
    let mut parts = Parts::End;
    let mut at = trigs.len();
    while at > 0 {
        at -= 1;
        parts = before(alloc, node_of(alloc, trigs.get(at), now)?, parts)?;
    }
    Ok(parts)
}
