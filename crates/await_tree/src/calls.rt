//! What is asked of a tree.
ghost use Rattle.std.specs.Prelude.{◌≡◌, ◌≤◌, ◌^◌, ◌∷◌, [], None, IfOk, OnOk, IfErr, IfSome};
ghost use Rattle.py_value.specs.Trigger.{IsSound};
ghost use Rattle.await_tree.specs.Tree.{leaves, lone};
ghost use Rattle.await_tree.specs.Begin as begin;
ghost use Rattle.await_tree.specs.Fire as fire;
ghost use Rattle.await_tree.specs.Check as check;
ghost use Rattle.await_tree.specs.Steps.{step_of, rest_of, IsFaultOf};
ghost use Rattle.await_tree.specs.Shape.{shape};
ghost use Rattle.await_tree.specs.Whole.{tree_in};

use crate::begin::{Facts, begin_node};
use crate::build::{node_of, node_refusal};
use crate::cause::{Awaited, Cause, Step, TreeFault};
use crate::fire::fire_node;
use crate::grant::grant_node;
use crate::leaves::Leaves;
use crate::node::Node;
use crate::tree::Tree;
use gpi::Region;
use port_io::NoMemory;
use py_value::{LockNo, Trig};
use std::alloc::Global;
use std::mem;

/// The result of a tree that is done, which is taken out of it.
fn answered(node: &mut Node) -> Step
    ensures answer { result ≡ step_of (shape node.old) }
    ensures rest { shape node.new ≡ rest_of (shape node.old) }
{
    if !node.is_over() {
        return Step::Still;
    }
    match mem::replace(node, Node::gone()) {
        Node::Over(finish) => Step::Done(finish.given()),
        _ => unreachable!(),
    }
}

/// The tree of a trigger, as large as the trigger at most.
#[tactic(auto, using(crate::proofs::Few::few_made))]
fn made(alloc: Global, trig: &Trig, now: u64) -> Result<Tree, NoMemory>
    requires sound { IsSound trig.now }
    requires time { now ≤ 2 ^ 63 }
    ensures { IfOk result (λ tree. tree_in tree ≡ check.tree_of trig.now now) }
{
    let node = node_of(alloc, trig, now)?;
    Ok(Tree { node })
}

impl Tree {
    /// The tree of a trigger that is awaited at a time, in steps, and in a region, not begun yet (cocotb 1.8, "Triggers"). It has a copy
    /// of each trigger that may be a result.
    ///
    /// `Raised` comes exactly where a leaf may not begin, with the fault of the first such leaf from the left: OverflowError where it would
    /// be due after 2^62 steps, RuntimeError where it is `ReadWrite` or `ReadOnly` and the region is that of the read-only phase.
    pub fn of(alloc: Global, trig: &Trig, now: u64, region: Region) -> Result<Tree, TreeFault>
        requires sound { IsSound trig.now }
        requires time { now ≤ 2 ^ 63 }
        ensures tree { IfOk result (λ tree. tree_in tree ≡ check.tree_of trig.now now) }
        ensures good { OnOk result (check.check trig.now now region ≡ None) }
        ensures refused { IfErr result (IsFaultOf (check.check trig.now now region)) }
    {
        let tree = match made(alloc, trig, now) {
            Ok(tree) => tree,
            Err(NoMemory) => return Err(TreeFault::OutOfMemory),
        };
        match node_refusal(&tree.node, region) {
            Some(fault) => Err(TreeFault::Raised(fault)),
            None => Ok(tree),
        }
    }

    /// The tree begins: its leaves from left to right, but no part of a `First` after one that is done. It takes no memory. After `Done`
    /// nothing of it is left.
    #[tactic(auto, using(crate::proofs::Few::few_begun))]
    pub fn begin<Q: Facts>(&mut self, facts: &mut Q) -> Step
        requires { begin.Knows (begin.made (Q.facts facts.old)) (tree_in self.old) }
        ensures answer { result ≡ step_of (begin.begin (tree_in self.old) (Q.facts facts.old)).tree }
        ensures rest { tree_in self.new ≡ rest_of (begin.begin (tree_in self.old) (Q.facts facts.old)).tree }
        ensures facts { Q.facts facts.new ≡ (begin.begin (tree_in self.old) (Q.facts facts.old)).facts }
    {
        begin_node(&mut self.node, facts);
        answered(&mut self.node)
    }

    /// All waiting leaves on the cause are reached at once; of two parts that it completes the leftmost counts. It takes no memory. After
    /// `Done` nothing of the tree is left.
    #[tactic(auto, using(crate::proofs::Few::few_fired))]
    pub fn fire(&mut self, cause: &Cause) -> Step
        ensures answer { result ≡ step_of (fire.fire cause.now (tree_in self.old)) }
        ensures rest { tree_in self.new ≡ rest_of (fire.fire cause.now (tree_in self.old)) }
    {
        fire_node(&mut self.node, *cause);
        answered(&mut self.node)
    }

    /// The leftmost waiting leaf on the lock gets it, if there is one. It takes no memory. After `Done` nothing of the tree is left.
    #[tactic(auto, using(crate::proofs::Few::few_granted))]
    pub fn grant(&mut self, lock: LockNo) -> Step
        ensures answer { result ≡ step_of (fire.grant lock (tree_in self.old)) }
        ensures rest { tree_in self.new ≡ rest_of (fire.grant lock (tree_in self.old)) }
    {
        grant_node(&mut self.node, lock);
        answered(&mut self.node)
    }

    /// What a tree waits for that is one leaf or counts edges, and none for others. It takes no memory.
    pub fn lone(&self) -> Option<Awaited>
        ensures is { result ≡ lone (tree_in self.now) }
        ensures leaves { IfSome result (λ on. leaves (tree_in self.now) ≡ on ∷ []) }
    {
        match &self.node {
            Node::Leaf { on, .. } => Some(*on),
            Node::Cycles { key, .. } => Some(Awaited::Key(*key)),
            _ => None,
        }
    }

    /// What the waiting leaves wait for, from left to right, the time of a limit behind the leaves of what it limits. It takes no memory.
    pub fn leaves(&self) -> Leaves
        ensures { result ≡ leaves (tree_in self.now) }
    {
        let mut leaves = Leaves::none();
        leaves.add_node(&self.node);
        leaves
    }
}
