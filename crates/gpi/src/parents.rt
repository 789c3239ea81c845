//! Whether the nodes of a design form one tree: the table of parents, and what follows from it.
ghost use Rattle.std.specs.Prelude.{◌≡◌, ℕ, ◌+◌, ◌<◌, ◌≤◌, ◌==◌, ◌↔◌, length, IsTrue, true, if◌then◌else◌, slice_get, Some, None};
ghost use Rattle.gpi.specs.Limits.{most_elements};
ghost use Rattle.gpi.specs.Soundness.{IsTree, is_child, times_among, times_child};
ghost use Rattle.gpi.specs.Tables.{held, claimed, AreParents, AreEmpty};

use crate::depths::are_rooted;
use crate::design::{MOST_ELEMENTS, Node, Spot};
use port_io::{Name, Sequence};

/// Whether the nodes form one tree below node 0. It takes no memory: the parents and the depths of the nodes lie in two
/// tables on the stack, of half a MiB each. Its time grows with the number of nodes and of their children.
pub fn is_tree(nodes: &Sequence<Node>) -> bool
    requires { length nodes.now ≤ most_elements }
    ensures { IsTrue result ↔ IsTree nodes.now }
{
    let mut parents = [None; MOST_ELEMENTS];
    let mut depths = [None; MOST_ELEMENTS];
    is_tree_in(nodes, &mut parents, &mut depths)
}

/// The same, in two tables that may be longer.
#[tactic(auto, using(crate::proofs::Trees::empty_take))]
fn is_tree_in(
    nodes: &Sequence<Node>,
    parents: &mut [Option<u32>],
    depths: &mut [Option<u32>],
) -> bool
    requires few { length nodes.now ≤ most_elements }
    requires parents { AreEmpty most_elements parents.old }
    requires depths { AreEmpty most_elements depths.old }
    ensures { IsTrue result ↔ IsTree nodes.now }
{
    let count = nodes.len();
    is_tree_by(nodes, &mut parents[..count], &mut depths[..count])
}

/// The same, with a table of parents and one of depths in which nothing stands.
fn is_tree_by(
    nodes: &Sequence<Node>,
    parents: &mut [Option<u32>],
    depths: &mut [Option<u32>],
) -> bool
    requires few { length nodes.now ≤ most_elements }
    requires parents { AreEmpty (length nodes.now) parents.old }
    requires depths { AreEmpty (length nodes.now) depths.old }
    ensures { IsTrue result ↔ IsTree nodes.now }
{
    if nodes.is_empty() || !note_parents(nodes, parents) {
        return false;
    }
    parents[0].is_none() && are_rooted(parents, depths)
}

/// Notes the parent of each node; false at a node that has a second one.
fn note_parents(nodes: &Sequence<Node>, parents: &mut [Option<u32>]) -> bool
    requires few { length nodes.now ≤ most_elements }
    requires empty { AreEmpty (length nodes.now) parents.old }
    ensures count { length parents.new ≡ length nodes.now }
    ensures once { IsTrue result ↔ ((v : ℕ) → v < length nodes.now → times_child v nodes.now ≤ 1) }
    ensures is { IsTrue result → AreParents 0 nodes.now parents.new }
{
    let mut at = nodes.len();
    'back: while at > 0 {
        at -= 1;
        if !claim(&nodes.get(at).children, at as u32, parents) {
            return false;
        }
    }
    true
}

/// Notes a node as the parent of these children; false at a child that has a parent.
fn claim(children: &Sequence<(Name, Spot)>, node: u32, parents: &mut [Option<u32>]) -> bool
    ensures count { length parents.new ≡ length parents.old }
    ensures once { IsTrue result ↔ ((v : ℕ) → v < length parents.old → times_among v children.now + held (slice_get parents.old v) ≤ 1) }
    ensures is { IsTrue result → (v : ℕ) → v < length parents.old → slice_get parents.new v ≡ claimed v node children.now (slice_get parents.old v) }
{
    let mut at = children.len();
    'back: while at > 0 {
        at -= 1;
        if !claim_one(children.get(at).1, node, parents) {
            return false;
        }
    }
    true
}

/// Notes a node as the parent of this child; false if it has one.
fn claim_one(child: Spot, node: u32, parents: &mut [Option<u32>]) -> bool
    ensures count { length parents.new ≡ length parents.old }
    ensures once { IsTrue result ↔ ((v : ℕ) → v < length parents.old → is_child v child ≡ true → slice_get parents.old v ≡ Some None) }
    ensures is { IsTrue result → (v : ℕ) → v < length parents.old
        → slice_get parents.new v ≡ (if is_child v child then Some (Some node) else slice_get parents.old v) }
{
    match child {
        Spot::Inner(inner) if (inner as usize) < parents.len() => {
            let free = parents[inner as usize].is_none();
            parents[inner as usize] = Some(node);
            free
        }
        _ => true,
    }
}
