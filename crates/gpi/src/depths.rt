//! Whether one comes from each node to node 0: the table of depths.
ghost use Rattle.std.specs.Prelude.{◌≡◌, ℕ, ◌<◌, ◌≤◌, ◌↔◌, length, IsTrue, slice_get, Some, MatchOption};
ghost use Rattle.gpi.specs.Limits.{most_elements};
ghost use Rattle.gpi.specs.Tables.{comes, AreInside, AreEmpty, AreDepths, IsDepth, IsDepthFound};

/// Whether one comes from each node to node 0, by the table of parents, with a table of depths in which nothing stands.
pub fn are_rooted(parents: &[Option<u32>], depths: &mut [Option<u32>]) -> bool
    requires some { 0 < length parents.now }
    requires few { length parents.now ≤ most_elements }
    requires inside { AreInside parents.now }
    requires empty { AreEmpty (length parents.now) depths.old }
    ensures { IsTrue result ↔ ((v : ℕ) → v < length parents.now → IsTrue (comes (length parents.now) parents.now v)) }
{
    depths[0] = Some(0);
    for node in 0..parents.len() {
        match depth_of(node as u32, parents, depths) {
            Some(depth) => note_depths(node as u32, depth, parents, depths),
            None => return false,
        }
    }
    true
}

/// How many steps there are from a node to node 0, if one comes there: those to the first node whose depth is known, and
/// its depth. No more steps are gone than there are nodes.
fn depth_of(node: u32, parents: &[Option<u32>], depths: &[Option<u32>]) -> Option<u32>
    requires node { node < length parents.now }
    requires few { length parents.now ≤ most_elements }
    requires inside { AreInside parents.now }
    requires known { AreDepths parents.now depths.now }
    ensures { IsDepthFound result parents.now node }
{
    let count = parents.len() as u32;
    let mut at = node;
    let mut steps = 0u32;
    'up: while steps < count && depths[at as usize].is_none() {
        match parents[at as usize] {
            Some(above) => at = above,
            None => return None,
        }
        steps += 1;
    }
    let known = depths[at as usize];
    match known {
        Some(depth) => within(depth + steps, count),
        None => None,
    }
}

/// A number, if it is no more than another.
fn within(n: u32, most: u32) -> Option<u32>
    ensures { MatchOption result (most < n) (λ found. (found ≡ n) × (n ≤ most)) }
{
    if n <= most { Some(n) } else { None }
}

/// Notes the depth of a node, and of those above it up to the first whose depth is known.
fn note_depths(node: u32, depth: u32, parents: &[Option<u32>], depths: &mut [Option<u32>])
    requires node { node < length parents.now }
    requires inside { AreInside parents.now }
    requires known { AreDepths parents.now depths.old }
    requires depth { IsDepth parents.now node depth }
    requires few { depth ≤ length parents.now }
    ensures { AreDepths parents.now depths.new }
{
    let mut at = node;
    let mut left = depth;
    'up: while left > 0 && depths[at as usize].is_none() {
        depths[at as usize] = Some(left);
        match parents[at as usize] {
            Some(above) => at = above,
            None => return,
        }
        left -= 1;
    }
}
