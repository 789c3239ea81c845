//! Lists of numbers that are linked by index.
ghost use Rattle.trigger_table.specs.Links.{IsLinked};

/// Lists of keys, both of which are numbers below a limit. A key is in one list at most. Each list is a ring of nodes through a head, with
/// links in both directions, so that a key is put behind the last or taken out from anywhere in constant time.
#[derive(Drop)]
pub(crate) struct Rings {
    /// The head of list `n` is node `2 * n`, and the node of key `k` is `2 * k + 1`. A node that is in no ring stands alone.
    pub(crate) next: Vec<usize>,
    pub(crate) prev: Vec<usize>,
    /// The list that each key is in.
    pub(crate) owners: Vec<Option<usize>>,
    ghost linked: { IsLinked next.items prev.items owners.items },
}
