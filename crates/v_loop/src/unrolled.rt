//! How far a design is unrolled.

ghost use Rattle.std.specs.Prelude.{◌≡◌, ◌+◌, ◌≤◌, OnErr, OnOk};
ghost use Rattle.v_loop.specs.Unrolled.{most_unrolled};

use port_io::NoMemory;
use std::marker::Model;

/// The most nodes and turns to which a design may be unrolled.
const MOST_UNROLLED: u32 = 16_777_216;

/// To how many nodes a design is unrolled so far, over all its procedures: a statement is a node, and so is each number, name, operator, bracket
/// and brace of its expressions and targets; all count in each turn of the loops around the statement, and each turn counts as one. Contracts
/// see it as that number. It is there so that a short text can't take all memory: loops inside of loops multiply, each by at most 4,096.
#[derive(Drop)]
pub struct Unrolled {
    nodes: u32,
}

impl Model for Unrolled {
    ghost use Rattle.std.specs.Prelude.{ℕ};

    ghost Value = { ℕ };

    ghost view = { λ s. s.nodes };
}

impl Unrolled {
    /// No node yet.
    pub fn none() -> Unrolled
        ensures { result ≡ 0 }
    {
        Unrolled { nodes: 0 }
    }

    /// Counts one node, or one turn, more. That there are more than a design may have is want of memory; then the count stays.
    pub fn count(&mut self) -> Result<(), NoMemory>
        ensures ok { OnOk result (self.new ≡ self.old + 1) }
        ensures few { OnOk result (self.new ≤ most_unrolled) }
        ensures err { OnErr result (self.new ≡ self.old) }
        ensures many { OnErr result (most_unrolled ≤ self.old) }
    {
        if self.nodes < MOST_UNROLLED {
            self.nodes += 1;
            Ok(())
        } else {
            Err(NoMemory)
        }
    }
}
