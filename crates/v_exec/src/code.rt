//! The instructions of all processes.
ghost use Rattle.std.specs.Prelude.{◌≡◌};

use crate::instruction::Instruction;

/// The processes of a design, packed: the instructions of all one after the other, each up to its `Stop`.
#[derive(Drop)]
pub struct Code {
    pub(crate) instructions: Vec<Instruction>,
    /// Where each process begins, by its number.
    pub(crate) starts: Vec<usize>,
    /// The most operands that stand on the stack at once.
    pub(crate) depth: usize,
    /// The most stores that one activation does.
    pub(crate) most_stores: usize,
}

impl Code {
    /// The most updates that one activation appends.
    pub fn most_stores(&self) -> usize
        ensures { result ≡ self.now.most_stores }
    {
        self.most_stores
    }
}
