//! Instructions that are made from the last to the first.
ghost use Rattle.std.specs.Prelude.{◌≡◌, ◌∷◌, ◌++◌, ◌<◌, [], length, OnOk};
ghost use Rattle.v_exec.specs.Packing.{too_many, skip_front};

use crate::instruction::Instruction;
use port_io::NoMemory;
use std::alloc::Global;
use std::marker::Model;

/// Instructions that are made from the last to the first, so that each jump knows how far it leads. Contracts see them in the order
/// in which they run.
#[derive(Drop)]
pub(crate) struct Backwards {
    list: Vec<Instruction>,
}

impl Model for Backwards {
    ghost use Rattle.std.specs.Prelude.{List, reverse};
    ghost use Rattle.v_exec.specs.declared.instruction.Instruction.{Instruction};

    ghost Value = { List Instruction };

    ghost view = { λ b. reverse b.list.items };
}

impl Backwards {
    /// No instruction. It takes no memory.
    pub(crate) fn new(alloc: Global) -> Self
        ensures { result ≡ [] }
    {
        Backwards {
            list: Vec::new(alloc),
        }
    }

    /// Adds an instruction in front of all others.
    pub(crate) fn put(&mut self, instruction: Instruction) -> Result<(), NoMemory>
        ensures is { OnOk result (self.new ≡ instruction ∷ self.old) }
        ensures fits { OnOk result (length self.new < too_many) }
    {
        self.list.push(instruction)?;
        Ok(())
    }

    /// Adds a jump over so many instructions, in front of all others; to pass over none takes no jump.
    #[tactic(auto, using(crate::proofs::Skips::skips))]
    pub(crate) fn skip(&mut self, passed: usize) -> Result<(), NoMemory>
        requires { length self.old < too_many }
        ensures is { OnOk result (self.new ≡ skip_front passed self.old) }
        ensures fits { OnOk result (length self.new < too_many) }
    {
        if passed == 0 {
            return Ok(());
        }
        self.put(Instruction::Skip(passed))
    }

    /// How many instructions there are.
    pub(crate) fn len(&self) -> usize
        ensures { result ≡ length self.now }
    {
        self.list.len()
    }

    /// Moves all instructions behind those of a list, in the order in which they run.
    pub(crate) fn move_behind(&mut self, code: &mut Vec<Instruction>) -> Result<(), NoMemory>
        ensures code { OnOk result (code.new.items ≡ code.old.items ++ self.old) }
        ensures none { OnOk result (self.new ≡ []) }
    {
        self.list.reverse();
        code.append(&mut self.list)?;
        Ok(())
    }
}
