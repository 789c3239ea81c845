//! The instructions of expressions.
ghost use Rattle.std.specs.Prelude.{◌≡◌, ◌+◌, ◌≤◌, ◌<◌, length, OnOk, IfOk};
ghost use Rattle.v_exec.specs.Packing.{too_many, term_front, term_depth, operation_of, deepest};

use super::backwards::Backwards;
use crate::instruction::Instruction;
use gpi::Term;
use port_io::NoMemory;

impl Backwards {
    /// Adds the instructions that put the value of an expression on top of the operands, in front of all others. Tells how many
    /// operands they need room for.
    pub(crate) fn term(&mut self, term: &Term) -> Result<usize, NoMemory>
        ensures is { OnOk result (self.new ≡ term_front term.now self.old) }
        ensures depth { IfOk result (λ depth. depth ≡ term_depth term.now) }
        ensures some { IfOk result (λ depth. 1 ≤ depth) }
        ensures few { IfOk result (λ depth. depth + length self.old ≤ length self.new) }
        ensures fits { OnOk result (length self.new < too_many) }
    {
        self.put(operation(term))?;
        match term {
            Term::Const(_) | Term::Signal(_, _) => Ok(1),
            Term::Word(_, a, _) | Term::Unary(_, a) | Term::Reduce(_, a) => self.term(a),
            Term::Repeat(_, a) | Term::Resize(a, _) => self.term(a),
            Term::Select(a, _, b, _) | Term::Arith(_, a, b) | Term::Compare(_, a, b) => {
                let second = self.term(b)?;
                Ok(deepest(self.term(a)?, second))
            }
            Term::Logic(_, a, b) | Term::Shift(_, a, b) | Term::Concat(a, b) => {
                let second = self.term(b)?;
                Ok(deepest(self.term(a)?, second))
            }
            Term::Cond(condition, a, b) => {
                let second = self.term(b)?;
                let branches = deepest(self.term(a)?, second);
                Ok(deepest(self.term(condition)?, branches))
            }
        }
    }
}

/// The room for what needs `first` operands, and then for what needs `second` on top of its value.
pub(super) fn deepest(first: usize, second: usize) -> usize
    requires { second < too_many }
    ensures { result ≡ deepest first second }
{
    first.max(second + 1)
}

/// The instruction that makes the value of an expression from those of its operands.
fn operation(term: &Term) -> Instruction
    ensures { result ≡ operation_of term.now }
{
    match term {
        Term::Const(bits) => Instruction::Constant(*bits),
        Term::Signal(sig, _) => Instruction::Signal(*sig),
        Term::Word(words, _, width) => Instruction::Word(*words, *width),
        Term::Select(_, range, _, width) => Instruction::Select(*range, *width),
        Term::Unary(op, _) => Instruction::Unary(*op),
        Term::Arith(op, _, _) => Instruction::Arith(*op),
        Term::Compare(op, _, _) => Instruction::Compare(*op),
        Term::Logic(op, _, _) => Instruction::Logic(*op),
        Term::Reduce(op, _) => Instruction::Reduce(*op),
        Term::Shift(op, _, _) => Instruction::Shift(*op),
        Term::Cond(_, _, _) => Instruction::Choose,
        Term::Concat(_, _) => Instruction::Concat,
        Term::Repeat(count, _) => Instruction::Repeat(*count),
        Term::Resize(_, width) => Instruction::Resize(*width),
    }
}
