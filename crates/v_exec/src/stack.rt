//! Operands.
ghost use Rattle.std.specs.Prelude.{◌≡◌, ◌<◌, ◌≤◌, ◌∷◌, [], length, IfOk};
ghost use Rattle.v_exec.specs.Stack.{stack_of, stack_room};

use four_value::Bits;
use port_io::NoMemory;
use std::alloc::Global;

/// Operands, with room for as many as were asked for.
#[derive(Drop)]
pub(crate) struct Stack {
    slots: Vec<Bits>,
}

impl Stack {
    /// No operand, and room for so many.
    pub(crate) fn of(alloc: Global, depth: usize) -> Result<Stack, NoMemory>
        ensures { IfOk result (λ made. depth ≤ stack_room made) }
    {
        Ok(Stack {
            slots: Vec::with_capacity(alloc, depth)?,
        })
    }

    /// Takes all operands off.
    #[tactic(auto, unfolding(crate::specs::Stack::stack_of))]
    pub(crate) fn clear(&mut self)
        ensures none { stack_of self.new ≡ [] }
        ensures room { stack_room self.new ≡ stack_room self.old }
    {
        self.slots.clear();
    }

    /// Puts an operand on top.
    #[inline(always)]
    #[tactic(auto, unfolding(crate::specs::Stack::stack_of))]
    pub(crate) fn push(&mut self, bits: Bits)
        requires { length (stack_of self.old) < stack_room self.old }
        ensures is { stack_of self.new ≡ bits ∷ stack_of self.old }
        ensures room { stack_room self.new ≡ stack_room self.old }
    {
        self.slots.push_reserved(bits);
    }

    /// Takes the top off.
    #[inline(always)]
    #[tactic(auto, unfolding(crate::specs::Stack::stack_of))]
    pub(crate) fn pop(&mut self) -> Bits
        requires { 0 < length (stack_of self.old) }
        ensures is { stack_of self.old ≡ result ∷ stack_of self.new }
        ensures space { length (stack_of self.new) < stack_room self.new }
        ensures room { stack_room self.new ≡ stack_room self.old }
    {
        self.slots.take_last()
    }
}
