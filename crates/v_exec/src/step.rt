//! One instruction.
ghost use Rattle.std.specs.Prelude.{◌≡◌, ◌≤◌, ◌+◌, ℕ, length, vec_len, vec_capacity};
ghost use Rattle.gpi.specs.Terms.{widths_of};
ghost use Rattle.gpi.specs.Targets.{AreFitting};
ghost use Rattle.gpi.specs.Activation.{Map};
ghost use Rattle.gpi.specs.Cases.{all_agree};
ghost use Rattle.v_exec.specs.Machine.{effect, below, unless_top, where_agree};
ghost use Rattle.v_exec.specs.Fits.{Takes, Has_one, Has_two, leaves_stack, stores_after};
ghost use Rattle.v_exec.specs.Stack.{stack_of, stack_room};
ghost use Rattle.v_exec.specs.Running.{machine_of, shape_of, goes_to, room_left, IsRunning, Grows};

use crate::compute::compute;
use crate::instruction::Instruction;
use crate::stack::Stack;
use crate::store::{store, write_noted};
use crate::workspace::Workspace;
use four_value::{Bits, Digit};
use gpi::{CaseKind, Update};

/// Does one instruction, and tells how many of those behind it are passed over; None at the end of a process.
#[inline(always)]
#[tactic(auto, using(crate::proofs::Operands::operands))]
pub(crate) fn step(
    instruction: &Instruction,
    shown: &mut [Bits],
    hidden: &mut [Option<Bits>],
    later: &mut Vec<Update>,
    work: &mut Workspace,
) -> Option<usize>
    ghost before: { Map }
    requires running { IsRunning before shown.old hidden.old work.old }
    requires fits { AreFitting later.old.items (widths_of shown.old) }
    requires takes { Takes instruction.now (room_left work.old (vec_len later.old) (vec_capacity later.old)) (widths_of shown.old)
        (shape_of (stack_of work.old.stack)) }
    ensures goes { result ≡ goes_to instruction.now (machine_of work.old shown.old hidden.old later.old.items) }
    ensures is { machine_of work.new shown.new hidden.new later.new.items
        ≡ effect instruction.now (machine_of work.old shown.old hidden.old later.old.items) }
    ensures shape { widths_of (stack_of work.new.stack) ≡ leaves_stack instruction.now (widths_of shown.old) (widths_of (stack_of work.old.stack)) }
    ensures widths { widths_of shown.new ≡ widths_of shown.old }
    ensures running { IsRunning before shown.new hidden.new work.new }
    ensures fits { AreFitting later.new.items (widths_of shown.old) }
    ensures grows { Grows (stores_after instruction.now 0) work.old work.new }
    ensures few { length later.new.items ≤ stores_after instruction.now 0 + length later.old.items }
    ensures room { vec_capacity later.new ≡ vec_capacity later.old }
{
    match instruction {
        Instruction::Stop => return None,
        Instruction::Skip(n) => return Some(*n),
        Instruction::Unless(n) => return Some(unless(*n, &mut work.stack)),
        Instruction::Match(kind, n) => return Some(match_label(*kind, *n, &mut work.stack)),
        Instruction::Store(place, mode) => store(*place, *mode, shown, hidden, later, work),
        Instruction::WriteNoted => write_noted(shown, hidden, work),
        _ => compute(instruction, shown, &mut work.stack),
    }
    Some(0)
}

/// Takes a condition off: 0 where it is true, else `n` (clause 9.4).
#[inline(always)]
#[tactic(auto, using(crate::proofs::Operands::operands))]
fn unless(n: usize, stack: &mut Stack) -> usize
    requires { Has_one (λ a. Unit {0}) (widths_of (stack_of stack.old)) }
    ensures is { result ≡ unless_top n (stack_of stack.old) }
    ensures below { stack_of stack.new ≡ below (stack_of stack.old) }
    ensures room { stack_room stack.new ≡ stack_room stack.old }
{
    match stack.pop().reduce_or() {
        Digit::One => 0,
        _ => n,
    }
}

/// Takes a label off: `n` where it agrees with the value below it, which stays, else 0 (clause 9.5).
#[inline(always)]
#[tactic(auto, using(crate::proofs::Operands::operands))]
fn match_label(kind: CaseKind, n: usize, stack: &mut Stack) -> usize
    requires { Has_two (λ a b. a ≡ b) (widths_of (stack_of stack.old)) }
    ensures is { result ≡ where_agree n (all_agree kind) (stack_of stack.old) }
    ensures below { stack_of stack.new ≡ below (stack_of stack.old) }
    ensures room { stack_room stack.new ≡ stack_room stack.old }
{
    let label = stack.pop();
    let bits = stack.pop();
    stack.push(bits);
    if agree(kind, bits, label) { n } else { 0 }
}

/// Whether two vectors of one width agree (clause 9.5.1).
#[inline(always)]
#[tactic(auto, using(crate::proofs::Agree::agrees_exactly))]
fn agree(kind: CaseKind, a: Bits, b: Bits) -> bool
    requires { length a ≡ length b }
    ensures { result ≡ all_agree kind a b }
{
    match kind {
        CaseKind::Exact => a.case_eq(b) == Digit::One,
        _ => kind.all_agree(a, b),
    }
}
