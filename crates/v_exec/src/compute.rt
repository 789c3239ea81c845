//! The instructions that change the stack alone.
ghost use Rattle.std.specs.Prelude.{◌≡◌, ◌<◌, ◌≤◌, ◌*◌, ℕ, [], length, IsTrue};
ghost use Rattle.four_value.specs.Limits.{most_digits};
ghost use Rattle.gpi.specs.Limits.{most_elements};
ghost use Rattle.gpi.specs.Selects.{word_at};
ghost use Rattle.gpi.specs.Terms.{widths_of, read, copies, word_value, AreWords};
ghost use Rattle.v_exec.specs.Machine.{stack_after};
ghost use Rattle.v_exec.specs.Fits.{Takes, leaves_stack};
ghost use Rattle.v_exec.specs.Stack.{stack_of, stack_room};
ghost use Rattle.v_exec.specs.Running.{computes, operates, operates_more, shape_of};

use crate::instruction::Instruction;
use crate::stack::Stack;
use four_value::{Bits, Digit};
use gpi::{Words, chosen};

/// Does an instruction that changes the stack alone.
#[inline(always)]
#[tactic(auto, using(four_value::proofs::Lengths::lengths, gpi::proofs::Widths::widths, crate::proofs::Operands::operands))]
pub(crate) fn compute(instruction: &Instruction, shown: &[Bits], stack: &mut Stack)
    requires few { length shown.now ≤ most_elements }
    requires computes { IsTrue (computes instruction.now) }
    requires takes { Takes instruction.now (record { depth = stack_room stack.old; stores = 0 }) (widths_of shown.now)
        (shape_of (stack_of stack.old)) }
    ensures is { stack_of stack.new ≡ stack_after instruction.now shown.now (stack_of stack.old) }
    ensures widths { widths_of (stack_of stack.new) ≡ leaves_stack instruction.now (widths_of shown.now) (widths_of (stack_of stack.old)) }
    ensures room { stack_room stack.new ≡ stack_room stack.old }
{
    match instruction {
        Instruction::Constant(bits) => stack.push(*bits),
        Instruction::Signal(sig) => stack.push(shown[sig.0 as usize]),
        Instruction::Word(words, width) => {
            let index = stack.pop().to_number();
            stack.push(word(*words, index, *width, shown));
        }
        Instruction::Select(range, width) => {
            let index = stack.pop().to_number();
            let from = stack.pop();
            stack.push(range.select(from, index, *width));
        }
        Instruction::Part { low, width } => {
            let whole = stack.pop();
            stack.push(whole);
            stack.push(whole.slice(*low, *width));
        }
        Instruction::Discard => {
            stack.pop();
        }
        _ => operate(instruction, stack),
    }
}

/// Does an operator on one operand, or one on more.
#[inline(always)]
#[tactic(auto, using(four_value::proofs::Lengths::lengths, gpi::proofs::Widths::widths, crate::proofs::Operands::operands))]
fn operate(instruction: &Instruction, stack: &mut Stack)
    requires operates { IsTrue (operates instruction.now) }
    requires takes { Takes instruction.now (record { depth = stack_room stack.old; stores = 0 }) [] (shape_of (stack_of stack.old)) }
    ensures is { stack_of stack.new ≡ stack_after instruction.now [] (stack_of stack.old) }
    ensures widths { widths_of (stack_of stack.new) ≡ leaves_stack instruction.now [] (widths_of (stack_of stack.old)) }
    ensures room { stack_room stack.new ≡ stack_room stack.old }
{
    match instruction {
        Instruction::Unary(op) => {
            let a = stack.pop();
            stack.push(op.apply(a));
        }
        Instruction::Reduce(op) => {
            let a = stack.pop();
            stack.push(Bits::all(1, op.apply(a)));
        }
        Instruction::Repeat(n) => {
            let a = stack.pop();
            stack.push(repeated(*n, a));
        }
        Instruction::Resize(width) => {
            let a = stack.pop();
            stack.push(a.resize(*width));
        }
        _ => operate_more(instruction, stack),
    }
}

/// Does an operator on two operands, or `?:`.
#[inline(always)]
#[tactic(auto, using(four_value::proofs::Lengths::lengths, gpi::proofs::Widths::widths, crate::proofs::Operands::operands))]
fn operate_more(instruction: &Instruction, stack: &mut Stack)
    requires operates { IsTrue (operates_more instruction.now) }
    requires takes { Takes instruction.now (record { depth = stack_room stack.old; stores = 0 }) [] (shape_of (stack_of stack.old)) }
    ensures is { stack_of stack.new ≡ stack_after instruction.now [] (stack_of stack.old) }
    ensures widths { widths_of (stack_of stack.new) ≡ leaves_stack instruction.now [] (widths_of (stack_of stack.old)) }
    ensures room { stack_room stack.new ≡ stack_room stack.old }
{
    let last = stack.pop();
    let first = stack.pop();
    let bits = match *instruction {
        Instruction::Arith(op) => op.apply(first, last),
        Instruction::Compare(op) => Bits::all(1, op.apply(first, last)),
        Instruction::Logic(op) => Bits::all(1, op.apply(first, last)),
        Instruction::Shift(op) => op.apply(first, last),
        Instruction::Concat => first.concat(last),
        _ => chosen(stack.pop().reduce_or(), first, last),
    };
    stack.push(bits);
}

/// The word of a memory at an index, whose words have so many digits; all x where there is none (clause 5.2.2).
#[inline(always)]
#[tactic(auto, using(gpi::proofs::Widths::widths))]
fn word(words: Words, index: Option<u128>, width: u8, shown: &[Bits]) -> Bits
    requires few { length shown.now ≤ most_elements }
    requires words { AreWords words width (widths_of shown.now) }
    ensures is { result ≡ word_value (word_at words index) width (read shown.now) }
    ensures wide { length result ≡ width }
{
    match words.at(index) {
        Some(sig) => shown[sig as usize],
        None => Bits::all(width, Digit::X),
    }
}

/// So many copies of a vector, one after the other (clause 5.1.14).
fn repeated(n: u8, bits: Bits) -> Bits
    requires some { 1 ≤ n }
    requires few { n * length bits ≤ most_digits }
    ensures is { result ≡ copies n bits }
    ensures wide { length result ≡ n * length bits }
{
    if n == 1 {
        bits
    } else {
        repeated(n - 1, bits).concat(bits)
    }
}
