//! Instructions of packed processes.

use four_value::Bits;
use gpi::{Arith, CaseKind, Compare, Logic, Range, Reduce, Shift, SigId, Unary, Words};

/// One step of a packed process. Operands stand on a stack; of two the second one stands on top.
#[derive(Clone, Copy)]
pub enum Instruction {
    /// Pushes a number.
    Constant(Bits),
    /// Pushes what a signal shows.
    Signal(SigId),
    /// Replaces an index by the word of a memory, whose words have this width (clause 5.2.2); all x where there is none.
    Word(Words, u8),
    /// Replaces a vector of this range and an index by as many digits as the width, from the index upwards (clause 5.2.1).
    Select(Range, u8),
    Unary(Unary),
    Arith(Arith),
    Compare(Compare),
    Logic(Logic),
    Reduce(Reduce),
    Shift(Shift),
    /// `?:` (clause 5.1.13), the condition first.
    Choose,
    /// A concatenation of two, the high part first (clause 5.1.14).
    Concat,
    /// So many copies (clause 5.1.14).
    Repeat(u8),
    /// The same digits in this width: zeros above, or the highest cut.
    Resize(u8),
    /// Pushes digits of the top, which stays: as many as `width` from the place `low` on.
    Part { low: u8, width: u8 },
    /// Takes the top off.
    Discard,
    /// Takes a condition off, and passes over so many instructions where it isn't true (clause 9.4).
    Unless(usize),
    /// Passes over so many instructions.
    Skip(usize),
    /// Takes a label off, below which the value of a case statement stays, and passes over so many instructions where the two agree
    /// (clause 9.5).
    Match(CaseKind, usize),
    /// Takes the indices of the place off, the last one on top, and below them the digits that it is given (clause 9.2).
    Store(Place, Mode),
    /// Writes what was noted, in order.
    WriteNoted,
    /// The end of a process.
    Stop,
}

/// Where digits are stored.
#[derive(Clone, Copy)]
pub enum Place {
    /// A whole signal.
    Signal(SigId),
    /// A whole word of a memory, by an index.
    Word(Words),
    /// Digits of a signal that has this range and width: `count` of them, from an index upwards.
    SignalPart {
        sig: SigId,
        range: Range,
        width: u8,
        count: u8,
    },
    /// The same of a word of a memory, by the index of the word and that of the least digit.
    WordPart {
        words: Words,
        range: Range,
        width: u8,
        count: u8,
    },
}

/// When stored digits are written.
#[derive(Clone, Copy)]
pub enum Mode {
    /// At once: a blocking assignment (clause 9.2.1).
    Now,
    /// By the next `WriteNoted`: a part of a braced target of a blocking assignment, whose indices are all evaluated before the first part is
    /// written.
    Noted,
    /// As an update that comes so many steps later: a nonblocking assignment (clause 9.2.2).
    Later(u64),
}
