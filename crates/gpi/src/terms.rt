//! Expressions.
ghost use Rattle.std.specs.Prelude.{◌≡◌, ℕ, ◌+◌, ◌*◌, ◌<◌, ◌≤◌, length, IfOk};
ghost use Rattle.four_value.specs.Limits.{most_digits};
ghost use Rattle.gpi.specs.Limits.{most_elements};
ghost use Rattle.gpi.specs.Terms.{value, width, IsSound, read, widths_of, copies};
ghost use Rattle.gpi.specs.Made.{
  MakesWord,
  MakesSelect,
  MakesUnary,
  MakesArith,
  MakesCompare,
  MakesLogic,
  MakesReduce,
  MakesShift,
  MakesCond,
  MakesConcat,
  MakesRepeat,
  MakesResize,
  IsCopy,
};

use crate::both_ok::both_ok;
use crate::operators::{Arith, Compare, Logic, Reduce, Shift, Unary, chosen};
use crate::selects::{Range, Words};
use crate::types::SigId;
use four_value::{Bits, Digit};
use port_io::{NoMemory, boxed, boxed_both};
use std::alloc::Global;

/// An expression whose names are signals and whose widths are settled (clause 5.4): where an operand takes the width of
/// its context, it is widened or cut by a `Resize` below the operator. Each node has one width; leaves and nodes that don't
/// tell it by their operands carry it.
#[derive(Drop)]
pub enum Term {
    /// A number, or the value of a parameter.
    Const(Bits),
    /// A whole signal, and its width.
    Signal(SigId, u8),
    /// A word of a memory, chosen by an index, and the width of its words.
    Word(Words, Box<Term>, u8),
    /// Digits of a signal or a word, which has this range: as many as the last field, from this index upwards. A bit-select
    /// has one, a part-select those from its least index on.
    Select(Box<Term>, Range, Box<Term>, u8),
    Unary(Unary, Box<Term>),
    Arith(Arith, Box<Term>, Box<Term>),
    Compare(Compare, Box<Term>, Box<Term>),
    Logic(Logic, Box<Term>, Box<Term>),
    Reduce(Reduce, Box<Term>),
    Shift(Shift, Box<Term>, Box<Term>),
    /// `?:`, with the condition first.
    Cond(Box<Term>, Box<Term>, Box<Term>),
    /// A concatenation of two, with the high part first (clause 5.1.14).
    Concat(Box<Term>, Box<Term>),
    /// A replication (clause 5.1.14).
    Repeat(u8, Box<Term>),
    /// Zeros above, or the highest digits cut.
    Resize(Box<Term>, u8),
}

impl Term {
    /// A word of a memory, chosen by an index, where the words have `w` digits. Only want of memory is an error.
    pub fn word(alloc: Global, words: Words, index: Term, w: u8) -> Result<Term, NoMemory>
        ensures { IfOk result (MakesWord words index w) }
    {
        Ok(Term::Word(words, boxed(alloc, index)?, w))
    }

    /// `w` digits from an index upwards (clauses 5.2.1 and 5.2.2) of a signal or a word that has this range.
    /// Only want of memory is an error.
    pub fn select(
        alloc: Global,
        from: Term,
        range: Range,
        index: Term,
        w: u8,
    ) -> Result<Term, NoMemory>
        ensures { IfOk result (MakesSelect from range index w) }
    {
        let (from, index) = boxed_both(alloc, from, index)?;
        Ok(Term::Select(from, range, index, w))
    }

    /// An operator on one operand. Only want of memory is an error.
    pub fn unary(alloc: Global, op: Unary, a: Term) -> Result<Term, NoMemory>
        ensures { IfOk result (MakesUnary op a) }
    {
        Ok(Term::Unary(op, boxed(alloc, a)?))
    }

    /// An operator on two operands of one width, which keeps it. Only want of memory is an error.
    pub fn arith(alloc: Global, op: Arith, a: Term, b: Term) -> Result<Term, NoMemory>
        ensures { IfOk result (MakesArith op a b) }
    {
        let (a, b) = boxed_both(alloc, a, b)?;
        Ok(Term::Arith(op, a, b))
    }

    /// A comparison of two operands of one width. Only want of memory is an error.
    pub fn compare(alloc: Global, op: Compare, a: Term, b: Term) -> Result<Term, NoMemory>
        ensures { IfOk result (MakesCompare op a b) }
    {
        let (a, b) = boxed_both(alloc, a, b)?;
        Ok(Term::Compare(op, a, b))
    }

    /// A connective of two truth values. Only want of memory is an error.
    pub fn logic(alloc: Global, op: Logic, a: Term, b: Term) -> Result<Term, NoMemory>
        ensures { IfOk result (MakesLogic op a b) }
    {
        let (a, b) = boxed_both(alloc, a, b)?;
        Ok(Term::Logic(op, a, b))
    }

    /// An operator that gives one digit. Only want of memory is an error.
    pub fn reduce(alloc: Global, op: Reduce, a: Term) -> Result<Term, NoMemory>
        ensures { IfOk result (MakesReduce op a) }
    {
        Ok(Term::Reduce(op, boxed(alloc, a)?))
    }

    /// A shift. Only want of memory is an error.
    pub fn shift(alloc: Global, op: Shift, a: Term, count: Term) -> Result<Term, NoMemory>
        ensures { IfOk result (MakesShift op a count) }
    {
        let (a, count) = boxed_both(alloc, a, count)?;
        Ok(Term::Shift(op, a, count))
    }

    /// `condition ? a : b`
    pub fn cond(alloc: Global, condition: Term, a: Term, b: Term) -> Result<Term, NoMemory>
        ensures { IfOk result (MakesCond condition a b) }
    {
        let (a, b) = boxed_both(alloc, a, b)?;
        Ok(Term::Cond(boxed(alloc, condition)?, a, b))
    }

    /// `{high, low}`
    pub fn concat(alloc: Global, high: Term, low: Term) -> Result<Term, NoMemory>
        ensures { IfOk result (MakesConcat high low) }
    {
        let (high, low) = boxed_both(alloc, high, low)?;
        Ok(Term::Concat(high, low))
    }

    /// `n` copies, one after the other (clause 5.1.14). Only want of memory is an error.
    pub fn repeat(alloc: Global, n: u8, a: Term) -> Result<Term, NoMemory>
        ensures { IfOk result (MakesRepeat n a) }
    {
        Ok(Term::Repeat(n, boxed(alloc, a)?))
    }

    /// The same digits in the width `w`: zeros above, or the highest cut. Only want of memory is an error.
    pub fn resize(alloc: Global, a: Term, w: u8) -> Result<Term, NoMemory>
        ensures { IfOk result (MakesResize a w) }
    {
        Ok(Term::Resize(boxed(alloc, a)?, w))
    }

    /// A copy, which means the same.
    #[cycle(term_copies)]
    pub fn copy(&self, alloc: Global) -> Result<Term, NoMemory>
        ensures { IfOk result (IsCopy self.now) }
    {
        match self {
            Term::Const(bits) => Ok(Term::Const(*bits)),
            Term::Signal(s, w) => Ok(Term::Signal(*s, *w)),
            Term::Word(words, i, w) => Ok(Term::Word(*words, i.copy_boxed(alloc)?, *w)),
            Term::Select(a, range, i, w) => {
                let (a, i) = both_ok(a.copy_boxed(alloc), i.copy_boxed(alloc))?;
                Ok(Term::Select(a, *range, i, *w))
            }
            Term::Unary(op, a) => Ok(Term::Unary(*op, a.copy_boxed(alloc)?)),
            Term::Arith(op, a, b) => {
                let (a, b) = both_ok(a.copy_boxed(alloc), b.copy_boxed(alloc))?;
                Ok(Term::Arith(*op, a, b))
            }
            Term::Compare(op, a, b) => {
                let (a, b) = both_ok(a.copy_boxed(alloc), b.copy_boxed(alloc))?;
                Ok(Term::Compare(*op, a, b))
            }
            Term::Logic(op, a, b) => {
                let (a, b) = both_ok(a.copy_boxed(alloc), b.copy_boxed(alloc))?;
                Ok(Term::Logic(*op, a, b))
            }
            Term::Reduce(op, a) => Ok(Term::Reduce(*op, a.copy_boxed(alloc)?)),
            Term::Shift(op, a, b) => {
                let (a, b) = both_ok(a.copy_boxed(alloc), b.copy_boxed(alloc))?;
                Ok(Term::Shift(*op, a, b))
            }
            Term::Cond(t, a, b) => {
                let operands = both_ok(a.copy_boxed(alloc), b.copy_boxed(alloc));
                let (t, (a, b)) = both_ok(t.copy_boxed(alloc), operands)?;
                Ok(Term::Cond(t, a, b))
            }
            Term::Concat(a, b) => {
                let (a, b) = both_ok(a.copy_boxed(alloc), b.copy_boxed(alloc))?;
                Ok(Term::Concat(a, b))
            }
            Term::Repeat(n, a) => Ok(Term::Repeat(*n, a.copy_boxed(alloc)?)),
            Term::Resize(a, w) => Ok(Term::Resize(a.copy_boxed(alloc)?, *w)),
        }
    }

    /// A copy on the heap.
    #[cycle(term_copies)]
    fn copy_boxed(&self, alloc: Global) -> Result<Box<Term>, NoMemory>
        ensures { IfOk result (λ made. IsCopy self.now made.value) }
    {
        boxed(alloc, self.copy(alloc)?)
    }

    /// The value, by the values of the signals.
    #[tactic(auto, using(four_value::proofs::Lengths::lengths, crate::proofs::Widths::widths))]
    pub fn eval(&self, signals: &[Bits]) -> Bits
        requires few { length signals.now ≤ most_elements }
        requires sound { IsSound self.now (widths_of signals.now) }
        ensures is { result ≡ value self.now (read signals.now) }
        ensures wide { length result ≡ width self.now }
    {
        match self {
            Term::Const(bits) => *bits,
            Term::Signal(s, _) => signals[s.0 as usize],
            Term::Word(words, i, w) => {
                let index = i.eval(signals).to_number();
                match words.at(index) {
                    Some(s) => signals[s as usize],
                    None => Bits::all(*w, Digit::X),
                }
            }
            Term::Select(a, range, i, w) => {
                let index = i.eval(signals).to_number();
                range.select(a.eval(signals), index, *w)
            }
            Term::Unary(op, a) => op.apply(a.eval(signals)),
            Term::Arith(op, a, b) => op.apply(a.eval(signals), b.eval(signals)),
            Term::Compare(op, a, b) => Bits::all(1, op.apply(a.eval(signals), b.eval(signals))),
            Term::Logic(op, a, b) => Bits::all(1, op.apply(a.eval(signals), b.eval(signals))),
            Term::Reduce(op, a) => Bits::all(1, op.apply(a.eval(signals))),
            Term::Shift(op, a, b) => op.apply(a.eval(signals), b.eval(signals)),
            Term::Cond(t, a, b) => {
                let truth = t.eval(signals).reduce_or();
                chosen(truth, a.eval(signals), b.eval(signals))
            }
            Term::Concat(a, b) => a.eval(signals).concat(b.eval(signals)),
            Term::Repeat(n, a) => repeated(*n, a.eval(signals)),
            Term::Resize(a, w) => a.eval(signals).resize(*w),
        }
    }
}

/// `n` copies of a vector, one after the other.
fn repeated(n: u8, bits: Bits) -> Bits
    requires some { 1 ≤ n }
    requires few { n * length bits ≤ most_digits }
    ensures is { result ≡ copies n bits }
    ensures wide { length result ≡ n * length bits }
{
    if n == 1 {
        bits
    } else {
        repeated(n - 1, bits).concat(bits)
    }
}
