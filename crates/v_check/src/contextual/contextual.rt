//! Expressions that wait for the width of their context.

ghost use Rattle.std.specs.Prelude.{IfOk};
ghost use Rattle.v_check.specs.Contextual.Contexts.{IsLowered, MakesUnary, MakesArith, MakesShift, MakesConditional};

use gpi::{Arith, Shift, Term, Unary};
use port_io::{NoMemory, boxed, boxed_both};
use std::alloc::Global;

/// An expression whose names are signals, and whose width is that of its context (clause 5.4.1).
#[derive(Drop)]
pub enum Contextual {
    /// It has its own width, and its value is widened by zeros or cut.
    Settled(Term),
    /// An operator whose operand takes the width of the context.
    Unary(Unary, Box<Contextual>),
    /// An operator both of whose operands take the width of the context.
    Arith(Arith, Box<Contextual>, Box<Contextual>),
    /// A shift: what is shifted takes the width of the context, and the count has its own.
    Shift(Shift, Box<Contextual>, Term),
    /// `?:`: the condition has its own width, and both branches take that of the context.
    Conditional(Term, Box<Contextual>, Box<Contextual>),
}

impl Contextual {
    /// An operator whose operand takes the width of the context. Only want of memory is an error.
    pub fn unary(alloc: Global, op: Unary, a: Contextual) -> Result<Contextual, NoMemory>
        ensures { IfOk result (MakesUnary op a) }
    {
        Ok(Contextual::Unary(op, boxed(alloc, a)?))
    }

    /// An operator whose operands take the width of the context. Only want of memory is an error.
    pub fn arith(
        alloc: Global,
        op: Arith,
        a: Contextual,
        b: Contextual,
    ) -> Result<Contextual, NoMemory>
        ensures { IfOk result (MakesArith op a b) }
    {
        let (a, b) = boxed_both(alloc, a, b)?;
        Ok(Contextual::Arith(op, a, b))
    }

    /// A shift by a count that has its own width. Only want of memory is an error.
    pub fn shift(
        alloc: Global,
        op: Shift,
        a: Contextual,
        count: Term,
    ) -> Result<Contextual, NoMemory>
        ensures { IfOk result (MakesShift op a count) }
    {
        Ok(Contextual::Shift(op, boxed(alloc, a)?, count))
    }

    /// `condition ? a : b`, where the condition has its own width. Only want of memory is an error.
    pub fn conditional(
        alloc: Global,
        condition: Term,
        a: Contextual,
        b: Contextual,
    ) -> Result<Contextual, NoMemory>
        ensures { IfOk result (MakesConditional condition a b) }
    {
        let (a, b) = boxed_both(alloc, a, b)?;
        Ok(Contextual::Conditional(condition, a, b))
    }

    /// The expression in a context of `width` digits. Only want of memory is an error.
    #[cycle(lowering)]
    pub fn lower(self, alloc: Global, width: u8) -> Result<Term, NoMemory>
        ensures { IfOk result (IsLowered self width) }
    {
        match self {
            Contextual::Settled(term) => Term::resize(alloc, term, width),
            Contextual::Unary(op, a) => {
                Term::unary(alloc, op, Box::into_inner(a).lower(alloc, width)?)
            }
            Contextual::Arith(op, a, b) => {
                let (a, b) = lower_both(alloc, Box::into_inner(a), Box::into_inner(b), width)?;
                Term::arith(alloc, op, a, b)
            }
            Contextual::Shift(op, a, count) => {
                let a = Box::into_inner(a).lower(alloc, width)?;
                Term::shift(alloc, op, a, count)
            }
            Contextual::Conditional(condition, a, b) => {
                let (a, b) = lower_both(alloc, Box::into_inner(a), Box::into_inner(b), width)?;
                Term::cond(alloc, condition, a, b)
            }
        }
    }
}

/// Both in a context of `width` digits. Only want of memory is an error.
#[cycle(lowering)]
fn lower_both(
    alloc: Global,
    a: Contextual,
    b: Contextual,
    width: u8,
) -> Result<(Term, Term), NoMemory>
    ensures { IfOk result (λ made. IsLowered a width made.0 × IsLowered b width made.1) }
{
    let a = a.lower(alloc, width)?;
    Ok((a, b.lower(alloc, width)?))
}
