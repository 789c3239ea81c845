//! Expressions of one, two and three operands.

ghost use Rattle.std.specs.Prelude.{IfOk};
ghost use Rattle.v_flat.specs.declared.operators.BinaryClass.TheVariants.{Combines, Compares, Joins, Shifts};
ghost use Rattle.v_check.specs.Constants.Made.{MakesUnary, MakesBinary, MakesConditional, AreLowered};

use crate::constants::checked::Checked;
use crate::constants::waiting::{beside, both_ok};
use crate::contextual::Contextual;
use gpi::{Arith, Compare, Logic, Shift, Term};
use port_io::NoMemory;
use std::alloc::Global;
use v_flat::{BinaryClass, UnaryClass};

/// Both, each in a context of its own. Only want of memory is an error.
fn lower_both(
    alloc: Global,
    left: Contextual,
    left_width: u8,
    right: Contextual,
    right_width: u8,
) -> Result<(Term, Term), NoMemory>
    ensures { IfOk result (AreLowered left left_width right right_width) }
{
    both_ok(
        left.lower(alloc, left_width),
        right.lower(alloc, right_width),
    )
}

/// A unary operator on its operand. Only want of memory is an error.
pub(crate) fn made_of_one(
    alloc: Global,
    class: UnaryClass,
    operand: Checked,
) -> Result<Checked, NoMemory>
    ensures { IfOk result (MakesUnary class operand) }
{
    let Checked { width, form } = operand;
    match class {
        UnaryClass::Keeps(op) => Ok(Checked {
            width,
            form: Contextual::unary(alloc, op, form)?,
        }),
        UnaryClass::Folds(op) => {
            let operand = form.lower(alloc, width)?;
            Ok(Checked {
                width: 1,
                form: Contextual::Settled(Term::reduce(alloc, op, operand)?),
            })
        }
    }
}

/// An operator that keeps the width of the wider operand. Only want of memory is an error.
fn combined(alloc: Global, op: Arith, left: Checked, right: Checked) -> Result<Checked, NoMemory>
    ensures { IfOk result (MakesBinary (Combines op) left right) }
{
    let width = left.width.max(right.width);
    Ok(Checked {
        width,
        form: Contextual::arith(alloc, op, left.form, right.form)?,
    })
}

/// A comparison, at the width of the wider operand. Only want of memory is an error.
fn compared(alloc: Global, op: Compare, left: Checked, right: Checked) -> Result<Checked, NoMemory>
    ensures { IfOk result (MakesBinary (Compares op) left right) }
{
    let wide = left.width.max(right.width);
    let (a, b) = lower_both(alloc, left.form, wide, right.form, wide)?;
    Ok(Checked {
        width: 1,
        form: Contextual::Settled(Term::compare(alloc, op, a, b)?),
    })
}

/// A connective of two truth values. Only want of memory is an error.
fn joined(alloc: Global, op: Logic, left: Checked, right: Checked) -> Result<Checked, NoMemory>
    ensures { IfOk result (MakesBinary (Joins op) left right) }
{
    let (a, b) = lower_both(alloc, left.form, left.width, right.form, right.width)?;
    Ok(Checked {
        width: 1,
        form: Contextual::Settled(Term::logic(alloc, op, a, b)?),
    })
}

/// A shift of the left operand by the right one. Only want of memory is an error.
fn shifted(alloc: Global, op: Shift, left: Checked, right: Checked) -> Result<Checked, NoMemory>
    ensures { IfOk result (MakesBinary (Shifts op) left right) }
{
    let count = right.form.lower(alloc, right.width);
    let (count, form) = beside(count, left.form)?;
    Ok(Checked {
        width: left.width,
        form: Contextual::shift(alloc, op, form, count)?,
    })
}

/// A binary operator on its operands. Only want of memory is an error.
pub(crate) fn made_of_two(
    alloc: Global,
    class: BinaryClass,
    left: Checked,
    right: Checked,
) -> Result<Checked, NoMemory>
    ensures { IfOk result (MakesBinary class left right) }
{
    match class {
        BinaryClass::Combines(op) => combined(alloc, op, left, right),
        BinaryClass::Compares(op) => compared(alloc, op, left, right),
        BinaryClass::Joins(op) => joined(alloc, op, left, right),
        BinaryClass::Shifts(op) => shifted(alloc, op, left, right),
    }
}

/// `condition ? yes : no`. Only want of memory is an error.
pub(crate) fn made_of_three(
    alloc: Global,
    condition: Checked,
    yes: Checked,
    no: Checked,
) -> Result<Checked, NoMemory>
    ensures { IfOk result (MakesConditional condition yes no) }
{
    let width = yes.width.max(no.width);
    let condition = condition.form.lower(alloc, condition.width);
    let (condition, (yes, no)) = beside(condition, (yes.form, no.form))?;
    Ok(Checked {
        width,
        form: Contextual::conditional(alloc, condition, yes, no)?,
    })
}
