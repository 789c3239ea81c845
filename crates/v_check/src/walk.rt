//! The walk over an expression.

ghost use Rattle.std.specs.Prelude.{◌≡◌, IfOk};
ghost use Rattle.v_flat.specs.Scope.Scope.{means};
ghost use Rattle.v_syntax.specs.ExpressionTrees.{view, view_select, view_selects, views};
ghost use Rattle.v_flat.specs.Checks.{constant_of};
ghost use Rattle.v_check.specs.Constants.Checked.{IsChecked, IsCount};
ghost use Rattle.v_check.specs.Parts.Parts.{AreChecked};
ghost use Rattle.v_check.specs.Names.Proper.{AreProper};
ghost use Rattle.v_check.specs.Names.Selects.{AreSelects, IsIndex, IsSelect};

use crate::constants::{Checked, binary, bracketed, conditional, counted, number, unary};
use crate::names::{CheckedSelect, CheckedSelects, by_itself, fixed_index, named};
use crate::parts::{Parts, concatenation, replication};
use four_value::Bits;
use gpi::Term;
use port_io::NoMemory;
use std::alloc::Global;
use v_flat::scope::{Found, Scope};
use v_syntax::{Expression, Select, Selects};

/// What is found in an expression: what is broken first, its width where that is known, and what it is in each context (IEEE
/// 1364-2005, clause 5.4).
/// Only want of memory is an error.
#[cycle(checking)]
pub fn check(
    alloc: Global,
    scope: &Scope,
    expression: &Expression,
) -> Result<Found<Checked>, NoMemory>
    requires { AreProper (means scope.now) }
    ensures { IfOk result (IsChecked (means scope.now) (view expression.now)) }
{
    match expression {
        Expression::Number { value, .. } => Ok(number(*value)),
        Expression::Operand(operand) => {
            let selects = selects_by(alloc, scope, false, &operand.selects)?;
            Ok(named(alloc, scope, operand.name.bytes(), operand.at, selects)?)
        }
        Expression::Bracketed { at, inner } => Ok(bracketed(*at, check(alloc, scope, inner)?)),
        Expression::Unary {
            at,
            operator,
            operand,
        } => Ok(unary(alloc, *at, *operator, check(alloc, scope, operand)?)?),
        Expression::Binary {
            operator,
            left,
            right,
        } => {
            let a = check(alloc, scope, left)?;
            let b = check(alloc, scope, right)?;
            Ok(binary(alloc, left.first(), *operator, a, b)?)
        }
        Expression::Conditional { condition, yes, no } => {
            let test = check(alloc, scope, condition)?;
            let a = check(alloc, scope, yes)?;
            let b = check(alloc, scope, no)?;
            Ok(conditional(alloc, condition.first(), test, a, b)?)
        }
        Expression::Concatenation { at, parts } => {
            Ok(concatenation(alloc, *at, all(alloc, scope, parts)?)?)
        }
        Expression::Replication { at, count, parts } => {
            let times = check(alloc, scope, count)?;
            let times = counted_by(alloc, scope, count, times)?;
            let parts = all(alloc, scope, parts)?;
            Ok(replication(alloc, *at, times, parts)?)
        }
    }
}

/// The parts of braces, from the last one to the first. Only want of memory is an error.
#[cycle(checking)]
fn all(alloc: Global, scope: &Scope, expressions: &[Expression]) -> Result<Found<Parts>, NoMemory>
    requires { AreProper (means scope.now) }
    ensures { IfOk result (AreChecked (means scope.now) (views expressions.now)) }
{
    let mut found = Parts::none(alloc);
    for at in (0..expressions.len()).rev() {
        let part = check(alloc, scope, &expressions[at])?;
        found = Parts::before(alloc, part, found)?;
    }
    Ok(found)
}

/// A count, from what was found in its expression. Only want of memory is an error.
fn counted_by(
    alloc: Global,
    scope: &Scope,
    expression: &Expression,
    found: Found<Checked>,
) -> Result<Found<u8>, NoMemory>
    requires { IsChecked (means scope.now) (view expression.now) found }
    ensures { IfOk result (IsCount (means scope.now) (view expression.now)) }
{
    let value = crate::constants::constant(alloc, scope, expression, found)?;
    Ok(counted(expression.first(), value))
}

/// An index, from what was found in its expression: the value of a constant where it has to be one (clause 6.1). Only want of memory
/// is an error.
fn index_by(
    alloc: Global,
    scope: &Scope,
    fixed: bool,
    expression: &Expression,
    found: Found<Checked>,
) -> Result<Found<Term>, NoMemory>
    requires { IsChecked (means scope.now) (view expression.now) found }
    ensures { IfOk result (IsIndex fixed (means scope.now) (view expression.now)) }
{
    if fixed {
        let value = crate::constants::constant(alloc, scope, expression, found)?;
        Ok(fixed_index(value))
    } else {
        Ok(by_itself(alloc, found)?)
    }
}

/// A select, all of whose expressions are checked; its index has to be a constant where it is fixed. Only want of memory is an error.
#[cycle(checking)]
fn select(
    alloc: Global,
    scope: &Scope,
    fixed: bool,
    select: &Select,
) -> Result<CheckedSelect, NoMemory>
    requires { AreProper (means scope.now) }
    ensures { IfOk result (IsSelect fixed (means scope.now) (view_select select.now)) }
{
    match select {
        Select::Bit { at, index } => {
            let found = check(alloc, scope, index)?;
            let index = index_by(alloc, scope, fixed, index, found)?;
            Ok(CheckedSelect::Bit { at: *at, index })
        }
        Select::Part { at, left, right } => {
            let found = check(alloc, scope, left)?;
            let first = crate::constants::constant(alloc, scope, left, found)?;
            let found = check(alloc, scope, right)?;
            let last = crate::constants::constant(alloc, scope, right, found)?;
            Ok(CheckedSelect::Part {
                at: *at,
                left: first,
                right: last,
            })
        }
        Select::IndexedPart { at, base, width } => {
            let found = check(alloc, scope, width)?;
            let count = counted_by(alloc, scope, width, found)?;
            let found = check(alloc, scope, base)?;
            let index = index_by(alloc, scope, fixed, base, found)?;
            Ok(CheckedSelect::IndexedPart {
                at: *at,
                base: index,
                width: count,
            })
        }
    }
}

/// The selects behind a name, all of whose expressions are checked, whatever the name is; indices have to be constants where the selects
/// are fixed. Only want of memory is an error.
#[cycle(checking)]
pub(crate) fn selects_by(
    alloc: Global,
    scope: &Scope,
    fixed: bool,
    selects: &Selects,
) -> Result<CheckedSelects, NoMemory>
    requires { AreProper (means scope.now) }
    ensures { IfOk result (AreSelects fixed (means scope.now) (view_selects selects.now)) }
{
    match selects {
        Selects::Whole => Ok(CheckedSelects::Whole),
        Selects::One(one) => Ok(CheckedSelects::One(select(alloc, scope, fixed, one)?)),
        Selects::OfWord {
            word,
            select: part,
            ..
        } => {
            let found = check(alloc, scope, word)?;
            let index = index_by(alloc, scope, fixed, word, found)?;
            Ok(CheckedSelects::OfWord(index, select(alloc, scope, fixed, part)?))
        }
    }
}

/// The value of an expression that has to be a constant (clause 5). Only want of memory is an error.
pub fn constant(
    alloc: Global,
    scope: &Scope,
    expression: &Expression,
) -> Result<Found<Bits>, NoMemory>
    requires { AreProper (means scope.now) }
    ensures { IfOk result (λ value. value ≡ constant_of (means scope.now) (view expression.now)) }
{
    let found = check(alloc, scope, expression)?;
    Ok(crate::constants::constant(alloc, scope, expression, found)?)
}
