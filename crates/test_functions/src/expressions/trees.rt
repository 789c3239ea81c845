//! Expressions.

ghost use Rattle.std.specs.Prelude.{◌≡◌, map, IfOk};
ghost use Rattle.py_syntax.specs.ExpressionTrees.{NoPart, view, view_part};
ghost use Rattle.test_functions.specs.Expressions.Rows.{parts_of};
ghost use Rattle.test_meaning.specs.Bodies.{name_in, parts_in, tree_in};

use crate::expressions::Meanings;
use crate::expressions::made::{
    attribute, binary, bracketed, choice, constant, format_string, formatted_part, function_call,
    method_call, name, subscript, text_part, unary,
};
use port_io::NoMemory;
use py_syntax::{Expression, FormatPart};
use std::alloc::Global;

/// A name, or the value of the constant that it is the name of. Only want of memory is an error.
fn named<M: Meanings>(alloc: Global, meanings: &M, text: &[u8]) -> Result<Expression, NoMemory>
    ensures { IfOk result (λ made. view made ≡ name_in (M.inside meanings.now) text.now) }
{
    match meanings.fixed(text) {
        Some(value) => constant(alloc, value),
        None => name(alloc, text),
    }
}

/// An expression with the values of constants in place of their names. Only want of memory is an error.
#[cycle(expressions)]
pub fn expression<M: Meanings>(
    alloc: Global,
    meanings: &M,
    tree: &Expression,
) -> Result<Expression, NoMemory>
    ensures { IfOk result (λ made. view made ≡ tree_in (M.inside meanings.now) (view tree.now)) }
{
    match tree {
        Expression::Constant(value) => constant(alloc, value),
        Expression::FormatString(parts) => Ok(format_string(format_parts(alloc, meanings, parts)?)),
        Expression::Name(text) => named(alloc, meanings, text.bytes()),
        Expression::Bracketed(inner) => bracketed(alloc, expression(alloc, meanings, inner)?),
        Expression::Attribute(base, text) => attribute(
            alloc,
            expression(alloc, meanings, base)?,
            text.bytes(),
        ),
        Expression::Subscript(base, index) => {
            let base = expression(alloc, meanings, base)?;
            subscript(alloc, base, expression(alloc, meanings, index)?)
        }
        Expression::Call(function, arguments) => Ok(function_call(
            *function,
            expressions(alloc, meanings, arguments)?,
        )),
        Expression::MethodCall(base, method) => method_call(
            alloc,
            expression(alloc, meanings, base)?,
            *method,
        ),
        Expression::Unary(op, operand) => unary(alloc, *op, expression(alloc, meanings, operand)?),
        Expression::Binary(op, left, right) => {
            let left = expression(alloc, meanings, left)?;
            binary(alloc, *op, left, expression(alloc, meanings, right)?)
        }
        Expression::Bool(op, left, right) => {
            let left = expression(alloc, meanings, left)?;
            choice(alloc, *op, left, expression(alloc, meanings, right)?)
        }
    }
}

/// Expressions with the values of constants in place of their names. Only want of memory is an error.
#[cycle(expressions)]
pub fn expressions<M: Meanings>(
    alloc: Global,
    meanings: &M,
    trees: &[Expression],
) -> Result<Vec<Expression>, NoMemory>
    ensures { IfOk result (λ made. map view made.items ≡ map (λ e. tree_in (M.inside meanings.now) (view e)) trees.now) }
{
    let mut made = Vec::new(alloc);
    for tree in trees {
        let one = expression(alloc, meanings, tree)?;
        made.push(one)?;
    }
    Ok(made)
}

/// A part of an f-string with the values of constants in place of their names. Only want of memory is an error.
#[cycle(expressions)]
fn format_part<M: Meanings>(
    alloc: Global,
    meanings: &M,
    part: &FormatPart,
) -> Result<FormatPart, NoMemory>
    ensures { IfOk result (λ made. view_part made NoPart ≡ parts_in (M.inside meanings.now) (view_part part.now NoPart)) }
{
    match part {
        FormatPart::Text(text) => text_part(alloc, text.bytes()),
        FormatPart::Formatted(inner) => formatted_part(alloc, expression(alloc, meanings, inner)?),
    }
}

/// The parts of an f-string with the values of constants in place of their names. Only want of memory is an error.
#[cycle(expressions)]
fn format_parts<M: Meanings>(
    alloc: Global,
    meanings: &M,
    parts: &[FormatPart],
) -> Result<Vec<FormatPart>, NoMemory>
    ensures { IfOk result (λ made. parts_of made.items ≡ parts_in (M.inside meanings.now) (parts_of parts.now)) }
{
    let mut made = Vec::new(alloc);
    for part in parts {
        let one = format_part(alloc, meanings, part)?;
        made.push(one)?;
    }
    Ok(made)
}
