//! Expressions, made of their parts.

ghost use Rattle.std.specs.Prelude.{◌≡◌, IfOk};
ghost use Rattle.py_syntax.specs.ExpressionTrees as tree;
ghost use Rattle.py_syntax.specs.ExpressionTrees.{NoPart, view, view_part};
ghost use Rattle.py_syntax.specs.declared.expression.Operation.TheVariants as operation;
ghost use Rattle.test_functions.specs.Expressions.Rows.{parts_of, trees_of};

use port_io::{Name, NoMemory, boxed, boxed_both};
use py_syntax::{BinOp, BoolOp, Const, Expression, FormatPart, Function, Method, UnOp};
use std::alloc::Global;
use test_meaning::factory::copied;

/// A constant. Only want of memory is an error.
pub fn constant(alloc: Global, value: &Const) -> Result<Expression, NoMemory>
    ensures { IfOk result (λ made. view made ≡ tree.Constant value.now) }
{
    Ok(Expression::Constant(copied(alloc, value)?))
}

/// A name. Only want of memory is an error.
pub fn name(alloc: Global, name: &[u8]) -> Result<Expression, NoMemory>
    ensures { IfOk result (λ made. view made ≡ tree.Name name.now) }
{
    Ok(Expression::Name(Name::of(alloc, name)?))
}

/// `(inner)`. Only want of memory is an error.
pub(crate) fn bracketed(alloc: Global, inner: Expression) -> Result<Expression, NoMemory>
    ensures { IfOk result (λ made. view made ≡ tree.Bracketed (view inner)) }
{
    Ok(Expression::Bracketed(boxed(alloc, inner)?))
}

/// `base.name`. Only want of memory is an error.
pub(crate) fn attribute(
    alloc: Global,
    base: Expression,
    name: &[u8],
) -> Result<Expression, NoMemory>
    ensures { IfOk result (λ made. view made ≡ tree.Attribute (view base) name.now) }
{
    let base = boxed(alloc, base)?;
    Ok(Expression::Attribute(base, Name::of(alloc, name)?))
}

/// `base[index]`. Only want of memory is an error.
pub(crate) fn subscript(
    alloc: Global,
    base: Expression,
    index: Expression,
) -> Result<Expression, NoMemory>
    ensures { IfOk result (λ made. view made ≡ tree.Subscript (view base) (view index)) }
{
    let (base, index) = boxed_both(alloc, base, index)?;
    Ok(Expression::Subscript(base, index))
}

/// `base.method()`. Only want of memory is an error.
pub(crate) fn method_call(
    alloc: Global,
    base: Expression,
    method: Method,
) -> Result<Expression, NoMemory>
    ensures { IfOk result (λ made. view made ≡ tree.MethodCall (view base) method) }
{
    Ok(Expression::MethodCall(boxed(alloc, base)?, method))
}

/// An operator before its operand. Only want of memory is an error.
pub(crate) fn unary(alloc: Global, op: UnOp, operand: Expression) -> Result<Expression, NoMemory>
    ensures { IfOk result (λ made. view made ≡ tree.Unary op (view operand)) }
{
    Ok(Expression::Unary(op, boxed(alloc, operand)?))
}

/// An operator between operands that are both evaluated. Only want of memory is an error.
pub fn binary(
    alloc: Global,
    op: BinOp,
    left: Expression,
    right: Expression,
) -> Result<Expression, NoMemory>
    ensures { IfOk result (λ made. view made ≡ tree.Infix (operation.Binary op) (view left) (view right)) }
{
    let (left, right) = boxed_both(alloc, left, right)?;
    Ok(Expression::Binary(op, left, right))
}

/// `or` or `and` between operands. Only want of memory is an error.
pub fn choice(
    alloc: Global,
    op: BoolOp,
    left: Expression,
    right: Expression,
) -> Result<Expression, NoMemory>
    ensures { IfOk result (λ made. view made ≡ tree.Infix (operation.Bool op) (view left) (view right)) }
{
    let (left, right) = boxed_both(alloc, left, right)?;
    Ok(Expression::Bool(op, left, right))
}

/// A call of a function with these arguments.
pub fn function_call(function: Function, arguments: Vec<Expression>) -> Expression
    ensures { view result ≡ tree.Call function (trees_of arguments.items) }
{
    Expression::Call(function, arguments)
}

/// An f-string of these parts.
pub(crate) fn format_string(parts: Vec<FormatPart>) -> Expression
    ensures { view result ≡ tree.FormatString (parts_of parts.items) }
{
    Expression::FormatString(parts)
}

/// A part of an f-string that stands for itself. Only want of memory is an error.
pub(crate) fn text_part(alloc: Global, text: &[u8]) -> Result<FormatPart, NoMemory>
    ensures { IfOk result (λ made. view_part made NoPart ≡ tree.TextThen text.now NoPart) }
{
    Ok(FormatPart::Text(Name::of(alloc, text)?))
}

/// A part of an f-string that is an expression. Only want of memory is an error.
pub(crate) fn formatted_part(alloc: Global, inner: Expression) -> Result<FormatPart, NoMemory>
    ensures { IfOk result (λ made. view_part made NoPart ≡ tree.FormattedThen (view inner) NoPart) }
{
    Ok(FormatPart::Formatted(boxed(alloc, inner)?))
}
