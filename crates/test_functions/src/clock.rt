//! `Clock.start`.

ghost use Rattle.std.specs.Prelude.{◌≡◌, IfOk};
ghost use Rattle.py_syntax.specs.ExpressionTrees as tree;
ghost use Rattle.py_syntax.specs.ExpressionTrees.{view};
ghost use Rattle.py_syntax.specs.declared.constant.Const.TheVariants as constant;
ghost use Rattle.test_meaning.specs.Body.BodyTrees as body;
ghost use Rattle.test_meaning.specs.Body.Views.{block_of, view_function, view_item, view_statement};
ghost use Rattle.test_functions.specs.Clock.{cycle};
ghost use Rattle.test_meaning.specs.Library.{clock_start, goes_on, set_count, wait_half, write};

use crate::blocks::while_item;
use crate::expressions::{binary, choice, function_call, name};
use port_io::{Name, NoMemory, Sequence, boxed};
use py_syntax as syntax;
use py_syntax::{BinOp, BoolOp, Const, Expression};
use std::alloc::Global;
use test_meaning::body::{Awaited, Function, Item, RightSide, Statement};

/// A whole number.
fn whole(number: i128) -> Expression
    ensures { view result ≡ tree.Constant (constant.Whole number) }
{
    Expression::Constant(Const::Whole(number))
}

/// `cycles is None or n < cycles`. Only want of memory is an error.
fn goes_on(alloc: Global) -> Result<Expression, NoMemory>
    ensures { IfOk result (λ made. view made ≡ goes_on) }
{
    let absent = Expression::Constant(Const::Absent);
    let is_none = binary(alloc, BinOp::Is, name(alloc, b"cycles")?, absent)?;
    let is_below = binary(
        alloc,
        BinOp::Less,
        name(alloc, b"n")?,
        name(alloc, b"cycles")?,
    )?;
    choice(alloc, BoolOp::Or, is_none, is_below)
}

/// An item of one line. Only want of memory is an error.
pub(crate) fn simple(alloc: Global, statement: Statement) -> Result<Item, NoMemory>
    ensures { IfOk result (λ made. view_item made ≡ body.Simple (view_statement statement)) }
{
    Ok(Item::Statement(boxed(alloc, statement)?))
}

/// `n = value`. Only want of memory is an error.
fn set_count(alloc: Global, value: Expression) -> Result<Item, NoMemory>
    ensures { IfOk result (λ made. view_item made ≡ set_count (view value)) }
{
    let n = Name::of(alloc, b"n")?;
    simple(alloc, Statement::Assign(n, RightSide::Value(value)))
}

/// `s.value = value`. Only want of memory is an error.
fn write(alloc: Global, value: Expression) -> Result<Item, NoMemory>
    ensures { IfOk result (λ made. view_item made ≡ write (view value)) }
{
    let signal = name(alloc, b"s")?;
    simple(
        alloc,
        Statement::AssignValue(signal, RightSide::Value(value)),
    )
}

/// `await Timer(half, "step")`. Only want of memory is an error.
fn wait_half(alloc: Global) -> Result<Item, NoMemory>
    ensures { IfOk result (λ made. view_item made ≡ wait_half) }
{
    let mut arguments = Vec::new(alloc);
    arguments.push(name(alloc, b"half")?)?;
    arguments.push(Expression::Constant(Const::Text(Name::of(alloc, b"step")?)))?;
    let timer = function_call(syntax::Function::Timer, arguments);
    simple(alloc, Statement::Await(Awaited::Value(timer)))
}

/// What is done in one cycle of the clock. Only want of memory is an error.
fn cycle(alloc: Global) -> Result<Vec<Item>, NoMemory>
    ensures { IfOk result (λ made. block_of made.items ≡ cycle) }
{
    let mut items = Vec::new(alloc);
    items.push(write(alloc, name(alloc, b"first")?)?)?;
    items.push(wait_half(alloc)?)?;
    let other = binary(alloc, BinOp::Subtract, whole(1), name(alloc, b"first")?)?;
    items.push(write(alloc, other)?)?;
    items.push(wait_half(alloc)?)?;
    let next = binary(alloc, BinOp::Add, name(alloc, b"n")?, whole(1))?;
    items.push(set_count(alloc, next)?)?;
    Ok(items)
}

/// The body of `Clock.start`. Only want of memory is an error.
fn clock_body(alloc: Global) -> Result<Vec<Item>, NoMemory>
    ensures { IfOk result (λ made. block_of made.items ≡ clock_start.body) }
{
    let mut items = Vec::new(alloc);
    items.push(set_count(alloc, whole(0))?)?;
    items.push(while_item(goes_on(alloc)?, cycle(alloc)?))?;
    Ok(items)
}

/// The names of the parameters of `Clock.start`. Only want of memory is an error.
fn clock_parameters(alloc: Global) -> Result<Sequence<Name>, NoMemory>
    ensures { IfOk result (λ made. made ≡ clock_start.parameters) }
{
    let mut names = Sequence::new(alloc);
    names.push(Name::of(alloc, b"s")?)?;
    names.push(Name::of(alloc, b"half")?)?;
    names.push(Name::of(alloc, b"first")?)?;
    names.push(Name::of(alloc, b"cycles")?)?;
    Ok(names)
}

/// `Clock.start` (cocotb 1.8, `cocotb.clock.Clock.start`). Only want of memory is an error.
pub(crate) fn clock_start(alloc: Global) -> Result<Function, NoMemory>
    ensures { IfOk result (λ made. view_function made ≡ clock_start) }
{
    let mut others = Sequence::new(alloc);
    others.push(Name::of(alloc, b"n")?)?;
    Ok(Function {
        parameters: clock_parameters(alloc)?,
        others,
        body: clock_body(alloc)?,
    })
}
