//! Statements of one line.

ghost use Rattle.std.specs.Prelude.{◌≡◌, map, option_map, IfOk};
ghost use Rattle.py_syntax.specs.ExpressionTrees.{view};
ghost use Rattle.py_syntax.specs.StatementTrees as syntax_tree;
ghost use Rattle.test_meaning.specs.Body.BodyTrees as body;
ghost use Rattle.test_meaning.specs.Body.Views.{view_logger, view_right, view_statement};
ghost use Rattle.test_meaning.specs.Bodies.{logger_in, right_in, statement_in};

use crate::expressions::{Meanings, expression, expressions};
use crate::statements::calls::{awaited, call, optional, right_side, write_action};
use port_io::{Name, NoMemory};
use py_syntax as syntax;
use py_syntax::{BinOp, Expression, LogLevel};
use std::alloc::Global;
use test_meaning::body::{Logger, RightSide, Statement};

/// A right side that may be left out. Only want of memory is an error.
fn optional_side<M: Meanings>(
    alloc: Global,
    meanings: &M,
    side: &Option<syntax::RightSide>,
) -> Result<Option<RightSide>, NoMemory>
    ensures { IfOk result
        (λ made. option_map view_right made ≡ option_map (right_in (M.inside meanings.now)) (syntax_tree.optional syntax_tree.view_right side.now)) }
{
    match side {
        Some(side) => Ok(Some(right_side(alloc, meanings, side)?)),
        None => Ok(None),
    }
}

/// What a line is logged for. Only want of memory is an error.
fn logger<M: Meanings>(
    alloc: Global,
    meanings: &M,
    logger: &syntax::Logger,
) -> Result<Logger, NoMemory>
    ensures { IfOk result (λ made. view_logger made ≡ logger_in (M.inside meanings.now) (syntax_tree.view_logger logger.now)) }
{
    match logger {
        syntax::Logger::Cocotb => Ok(Logger::Cocotb),
        syntax::Logger::Hierarchy(base) => Ok(Logger::Hierarchy(expression(
            alloc, meanings, base,
        )?)),
    }
}

/// A line of the log. Only want of memory is an error.
fn log<M: Meanings>(
    alloc: Global,
    meanings: &M,
    source: &syntax::Logger,
    level: LogLevel,
    text: &Expression,
    values: &[Expression],
) -> Result<Statement, NoMemory>
    ensures { IfOk result (λ made. view_statement made
        ≡ statement_in (M.inside meanings.now) (syntax_tree.Log (syntax_tree.view_logger source.now) level (view text.now) (map view values.now))) }
{
    let source = logger(alloc, meanings, source)?;
    let text = expression(alloc, meanings, text)?;
    Ok(Statement::Log(source, level, text, expressions(alloc, meanings, values)?))
}

/// `name = right side`. Only want of memory is an error.
fn assign<M: Meanings>(
    alloc: Global,
    meanings: &M,
    name: &[u8],
    side: &syntax::RightSide,
) -> Result<Statement, NoMemory>
    ensures { IfOk result
        (λ made. view_statement made ≡ statement_in (M.inside meanings.now) (syntax_tree.Assign name.now (syntax_tree.view_right side.now))) }
{
    let name = Name::of(alloc, name)?;
    Ok(Statement::Assign(name, right_side(alloc, meanings, side)?))
}

/// `name += value`, and so with the other operators. Only want of memory is an error.
fn augmented<M: Meanings>(
    alloc: Global,
    meanings: &M,
    name: &[u8],
    op: BinOp,
    value: &Expression,
) -> Result<Statement, NoMemory>
    ensures { IfOk result
        (λ made. view_statement made ≡ statement_in (M.inside meanings.now) (syntax_tree.AugmentedAssign name.now op (view value.now))) }
{
    let name = Name::of(alloc, name)?;
    Ok(Statement::AugmentedAssign(name, op, expression(alloc, meanings, value)?))
}

/// `signal.value = right side`. Only want of memory is an error.
fn assign_value<M: Meanings>(
    alloc: Global,
    meanings: &M,
    signal: &Expression,
    side: &syntax::RightSide,
) -> Result<Statement, NoMemory>
    ensures { IfOk result (λ made. view_statement made
        ≡ statement_in (M.inside meanings.now) (syntax_tree.AssignValue (view signal.now) (syntax_tree.view_right side.now))) }
{
    let signal = expression(alloc, meanings, signal)?;
    Ok(Statement::AssignValue(signal, right_side(alloc, meanings, side)?))
}

/// `signal.setimmediatevalue(value)`. Only want of memory is an error.
fn set_immediate<M: Meanings>(
    alloc: Global,
    meanings: &M,
    signal: &Expression,
    value: &Expression,
) -> Result<Statement, NoMemory>
    ensures { IfOk result
        (λ made. view_statement made ≡ statement_in (M.inside meanings.now) (syntax_tree.SetImmediateValue (view signal.now) (view value.now))) }
{
    let signal = expression(alloc, meanings, signal)?;
    Ok(Statement::SetImmediateValue(signal, expression(alloc, meanings, value)?))
}

/// `signal.value = action`. Only want of memory is an error.
fn assign_action<M: Meanings>(
    alloc: Global,
    meanings: &M,
    signal: &Expression,
    action: &syntax::WriteAction,
) -> Result<Statement, NoMemory>
    ensures { IfOk result (λ made. view_statement made
        ≡ statement_in (M.inside meanings.now) (syntax_tree.AssignAction (view signal.now) (syntax_tree.view_write_action action.now))) }
{
    let signal = expression(alloc, meanings, signal)?;
    Ok(Statement::AssignAction(signal, write_action(alloc, meanings, action)?))
}

/// `signal.setimmediatevalue(action)`. Only want of memory is an error.
fn set_immediate_action<M: Meanings>(
    alloc: Global,
    meanings: &M,
    signal: &Expression,
    action: &syntax::WriteAction,
) -> Result<Statement, NoMemory>
    ensures { IfOk result (λ made. view_statement made
        ≡ statement_in (M.inside meanings.now) (syntax_tree.SetImmediateAction (view signal.now) (syntax_tree.view_write_action action.now))) }
{
    let signal = expression(alloc, meanings, signal)?;
    Ok(Statement::SetImmediateAction(signal, write_action(alloc, meanings, action)?))
}

/// `queue.put_nowait(item)`. Only want of memory is an error.
fn put_now<M: Meanings>(
    alloc: Global,
    meanings: &M,
    queue: &Expression,
    item: &Expression,
) -> Result<Statement, NoMemory>
    ensures { IfOk result
        (λ made. view_statement made ≡ statement_in (M.inside meanings.now) (syntax_tree.PutNow (view queue.now) (view item.now))) }
{
    let queue = expression(alloc, meanings, queue)?;
    Ok(Statement::PutNow(queue, expression(alloc, meanings, item)?))
}

/// `assert condition` or `assert condition, value`. Only want of memory is an error.
fn assertion<M: Meanings>(
    alloc: Global,
    meanings: &M,
    condition: &Expression,
    value: &Option<Expression>,
) -> Result<Statement, NoMemory>
    ensures { IfOk result (λ made. view_statement made
        ≡ statement_in (M.inside meanings.now) (syntax_tree.Assert (view condition.now) (syntax_tree.optional view value.now))) }
{
    let condition = expression(alloc, meanings, condition)?;
    Ok(Statement::Assert(condition, optional(alloc, meanings, value)?))
}

/// A statement of one line, with numbers in place of the names of functions that it calls, and values in place of constants. Only want of memory
/// is an error.
pub fn statement<M: Meanings>(
    alloc: Global,
    meanings: &M,
    statement: &syntax::Statement,
) -> Result<Statement, NoMemory>
    ensures { IfOk result (λ made. view_statement made ≡ statement_in (M.inside meanings.now) (syntax_tree.view_statement statement.now)) }
{
    match statement {
        syntax::Statement::Pass => Ok(Statement::Pass),
        syntax::Statement::Break => Ok(Statement::Break),
        syntax::Statement::Continue => Ok(Statement::Continue),
        syntax::Statement::Return(side) => Ok(Statement::Return(optional_side(
            alloc, meanings, side,
        )?)),
        syntax::Statement::Raise(kind, value) => Ok(Statement::Raise(
            *kind,
            optional(alloc, meanings, value)?,
        )),
        syntax::Statement::Assert(condition, value) => assertion(alloc, meanings, condition, value),
        syntax::Statement::Assign(name, side) => assign(alloc, meanings, name.bytes(), side),
        syntax::Statement::AugmentedAssign(name, op, value) => augmented(
            alloc,
            meanings,
            name.bytes(),
            *op,
            value,
        ),
        syntax::Statement::AssignValue(signal, side) => assign_value(alloc, meanings, signal, side),
        syntax::Statement::SetImmediateValue(signal, value) => set_immediate(
            alloc, meanings, signal, value,
        ),
        syntax::Statement::Await(waiting) => Ok(Statement::Await(awaited(
            alloc, meanings, waiting,
        )?)),
        syntax::Statement::Act(object, action) => Ok(Statement::Act(
            expression(alloc, meanings, object)?,
            *action,
        )),
        syntax::Statement::Log(source, level, text, values) => log(
            alloc, meanings, source, *level, text, values,
        ),
        syntax::Statement::StartSoon(started) => Ok(Statement::StartSoon(call(
            alloc, meanings, started,
        )?)),
        syntax::Statement::PutNow(queue, item) => put_now(alloc, meanings, queue, item),
        syntax::Statement::AssignAction(signal, action) => assign_action(
            alloc, meanings, signal, action,
        ),
        syntax::Statement::SetImmediateAction(signal, action) => set_immediate_action(
            alloc, meanings, signal, action,
        ),
    }
}
