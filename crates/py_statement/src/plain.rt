//! Statements that begin with an expression.

ghost use Rattle.py_expression.specs.Shown.{height_limit};
ghost use Rattle.std.specs.Prelude.{◌≡◌, List, map, codes, Some};
ghost use Rattle.py_syntax.specs.ExpressionTrees.{view};
ghost use Rattle.py_syntax.specs.StatementTrees;
ghost use Rattle.py_syntax.specs.StatementTrees.{view_statement, view_logger, view_write_action};
ghost use Rattle.py_expression.specs.Phrase.Gives.{Gives};
ghost use Rattle.py_expression.specs.Boxes.{inside};
ghost use Rattle.py_statement.specs.Call.Chosen.{made};
ghost use Rattle.py_statement.specs.Call.Kept.{lowered, of_one, of_two};
ghost use Rattle.py_statement.specs.Call.Reading.{right_of};
ghost use Rattle.py_statement.specs.Call.Views.{tall};
ghost use Rattle.py_statement.specs.Reading;

use crate::call::{
    closed_start, closed_write_action, right_side, value_list, whole_value, whole_write_action,
    within,
};
use crate::method::Called;
use crate::statement::{built, ending, one_value};
use crate::tree::{can_log, first, is_word};
use crate::words::augmenting_at;
use port_io::{Name, boxed};
use py_expression::phrase::{Mark, ReadError, after};
use py_expression::{primary, split};
use py_syntax::{
    Action, BinOp, Bracket, Expression, LogLevel, Logger, Operator, Statement, Token, WriteAction,
};
use std::alloc::Global;

/// An assignment of a right side to the value of this signal, behind the `=`.
fn assigned_right(
    alloc: Global,
    signal: (Box<Expression>, usize),
    tokens: &[Token],
) -> Result<(Box<Statement>, usize), ReadError>
    ensures { Gives (tall (inside view_statement)) result
        (made (of_two StatementTrees.AssignValue (tall (inside view) signal)) (right_of height_limit tokens.now)) }
{
    let (side, height) = right_side(alloc, tokens)?;
    let statement = Statement::AssignValue(Box::into_inner(signal.0), Box::into_inner(side));
    built(alloc, statement, signal.1.max(height))
}

/// A write that is no value, assigned to this signal.
fn assigned_action(
    alloc: Global,
    signal: (Box<Expression>, usize),
    write: (Box<WriteAction>, usize),
) -> Result<(Box<Statement>, usize), ReadError>
    ensures { Gives (tall (inside view_statement)) result
        (Some (of_two StatementTrees.AssignAction (tall (inside view) signal) (tall (inside view_write_action) write))) }
{
    let statement = Statement::AssignAction(Box::into_inner(signal.0), Box::into_inner(write.0));
    built(alloc, statement, signal.1.max(write.1))
}

/// An assignment to the value of this signal, behind the `=`.
#[tactic(auto, unfolding(crate::specs::Reading::assigned_to_of))]
fn assigned_to(
    alloc: Global,
    signal: (Box<Expression>, usize),
    tokens: &[Token],
) -> Result<(Box<Statement>, usize), ReadError>
    ensures { Gives (tall (inside view_statement)) result (Reading.assigned_to_of height_limit (tall (inside view) signal) tokens.now) }
{
    match whole_write_action(alloc, tokens) {
        Ok(write) => assigned_action(alloc, signal, write),
        Err(ReadError::Wrong) => assigned_right(alloc, signal, tokens),
        Err(error) => Err(error),
    }
}

/// An assignment to a signal's value, behind the `=`; the tree is `signal.value`.
#[tactic(auto, unfolding(crate::specs::Reading::assigned_value_of))]
fn assigned_value(
    alloc: Global,
    tree: Expression,
    height: usize,
    tokens: &[Token],
) -> Result<(Box<Statement>, usize), ReadError>
    ensures { Gives (tall (inside view_statement)) result (Reading.assigned_value_of height_limit (view tree) height tokens.now) }
{
    match split(tree) {
        Some((signal, name)) if name.bytes() == b"value".as_slice() => {
            assigned_to(alloc, within(alloc, signal, height, 1)?, tokens)
        }
        _ => Err(ReadError::Wrong),
    }
}

/// `name = right side`, behind the `=`.
fn assigned_name(
    alloc: Global,
    name: Name,
    tokens: &[Token],
) -> Result<(Box<Statement>, usize), ReadError>
    ensures { Gives (tall (inside view_statement)) result (Reading.assigned_name_of height_limit name tokens.now) }
{
    let (side, height) = right_side(alloc, tokens)?;
    let statement = Statement::Assign(name, Box::into_inner(side));
    built(alloc, statement, height)
}

/// An assignment to this tree, behind the `=`.
#[tactic(auto, unfolding(crate::specs::Reading::assigned_of))]
fn assigned(
    alloc: Global,
    tree: Box<Expression>,
    height: usize,
    tokens: &[Token],
) -> Result<(Box<Statement>, usize), ReadError>
    ensures { Gives (tall (inside view_statement)) result (Reading.assigned_of height_limit (view tree.value) height tokens.now) }
{
    match Box::into_inner(tree) {
        Expression::Name(name) => assigned_name(alloc, name, tokens),
        other => assigned_value(alloc, other, height, tokens),
    }
}

/// `name += value` and the like, behind the `+=`.
fn augmented_name(
    alloc: Global,
    name: Name,
    op: BinOp,
    tokens: &[Token],
) -> Result<(Box<Statement>, usize), ReadError>
    ensures { Gives (tall (inside view_statement)) result (Reading.augmented_name_of height_limit name op tokens.now) }
{
    let (value, height) = whole_value(alloc, tokens)?;
    let statement = Statement::AugmentedAssign(name, op, Box::into_inner(value));
    built(alloc, statement, height)
}

/// The same to this tree.
#[tactic(auto, unfolding(crate::specs::Reading::augmented_of))]
fn augmented(
    alloc: Global,
    tree: Box<Expression>,
    op: BinOp,
    tokens: &[Token],
) -> Result<(Box<Statement>, usize), ReadError>
    ensures { Gives (tall (inside view_statement)) result (Reading.augmented_of height_limit (view tree.value) op tokens.now) }
{
    match Box::into_inner(tree) {
        Expression::Name(name) => augmented_name(alloc, name, op, tokens),
        _ => Err(ReadError::Wrong),
    }
}

/// `hierarchy._log`, where an attribute of it has this height.
fn hierarchy_log(
    alloc: Global,
    base: Box<Expression>,
    height: usize,
) -> Result<(Box<Logger>, usize), ReadError>
    ensures { Gives (tall (inside view_logger)) result (Some (of_one StatementTrees.HierarchyLog (lowered height_limit 2 (view base.value) height))) }
{
    let (hierarchy, height) = within(alloc, base, height, 2)?;
    let logger = Logger::Hierarchy(Box::into_inner(hierarchy));
    Ok((boxed(alloc, logger)?, height))
}

/// The logger of this name in this object.
fn named_logger(
    alloc: Global,
    base: Box<Expression>,
    name: &[u8],
    height: usize,
) -> Result<(Box<Logger>, usize), ReadError>
    ensures { Gives (tall (inside view_logger)) result (Reading.logger_by height_limit (view base.value) name.now height) }
{
    if name == b"_log".as_slice() {
        return hierarchy_log(alloc, base, height);
    }
    if name == b"log".as_slice() && is_word(b"cocotb", &*base) {
        return Ok((boxed(alloc, Logger::Cocotb)?, 0));
    }
    Err(ReadError::Wrong)
}

/// `cocotb.log` or `hierarchy._log`, where an attribute of it has this height.
#[tactic(auto, unfolding(crate::specs::Reading::logger_of))]
fn logger(
    alloc: Global,
    tree: Box<Expression>,
    height: usize,
) -> Result<(Box<Logger>, usize), ReadError>
    ensures { Gives (tall (inside view_logger)) result (Reading.logger_of height_limit (view tree.value) height) }
{
    match split(Box::into_inner(tree)) {
        Some((base, name)) => named_logger(alloc, base, name.bytes(), height),
        None => Err(ReadError::Wrong),
    }
}

/// The line of these values in the log, where nothing follows.
#[tactic(auto, using(crate::proofs::Taken::first_seen), unfolding(crate::specs::Reading::logged_by))]
fn logged(
    alloc: Global,
    logger: (Box<Logger>, usize),
    level: LogLevel,
    values: (Vec<Expression>, usize),
    rest: &[Token],
) -> Result<(Box<Statement>, usize), ReadError>
    ensures { Gives (tall (inside view_statement)) result
        (Reading.logged_by (tall (inside view_logger) logger) level ((map view values.0.items, values.1), rest.now)) }
{
    let Some((message, others)) = first(values.0) else {
        return Err(ReadError::Wrong);
    };
    let message = boxed(alloc, message)?;
    if !can_log(&*message, &others) {
        return Err(ReadError::Wrong);
    }
    let height = logger.1.max(values.1);
    let logger = Box::into_inner(logger.0);
    let statement = Statement::Log(logger, level, Box::into_inner(message), others);
    ending(boxed(alloc, statement)?, height, rest)
}

/// `logger.info(..)` and the like, behind the `(`.
#[tactic(auto, unfolding(crate::specs::Reading::log_of))]
fn log(
    alloc: Global,
    tree: Box<Expression>,
    height: usize,
    level: LogLevel,
    tokens: &[Token],
) -> Result<(Box<Statement>, usize), ReadError>
    ensures { Gives (tall (inside view_statement)) result (Reading.log_of height_limit (view tree.value) height level tokens.now) }
{
    let logger = logger(alloc, tree, height)?;
    let (values, rest) = value_list(alloc, tokens)?;
    logged(alloc, logger, level, values, rest)
}

/// `object.action()`, behind the `(`.
#[tactic(auto, unfolding(crate::specs::Reading::act_of))]
fn act(
    alloc: Global,
    tree: Box<Expression>,
    height: usize,
    action: Action,
    tokens: &[Token],
) -> Result<(Box<Statement>, usize), ReadError>
    ensures { Gives (tall (inside view_statement)) result (Reading.act_of height_limit (view tree.value) height action tokens.now) }
{
    match after(Mark::Close(Bracket::Round), tokens) {
        Some(rest) => {
            let (object, height) = within(alloc, tree, height, 1)?;
            let statement = Statement::Act(Box::into_inner(object), action);
            ending(boxed(alloc, statement)?, height, rest)
        }
        None => Err(ReadError::Wrong),
    }
}

/// `signal.setimmediatevalue(value)`, behind the `(`.
fn set_value(
    alloc: Global,
    signal: (Box<Expression>, usize),
    tokens: &[Token],
) -> Result<(Box<Statement>, usize), ReadError>
    ensures { Gives (tall (inside view_statement)) result
        (made (of_two StatementTrees.SetImmediateValue (tall (inside view) signal)) (Reading.one_value_of height_limit tokens.now)) }
{
    let (value, height) = one_value(alloc, tokens)?;
    let statement = Statement::SetImmediateValue(Box::into_inner(signal.0), Box::into_inner(value));
    built(alloc, statement, signal.1.max(height))
}

/// `signal.setimmediatevalue(write)`.
fn set_action(
    alloc: Global,
    signal: (Box<Expression>, usize),
    write: (Box<WriteAction>, usize),
) -> Result<(Box<Statement>, usize), ReadError>
    ensures { Gives (tall (inside view_statement)) result
        (Some (of_two StatementTrees.SetImmediateAction (tall (inside view) signal) (tall (inside view_write_action) write))) }
{
    let statement = Statement::SetImmediateAction(
        Box::into_inner(signal.0),
        Box::into_inner(write.0),
    );
    built(alloc, statement, signal.1.max(write.1))
}

/// A write to this signal at once, behind the `(`.
#[tactic(auto, unfolding(crate::specs::Reading::set_immediate_of))]
fn set_immediate(
    alloc: Global,
    signal: (Box<Expression>, usize),
    tokens: &[Token],
) -> Result<(Box<Statement>, usize), ReadError>
    ensures { Gives (tall (inside view_statement)) result (Reading.set_immediate_of height_limit (tall (inside view) signal) tokens.now) }
{
    match closed_write_action(alloc, tokens) {
        Ok(write) => set_action(alloc, signal, write),
        Err(ReadError::Wrong) => set_value(alloc, signal, tokens),
        Err(error) => Err(error),
    }
}

/// `queue.put_nowait(item)`, behind the `(`.
#[tactic(auto, unfolding(crate::specs::Reading::put_now_of))]
fn put_now(
    alloc: Global,
    queue: (Box<Expression>, usize),
    tokens: &[Token],
) -> Result<(Box<Statement>, usize), ReadError>
    ensures { Gives (tall (inside view_statement)) result (Reading.put_now_of height_limit (tall (inside view) queue) tokens.now) }
{
    let (item, height) = one_value(alloc, tokens)?;
    let statement = Statement::PutNow(Box::into_inner(queue.0), Box::into_inner(item));
    built(alloc, statement, queue.1.max(height))
}

/// `cocotb.start_soon(call)`, behind the `(`.
#[tactic(auto, unfolding(crate::specs::Reading::start_soon_of))]
fn start_soon(
    alloc: Global,
    tree: &Expression,
    tokens: &[Token],
) -> Result<(Box<Statement>, usize), ReadError>
    ensures { Gives (tall (inside view_statement)) result (Reading.start_soon_of height_limit (view tree.now) tokens.now) }
{
    if !is_word(b"cocotb", tree) {
        return Err(ReadError::Wrong);
    }
    let (call, height) = closed_start(alloc, tokens)?;
    let statement = Statement::StartSoon(Box::into_inner(call));
    built(alloc, statement, height)
}

/// A call of this method of a tree, behind the `(`.
fn method_called(
    alloc: Global,
    tree: Box<Expression>,
    height: usize,
    method: Called,
    tokens: &[Token],
) -> Result<(Box<Statement>, usize), ReadError>
    ensures { Gives (tall (inside view_statement)) result (Reading.method_by height_limit method (view tree.value) height tokens.now) }
{
    match method {
        Called::Act(action) => act(alloc, tree, height, action, tokens),
        Called::Log(level) => log(alloc, tree, height, level, tokens),
        Called::SetImmediateValue => {
            set_immediate(alloc, within(alloc, tree, height, 1)?, tokens)
        }
        Called::PutNow => put_now(alloc, within(alloc, tree, height, 1)?, tokens),
        Called::StartSoon => start_soon(alloc, &*tree, tokens),
    }
}

/// A call of this tree, behind the `(`.
#[tactic(auto, unfolding(crate::specs::Reading::called_statement_of))]
fn called_statement(
    alloc: Global,
    tree: Box<Expression>,
    height: usize,
    tokens: &[Token],
) -> Result<(Box<Statement>, usize), ReadError>
    ensures { Gives (tall (inside view_statement)) result (Reading.called_statement_of height_limit (view tree.value) height tokens.now) }
{
    let Some((base, name)) = split(Box::into_inner(tree)) else {
        return Err(ReadError::Wrong);
    };
    match Called::of(name.bytes()) {
        Some(method) => method_called(alloc, base, height, method, tokens),
        None => Err(ReadError::Wrong),
    }
}

/// Behind the primary at the front.
#[tactic(auto, unfolding(crate::specs::Reading::behind_of))]
fn behind(
    alloc: Global,
    tree: Box<Expression>,
    height: usize,
    tokens: &[Token],
) -> Result<(Box<Statement>, usize), ReadError>
    ensures { Gives (tall (inside view_statement)) result
        (Reading.behind_of height_limit (record { tree = view tree.value; height = height }, tokens.now)) }
{
    if let Some(rest) = after(Mark::Operator(Operator::Assign), tokens) {
        return assigned(alloc, tree, height, rest);
    }
    if let Some(rest) = after(Mark::Open(Bracket::Round), tokens) {
        return called_statement(alloc, tree, height, rest);
    }
    match augmenting_at(tokens) {
        Some((op, rest)) => augmented(alloc, tree, op, rest),
        None => Err(ReadError::Wrong),
    }
}

/// A statement that begins with an expression.
#[tactic(auto, unfolding(crate::specs::Reading::plain_of))]
pub fn plain_statement(
    alloc: Global,
    tokens: &[Token],
) -> Result<(Box<Statement>, usize), ReadError>
    ensures { Gives (tall (inside view_statement)) result (Reading.plain_of height_limit tokens.now) }
{
    let (found, rest) = primary(alloc, tokens)?;
    behind(alloc, found.tree, found.height, rest)
}
