//! Statements of one line.

use crate::body::{Awaited, Call, RightSide, WriteAction};
use port_io::Name;
use py_syntax::{Action, BinOp, Expression, FaultKind, LogLevel};

/// What a line is logged for.
#[derive(Drop)]
pub enum Logger {
    /// `cocotb.log`
    Cocotb,
    /// `hierarchy._log`
    Hierarchy(Expression),
}

/// A statement of one logical line (the language reference, 7).
#[derive(Drop)]
pub enum Statement {
    Pass,
    Break,
    Continue,
    Return(Option<RightSide>),
    /// `raise kind` or `raise kind(value)`
    Raise(FaultKind, Option<Expression>),
    /// `assert condition` or `assert condition, value`
    Assert(Expression, Option<Expression>),
    /// `name = right side`
    Assign(Name, RightSide),
    /// `name += value`, and so with the other operators
    AugmentedAssign(Name, BinOp, Expression),
    /// `signal.value = right side`
    AssignValue(Expression, RightSide),
    /// `signal.setimmediatevalue(value)`
    SetImmediateValue(Expression, Expression),
    Await(Awaited),
    /// `object.action()`
    Act(Expression, Action),
    /// `logger.info(value)`, and so at the other levels, or `logger.info(text, value, ..)` with one value for each `%s` of the text.
    Log(Logger, LogLevel, Expression, Vec<Expression>),
    /// `cocotb.start_soon(call)`
    StartSoon(Call),
    /// `queue.put_nowait(item)`
    PutNow(Expression, Expression),
    /// `signal.value = action`
    AssignAction(Expression, WriteAction),
    /// `signal.setimmediatevalue(action)`
    SetImmediateAction(Expression, WriteAction),
}
