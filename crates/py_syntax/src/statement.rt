//! Statements, and the headers of blocks.

ghost use Rattle.std.specs.Prelude.{◌≡◌};
ghost use Rattle.py_syntax.specs.StatementTables.{action_name, level_name};

use crate::{Awaited, BinOp, Const, Expression, FaultKind, RightSide, StartedCall, WriteAction};
use port_io::Name;

/// A method without arguments that a statement calls.
#[derive(Clone, Copy, Debug, PartialEq, Eq)]
pub enum Action {
    /// `set()` of an event
    Set,
    /// `clear()` of an event
    Clear,
    /// `release()` of a lock
    Release,
    /// `kill()` of a task
    Kill,
}

impl Action {
    /// The method's name.
    pub fn name(self) -> &'static [u8]
        ensures { result.now ≡ action_name self }
    {
        match self {
            Action::Set => b"set",
            Action::Clear => b"clear",
            Action::Release => b"release",
            Action::Kill => b"kill",
        }
    }
}

/// The level of a line in the log.
#[derive(Clone, Copy, Debug, PartialEq, Eq)]
pub enum LogLevel {
    Info,
    Warning,
    Error,
}

impl LogLevel {
    /// The name of the logger's method that writes at this level.
    pub fn name(self) -> &'static [u8]
        ensures { result.now ≡ level_name self }
    {
        match self {
            LogLevel::Info => b"info",
            LogLevel::Warning => b"warning",
            LogLevel::Error => b"error",
        }
    }
}

/// What a line is logged for.
#[derive(Drop)]
pub enum Logger {
    /// `cocotb.log`
    Cocotb,
    /// `hierarchy._log`
    Hierarchy(Expression),
}

/// A statement of one logical line (the language reference, 7).
#[derive(Drop)]
pub enum Statement {
    Pass,
    Break,
    Continue,
    Return(Option<RightSide>),
    /// `raise kind` or `raise kind(value)`
    Raise(FaultKind, Option<Expression>),
    /// `assert condition` or `assert condition, value`
    Assert(Expression, Option<Expression>),
    /// `name = right side`
    Assign(Name, RightSide),
    /// `name += value`, and so with the other operators
    AugmentedAssign(Name, BinOp, Expression),
    /// `signal.value = right side`
    AssignValue(Expression, RightSide),
    /// `signal.setimmediatevalue(value)`
    SetImmediateValue(Expression, Expression),
    Await(Awaited),
    /// `object.action()`
    Act(Expression, Action),
    /// `logger.info(value)`, and so at the other levels, or `logger.info(text, value, ..)` with one value for each `%s` of the text.
    Log(Logger, LogLevel, Expression, Vec<Expression>),
    /// `cocotb.start_soon(call)`
    StartSoon(StartedCall),
    /// `queue.put_nowait(item)` (cocotb 1.8, `cocotb.queue.Queue.put_nowait`)
    PutNow(Expression, Expression),
    /// `signal.value = action`
    AssignAction(Expression, WriteAction),
    /// `signal.setimmediatevalue(action)`
    SetImmediateAction(Expression, WriteAction),
}

/// What an `except` catches.
#[derive(Drop)]
pub enum Caught {
    /// `except:`
    All,
    /// `except kind:`
    Kind(FaultKind),
    /// `except (kind, ..):`, with one kind at least
    Kinds(Vec<FaultKind>),
    /// `except kind as name:`
    As(FaultKind, Name),
}

/// What a `for` goes over.
#[derive(Drop)]
pub enum Span {
    /// `range(stop)`
    Stop(Expression),
    /// `range(start, stop)`
    StartStop(Expression, Expression),
    /// `range(start, stop, step)`
    StartStopStep(Expression, Expression, Expression),
    /// `[constant, ..]`
    Constants(Vec<Const>),
}

/// The header of a block (the language reference, 8).
#[derive(Drop)]
pub enum Header {
    If(Expression),
    Elif(Expression),
    Else,
    While(Expression),
    For(Name, Span),
    Try,
    Except(Caught),
    /// `async with lock:`
    With(Expression),
}

/// A logical line of a function's body.
#[derive(Drop)]
pub enum BodyLine {
    Statement(Statement),
    Header(Header),
}
