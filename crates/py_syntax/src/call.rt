//! Calls that are started, what is awaited, and the right sides of assignments.

use crate::Expression;
use port_io::Name;

/// An argument of a call (the language reference, 6.3.4).
#[derive(Drop)]
pub struct Argument {
    /// The name by which it is given, as in `name=value`.
    pub name: Option<Name>,
    pub value: Expression,
}

/// A call that makes a task.
#[derive(Drop)]
pub enum StartedCall {
    /// `name(argument, ..)`, a call of an async function.
    Function(Name, Vec<Argument>),
    /// `clock.start(cycles, start_high)`; either may be left out, or be given by its name.
    Clock(Expression, Vec<Argument>),
    /// `queue.put(item)` (cocotb 1.8, `cocotb.queue.Queue.put`)
    Put(Expression, Expression),
    /// `queue.get()` (cocotb 1.8, `cocotb.queue.Queue.get`)
    Get(Expression),
}

/// What `with_timeout` waits for.
#[derive(Drop)]
pub enum Timed {
    Value(Expression),
    Call(StartedCall),
}

/// What stands behind `await` (the language reference, 6.4).
#[derive(Drop)]
pub enum Awaited {
    /// A trigger or a task.
    Value(Expression),
    Call(StartedCall),
    /// `cocotb.start(call)`
    Start(StartedCall),
    /// `with_timeout(value, timeout_time, timeout_unit)`; the unit may be left out.
    WithTimeout(Timed, Expression, Option<Expression>),
}

/// The right side of an assignment, or what a function returns.
#[derive(Drop)]
pub enum RightSide {
    Value(Expression),
    Await(Awaited),
    /// `cocotb.start_soon(call)`
    StartSoon(StartedCall),
    /// `Event()`; a text in the brackets means nothing.
    Event,
    /// `Lock()`, likewise.
    Lock,
    /// `random.randint(low, high)`
    RandomInt(Expression, Expression),
    /// `Queue(maxsize)` (cocotb 1.8, `cocotb.queue.Queue`); the bound may be left out, or be given by its name.
    Queue(Option<Expression>),
    /// `queue.get_nowait()` (cocotb 1.8, `cocotb.queue.Queue.get_nowait`)
    GetNow(Expression),
}

/// A write that is no value: an action of cocotb 1.8, `cocotb.handle`.
#[derive(Drop)]
pub enum WriteAction {
    /// `Force(value)`
    Force(Expression),
    /// `Freeze()`
    Freeze,
    /// `Release()`
    Release,
}
