//! Calls that are started, what is awaited, and right sides.

use py_syntax::Expression;

/// An operand of a call.
#[derive(Drop)]
pub struct Operand {
    /// The number of the parameter that it is for, from 0.
    pub parameter: usize,
    pub value: Expression,
}

/// A call that makes a task. Its operands stand in the order in which they are evaluated.
#[derive(Drop)]
pub enum Call {
    /// A call of the function of this number, with one operand for each of its parameters: those that are written, and behind them the
    /// defaults of the others.
    Function(u32, Vec<Operand>),
    /// The start of a clock, by the number of `Clock.start`, with those operands that are written: of parameter 0, `cycles`, and of
    /// parameter 1, `start_high` (cocotb 1.8, `cocotb.clock.Clock.start`).
    Clock(u32, Expression, Vec<Operand>),
    /// A put into a queue, by the number of `Queue.put`: the queue, and the item (cocotb 1.8, `cocotb.queue.Queue.put`).
    Put(u32, Expression, Expression),
    /// A get from a queue, by the number of `Queue.get`.
    Get(u32, Expression),
}

/// What `with_timeout` waits for.
#[derive(Drop)]
pub enum Timed {
    Value(Expression),
    Call(Call),
}

/// What stands behind `await` (the language reference, 6.4).
#[derive(Drop)]
pub enum Awaited {
    /// A trigger or a task.
    Value(Expression),
    Call(Call),
    /// `cocotb.start(call)`
    Start(Call),
    /// `with_timeout(value, timeout_time, timeout_unit)`; the unit may be left out.
    WithTimeout(Timed, Expression, Option<Expression>),
    /// That there is room in a queue: no file says so, and the text of `Queue.put` does.
    Room(Expression),
    /// That there is an item in a queue, likewise for `Queue.get`.
    Items(Expression),
}

/// The right side of an assignment, or what a function returns.
#[derive(Drop)]
pub enum RightSide {
    Value(Expression),
    Await(Awaited),
    /// `cocotb.start_soon(call)`
    StartSoon(Call),
    /// `Event()`
    Event,
    /// `Lock()`
    Lock,
    /// `random.randint(low, high)`
    RandomInt(Expression, Expression),
    /// `Queue(maxsize)`; the bound may be left out.
    Queue(Option<Expression>),
    /// `queue.get_nowait()`
    GetNow(Expression),
}

/// A write that is no value (cocotb 1.8, `cocotb.handle`).
#[derive(Drop)]
pub enum WriteAction {
    /// `Force(value)`
    Force(Expression),
    /// `Freeze()`
    Freeze,
    /// `Release()`
    Release,
}
