//! Functions, tests and files.

use crate::body::Item;
use port_io::{Name, Sequence};
use py_syntax::{Const, FaultKind};

/// A function. Its names of its own are numbered: parameters first, then the others.
#[derive(Drop)]
pub struct Function {
    /// The names of its parameters.
    pub parameters: Sequence<Name>,
    /// The other names that it assigns, each once, in the order of their first assignments.
    pub others: Sequence<Name>,
    pub body: Vec<Item>,
}

/// A test (cocotb 1.8, `cocotb.test`).
#[derive(Drop)]
pub struct TestCase {
    /// The name that its lines show.
    pub name: Name,
    /// The number of the function that its own task runs.
    pub func: u32,
    /// A value for each parameter after the first, defaults put in.
    pub args: Sequence<Const>,
    /// `timeout_time` and `timeout_unit`: a number and a text, which is `step` where no unit is given.
    pub time: Option<(Const, Const)>,
    pub expect_fail: bool,
    pub expect_error: Option<FaultKind>,
    pub skip: bool,
}

/// A tests file that was accepted.
#[derive(Drop)]
pub struct TestFile {
    /// Its functions, by number; behind them stand `Clock.start`, `Queue.put` and `Queue.get`.
    pub functions: Sequence<Function>,
    /// Its tests, in the order in which they run.
    pub cases: Sequence<TestCase>,
}
