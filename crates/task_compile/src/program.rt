//! Numbered states.
use port_io::{Name, Sequence};
use py_syntax::{Caught, Expression};
use test_meaning::body::Item;

/// What a state does.
#[derive(Clone, Copy)]
pub enum Action<'a> {
    /// It begins a statement (the language reference, 7 and 8).
    Begin(&'a Item),
    /// It asks the condition of an `elif` (8.1), which stands alone in the `else` of the one before.
    Elif(&'a Expression),
    /// It is an `except` (8.4), which is asked whether it catches a fault.
    Except(&'a Caught),
}

/// A state, which the numbers from 1 on name; 0 names the end of a block, or of the handlers of a `try`.
#[derive(Clone, Copy)]
pub struct State<'a> {
    pub action: Action<'a>,
    /// What follows it in its block; of an `except` the one behind it.
    pub next: usize,
    /// Its block.
    pub first: usize,
    /// The block of its `else`; of a `try` its first `except`.
    pub second: usize,
}

/// A function: its names as in the file, and the number of its first state.
#[derive(Clone, Copy)]
pub struct CompiledFunction<'a> {
    pub parameters: &'a Sequence<Name>,
    pub others: &'a Sequence<Name>,
    pub first: usize,
}

/// The functions of a tests file, by their numbers, and all their states.
#[derive(Drop)]
pub struct Program<'a> {
    pub states: Vec<State<'a>>,
    pub functions: Vec<CompiledFunction<'a>>,
}
