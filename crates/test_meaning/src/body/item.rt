//! What stands in a body.

use crate::body::Statement;
use port_io::Name;
use py_syntax::{Caught, Expression, Span};

/// A statement of a body: one of one line, or a compound one with its blocks (the language reference, 8). A docstring is none.
#[cycle(items)]
#[derive(Drop)]
pub enum Item {
    Statement(Box<Statement>),
    /// `if condition:` with its block, each `elif` behind it, in order, and the block of `else`, which is empty where there is none. An
    /// `elif` stands for an `if` that is alone in the `else` of the one before. They stand in a list, so that a long row of them is no deep tree.
    If {
        condition: Expression,
        block: Vec<Item>,
        elifs: Vec<Branch>,
        other: Vec<Item>,
    },
    While {
        condition: Expression,
        block: Vec<Item>,
    },
    For {
        name: Name,
        span: Span,
        block: Vec<Item>,
    },
    /// `try:` with its block, and each `except` behind it, in order.
    Try {
        block: Vec<Item>,
        handlers: Vec<Handler>,
    },
    /// `async with lock:`
    With {
        lock: Expression,
        block: Vec<Item>,
    },
}

/// An `elif` with its block.
#[cycle(items)]
#[derive(Drop)]
pub enum Branch {
    Elif {
        condition: Expression,
        block: Vec<Item>,
    },
}

/// An `except` with its block.
#[cycle(items)]
#[derive(Drop)]
pub enum Handler {
    Catch { caught: Caught, block: Vec<Item> },
}
