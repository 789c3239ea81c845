//! Modules, and the blocks of their functions.

use crate::{Header, LineNumber, ModuleLine, Parameter, Statement};
use port_io::Name;

/// A statement of a block, or a clause of a compound statement (the language reference, 7 and 8), with the number of the physical
/// line on which it begins, from 1.
///
/// The clauses of one statement stand behind one another: behind an `if` the clauses `elif` and `else`, behind a `try` those of
/// `except`.
#[cycle(blocks)]
#[derive(Drop)]
pub enum BlockItem {
    /// A text alone: it says nothing.
    Docstring {
        number: LineNumber,
    },
    /// A statement of one line.
    Statement {
        number: LineNumber,
        statement: Statement,
    },
    /// A header and its block.
    Clause {
        number: LineNumber,
        header: Header,
        block: Vec<BlockItem>,
    },
}

/// What stands in a module, with the number of the physical line on which it begins, from 1.
#[derive(Drop)]
pub enum ModuleItem {
    /// A text alone: it says nothing.
    Docstring {
        number: LineNumber,
    },
    /// A line that is no function's header.
    Line {
        number: LineNumber,
        line: ModuleLine,
    },
    /// `async def name(parameters):` and its block (the language reference, 8.9.1).
    Function {
        number: LineNumber,
        name: Name,
        parameters: Vec<Parameter>,
        body: Vec<BlockItem>,
    },
}

/// A tests file (the language reference, 9.2).
#[derive(Drop)]
pub struct Module {
    pub items: Vec<ModuleItem>,
}
