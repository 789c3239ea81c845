//! Procedural statements.
//!
//! A node keeps the numbers of the tokens at which a later rule points: those of names, of a `for`, and of the number of a
//! delay. Expressions and targets keep their own.

use crate::{Expression, SystemTask, Target, TokenNumber};
use four_value::Bits;
use port_io::Name;

/// A name, and the number of its token.
#[derive(Drop)]
pub struct Identifier {
    pub at: TokenNumber,
    pub name: Name,
}

/// Whether an assignment takes effect at once (IEEE 1364-2005, clause 9.2.1) or later (clause 9.2.2), and how much later.
#[derive(Clone, Copy)]
pub enum AssignmentKind {
    /// `=`
    Blocking,
    /// `<=`: in the same time step.
    Nonblocking,
    /// `<= # delay`: so many units of time later (clauses 9.2.2 and 9.7.1, annex A.6.2). `at` is the number of the token of the
    /// delay's number.
    Delayed { at: TokenNumber, delay: Bits },
}

/// Which digits a case statement doesn't look at (IEEE 1364-2005, clause 9.5.1).
#[derive(Clone, Copy, Debug, PartialEq, Eq)]
pub enum CaseKind {
    /// `case`: it looks at all.
    Case,
    /// `casez`: not at z.
    CaseZ,
    /// `casex`: not at x and z.
    CaseX,
}

/// An argument of a system task: an expression, or a text, seen as the bytes between its quotes.
#[derive(Drop)]
pub enum TaskArgument {
    Expression(Expression),
    Text(Name),
}

/// `name = value` in the header of a `for` (IEEE 1364-2005, annex A.6.2).
#[derive(Drop)]
pub struct VariableAssignment {
    pub name: Identifier,
    pub value: Expression,
}

/// `( initial ; condition ; step )` behind a `for` (IEEE 1364-2005, clause 9.6).
#[derive(Drop)]
pub struct ForHeader {
    pub initial: VariableAssignment,
    pub condition: Expression,
    pub step: VariableAssignment,
}

/// A procedural statement (IEEE 1364-2005, clause 9 and annex A.6.4).
#[cycle(statements)]
#[derive(Drop)]
pub enum Statement {
    /// `;`
    Null,
    /// `begin [: label] {statement} end` (clause 9.8.1). In the block that is the whole statement of an `initial` the last
    /// statement may be a delay.
    Block {
        label: Option<Name>,
        statements: Vec<Statement>,
    },
    /// `target = value ;`, `target <= value ;` or `target <= # delay value ;` (clause 9.2)
    Assignment {
        kind: AssignmentKind,
        target: Target,
        value: Expression,
    },
    /// `if ( condition ) branch` (clause 9.4)
    If {
        condition: Expression,
        branch: Box<Statement>,
    },
    /// `if ( condition ) branch else otherwise` (clause 9.4)
    IfElse {
        condition: Expression,
        branch: Box<Statement>,
        otherwise: Box<Statement>,
    },
    /// `case ( selector ) item {item} endcase` (clause 9.5)
    Case {
        kind: CaseKind,
        selector: Expression,
        items: Vec<CaseItem>,
    },
    /// `for header body` (clause 9.6). `at` is the number of the `for`.
    For {
        at: TokenNumber,
        header: ForHeader,
        body: Box<Statement>,
    },
    /// `$dumpfile` or `$dumpvars`, with its arguments (clause 18.1)
    TaskEnable {
        task: SystemTask,
        arguments: Vec<TaskArgument>,
    },
    /// `# delay ;` (clause 9.7.1). `at` is the number of the token of the delay's number.
    Delay {
        at: TokenNumber,
        delay: Bits,
    },
}

/// An item of a case statement (IEEE 1364-2005, clause 9.5).
#[cycle(statements)]
#[derive(Drop)]
pub enum CaseItem {
    /// `label , .. : statement`
    Match {
        labels: Vec<Expression>,
        statement: Statement,
    },
    /// `default [:] statement`
    Default {
        statement: Statement,
    },
}

/// The forms of a statement.
#[derive(Clone, Copy, Debug, PartialEq, Eq)]
pub enum StatementForm {
    Null,
    Block,
    Assignment,
    If,
    Case,
    For,
    TaskEnable,
    Delay,
}

/// Where a statement stands. System tasks stand inside of an `initial`; a delay is its whole statement, or stands last in
/// the block that is its whole statement.
#[derive(Clone, Copy, Debug, PartialEq, Eq)]
pub enum StatementPlace {
    /// inside of an `always`, or its whole statement
    InAlways,
    /// inside of an `initial`
    InInitial,
    /// the whole statement of an `initial`
    WholeInitial,
}
