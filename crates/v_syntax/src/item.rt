//! Module items.

use crate::{Expression, Identifier, Statement, Target, TokenNumber};

/// `[ left : right ]` (IEEE 1364-2005, clause 4.3.1 and annex A.2.5). `at` is the number of the `[`.
#[derive(Drop)]
pub struct Range {
    pub at: TokenNumber,
    pub left: Expression,
    pub right: Expression,
}

/// The direction of a port (IEEE 1364-2005, clause 12.3.3).
#[derive(Clone, Copy, Debug, PartialEq, Eq)]
pub enum Direction {
    Input,
    Output,
}

/// `wire` or `reg` behind a port's direction.
#[derive(Clone, Copy, Debug, PartialEq, Eq)]
pub enum PortKind {
    Wire,
    Reg,
}

/// A direction, with the kind and the range where they are written.
#[derive(Drop)]
pub struct PortHead {
    pub direction: Direction,
    pub kind: Option<PortKind>,
    pub range: Option<Range>,
}

/// A net, with the value that drives it where one is written (IEEE 1364-2005, clause 6.1.1).
#[derive(Drop)]
pub struct NetDeclarator {
    pub name: Identifier,
    pub value: Option<Expression>,
}

/// What stands behind a register's name.
#[derive(Drop)]
pub enum RegisterTail {
    /// the range of a memory's words (IEEE 1364-2005, clause 4.9)
    Words(Range),
    /// `= value` (clause 6.2.1)
    Value(Expression),
}

/// A register or memory.
#[derive(Drop)]
pub struct RegisterDeclarator {
    pub name: Identifier,
    pub tail: Option<RegisterTail>,
}

/// `parameter` or `localparam` (IEEE 1364-2005, clause 4.10).
#[derive(Clone, Copy, Debug, PartialEq, Eq)]
pub enum ParameterKind {
    Parameter,
    LocalParam,
}

/// `name = value` of a parameter.
#[derive(Drop)]
pub struct ParameterAssignment {
    pub name: Identifier,
    pub value: Expression,
}

/// `target = value` of an `assign` (IEEE 1364-2005, clause 6.1.2).
#[derive(Drop)]
pub struct ContinuousAssignment {
    pub target: Target,
    pub value: Expression,
}

/// `posedge` or `negedge` (IEEE 1364-2005, clause 9.7.2).
#[derive(Clone, Copy, Debug, PartialEq, Eq)]
pub enum Edge {
    Positive,
    Negative,
}

/// A signal that an `always` waits for: any change of it, or an edge.
#[derive(Drop)]
pub struct Event {
    pub edge: Option<Edge>,
    pub name: Identifier,
}

/// What an `always` waits for (IEEE 1364-2005, clauses 9.7.2 to 9.7.5).
#[derive(Drop)]
pub enum EventControl {
    /// `@*` or `@(*)`
    Implicit,
    /// `@( event or event , event )`
    Events(Vec<Event>),
}

/// `. port ( [value] )` (IEEE 1364-2005, clause 12.3.6). `at` is the number of the `.`.
#[derive(Drop)]
pub struct NamedConnection {
    pub at: TokenNumber,
    pub port: Identifier,
    pub value: Option<Expression>,
}

/// What an instance's ports or parameters are joined to (IEEE 1364-2005, clauses 12.2.2, 12.3.5 and 12.3.6).
#[derive(Drop)]
pub enum Connections {
    Ordered(Vec<Expression>),
    Named(Vec<NamedConnection>),
}

/// A module item (IEEE 1364-2005, annex A.1.4).
#[derive(Drop)]
pub enum ItemKind {
    /// `input` or `output`, for ports that the header only names (clause 12.3.3)
    Ports {
        head: PortHead,
        names: Vec<Identifier>,
    },
    /// `wire` (clause 4.2)
    Nets {
        range: Option<Range>,
        declarators: Vec<NetDeclarator>,
    },
    /// `reg` (clause 4.2.2)
    Registers {
        range: Option<Range>,
        declarators: Vec<RegisterDeclarator>,
    },
    /// `integer` (clause 4.8)
    Integers(Vec<Identifier>),
    /// `parameter` or `localparam` (clause 4.10)
    Parameters {
        kind: ParameterKind,
        range: Option<Range>,
        assignments: Vec<ParameterAssignment>,
    },
    /// `assign` (clause 6.1.2)
    ContinuousAssignments(Vec<ContinuousAssignment>),
    /// `always @ events statement` (clause 9.9.2)
    Always {
        events: EventControl,
        statement: Statement,
    },
    /// `initial statement` (clause 9.9.1)
    Initial(Statement),
    /// `module [# ( parameters )] name ( [ports] ) ;` (clause 12.1.2)
    Instance {
        module: Identifier,
        parameters: Option<Connections>,
        name: Identifier,
        ports: Option<Connections>,
    },
}

/// A module item, and the number of its first token.
#[derive(Drop)]
pub struct Item {
    pub at: TokenNumber,
    pub kind: ItemKind,
}

/// The forms of a module item.
#[derive(Clone, Copy, Debug, PartialEq, Eq)]
pub enum ItemForm {
    Ports,
    Nets,
    Registers,
    Integers,
    Parameters,
    ContinuousAssignments,
    Always,
    Initial,
    Instance,
}
