//! Expressions, and the targets of assignments.
//!
//! A node keeps the numbers of the tokens at which a later rule points: `at` is the number of an expression's first token
//! where the expression begins with a token of its own, and a select's `at` is the number of its `[`. An operator's left
//! operand and a condition begin where the whole begins.

ghost use Rattle.std.specs.Prelude.{◌≡◌};
ghost use Rattle.v_syntax.specs.ExpressionTrees.{view, first_at};

use crate::TokenNumber;
use four_value::Bits;
use port_io::Name;

/// An expression (IEEE 1364-2005, clause 5 and annex A.8.3).
#[cycle(expressions)]
#[derive(Drop)]
pub enum Expression {
    /// A number (clause 3.5).
    Number {
        at: TokenNumber,
        value: Bits,
    },
    /// The name of a net, register, memory or parameter, and the selects behind it (clause 5.2).
    Operand(Operand),
    /// `( inner )`
    Bracketed {
        at: TokenNumber,
        inner: Box<Expression>,
    },
    /// A unary operator before its operand (clause 5.1).
    Unary {
        at: TokenNumber,
        operator: UnaryOperator,
        operand: Box<Expression>,
    },
    /// A binary operator between its operands (clause 5.1).
    Binary {
        operator: BinaryOperator,
        left: Box<Expression>,
        right: Box<Expression>,
    },
    /// `condition ? yes : no` (clause 5.1.13)
    Conditional {
        condition: Box<Expression>,
        yes: Box<Expression>,
        no: Box<Expression>,
    },
    /// `{ part , .. }` (clause 5.1.14)
    Concatenation {
        at: TokenNumber,
        parts: Vec<Expression>,
    },
    /// `{ count { part , .. } }` (clause 5.1.14)
    Replication {
        at: TokenNumber,
        count: Box<Expression>,
        parts: Vec<Expression>,
    },
}

impl Expression {
    /// The number of the expression's first token.
    #[tactic(auto, unfolding(crate::specs::ExpressionTrees::first_at))]
    pub fn first(&self) -> TokenNumber
        ensures { result ≡ first_at (view self.now) }
    {
        match self {
            Expression::Number { at, .. } => *at,
            Expression::Operand(operand) => operand.at,
            Expression::Bracketed { at, .. } => *at,
            Expression::Unary { at, .. } => *at,
            Expression::Binary { left, .. } => left.first(),
            Expression::Conditional { condition, .. } => condition.first(),
            Expression::Concatenation { at, .. } => *at,
            Expression::Replication { at, .. } => *at,
        }
    }
}

/// A name and the selects behind it: the operand of an expression, or a target.
#[cycle(expressions)]
#[derive(Drop)]
pub struct Operand {
    pub at: TokenNumber,
    pub name: Name,
    pub selects: Selects,
}

/// The selects behind a name (clause 5.2).
#[cycle(expressions)]
#[derive(Drop)]
pub enum Selects {
    /// None: all of the name.
    Whole,
    /// A bit or a part of a vector, or a word of a memory.
    One(Select),
    /// A bit or a part of a word of a memory: `[ word ]`, and the select behind it.
    OfWord {
        at: TokenNumber,
        word: Box<Expression>,
        select: Select,
    },
}

/// One select.
#[cycle(expressions)]
#[derive(Drop)]
pub enum Select {
    /// `[ index ]`: a bit-select (clause 5.2.1), or a word of a memory (clause 5.2.2).
    Bit {
        at: TokenNumber,
        index: Box<Expression>,
    },
    /// `[ left : right ]`: a part-select (clause 5.2.1).
    Part {
        at: TokenNumber,
        left: Box<Expression>,
        right: Box<Expression>,
    },
    /// `[ base +: width ]`: an indexed part-select (clause 5.2.1).
    IndexedPart {
        at: TokenNumber,
        base: Box<Expression>,
        width: Box<Expression>,
    },
}

/// The target of an assignment (annex A.8.5).
#[derive(Drop)]
pub enum Target {
    /// A name and the selects behind it.
    Operand(Operand),
    /// `{ part , .. }`
    Concatenation { at: TokenNumber, parts: Vec<Target> },
}

/// A unary operator (clause 5.1, table 5-1).
#[derive(Clone, Copy, Debug, PartialEq, Eq)]
pub enum UnaryOperator {
    /// `+`
    Plus,
    /// `-`
    Minus,
    /// `!`
    LogicalNegation,
    /// `~`
    BitwiseNegation,
    /// `&`
    ReductionAnd,
    /// `~&`
    ReductionNand,
    /// `|`
    ReductionOr,
    /// `~|`
    ReductionNor,
    /// `^`
    ReductionXor,
    /// `~^` or `^~`
    ReductionXnor,
}

/// A binary operator (clause 5.1, table 5-1).
#[derive(Clone, Copy, Debug, PartialEq, Eq)]
pub enum BinaryOperator {
    /// `||`
    LogicalOr,
    /// `&&`
    LogicalAnd,
    /// `|`
    BitwiseOr,
    /// `^`
    BitwiseXor,
    /// `~^` or `^~`
    BitwiseXnor,
    /// `&`
    BitwiseAnd,
    /// `==`
    Equal,
    /// `!=`
    Unequal,
    /// `===`
    CaseEqual,
    /// `!==`
    CaseUnequal,
    /// `<`
    Less,
    /// `<=`
    LessOrEqual,
    /// `>`
    Greater,
    /// `>=`
    GreaterOrEqual,
    /// `<<`
    ShiftLeft,
    /// `>>`
    ShiftRight,
    /// `<<<`
    ArithmeticShiftLeft,
    /// `>>>`
    ArithmeticShiftRight,
    /// `+`
    Add,
    /// `-`
    Subtract,
    /// `*`
    Multiply,
    /// `/`
    Divide,
    /// `%`
    Remainder,
}
