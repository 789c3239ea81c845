//! Expressions and targets.

use crate::verilog::piece::{Piece, Pieces};
use std::alloc::AllocError;
use v_syntax::{BinaryOperator, Expression, Operand, Select, Selects, Target, UnaryOperator};

/// The bracket and the name of an operator with one operand.
fn prefix(operator: UnaryOperator) -> &'static str {
    match operator {
        UnaryOperator::Plus => "(plus",
        UnaryOperator::Minus => "(minus",
        UnaryOperator::LogicalNegation => "(not",
        UnaryOperator::BitwiseNegation => "(invert",
        UnaryOperator::ReductionAnd => "(all",
        UnaryOperator::ReductionNand => "(nand",
        UnaryOperator::ReductionOr => "(any",
        UnaryOperator::ReductionNor => "(nor",
        UnaryOperator::ReductionXor => "(odd",
        UnaryOperator::ReductionXnor => "(even",
    }
}

/// The bracket and the sign of an operator with two operands.
fn infix(operator: BinaryOperator) -> &'static str {
    match operator {
        BinaryOperator::LogicalOr => "(||",
        BinaryOperator::LogicalAnd => "(&&",
        BinaryOperator::BitwiseOr => "(|",
        BinaryOperator::BitwiseXor => "(^",
        BinaryOperator::BitwiseXnor => "(~^",
        BinaryOperator::BitwiseAnd => "(&",
        BinaryOperator::Equal => "(==",
        BinaryOperator::Unequal => "(!=",
        BinaryOperator::CaseEqual => "(===",
        BinaryOperator::CaseUnequal => "(!==",
        BinaryOperator::Less => "(<",
        BinaryOperator::LessOrEqual => "(<=",
        BinaryOperator::Greater => "(>",
        BinaryOperator::GreaterOrEqual => "(>=",
        BinaryOperator::ShiftLeft => "(<<",
        BinaryOperator::ShiftRight => "(>>",
        BinaryOperator::ArithmeticShiftLeft => "(<<<",
        BinaryOperator::ArithmeticShiftRight => "(>>>",
        BinaryOperator::Add => "(+",
        BinaryOperator::Subtract => "(-",
        BinaryOperator::Multiply => "(*",
        BinaryOperator::Divide => "(/",
        BinaryOperator::Remainder => "(%",
    }
}

/// A select behind what it selects from.
fn select<'a>(pieces: &mut Pieces<'a>, select: &'a Select) -> Result<(), AllocError> {
    match select {
        Select::Bit { index, .. } => {
            pieces.mark(" (bit")?;
            pieces.expression(index)?;
        }
        Select::Part { left, right, .. } => {
            pieces.mark(" (part")?;
            pieces.expression(left)?;
            pieces.expression(right)?;
        }
        Select::IndexedPart { base, width, .. } => {
            pieces.mark(" (from")?;
            pieces.expression(base)?;
            pieces.expression(width)?;
        }
    }
    pieces.mark(")")
}

/// A name with its selects.
fn operand<'a>(pieces: &mut Pieces<'a>, operand: &'a Operand) -> Result<(), AllocError> {
    pieces.mark("(name")?;
    pieces.name(operand.name.bytes())?;
    match &operand.selects {
        Selects::Whole => {}
        Selects::One(one) => select(pieces, one)?,
        Selects::OfWord {
            word,
            select: behind,
            ..
        } => {
            pieces.mark(" (word")?;
            pieces.expression(word)?;
            pieces.mark(")")?;
            select(pieces, behind)?;
        }
    }
    pieces.mark(")")
}

/// An operator with two operands, and these.
fn binary<'a>(
    pieces: &mut Pieces<'a>,
    operator: BinaryOperator,
    left: &'a Expression,
    right: &'a Expression,
) -> Result<(), AllocError> {
    pieces.mark(infix(operator))?;
    pieces.expression(left)?;
    pieces.expression(right)
}

/// An expression's node, and its parts.
pub fn open_expression<'a>(
    pieces: &mut Pieces<'a>,
    expression: &'a Expression,
) -> Result<(), AllocError> {
    match expression {
        Expression::Number { value, .. } => return pieces.bits(value),
        Expression::Operand(named) => return operand(pieces, named),
        Expression::Bracketed { inner, .. } => {
            pieces.mark("(brackets")?;
            pieces.expression(inner)?;
        }
        Expression::Unary {
            operator,
            operand,
            ..
        } => {
            pieces.mark(prefix(*operator))?;
            pieces.expression(operand)?;
        }
        Expression::Binary {
            operator,
            left,
            right,
        } => binary(pieces, *operator, left, right)?,
        Expression::Conditional { condition, yes, no } => {
            pieces.mark("(?")?;
            pieces.expression(condition)?;
            pieces.expression(yes)?;
            pieces.expression(no)?;
        }
        Expression::Concatenation { parts, .. } => {
            pieces.mark("(join")?;
            pieces.expressions(parts)?;
        }
        Expression::Replication { count, parts, .. } => {
            pieces.mark("(repeat")?;
            pieces.expression(count)?;
            pieces.expressions(parts)?;
        }
    }
    pieces.mark(")")
}

/// A target's node, and its parts.
pub fn open_target<'a>(pieces: &mut Pieces<'a>, target: &'a Target) -> Result<(), AllocError> {
    match target {
        Target::Operand(named) => operand(pieces, named),
        Target::Concatenation { parts, .. } => {
            pieces.mark("(join")?;
            for part in parts {
                pieces.node(Piece::Target(part))?;
            }
            pieces.mark(")")
        }
    }
}
