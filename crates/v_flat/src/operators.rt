//! The operators of expressions by their rules of widths.

ghost use Rattle.std.specs.Prelude.{◌≡◌};
ghost use Rattle.v_flat.specs.Expressions.{binary_class, unary_class};

use gpi::{Arith, Compare, Logic, Reduce, Shift, Unary};
use v_syntax::{BinaryOperator, UnaryOperator};

/// A unary operator by the width of its operand (IEEE 1364-2005, clause 5.4.1).
#[derive(Clone, Copy)]
pub enum UnaryClass {
    /// The operand takes the width of the context.
    Keeps(Unary),
    /// The operand has its own width, and the value is one digit.
    Folds(Reduce),
}

/// A binary operator by the widths of its operands (IEEE 1364-2005, clause 5.4.1).
#[derive(Clone, Copy)]
pub enum BinaryClass {
    /// Both operands take the width of the context.
    Combines(Arith),
    /// Both operands take the greater of their widths, and the value is one digit.
    Compares(Compare),
    /// Both operands have their own widths, and the value is one digit.
    Joins(Logic),
    /// The left operand takes the width of the context, and the right one has its own.
    Shifts(Shift),
}

/// The class of a unary operator.
pub fn unary_class(operator: UnaryOperator) -> UnaryClass
    ensures { result ≡ unary_class operator }
{
    match operator {
        UnaryOperator::Plus => UnaryClass::Keeps(Unary::Plus),
        UnaryOperator::Minus => UnaryClass::Keeps(Unary::Minus),
        UnaryOperator::BitwiseNegation => UnaryClass::Keeps(Unary::Invert),
        UnaryOperator::LogicalNegation => UnaryClass::Folds(Reduce::Not),
        UnaryOperator::ReductionAnd => UnaryClass::Folds(Reduce::All),
        UnaryOperator::ReductionNand => UnaryClass::Folds(Reduce::NotAll),
        UnaryOperator::ReductionOr => UnaryClass::Folds(Reduce::Any),
        UnaryOperator::ReductionNor => UnaryClass::Folds(Reduce::NotAny),
        UnaryOperator::ReductionXor => UnaryClass::Folds(Reduce::Parity),
        UnaryOperator::ReductionXnor => UnaryClass::Folds(Reduce::NotParity),
    }
}

/// The class of a binary operator.
pub fn binary_class(operator: BinaryOperator) -> BinaryClass
    ensures { result ≡ binary_class operator }
{
    match operator {
        BinaryOperator::LogicalOr => BinaryClass::Joins(Logic::Either),
        BinaryOperator::LogicalAnd => BinaryClass::Joins(Logic::Both),
        BinaryOperator::BitwiseOr => BinaryClass::Combines(Arith::Or),
        BinaryOperator::BitwiseXor => BinaryClass::Combines(Arith::Xor),
        BinaryOperator::BitwiseXnor => BinaryClass::Combines(Arith::Xnor),
        BinaryOperator::BitwiseAnd => BinaryClass::Combines(Arith::And),
        BinaryOperator::Equal => BinaryClass::Compares(Compare::Equal),
        BinaryOperator::Unequal => BinaryClass::Compares(Compare::Differ),
        BinaryOperator::CaseEqual => BinaryClass::Compares(Compare::CaseEqual),
        BinaryOperator::CaseUnequal => BinaryClass::Compares(Compare::CaseDiffer),
        BinaryOperator::Less => BinaryClass::Compares(Compare::Less),
        BinaryOperator::LessOrEqual => BinaryClass::Compares(Compare::AtMost),
        BinaryOperator::Greater => BinaryClass::Compares(Compare::Above),
        BinaryOperator::GreaterOrEqual => BinaryClass::Compares(Compare::AtLeast),
        BinaryOperator::ShiftLeft => BinaryClass::Shifts(Shift::Up),
        BinaryOperator::ShiftRight => BinaryClass::Shifts(Shift::Down),
        BinaryOperator::ArithmeticShiftLeft => BinaryClass::Shifts(Shift::Up),
        BinaryOperator::ArithmeticShiftRight => BinaryClass::Shifts(Shift::Down),
        BinaryOperator::Add => BinaryClass::Combines(Arith::Add),
        BinaryOperator::Subtract => BinaryClass::Combines(Arith::Sub),
        BinaryOperator::Multiply => BinaryClass::Combines(Arith::Mul),
        BinaryOperator::Divide => BinaryClass::Combines(Arith::Div),
        BinaryOperator::Remainder => BinaryClass::Combines(Arith::Rem),
    }
}
