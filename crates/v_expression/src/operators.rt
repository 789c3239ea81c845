//! Expressions by their operators.

ghost use Rattle.std.specs.Prelude.{◌≡◌, ◌+◌, ◌<◌, ◌≤◌, length, IfOk, Option};
ghost use Rattle.v_syntax.specs.ExpressionTrees.{view, height};
ghost use Rattle.v_syntax.specs.ExpressionOperators;
ghost use Rattle.v_expression.specs.Phrase.Stops.{Gives};
ghost use Rattle.v_expression.specs.Reading;
ghost use Rattle.v_expression.specs.Reading.{
  below,
  layer,
  prefix_of,
  infix_of,
  from_level,
  whole_of,
  choose_of,
  branches_of,
  climb_of,
  steps_of,
  operand_of,
  unary_of,
  prefixed_of,
};
ghost use Rattle.v_expression.specs.Measures.{IsMeasured};

use crate::measured::{Measured, binary, conditional, unary};
use crate::phrase::{ReadError, after, behind, next, place, syntax_error, too_deep};
use crate::primaries::primary_at;
use std::alloc::Global;
use v_syntax::{BinaryOperator, Mark, Token, UnaryOperator};

/// How many levels are left below a node here.
#[tactic(auto, using(crate::proofs::Room::room_laws), unfolding(crate::specs::Reading::down))]
pub fn down(total: usize, room: usize, here: &[Token]) -> Result<usize, ReadError>
    ensures gives { Gives (λ r. layer total r (below total r)) result (Reading.down room (below total room) here.now) }
    ensures less { IfOk result (λ r. r + 1 ≡ room) }
{
    if room == 0 {
        return Err(too_deep(here));
    }
    Ok(room - 1)
}

/// How many levels are left below a node here whose first part has been read.
#[tactic(auto, using(crate::proofs::Room::room_laws), unfolding(crate::specs::Reading::down_from))]
fn down_from(
    total: usize,
    room: usize,
    first: &Measured,
    here: &[Token],
) -> Result<usize, ReadError>
    requires { IsMeasured (room + 1) first.now }
    ensures gives { Gives (λ r. layer total r (below total r)) result
        (Reading.down_from room (below total room) (view first.now.expression.value) here.now) }
    ensures less { IfOk result (λ r. (r + 1 ≡ room) × (first.now.height ≤ room)) }
{
    if first.height > room {
        return Err(too_deep(here));
    }
    Ok(room - 1)
}

/// An expression with so many levels below its own.
#[cycle(expressions)]
#[tactic(auto, unfolding(crate::specs::Reading::whole_of))]
pub fn expression_at(
    alloc: Global,
    total: usize,
    room: usize,
    tokens: &[Token],
) -> Result<(Measured, &[Token]), ReadError>
    requires { room < 1000 }
    ensures gives { Gives (λ x. (view x.0.expression.value, x.1.now)) result (whole_of total room (below total room) tokens.now) }
    ensures height { IfOk result (λ x. IsMeasured (room + 1) x.0) }
{
    let (first, rest) = climb_at(alloc, total, room, 2, tokens)?;
    choose_at(alloc, total, room, first, rest)
}

#[cycle(expressions)]
#[tactic(auto, unfolding(crate::specs::Reading::choose_of))]
fn choose_at(
    alloc: Global,
    total: usize,
    room: usize,
    first: Measured,
    tokens: &[Token],
) -> Result<(Measured, &[Token]), ReadError>
    requires room { room < 1000 }
    requires height { IsMeasured (room + 1) first }
    ensures gives { Gives (λ x. (view x.0.expression.value, x.1.now)) result
        (choose_of room (below total room) (view first.expression.value) tokens.now) }
    ensures height { IfOk result (λ x. IsMeasured (room + 1) x.0) }
{
    match behind(Mark::Question, tokens) {
        Some(after) => branches_at(alloc, total, room, first, tokens, after),
        None => Ok((first, tokens)),
    }
}

#[cycle(expressions)]
#[tactic(auto, unfolding(crate::specs::Reading::branches_of, v_syntax::specs::ExpressionTrees::height))]
fn branches_at<'a>(
    alloc: Global,
    total: usize,
    room: usize,
    condition: Measured,
    here: &[Token],
    behind: &'a [Token],
) -> Result<(Measured, &'a [Token]), ReadError>
    requires room { room < 1000 }
    requires height { IsMeasured (room + 1) condition }
    ensures gives { Gives (λ x. (view x.0.expression.value, x.1.now)) result
        (branches_of room (below total room) (view condition.expression.value) here.now behind.now) }
    ensures height { IfOk result (λ x. IsMeasured (room + 1) x.0) }
{
    let below = down_from(total, room, &condition, here)?;
    let (yes, rest) = expression_at(alloc, total, below, behind)?;
    let rest = after(Mark::Colon, rest)?;
    let (no, rest) = expression_at(alloc, total, below, rest)?;
    Ok((conditional(alloc, condition, yes, no)?, rest))
}

/// An expression of operators that bind at least as tightly as the level `min`.
#[cycle(expressions)]
#[tactic(auto, unfolding(crate::specs::Reading::climb_of))]
fn climb_at(
    alloc: Global,
    total: usize,
    room: usize,
    min: usize,
    tokens: &[Token],
) -> Result<(Measured, &[Token]), ReadError>
    requires { room < 1000 }
    ensures gives { Gives (λ x. (view x.0.expression.value, x.1.now)) result (climb_of total room (below total room) min tokens.now) }
    ensures height { IfOk result (λ x. IsMeasured (room + 1) x.0) }
{
    let (first, rest) = unary_at(alloc, total, room, tokens)?;
    steps_at(alloc, total, room, min, first, rest)
}

#[cycle(expressions)]
#[tactic(auto, unfolding(crate::specs::Reading::steps_of))]
fn steps_at(
    alloc: Global,
    total: usize,
    room: usize,
    min: usize,
    first: Measured,
    tokens: &[Token],
) -> Result<(Measured, &[Token]), ReadError>
    requires room { room < 1000 }
    requires height { IsMeasured (room + 1) first }
    ensures gives { Gives (λ x. (view x.0.expression.value, x.1.now)) result
        (steps_of room (below total room) min (length tokens.now) (view first.expression.value) tokens.now) }
    ensures height { IfOk result (λ x. IsMeasured (room + 1) x.0) }
{
    let mut left = first;
    let mut rest = tokens;
    for _ in 0..tokens.len() {
        let Some((token, after)) = next(rest) else {
            break;
        };
        let Some(operator) = operator_from(min, token) else {
            break;
        };
        let (grown, others) = operand_at(alloc, total, room, operator, left, rest, after)?;
        left = grown;
        rest = others;
    }
    Ok((left, rest))
}

#[cycle(expressions)]
#[tactic(auto, unfolding(crate::specs::Reading::operand_of, v_syntax::specs::ExpressionTrees::height))]
fn operand_at<'a>(
    alloc: Global,
    total: usize,
    room: usize,
    operator: BinaryOperator,
    left: Measured,
    here: &[Token],
    behind: &'a [Token],
) -> Result<(Measured, &'a [Token]), ReadError>
    requires room { room < 1000 }
    requires height { IsMeasured (room + 1) left }
    ensures gives { Gives (λ x. (view x.0.expression.value, x.1.now)) result
        (operand_of room (below total room) operator (view left.expression.value) here.now behind.now) }
    ensures height { IfOk result (λ x. IsMeasured (room + 1) x.0) }
{
    let below = down_from(total, room, &left, here)?;
    let (right, rest) = climb_at(alloc, total, below, level_behind(operator), behind)?;
    Ok((binary(alloc, operator, left, right)?, rest))
}

#[cycle(expressions)]
#[tactic(auto, unfolding(crate::specs::Reading::unary_of))]
fn unary_at(
    alloc: Global,
    total: usize,
    room: usize,
    tokens: &[Token],
) -> Result<(Measured, &[Token]), ReadError>
    requires { room < 1000 }
    ensures gives { Gives (λ x. (view x.0.expression.value, x.1.now)) result (unary_of total room (below total room) tokens.now) }
    ensures height { IfOk result (λ x. IsMeasured (room + 1) x.0) }
{
    let Some((token, behind)) = next(tokens) else {
        return Err(syntax_error(tokens));
    };
    match prefix_operator(token) {
        Some(operator) => prefixed_at(alloc, total, room, operator, tokens, behind),
        None => primary_at(alloc, total, room, tokens),
    }
}

#[cycle(expressions)]
#[tactic(auto, unfolding(crate::specs::Reading::prefixed_of, v_syntax::specs::ExpressionTrees::height))]
fn prefixed_at<'a>(
    alloc: Global,
    total: usize,
    room: usize,
    operator: UnaryOperator,
    here: &[Token],
    behind: &'a [Token],
) -> Result<(Measured, &'a [Token]), ReadError>
    requires { room < 1000 }
    ensures gives { Gives (λ x. (view x.0.expression.value, x.1.now)) result
        (prefixed_of total room (below total room) operator here.now behind.now) }
    ensures height { IfOk result (λ x. IsMeasured (room + 1) x.0) }
{
    let below = down(total, room, here)?;
    let (operand, rest) = unary_at(alloc, total, below, behind)?;
    Ok((unary(alloc, place(total, here), operator, operand)?, rest))
}

/// The operator that a token between operands is, if it binds at least as tightly as the level `min`.
fn operator_from(min: usize, token: &Token) -> Option<BinaryOperator>
    ensures { result ≡ from_level min (infix_of token.now) }
{
    match infix_operator(token) {
        Some(operator) if min <= level(operator) => Some(operator),
        _ => None,
    }
}

/// How tightly an operator binds: the levels of the binary operators are 2 to 11.
fn level(operator: BinaryOperator) -> usize
    ensures is { result ≡ ExpressionOperators.level_of operator }
    ensures low { result < 12 }
{
    match operator {
        BinaryOperator::LogicalOr => 2,
        BinaryOperator::LogicalAnd => 3,
        BinaryOperator::BitwiseOr => 4,
        BinaryOperator::BitwiseXor | BinaryOperator::BitwiseXnor => 5,
        BinaryOperator::BitwiseAnd => 6,
        BinaryOperator::Equal
        | BinaryOperator::Unequal
        | BinaryOperator::CaseEqual
        | BinaryOperator::CaseUnequal => 7,
        BinaryOperator::Less
        | BinaryOperator::LessOrEqual
        | BinaryOperator::Greater
        | BinaryOperator::GreaterOrEqual => 8,
        BinaryOperator::ShiftLeft
        | BinaryOperator::ShiftRight
        | BinaryOperator::ArithmeticShiftLeft
        | BinaryOperator::ArithmeticShiftRight => 9,
        BinaryOperator::Add | BinaryOperator::Subtract => 10,
        BinaryOperator::Multiply | BinaryOperator::Divide | BinaryOperator::Remainder => 11,
    }
}

/// The least level of what stands to the right of an operator: those of one level group to the left.
fn level_behind(operator: BinaryOperator) -> usize
    ensures is { result ≡ ExpressionOperators.level_of operator + 1 }
{
    level(operator) + 1
}

/// The operator that a token before an operand is.
fn prefix_operator(token: &Token) -> Option<UnaryOperator>
    ensures { result ≡ prefix_of token.now }
{
    let Token::Mark(mark) = token else {
        return None;
    };
    match mark {
        Mark::Plus => Some(UnaryOperator::Plus),
        Mark::Minus => Some(UnaryOperator::Minus),
        Mark::Exclamation => Some(UnaryOperator::LogicalNegation),
        Mark::Tilde => Some(UnaryOperator::BitwiseNegation),
        Mark::Ampersand => Some(UnaryOperator::ReductionAnd),
        Mark::Nand => Some(UnaryOperator::ReductionNand),
        Mark::Bar => Some(UnaryOperator::ReductionOr),
        Mark::Nor => Some(UnaryOperator::ReductionNor),
        Mark::Caret => Some(UnaryOperator::ReductionXor),
        Mark::TildeCaret | Mark::CaretTilde => Some(UnaryOperator::ReductionXnor),
        _ => None,
    }
}

/// The operator that a token between operands is.
fn infix_operator(token: &Token) -> Option<BinaryOperator>
    ensures { result ≡ infix_of token.now }
{
    let Token::Mark(mark) = token else {
        return None;
    };
    match mark {
        Mark::LogicalOr => Some(BinaryOperator::LogicalOr),
        Mark::LogicalAnd => Some(BinaryOperator::LogicalAnd),
        Mark::Bar => Some(BinaryOperator::BitwiseOr),
        Mark::Caret => Some(BinaryOperator::BitwiseXor),
        Mark::TildeCaret | Mark::CaretTilde => Some(BinaryOperator::BitwiseXnor),
        Mark::Ampersand => Some(BinaryOperator::BitwiseAnd),
        Mark::Equal => Some(BinaryOperator::Equal),
        Mark::Unequal => Some(BinaryOperator::Unequal),
        Mark::CaseEqual => Some(BinaryOperator::CaseEqual),
        Mark::CaseUnequal => Some(BinaryOperator::CaseUnequal),
        Mark::Less => Some(BinaryOperator::Less),
        Mark::LessOrEqual => Some(BinaryOperator::LessOrEqual),
        Mark::Greater => Some(BinaryOperator::Greater),
        Mark::GreaterOrEqual => Some(BinaryOperator::GreaterOrEqual),
        Mark::ShiftLeft => Some(BinaryOperator::ShiftLeft),
        Mark::ShiftRight => Some(BinaryOperator::ShiftRight),
        Mark::ArithmeticShiftLeft => Some(BinaryOperator::ArithmeticShiftLeft),
        Mark::ArithmeticShiftRight => Some(BinaryOperator::ArithmeticShiftRight),
        Mark::Plus => Some(BinaryOperator::Add),
        Mark::Minus => Some(BinaryOperator::Subtract),
        Mark::Star => Some(BinaryOperator::Multiply),
        Mark::Slash => Some(BinaryOperator::Divide),
        Mark::Percent => Some(BinaryOperator::Remainder),
        _ => None,
    }
}
