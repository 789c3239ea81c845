//! The tokens that decide how an expression goes on.

ghost use Rattle.std.specs.Prelude.{◌≡◌, Some, None, MatchOption};
ghost use Rattle.py_expression.specs.Tokens;

use crate::phrase::{Mark, after, name_at};
use port_io::Name;
use py_syntax::{BinOp, BoolOp, Bracket, Keyword, Operation, Operator, Token, UnOp};

/// The operator with one operand that a token is.
pub fn prefix_of(token: &Token) -> Option<UnOp>
    ensures { result ≡ Tokens.prefix_of token.now }
{
    match token {
        Token::Keyword(Keyword::Not) => Some(UnOp::Not),
        Token::Operator(Operator::Minus) => Some(UnOp::Negative),
        Token::Operator(Operator::Plus) => Some(UnOp::Positive),
        Token::Operator(Operator::Invert) => Some(UnOp::Invert),
        _ => None,
    }
}

/// The operator between two operands that is written so.
fn marked_operation(mark: Operator) -> Option<BinOp>
    ensures { result ≡ Tokens.marked_operation mark }
{
    match mark {
        Operator::Equal => Some(BinOp::Equal),
        Operator::NotEqual => Some(BinOp::NotEqual),
        Operator::Less => Some(BinOp::Less),
        Operator::LessEqual => Some(BinOp::LessEqual),
        Operator::Greater => Some(BinOp::Greater),
        Operator::GreaterEqual => Some(BinOp::GreaterEqual),
        Operator::Or => Some(BinOp::BitOr),
        Operator::Xor => Some(BinOp::BitXor),
        Operator::And => Some(BinOp::BitAnd),
        Operator::ShiftLeft => Some(BinOp::ShiftLeft),
        Operator::ShiftRight => Some(BinOp::ShiftRight),
        Operator::Plus => Some(BinOp::Add),
        Operator::Minus => Some(BinOp::Subtract),
        Operator::Times => Some(BinOp::Multiply),
        Operator::FloorDivide => Some(BinOp::FloorDivide),
        Operator::Modulo => Some(BinOp::Modulo),
        _ => None,
    }
}

/// The operator between two operands that a token is, where no `not` follows.
fn operation_of(token: &Token) -> Option<Operation>
    ensures { result ≡ Tokens.operation_of token.now }
{
    match token {
        Token::Keyword(Keyword::Or) => Some(Operation::Bool(BoolOp::Or)),
        Token::Keyword(Keyword::And) => Some(Operation::Bool(BoolOp::And)),
        Token::Keyword(Keyword::Is) => Some(Operation::Binary(BinOp::Is)),
        Token::Operator(mark) => Some(Operation::Binary(marked_operation(*mark)?)),
        _ => None,
    }
}

/// The operator at the front, and the tokens after it.
#[tactic(auto, unfolding(crate::specs::Tokens::operation_at))]
pub fn operation_at(tokens: &[Token]) -> Option<(Operation, &[Token])>
    ensures { MatchOption result (Tokens.operation_at tokens.now ≡ None) (λ x. Tokens.operation_at tokens.now ≡ Some (x.0, x.1.now)) }
{
    let (first, rest) = tokens.split_first()?;
    let op = operation_of(first)?;
    match (op, after(Mark::Keyword(Keyword::Not), rest)) {
        (Operation::Binary(BinOp::Is), Some(behind)) => {
            Some((Operation::Binary(BinOp::IsNot), behind))
        }
        _ => Some((op, rest)),
    }
}

/// The tokens after a `}` of an f-string.
pub fn after_format_close(tokens: &[Token]) -> Option<&[Token]>
    ensures { MatchOption result (Tokens.after_format_close tokens.now ≡ None) (λ x. Tokens.after_format_close tokens.now ≡ Some x.now) }
{
    match tokens.split_first() {
        Some((Token::FormatClose, rest)) => Some(rest),
        _ => None,
    }
}

/// The tokens after `()`.
pub fn after_empty_call(tokens: &[Token]) -> Option<&[Token]>
    ensures { MatchOption result (Tokens.after_empty_call tokens.now ≡ None) (λ x. Tokens.after_empty_call tokens.now ≡ Some x.now) }
{
    after(
        Mark::Close(Bracket::Round),
        after(Mark::Open(Bracket::Round), tokens)?,
    )
}

/// The name after a dot, and the tokens after it.
pub fn attribute_at(tokens: &[Token]) -> Option<(&Name, &[Token])>
    ensures { MatchOption result (Tokens.attribute_at tokens.now ≡ None) (λ x. Tokens.attribute_at tokens.now ≡ Some (x.0.now, x.1.now)) }
{
    name_at(after(Mark::Operator(Operator::Dot), tokens)?)
}
