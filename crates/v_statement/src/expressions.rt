//! Where an expression begins, and an expression one level down.

ghost use Rattle.std.specs.Prelude.{◌≡◌, ◌<◌};
ghost use Rattle.v_syntax.specs.ExpressionTrees;
ghost use Rattle.v_expression.specs.Phrase.Stops.{Gives};
ghost use Rattle.v_expression.specs.Starts;
ghost use Rattle.v_statement.specs.Reading.{value_below};

use crate::levels::below;
use std::alloc::Global;
use v_expression::expression;
use v_expression::phrase::{ReadError, next};
use v_syntax::{Expression, Mark, Token};

/// Whether an expression begins with the first token.
pub fn starts_expression(tokens: &[Token]) -> bool
    ensures { result ≡ Starts.starts_expression tokens.now }
{
    match next(tokens) {
        Some((Token::Name(_) | Token::Number(_), _)) => true,
        Some((Token::Mark(mark), _)) => begins_expression(*mark),
        _ => false,
    }
}

/// Whether an expression begins with a mark.
pub fn begins_expression(mark: Mark) -> bool
    ensures { result ≡ Starts.mark_begins_expression mark }
{
    match mark {
        Mark::Plus
        | Mark::Minus
        | Mark::Exclamation
        | Mark::Tilde
        | Mark::Ampersand
        | Mark::Nand
        | Mark::Bar
        | Mark::Nor
        | Mark::Caret
        | Mark::TildeCaret
        | Mark::CaretTilde
        | Mark::OpenParenthesis
        | Mark::OpenBrace => true,
        _ => false,
    }
}

/// An expression one level down.
#[tactic(auto, unfolding(crate::specs::Reading::value_below, crate::specs::Reading::levels))]
pub fn expression_below(
    alloc: Global,
    total: usize,
    room: usize,
    tokens: &[Token],
) -> Result<(Box<Expression>, &[Token]), ReadError>
    requires { room < 1000 }
    ensures { Gives (λ x. (ExpressionTrees.view x.0.value, x.1.now)) result (value_below total room tokens.now) }
{
    let room = below(room, tokens)?;
    expression(alloc, total, room, tokens)
}
