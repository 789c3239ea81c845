//! What items are made of.

ghost use Rattle.std.specs.Prelude.{◌≡◌, ◌<◌, map, option_map, Ok};
ghost use Rattle.v_syntax.specs.ExpressionTrees;
ghost use Rattle.v_syntax.specs.SourceTrees.{view_range, view_head};
ghost use Rattle.v_syntax.specs.TokenMeanings;
ghost use Rattle.v_expression.specs.Phrase.Stops.{Gives};
ghost use Rattle.v_expression.specs.Phrase.Readers.{maybe, token_of};
ghost use Rattle.v_parse.specs.Item.Firsts as firsts;
ghost use Rattle.v_parse.specs.Item.Firsts.{starts_kind};
ghost use Rattle.v_parse.specs.Item.Reading.{line_of, bound_of, range_of, maybe_range_of, value_of, port_head_of};

use port_io::{boxed, unboxed};
use std::alloc::Global;
use v_expression::expression;
use v_expression::phrase::{
    Element, ReadError, after, listed, next, place, starts_mark, syntax_error,
};
use v_syntax::{
    Direction, Expression, Identifier, Keyword, Mark, PortHead, PortKind, Range, Token,
};

/// An expression and the mark behind it.
#[tactic(auto, unfolding(crate::specs::Item::Reading::bound_of))]
fn bound(
    alloc: Global,
    total: usize,
    room: usize,
    mark: Mark,
    tokens: &[Token],
) -> Result<(Box<Expression>, &[Token]), ReadError>
    requires { room < 1000 }
    ensures { Gives (λ x. (ExpressionTrees.view x.0.value, x.1.now)) result (bound_of total room mark tokens.now) }
{
    let (value, rest) = expression(alloc, total, room, tokens)?;
    let rest = after(mark, rest)?;
    Ok((value, rest))
}

/// `[ expression : expression ]` (IEEE 1364-2005, annex A.2.5)
#[tactic(auto, unfolding(crate::specs::Item::Reading::range_of))]
pub fn range(
    alloc: Global,
    total: usize,
    room: usize,
    tokens: &[Token],
) -> Result<(Box<Range>, &[Token]), ReadError>
    requires { room < 1000 }
    ensures { Gives (λ x. (view_range x.0.value, x.1.now)) result (range_of total room tokens.now) }
{
    let at = place(total, tokens);
    let rest = after(Mark::OpenBracket, tokens)?;
    let (left, rest) = bound(alloc, total, room, Mark::Colon, rest)?;
    let (right, rest) = bound(alloc, total, room, Mark::CloseBracket, rest)?;
    let left = Box::into_inner(left);
    let right = Box::into_inner(right);
    Ok((boxed(alloc, Range { at, left, right })?, rest))
}

/// A range, if one stands here.
#[tactic(auto, unfolding(crate::specs::Item::Reading::maybe_range_of))]
pub fn maybe_range(
    alloc: Global,
    total: usize,
    room: usize,
    tokens: &[Token],
) -> Result<(Option<Box<Range>>, &[Token]), ReadError>
    requires { room < 1000 }
    ensures { Gives (λ x. (option_map (λ b. view_range b.value) x.0, x.1.now)) result (maybe_range_of total room tokens.now) }
{
    if !starts_mark(Mark::OpenBracket, tokens) {
        return Ok((None, tokens));
    }
    let (range, rest) = range(alloc, total, room, tokens)?;
    Ok((Some(range), rest))
}

/// `= expression`
#[tactic(auto, unfolding(crate::specs::Item::Reading::value_of))]
pub fn value(
    alloc: Global,
    total: usize,
    room: usize,
    tokens: &[Token],
) -> Result<(Box<Expression>, &[Token]), ReadError>
    requires { room < 1000 }
    ensures { Gives (λ x. (ExpressionTrees.view x.0.value, x.1.now)) result (value_of total room tokens.now) }
{
    let rest = after(Mark::Assign, tokens)?;
    expression(alloc, total, room, rest)
}

/// A list and the semicolon behind it.
#[tactic(auto, unfolding(crate::specs::Item::Reading::line_of))]
pub fn line<'a, T: Element>(
    alloc: Global,
    total: usize,
    room: usize,
    tokens: &'a [Token],
) -> Result<(Vec<T::Value>, &'a [Token]), ReadError>
    requires { room < 1000 }
    ensures { Gives (λ x. (map T.tree x.0.items, x.1.now)) result (line_of (T.reading total room) tokens.now) }
{
    let (all, rest) = listed::<T>(alloc, total, room, tokens)?;
    let rest = after(Mark::Semicolon, rest)?;
    Ok((all, rest))
}

// ---- the head of a port (annex A.2.1.2)

/// Whether `input` or `output` stands first.
pub fn starts_direction(tokens: &[Token]) -> bool
    ensures { result ≡ firsts.starts_direction tokens.now }
{
    match next(tokens) {
        Some((Token::Keyword(Keyword::Input | Keyword::Output), _)) => true,
        _ => false,
    }
}

/// `input` or `output`
fn direction(tokens: &[Token]) -> Result<(Direction, &[Token]), ReadError>
    ensures { Gives (λ x. (x.0, x.1.now)) result (token_of TokenMeanings.direction_of tokens.now) }
{
    match next(tokens) {
        Some((Token::Keyword(Keyword::Input), rest)) => Ok((Direction::Input, rest)),
        Some((Token::Keyword(Keyword::Output), rest)) => Ok((Direction::Output, rest)),
        _ => Err(syntax_error(tokens)),
    }
}

/// `wire` or `reg`, if one stands here.
fn port_kind(tokens: &[Token]) -> (Option<PortKind>, &[Token])
    ensures { maybe starts_kind (token_of TokenMeanings.port_kind) tokens.now ≡ Ok (result.0, result.1.now) }
{
    match next(tokens) {
        Some((Token::Keyword(Keyword::Wire), rest)) => (Some(PortKind::Wire), rest),
        Some((Token::Keyword(Keyword::Reg), rest)) => (Some(PortKind::Reg), rest),
        _ => (None, tokens),
    }
}

/// `input` or `output`, `[wire | reg]` and `[range]`
#[tactic(auto, unfolding(crate::specs::Item::Reading::port_head_of))]
pub fn port_head(
    alloc: Global,
    total: usize,
    room: usize,
    tokens: &[Token],
) -> Result<(Box<PortHead>, &[Token]), ReadError>
    requires { room < 1000 }
    ensures { Gives (λ x. (view_head x.0.value, x.1.now)) result (port_head_of total room tokens.now) }
{
    let (direction, rest) = direction(tokens)?;
    let (kind, rest) = port_kind(rest);
    let (range, rest) = maybe_range(alloc, total, room, rest)?;
    let head = PortHead {
        direction,
        kind,
        range: unboxed(range),
    };
    Ok((boxed(alloc, head)?, rest))
}
