//! Expressions without an operator before or between them.

ghost use Rattle.std.specs.Prelude.{◌≡◌, ◌+◌, ◌<◌, ◌≤◌, IfOk};
ghost use Rattle.v_syntax.specs.ExpressionTrees.{view, views, height, trees_height};
ghost use Rattle.v_expression.specs.Phrase.Stops.{Gives};
ghost use Rattle.v_expression.specs.Reading;
ghost use Rattle.v_expression.specs.Reading.{
  below,
  layer,
  primary_of,
  named_of,
  bracketed_of,
  braced_of,
  inside_of,
  replication_of,
  concatenation_of,
  parts_of,
};
ghost use Rattle.v_expression.specs.Measures.{IsMeasured, IsMeasuredParts};

use crate::measured::{
    Measured, MeasuredParts, bracketed, concatenation, named, number, replication,
};
use crate::operators::{down, expression_at};
use crate::phrase::{ReadError, after, behind, next, place, syntax_error};
use crate::selects::selects_at;
use port_io::Name;
use std::alloc::Global;
use v_syntax::{Mark, Token, TokenNumber};

/// A primary with so many levels below its own.
#[cycle(expressions)]
#[tactic(auto, unfolding(crate::specs::Reading::primary_of, v_syntax::specs::ExpressionTrees::height))]
pub fn primary_at(
    alloc: Global,
    total: usize,
    room: usize,
    tokens: &[Token],
) -> Result<(Measured, &[Token]), ReadError>
    requires { room < 1000 }
    ensures gives { Gives (λ x. (view x.0.expression.value, x.1.now)) result (primary_of total room (below total room) tokens.now) }
    ensures height { IfOk result (λ x. IsMeasured (room + 1) x.0) }
{
    match next(tokens) {
        Some((Token::Number(value), rest)) => {
            Ok((number(alloc, place(total, tokens), *value)?, rest))
        }
        Some((Token::Name(name), rest)) => {
            named_at(alloc, total, room, place(total, tokens), name, rest)
        }
        Some((Token::Mark(Mark::OpenParenthesis), rest)) => {
            bracketed_at(alloc, total, room, tokens, rest)
        }
        Some((Token::Mark(Mark::OpenBrace), rest)) => braced_at(alloc, total, room, tokens, rest),
        _ => Err(syntax_error(tokens)),
    }
}

#[cycle(expressions)]
#[tactic(auto, unfolding(crate::specs::Reading::named_of, v_syntax::specs::ExpressionTrees::height))]
fn named_at<'a>(
    alloc: Global,
    total: usize,
    room: usize,
    at: TokenNumber,
    name: &Name,
    tokens: &'a [Token],
) -> Result<(Measured, &'a [Token]), ReadError>
    requires { room < 1000 }
    ensures gives { Gives (λ x. (view x.0.expression.value, x.1.now)) result (named_of total room (below total room) at name.now tokens.now) }
    ensures height { IfOk result (λ x. IsMeasured (room + 1) x.0) }
{
    let (selects, rest) = selects_at(alloc, total, room, tokens)?;
    let name = Name::of(alloc, name.bytes())?;
    Ok((named(alloc, at, name, selects)?, rest))
}

#[cycle(expressions)]
#[tactic(auto, unfolding(crate::specs::Reading::bracketed_of, v_syntax::specs::ExpressionTrees::height))]
fn bracketed_at<'a>(
    alloc: Global,
    total: usize,
    room: usize,
    here: &[Token],
    behind: &'a [Token],
) -> Result<(Measured, &'a [Token]), ReadError>
    requires { room < 1000 }
    ensures gives { Gives (λ x. (view x.0.expression.value, x.1.now)) result (bracketed_of total room (below total room) here.now behind.now) }
    ensures height { IfOk result (λ x. IsMeasured (room + 1) x.0) }
{
    let below = down(total, room, here)?;
    let (inner, rest) = expression_at(alloc, total, below, behind)?;
    let rest = after(Mark::CloseParenthesis, rest)?;
    Ok((bracketed(alloc, place(total, here), inner)?, rest))
}

#[cycle(expressions)]
#[tactic(auto, unfolding(crate::specs::Reading::braced_of))]
fn braced_at<'a>(
    alloc: Global,
    total: usize,
    room: usize,
    here: &[Token],
    behind: &'a [Token],
) -> Result<(Measured, &'a [Token]), ReadError>
    requires { room < 1000 }
    ensures gives { Gives (λ x. (view x.0.expression.value, x.1.now)) result (braced_of total room (below total room) here.now behind.now) }
    ensures height { IfOk result (λ x. IsMeasured (room + 1) x.0) }
{
    let below = down(total, room, here)?;
    let (first, rest) = expression_at(alloc, total, below, behind)?;
    inside_at(alloc, total, below, place(total, here), first, rest)
}

#[cycle(expressions)]
#[tactic(auto, unfolding(crate::specs::Reading::inside_of, crate::specs::Reading::concatenation_of, v_syntax::specs::ExpressionTrees::height))]
fn inside_at(
    alloc: Global,
    total: usize,
    below: usize,
    at: TokenNumber,
    first: Measured,
    tokens: &[Token],
) -> Result<(Measured, &[Token]), ReadError>
    requires room { below < 1000 }
    requires height { IsMeasured (below + 1) first }
    ensures gives { Gives (λ x. (view x.0.expression.value, x.1.now)) result
        (inside_of at (layer total below (Reading.below total below)) (view first.expression.value) tokens.now) }
    ensures height { IfOk result (λ x. IsMeasured (below + 2) x.0) }
{
    match behind(Mark::OpenBrace, tokens) {
        Some(after) => replication_at(alloc, total, below, at, first, after),
        None => {
            let (parts, rest) = parts_at(alloc, total, below, first, tokens)?;
            Ok((concatenation(alloc, at, parts)?, rest))
        }
    }
}

#[cycle(expressions)]
#[tactic(auto, unfolding(crate::specs::Reading::replication_of, v_syntax::specs::ExpressionTrees::height))]
fn replication_at(
    alloc: Global,
    total: usize,
    below: usize,
    at: TokenNumber,
    count: Measured,
    tokens: &[Token],
) -> Result<(Measured, &[Token]), ReadError>
    requires room { below < 1000 }
    requires height { IsMeasured (below + 1) count }
    ensures gives { Gives (λ x. (view x.0.expression.value, x.1.now)) result
        (replication_of at (layer total below (Reading.below total below)) (view count.expression.value) tokens.now) }
    ensures height { IfOk result (λ x. IsMeasured (below + 2) x.0) }
{
    let (first, rest) = expression_at(alloc, total, below, tokens)?;
    let (parts, rest) = parts_at(alloc, total, below, first, rest)?;
    let rest = after(Mark::CloseBrace, rest)?;
    Ok((replication(alloc, at, count, parts)?, rest))
}

/// Expressions whose first one has been read, with commas between, up to a closing brace.
#[cycle(expressions)]
fn parts_at(
    alloc: Global,
    total: usize,
    below: usize,
    first: Measured,
    tokens: &[Token],
) -> Result<(MeasuredParts, &[Token]), ReadError>
    requires room { below < 1000 }
    requires height { IsMeasured (below + 1) first }
    ensures gives { Gives (λ x. (views x.0.parts.items, x.1.now)) result
        (parts_of (layer total below (Reading.below total below)) (view first.expression.value) tokens.now) }
    ensures height { IfOk result (λ x. IsMeasuredParts (below + 1) x.0) }
{
    let mut all = MeasuredParts::of(alloc, first)?;
    let mut rest = tokens;
    for _ in 0..tokens.len() {
        if let Some(behind) = behind(Mark::CloseBrace, rest) {
            return Ok((all, behind));
        }
        let behind = after(Mark::Comma, rest)?;
        let (part, others) = expression_at(alloc, total, below, behind)?;
        all = all.with(part)?;
        rest = others;
    }
    Err(syntax_error(rest))
}
