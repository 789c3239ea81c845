//! `always` and `initial`.

ghost use Rattle.std.specs.Prelude.{◌≡◌, ◌<◌, Ok};
ghost use Rattle.v_syntax.specs.SourceTrees.{view_control, view_kind};
ghost use Rattle.v_syntax.specs.TokenMeanings;
ghost use Rattle.v_expression.specs.Phrase.Stops.{Gives};
ghost use Rattle.v_expression.specs.Phrase.Readers.{maybe, token_of};
ghost use Rattle.v_parse.specs.Item.Firsts as firsts;
ghost use Rattle.v_parse.specs.Item.Firsts.{starts_edge};
ghost use Rattle.v_parse.specs.Item.Reading.{event_reader, event_list_of, bracketed_events_of, events_of, always_of, initial_of};

use crate::item::kinds::{always_kind, initial_kind};
use port_io::boxed;
use std::alloc::Global;
use v_expression::phrase::{
    ReadError, after, after_word, identifier, next, starts_mark, syntax_error,
};
use v_statement::statement;
use v_syntax::{Edge, Event, EventControl, ItemKind, Keyword, Mark, StatementPlace, Token};

/// `posedge` or `negedge`, if one stands here.
fn edge(tokens: &[Token]) -> (Option<Edge>, &[Token])
    ensures { maybe starts_edge (token_of TokenMeanings.edge_of) tokens.now ≡ Ok (result.0, result.1.now) }
{
    match next(tokens) {
        Some((Token::Keyword(Keyword::PosEdge), rest)) => (Some(Edge::Positive), rest),
        Some((Token::Keyword(Keyword::NegEdge), rest)) => (Some(Edge::Negative), rest),
        _ => (None, tokens),
    }
}

/// `[posedge | negedge] name`
#[tactic(auto, unfolding(crate::specs::Item::Reading::event_reader))]
fn event(alloc: Global, total: usize, tokens: &[Token]) -> Result<(Event, &[Token]), ReadError>
    ensures { Gives (λ x. (x.0, x.1.now)) result (event_reader total tokens.now) }
{
    let (edge, rest) = edge(tokens);
    let (name, rest) = identifier(alloc, total, rest)?;
    Ok((Event { edge, name }, rest))
}

/// Whether `or` or a comma stands first.
fn starts_separator(tokens: &[Token]) -> bool
    ensures { result ≡ firsts.starts_separator tokens.now }
{
    match next(tokens) {
        Some((Token::Keyword(Keyword::Or) | Token::Mark(Mark::Comma), _)) => true,
        _ => false,
    }
}

/// The tokens behind `or` or a comma.
fn after_separator(tokens: &[Token]) -> Result<&[Token], ReadError>
    ensures { Gives (λ x. (tt, x.now)) result (token_of TokenMeanings.event_separator tokens.now) }
{
    match next(tokens) {
        Some((Token::Keyword(Keyword::Or) | Token::Mark(Mark::Comma), rest)) => Ok(rest),
        _ => Err(syntax_error(tokens)),
    }
}

/// Events with `or` or a comma between.
#[tactic(auto, unfolding(crate::specs::Item::Reading::event_list_of))]
fn event_list(
    alloc: Global,
    total: usize,
    tokens: &[Token],
) -> Result<(Vec<Event>, &[Token]), ReadError>
    ensures { Gives (λ x. (x.0.items, x.1.now)) result (event_list_of total tokens.now) }
{
    let (first, behind) = event(alloc, total, tokens)?;
    let mut all = Vec::new(alloc);
    all.push(first)?;
    let mut rest = behind;
    for _ in 0..behind.len() {
        if !starts_separator(rest) {
            break;
        }
        let behind = after_separator(rest)?;
        let (another, others) = event(alloc, total, behind)?;
        all.push(another)?;
        rest = others;
    }
    Ok((all, rest))
}

/// `* )` or `event or event , event )`
#[tactic(auto, unfolding(crate::specs::Item::Reading::bracketed_events_of))]
fn bracketed_events(
    alloc: Global,
    total: usize,
    tokens: &[Token],
) -> Result<(Box<EventControl>, &[Token]), ReadError>
    ensures { Gives (λ x. (view_control x.0.value, x.1.now)) result (bracketed_events_of total tokens.now) }
{
    if starts_mark(Mark::Star, tokens) {
        let rest = after(Mark::Star, tokens)?;
        let rest = after(Mark::CloseParenthesis, rest)?;
        return Ok((boxed(alloc, EventControl::Implicit)?, rest));
    }
    let (all, rest) = event_list(alloc, total, tokens)?;
    let rest = after(Mark::CloseParenthesis, rest)?;
    Ok((boxed(alloc, EventControl::Events(all))?, rest))
}

/// `*`, `( * )` or `( event or event , event )` (IEEE 1364-2005, clauses 9.7.2 to 9.7.5)
#[tactic(auto, unfolding(crate::specs::Item::Reading::events_of))]
fn events(
    alloc: Global,
    total: usize,
    tokens: &[Token],
) -> Result<(Box<EventControl>, &[Token]), ReadError>
    ensures { Gives (λ x. (view_control x.0.value, x.1.now)) result (events_of total tokens.now) }
{
    if starts_mark(Mark::OpenParenthesis, tokens) {
        let rest = after(Mark::OpenParenthesis, tokens)?;
        return bracketed_events(alloc, total, rest);
    }
    let rest = after(Mark::Star, tokens)?;
    Ok((boxed(alloc, EventControl::Implicit)?, rest))
}

/// `always @ events statement` (clause 9.9.2)
#[tactic(auto, unfolding(crate::specs::Item::Reading::always_of))]
pub fn always(
    alloc: Global,
    total: usize,
    room: usize,
    tokens: &[Token],
) -> Result<(Box<ItemKind>, &[Token]), ReadError>
    requires { room < 1000 }
    ensures { Gives (λ x. (view_kind x.0.value, x.1.now)) result (always_of total room tokens.now) }
{
    let rest = after_word(Keyword::Always, tokens)?;
    let rest = after(Mark::At, rest)?;
    let (events, rest) = events(alloc, total, rest)?;
    let (statement, rest) = statement(alloc, total, room, StatementPlace::InAlways, rest)?;
    Ok((boxed(alloc, always_kind(events, statement))?, rest))
}

/// `initial statement` (clause 9.9.1)
#[tactic(auto, unfolding(crate::specs::Item::Reading::initial_of))]
pub fn initial(
    alloc: Global,
    total: usize,
    room: usize,
    tokens: &[Token],
) -> Result<(Box<ItemKind>, &[Token]), ReadError>
    requires { room < 1000 }
    ensures { Gives (λ x. (view_kind x.0.value, x.1.now)) result (initial_of total room tokens.now) }
{
    let rest = after_word(Keyword::Initial, tokens)?;
    let (statement, rest) = statement(alloc, total, room, StatementPlace::WholeInitial, rest)?;
    Ok((boxed(alloc, initial_kind(statement))?, rest))
}
