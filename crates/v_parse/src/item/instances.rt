//! Instances of modules.

ghost use Rattle.std.specs.Prelude.{◌≡◌, ◌<◌, map, option_map};
ghost use Rattle.v_syntax.specs.ExpressionTrees;
ghost use Rattle.v_syntax.specs.SourceTrees.{ConnectionTree, view_connection, view_connections, view_kind};
ghost use Rattle.v_syntax.specs.declared.mark.Mark.TheVariants as mark;
ghost use Rattle.v_expression.specs.Reading.{expression_of};
ghost use Rattle.v_expression.specs.Starts;
ghost use Rattle.v_expression.specs.Phrase.Stops.{Gives};
ghost use Rattle.v_expression.specs.Phrase.Readers;
ghost use Rattle.v_expression.specs.Phrase.Readers.{maybe};
ghost use Rattle.v_parse.specs.Item.Firsts as firsts;
ghost use Rattle.v_parse.specs.Item.Reading.{
  bracketed_value_of,
  connection_of,
  connections_of,
  overrides_of,
  bracketed_connections_of,
  instance_tail_of,
  instance_of,
};

use crate::item::kinds::instance_kind;
use port_io::{boxed, unboxed};
use std::alloc::Global;
use v_expression::phrase::{
    Element, ReadError, after, identifier, listed, next, place, starts_mark,
};
use v_expression::{ExpressionPhrase, expression};
use v_statement::{begins_expression, starts_expression};
use v_syntax::{Connections, Expression, Identifier, ItemKind, Mark, NamedConnection, Token};

/// An expression, if one begins here.
fn maybe_expression(
    alloc: Global,
    total: usize,
    room: usize,
    tokens: &[Token],
) -> Result<(Option<Box<Expression>>, &[Token]), ReadError>
    requires { room < 1000 }
    ensures { Gives (λ x. (option_map (λ b. ExpressionTrees.view b.value) x.0, x.1.now)) result
        (maybe Starts.starts_expression (expression_of total room) tokens.now) }
{
    if !starts_expression(tokens) {
        return Ok((None, tokens));
    }
    let (value, rest) = expression(alloc, total, room, tokens)?;
    Ok((Some(value), rest))
}

/// `( [expression] )`
#[tactic(auto, unfolding(crate::specs::Item::Reading::bracketed_value_of))]
fn bracketed_value(
    alloc: Global,
    total: usize,
    room: usize,
    tokens: &[Token],
) -> Result<(Option<Box<Expression>>, &[Token]), ReadError>
    requires { room < 1000 }
    ensures { Gives (λ x. (option_map (λ b. ExpressionTrees.view b.value) x.0, x.1.now)) result (bracketed_value_of total room tokens.now) }
{
    let rest = after(Mark::OpenParenthesis, tokens)?;
    let (value, rest) = maybe_expression(alloc, total, room, rest)?;
    let rest = after(Mark::CloseParenthesis, rest)?;
    Ok((value, rest))
}

/// `. name ( [expression] )`
#[tactic(auto, unfolding(crate::specs::Item::Reading::connection_of))]
fn connection(
    alloc: Global,
    total: usize,
    room: usize,
    tokens: &[Token],
) -> Result<(NamedConnection, &[Token]), ReadError>
    requires { room < 1000 }
    ensures { Gives (λ x. (view_connection x.0, x.1.now)) result (connection_of total room tokens.now) }
{
    let at = place(total, tokens);
    let rest = after(Mark::Dot, tokens)?;
    let (port, rest) = identifier(alloc, total, rest)?;
    let (value, rest) = bracketed_value(alloc, total, room, rest)?;
    let value = unboxed(value);
    Ok((NamedConnection { at, port, value }, rest))
}

/// The phrase [`connection`].
enum ConnectionPhrase {}

impl Element for ConnectionPhrase {
    type Value = NamedConnection;

    ghost Tree = { ConnectionTree };

    ghost tree = { view_connection };

    ghost reading = { connection_of };

    fn read<'a>(
        alloc: Global,
        total: usize,
        room: usize,
        tokens: &'a [Token],
    ) -> Result<(NamedConnection, &'a [Token]), ReadError> {
        connection(alloc, total, room, tokens)
    }
}

/// Expressions or named connections, with commas between
#[tactic(auto, unfolding(crate::specs::Item::Reading::connections_of))]
fn connections(
    alloc: Global,
    total: usize,
    room: usize,
    tokens: &[Token],
) -> Result<(Box<Connections>, &[Token]), ReadError>
    requires { room < 1000 }
    ensures { Gives (λ x. (view_connections x.0.value, x.1.now)) result (connections_of total room tokens.now) }
{
    if starts_mark(Mark::Dot, tokens) {
        let (all, rest) = listed::<ConnectionPhrase>(alloc, total, room, tokens)?;
        return Ok((boxed(alloc, Connections::Named(all))?, rest));
    }
    let (all, rest) = listed::<ExpressionPhrase>(alloc, total, room, tokens)?;
    Ok((boxed(alloc, Connections::Ordered(all))?, rest))
}

/// Whether connections begin with the first token.
fn starts_connections(tokens: &[Token]) -> bool
    ensures { result ≡ firsts.starts_connections tokens.now }
{
    match next(tokens) {
        Some((Token::Name(_) | Token::Number(_) | Token::Mark(Mark::Dot), _)) => true,
        Some((Token::Mark(mark), _)) => begins_expression(*mark),
        _ => false,
    }
}

/// Connections, if they begin here.
fn maybe_connections(
    alloc: Global,
    total: usize,
    room: usize,
    tokens: &[Token],
) -> Result<(Option<Box<Connections>>, &[Token]), ReadError>
    requires { room < 1000 }
    ensures { Gives (λ x. (option_map (λ b. view_connections b.value) x.0, x.1.now)) result
        (maybe firsts.starts_connections (connections_of total room) tokens.now) }
{
    if !starts_connections(tokens) {
        return Ok((None, tokens));
    }
    let (all, rest) = connections(alloc, total, room, tokens)?;
    Ok((Some(all), rest))
}

/// `# ( connections )`
#[tactic(auto, unfolding(crate::specs::Item::Reading::overrides_of))]
fn overrides(
    alloc: Global,
    total: usize,
    room: usize,
    tokens: &[Token],
) -> Result<(Box<Connections>, &[Token]), ReadError>
    requires { room < 1000 }
    ensures { Gives (λ x. (view_connections x.0.value, x.1.now)) result (overrides_of total room tokens.now) }
{
    let rest = after(Mark::Hash, tokens)?;
    let rest = after(Mark::OpenParenthesis, rest)?;
    let (all, rest) = connections(alloc, total, room, rest)?;
    let rest = after(Mark::CloseParenthesis, rest)?;
    Ok((all, rest))
}

/// `# ( connections )`, if it stands here.
fn maybe_overrides(
    alloc: Global,
    total: usize,
    room: usize,
    tokens: &[Token],
) -> Result<(Option<Box<Connections>>, &[Token]), ReadError>
    requires { room < 1000 }
    ensures { Gives (λ x. (option_map (λ b. view_connections b.value) x.0, x.1.now)) result
        (maybe (Readers.starts_mark mark.Hash) (overrides_of total room) tokens.now) }
{
    if !starts_mark(Mark::Hash, tokens) {
        return Ok((None, tokens));
    }
    let (all, rest) = overrides(alloc, total, room, tokens)?;
    Ok((Some(all), rest))
}

/// `( [connections] )`
#[tactic(auto, unfolding(crate::specs::Item::Reading::bracketed_connections_of))]
fn bracketed_connections(
    alloc: Global,
    total: usize,
    room: usize,
    tokens: &[Token],
) -> Result<(Option<Box<Connections>>, &[Token]), ReadError>
    requires { room < 1000 }
    ensures { Gives (λ x. (option_map (λ b. view_connections b.value) x.0, x.1.now)) result (bracketed_connections_of total room tokens.now) }
{
    let rest = after(Mark::OpenParenthesis, tokens)?;
    let (ports, rest) = maybe_connections(alloc, total, room, rest)?;
    let rest = after(Mark::CloseParenthesis, rest)?;
    Ok((ports, rest))
}

/// `module [# ( connections )] name ( [connections] ) ;` (IEEE 1364-2005, clause 12.1.2)
#[tactic(auto, unfolding(crate::specs::Item::Reading::instance_of))]
pub fn instance(
    alloc: Global,
    total: usize,
    room: usize,
    tokens: &[Token],
) -> Result<(Box<ItemKind>, &[Token]), ReadError>
    requires { room < 1000 }
    ensures { Gives (λ x. (view_kind x.0.value, x.1.now)) result (instance_of total room tokens.now) }
{
    let (module, rest) = identifier(alloc, total, tokens)?;
    let (parameters, rest) = maybe_overrides(alloc, total, room, rest)?;
    let ((name, ports), rest) = instance_tail(alloc, total, room, rest)?;
    let made = instance_kind(module, parameters, name, ports);
    Ok((boxed(alloc, made)?, rest))
}

/// `name ( [connections] ) ;`
#[tactic(auto, unfolding(crate::specs::Item::Reading::instance_tail_of))]
fn instance_tail(
    alloc: Global,
    total: usize,
    room: usize,
    tokens: &[Token],
) -> Result<((Identifier, Option<Box<Connections>>), &[Token]), ReadError>
    requires { room < 1000 }
    ensures { Gives (λ x. ((x.0.0, option_map (λ b. view_connections b.value) x.0.1), x.1.now)) result (instance_tail_of total room tokens.now) }
{
    let (name, rest) = identifier(alloc, total, tokens)?;
    let (ports, rest) = bracketed_connections(alloc, total, room, rest)?;
    let rest = after(Mark::Semicolon, rest)?;
    Ok(((name, ports), rest))
}
