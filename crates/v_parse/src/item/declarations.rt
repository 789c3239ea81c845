//! Declarations of ports, nets, registers, integers and parameters.

ghost use Rattle.std.specs.Prelude.{◌≡◌, ◌<◌, map, option_map};
ghost use Rattle.v_syntax.specs.ExpressionTrees;
ghost use Rattle.v_syntax.specs.SourceTrees.{NetTree, view_net, view_tail, RegisterTree, view_register, ParameterTree, view_parameter, view_kind};
ghost use Rattle.v_syntax.specs.TokenMeanings;
ghost use Rattle.v_syntax.specs.declared.mark.Mark.TheVariants as mark;
ghost use Rattle.v_expression.specs.Phrase.Stops.{Gives};
ghost use Rattle.v_expression.specs.Phrase.Readers;
ghost use Rattle.v_expression.specs.Phrase.Readers.{maybe, token_of};
ghost use Rattle.v_parse.specs.Item.Firsts as firsts;
ghost use Rattle.v_parse.specs.Item.Reading.{
  value_of,
  ports_of,
  net_of,
  nets_of,
  tail_of,
  register_of,
  registers_of,
  integers_of,
  parameter_of,
  parameters_of,
};

use crate::item::kinds::{nets_kind, parameters_kind, ports_kind, registers_kind};
use crate::item::parts::{line, maybe_range, port_head, range, value};
use port_io::{boxed, unboxed};
use std::alloc::Global;
use v_expression::phrase::{
    Element, IdentifierPhrase, ReadError, after, after_word, identifier, listed, next, starts_mark,
    syntax_error,
};
use v_syntax::{
    Expression, ItemKind, Keyword, Mark, NetDeclarator, ParameterAssignment, ParameterKind,
    RegisterDeclarator, RegisterTail, Token,
};

/// `input` or `output`, for ports that the header only names (IEEE 1364-2005, clause 12.3.3)
#[tactic(auto, unfolding(crate::specs::Item::Reading::ports_of))]
pub fn ports(
    alloc: Global,
    total: usize,
    room: usize,
    tokens: &[Token],
) -> Result<(Box<ItemKind>, &[Token]), ReadError>
    requires { room < 1000 }
    ensures { Gives (λ x. (view_kind x.0.value, x.1.now)) result (ports_of total room tokens.now) }
{
    let (head, rest) = port_head(alloc, total, room, tokens)?;
    let (names, rest) = line::<IdentifierPhrase>(alloc, total, room, rest)?;
    Ok((boxed(alloc, ports_kind(head, names))?, rest))
}

// ---- nets

/// `= expression`, if it stands here.
fn maybe_value(
    alloc: Global,
    total: usize,
    room: usize,
    tokens: &[Token],
) -> Result<(Option<Box<Expression>>, &[Token]), ReadError>
    requires { room < 1000 }
    ensures { Gives (λ x. (option_map (λ b. ExpressionTrees.view b.value) x.0, x.1.now)) result
        (maybe (Readers.starts_mark mark.Assign) (value_of total room) tokens.now) }
{
    if !starts_mark(Mark::Assign, tokens) {
        return Ok((None, tokens));
    }
    let (value, rest) = value(alloc, total, room, tokens)?;
    Ok((Some(value), rest))
}

/// `name [= expression]`
#[tactic(auto, unfolding(crate::specs::Item::Reading::net_of))]
fn net(
    alloc: Global,
    total: usize,
    room: usize,
    tokens: &[Token],
) -> Result<(NetDeclarator, &[Token]), ReadError>
    requires { room < 1000 }
    ensures { Gives (λ x. (view_net x.0, x.1.now)) result (net_of total room tokens.now) }
{
    let (name, rest) = identifier(alloc, total, tokens)?;
    let (value, rest) = maybe_value(alloc, total, room, rest)?;
    let value = unboxed(value);
    Ok((NetDeclarator { name, value }, rest))
}

/// The phrase [`net`].
enum NetPhrase {}

impl Element for NetPhrase {
    type Value = NetDeclarator;

    ghost Tree = { NetTree };

    ghost tree = { view_net };

    ghost reading = { net_of };

    fn read<'a>(
        alloc: Global,
        total: usize,
        room: usize,
        tokens: &'a [Token],
    ) -> Result<(NetDeclarator, &'a [Token]), ReadError> {
        net(alloc, total, room, tokens)
    }
}

/// `wire [range] name [= expression] , .. ;` (clause 4.2)
#[tactic(auto, unfolding(crate::specs::Item::Reading::nets_of))]
pub fn nets(
    alloc: Global,
    total: usize,
    room: usize,
    tokens: &[Token],
) -> Result<(Box<ItemKind>, &[Token]), ReadError>
    requires { room < 1000 }
    ensures { Gives (λ x. (view_kind x.0.value, x.1.now)) result (nets_of total room tokens.now) }
{
    let rest = after_word(Keyword::Wire, tokens)?;
    let (range, rest) = maybe_range(alloc, total, room, rest)?;
    let (declarators, rest) = line::<NetPhrase>(alloc, total, room, rest)?;
    Ok((boxed(alloc, nets_kind(range, declarators))?, rest))
}

// ---- registers

/// Whether a range or `=` stands first.
fn starts_tail(tokens: &[Token]) -> bool
    ensures { result ≡ firsts.starts_tail tokens.now }
{
    match next(tokens) {
        Some((Token::Mark(Mark::OpenBracket | Mark::Assign), _)) => true,
        _ => false,
    }
}

/// The range of a memory's words, or `= expression`
#[tactic(auto, unfolding(crate::specs::Item::Reading::tail_of))]
fn tail(
    alloc: Global,
    total: usize,
    room: usize,
    tokens: &[Token],
) -> Result<(RegisterTail, &[Token]), ReadError>
    requires { room < 1000 }
    ensures { Gives (λ x. (view_tail x.0, x.1.now)) result (tail_of total room tokens.now) }
{
    if starts_mark(Mark::OpenBracket, tokens) {
        let (range, rest) = range(alloc, total, room, tokens)?;
        return Ok((RegisterTail::Words(Box::into_inner(range)), rest));
    }
    let (value, rest) = value(alloc, total, room, tokens)?;
    Ok((RegisterTail::Value(Box::into_inner(value)), rest))
}

/// `name [range | = expression]`
#[tactic(auto, unfolding(crate::specs::Item::Reading::register_of))]
fn register(
    alloc: Global,
    total: usize,
    room: usize,
    tokens: &[Token],
) -> Result<(RegisterDeclarator, &[Token]), ReadError>
    requires { room < 1000 }
    ensures { Gives (λ x. (view_register x.0, x.1.now)) result (register_of total room tokens.now) }
{
    let (name, rest) = identifier(alloc, total, tokens)?;
    if !starts_tail(rest) {
        return Ok((RegisterDeclarator { name, tail: None }, rest));
    }
    let (tail, rest) = tail(alloc, total, room, rest)?;
    let tail = Some(tail);
    Ok((RegisterDeclarator { name, tail }, rest))
}

/// The phrase [`register`].
enum RegisterPhrase {}

impl Element for RegisterPhrase {
    type Value = RegisterDeclarator;

    ghost Tree = { RegisterTree };

    ghost tree = { view_register };

    ghost reading = { register_of };

    fn read<'a>(
        alloc: Global,
        total: usize,
        room: usize,
        tokens: &'a [Token],
    ) -> Result<(RegisterDeclarator, &'a [Token]), ReadError> {
        register(alloc, total, room, tokens)
    }
}

/// `reg [range] register , .. ;` (clause 4.2.2)
#[tactic(auto, unfolding(crate::specs::Item::Reading::registers_of))]
pub fn registers(
    alloc: Global,
    total: usize,
    room: usize,
    tokens: &[Token],
) -> Result<(Box<ItemKind>, &[Token]), ReadError>
    requires { room < 1000 }
    ensures { Gives (λ x. (view_kind x.0.value, x.1.now)) result (registers_of total room tokens.now) }
{
    let rest = after_word(Keyword::Reg, tokens)?;
    let (range, rest) = maybe_range(alloc, total, room, rest)?;
    let (declarators, rest) = line::<RegisterPhrase>(alloc, total, room, rest)?;
    Ok((boxed(alloc, registers_kind(range, declarators))?, rest))
}

/// `integer name , .. ;` (clause 4.8)
#[tactic(auto, unfolding(crate::specs::Item::Reading::integers_of))]
pub fn integers(
    alloc: Global,
    total: usize,
    tokens: &[Token],
) -> Result<(Box<ItemKind>, &[Token]), ReadError>
    ensures { Gives (λ x. (view_kind x.0.value, x.1.now)) result (integers_of total tokens.now) }
{
    let rest = after_word(Keyword::Integer, tokens)?;
    let (names, rest) = listed::<IdentifierPhrase>(alloc, total, 0, rest)?;
    let rest = after(Mark::Semicolon, rest)?;
    Ok((boxed(alloc, ItemKind::Integers(names))?, rest))
}

// ---- parameters

/// `parameter` or `localparam`
fn parameter_kind(tokens: &[Token]) -> Result<(ParameterKind, &[Token]), ReadError>
    ensures { Gives (λ x. (x.0, x.1.now)) result (token_of TokenMeanings.parameter_kind tokens.now) }
{
    match next(tokens) {
        Some((Token::Keyword(Keyword::Parameter), rest)) => Ok((ParameterKind::Parameter, rest)),
        Some((Token::Keyword(Keyword::LocalParam), rest)) => Ok((ParameterKind::LocalParam, rest)),
        _ => Err(syntax_error(tokens)),
    }
}

/// `name = expression`
#[tactic(auto, unfolding(crate::specs::Item::Reading::parameter_of))]
fn parameter(
    alloc: Global,
    total: usize,
    room: usize,
    tokens: &[Token],
) -> Result<(ParameterAssignment, &[Token]), ReadError>
    requires { room < 1000 }
    ensures { Gives (λ x. (view_parameter x.0, x.1.now)) result (parameter_of total room tokens.now) }
{
    let (name, rest) = identifier(alloc, total, tokens)?;
    let (value, rest) = value(alloc, total, room, rest)?;
    let value = Box::into_inner(value);
    Ok((ParameterAssignment { name, value }, rest))
}

/// The phrase [`parameter`].
enum ParameterPhrase {}

impl Element for ParameterPhrase {
    type Value = ParameterAssignment;

    ghost Tree = { ParameterTree };

    ghost tree = { view_parameter };

    ghost reading = { parameter_of };

    fn read<'a>(
        alloc: Global,
        total: usize,
        room: usize,
        tokens: &'a [Token],
    ) -> Result<(ParameterAssignment, &'a [Token]), ReadError> {
        parameter(alloc, total, room, tokens)
    }
}

/// `parameter` or `localparam`, `[range]`, `name = expression , .. ;` (clause 4.10)
#[tactic(auto, unfolding(crate::specs::Item::Reading::parameters_of))]
pub fn parameters(
    alloc: Global,
    total: usize,
    room: usize,
    tokens: &[Token],
) -> Result<(Box<ItemKind>, &[Token]), ReadError>
    requires { room < 1000 }
    ensures { Gives (λ x. (view_kind x.0.value, x.1.now)) result (parameters_of total room tokens.now) }
{
    let (kind, rest) = parameter_kind(tokens)?;
    let (range, rest) = maybe_range(alloc, total, room, rest)?;
    let (assignments, rest) = line::<ParameterPhrase>(alloc, total, room, rest)?;
    let made = parameters_kind(kind, range, assignments);
    Ok((boxed(alloc, made)?, rest))
}
