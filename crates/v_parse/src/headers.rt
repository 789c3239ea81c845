//! The parameters and ports of a module's header.

ghost use Rattle.std.specs.Prelude.{◌≡◌, ◌<◌, map, option_map};
ghost use Rattle.v_syntax.specs.ExpressionTrees;
ghost use Rattle.v_syntax.specs.SourceTrees.{
  HeaderParameterOf,
  view_parameter_head,
  HeaderParameterTree,
  view_header_parameter,
  view_head,
  HeaderPortTree,
  view_header_port,
  view_ports,
};
ghost use Rattle.v_syntax.specs.declared.mark.Mark.TheVariants as mark;
ghost use Rattle.v_syntax.specs.declared.word.Keyword.TheVariants as word;
ghost use Rattle.v_expression.specs.Phrase.Stops.{Gives};
ghost use Rattle.v_expression.specs.Phrase.Readers;
ghost use Rattle.v_expression.specs.Phrase.Readers.{maybe};
ghost use Rattle.v_parse.specs.Item.Firsts as item_firsts;
ghost use Rattle.v_parse.specs.Item.Reading.{port_head_of};
ghost use Rattle.v_parse.specs.Firsts as firsts;
ghost use Rattle.v_parse.specs.Reading.{
  parameter_head_of,
  first_parameter_of,
  next_parameter_of,
  parameter_list_of,
  header_parameters_of,
  first_port_of,
  next_port_of,
  declared_ports_of,
  ports_of,
  port_list_of,
};

use crate::item::{maybe_range, port_head, starts_direction, value};
use port_io::{boxed, unboxed};
use std::alloc::Global;
use v_expression::phrase::{
    Element, IdentifierPhrase, ReadError, after, after_word, identifier, listed, next, others,
    starts_mark, starts_word,
};
use v_syntax::{
    Expression, HeaderParameter, HeaderPort, HeaderPorts, Identifier, Keyword, Mark, ParameterHead,
    PortHead, Token,
};

// ---- parameters

/// `parameter [range]`
#[tactic(auto, unfolding(crate::specs::Reading::parameter_head_of))]
fn parameter_head(
    alloc: Global,
    total: usize,
    room: usize,
    tokens: &[Token],
) -> Result<(Box<ParameterHead>, &[Token]), ReadError>
    requires { room < 1000 }
    ensures { Gives (λ x. (view_parameter_head x.0.value, x.1.now)) result (parameter_head_of total room tokens.now) }
{
    let rest = after_word(Keyword::Parameter, tokens)?;
    let (range, rest) = maybe_range(alloc, total, room, rest)?;
    let range = unboxed(range);
    Ok((boxed(alloc, ParameterHead { range })?, rest))
}

/// The same, if it stands here.
fn maybe_parameter_head(
    alloc: Global,
    total: usize,
    room: usize,
    tokens: &[Token],
) -> Result<(Option<Box<ParameterHead>>, &[Token]), ReadError>
    requires { room < 1000 }
    ensures { Gives (λ x. (option_map (λ b. view_parameter_head b.value) x.0, x.1.now)) result
        (maybe (Readers.starts_word word.Parameter) (parameter_head_of total room) tokens.now) }
{
    if !starts_word(Keyword::Parameter, tokens) {
        return Ok((None, tokens));
    }
    let (head, rest) = parameter_head(alloc, total, room, tokens)?;
    Ok((Some(head), rest))
}

/// A parameter of its parts.
fn parameter_with(
    head: Option<Box<ParameterHead>>,
    name: Identifier,
    value: Box<Expression>,
) -> HeaderParameter
    ensures { view_header_parameter result
        ≡ HeaderParameterOf (option_map (λ b. view_parameter_head b.value) head) name (ExpressionTrees.view value.value) }
{
    let head = unboxed(head);
    let value = Box::into_inner(value);
    HeaderParameter { head, name, value }
}

/// `parameter [range] name = expression`
#[tactic(auto, unfolding(crate::specs::Reading::first_parameter_of))]
fn first_parameter(
    alloc: Global,
    total: usize,
    room: usize,
    tokens: &[Token],
) -> Result<(HeaderParameter, &[Token]), ReadError>
    requires { room < 1000 }
    ensures { Gives (λ x. (view_header_parameter x.0, x.1.now)) result (first_parameter_of total room tokens.now) }
{
    let (head, rest) = parameter_head(alloc, total, room, tokens)?;
    let (name, rest) = identifier(alloc, total, rest)?;
    let (value, rest) = value(alloc, total, room, rest)?;
    Ok((parameter_with(Some(head), name, value), rest))
}

/// `[parameter [range]] name = expression`
#[tactic(auto, unfolding(crate::specs::Reading::next_parameter_of))]
fn next_parameter(
    alloc: Global,
    total: usize,
    room: usize,
    tokens: &[Token],
) -> Result<(HeaderParameter, &[Token]), ReadError>
    requires { room < 1000 }
    ensures { Gives (λ x. (view_header_parameter x.0, x.1.now)) result (next_parameter_of total room tokens.now) }
{
    let (head, rest) = maybe_parameter_head(alloc, total, room, tokens)?;
    let (name, rest) = identifier(alloc, total, rest)?;
    let (value, rest) = value(alloc, total, room, rest)?;
    Ok((parameter_with(head, name, value), rest))
}

/// The phrase [`next_parameter`].
enum NextParameter {}

impl Element for NextParameter {
    type Value = HeaderParameter;

    ghost Tree = { HeaderParameterTree };

    ghost tree = { view_header_parameter };

    ghost reading = { next_parameter_of };

    fn read<'a>(
        alloc: Global,
        total: usize,
        room: usize,
        tokens: &'a [Token],
    ) -> Result<(HeaderParameter, &'a [Token]), ReadError> {
        next_parameter(alloc, total, room, tokens)
    }
}

/// `first {, next}`
#[tactic(auto, unfolding(crate::specs::Reading::parameter_list_of))]
fn parameter_list(
    alloc: Global,
    total: usize,
    room: usize,
    tokens: &[Token],
) -> Result<(Vec<HeaderParameter>, &[Token]), ReadError>
    requires { room < 1000 }
    ensures { Gives (λ x. (map view_header_parameter x.0.items, x.1.now)) result (parameter_list_of total room tokens.now) }
{
    let (first, rest) = first_parameter(alloc, total, room, tokens)?;
    others::<NextParameter>(alloc, total, room, first, rest)
}

/// `# ( first {, next} )` (IEEE 1364-2005, annex A.1.3)
#[tactic(auto, unfolding(crate::specs::Reading::header_parameters_of))]
fn header_parameters(
    alloc: Global,
    total: usize,
    room: usize,
    tokens: &[Token],
) -> Result<(Vec<HeaderParameter>, &[Token]), ReadError>
    requires { room < 1000 }
    ensures { Gives (λ x. (map view_header_parameter x.0.items, x.1.now)) result (header_parameters_of total room tokens.now) }
{
    let rest = after(Mark::Hash, tokens)?;
    let rest = after(Mark::OpenParenthesis, rest)?;
    let (all, rest) = parameter_list(alloc, total, room, rest)?;
    let rest = after(Mark::CloseParenthesis, rest)?;
    Ok((all, rest))
}

/// The same, if it stands here.
pub fn maybe_parameters(
    alloc: Global,
    total: usize,
    room: usize,
    tokens: &[Token],
) -> Result<(Option<Vec<HeaderParameter>>, &[Token]), ReadError>
    requires { room < 1000 }
    ensures { Gives (λ x. (option_map (λ v. map view_header_parameter v.items) x.0, x.1.now)) result
        (maybe (Readers.starts_mark mark.Hash) (header_parameters_of total room) tokens.now) }
{
    if !starts_mark(Mark::Hash, tokens) {
        return Ok((None, tokens));
    }
    let (all, rest) = header_parameters(alloc, total, room, tokens)?;
    Ok((Some(all), rest))
}

// ---- ports

/// The direction, kind and range of a port, if a direction stands here.
fn maybe_port_head(
    alloc: Global,
    total: usize,
    room: usize,
    tokens: &[Token],
) -> Result<(Option<Box<PortHead>>, &[Token]), ReadError>
    requires { room < 1000 }
    ensures { Gives (λ x. (option_map (λ b. view_head b.value) x.0, x.1.now)) result
        (maybe item_firsts.starts_direction (port_head_of total room) tokens.now) }
{
    if !starts_direction(tokens) {
        return Ok((None, tokens));
    }
    let (head, rest) = port_head(alloc, total, room, tokens)?;
    Ok((Some(head), rest))
}

/// A direction, `[wire | reg]`, `[range]` and a name
#[tactic(auto, unfolding(crate::specs::Reading::first_port_of))]
fn first_port(
    alloc: Global,
    total: usize,
    room: usize,
    tokens: &[Token],
) -> Result<(HeaderPort, &[Token]), ReadError>
    requires { room < 1000 }
    ensures { Gives (λ x. (view_header_port x.0, x.1.now)) result (first_port_of total room tokens.now) }
{
    let (head, rest) = port_head(alloc, total, room, tokens)?;
    let (name, rest) = identifier(alloc, total, rest)?;
    let head = Some(Box::into_inner(head));
    Ok((HeaderPort { head, name }, rest))
}

/// The same, or a name alone
#[tactic(auto, unfolding(crate::specs::Reading::next_port_of))]
fn next_port(
    alloc: Global,
    total: usize,
    room: usize,
    tokens: &[Token],
) -> Result<(HeaderPort, &[Token]), ReadError>
    requires { room < 1000 }
    ensures { Gives (λ x. (view_header_port x.0, x.1.now)) result (next_port_of total room tokens.now) }
{
    let (head, rest) = maybe_port_head(alloc, total, room, tokens)?;
    let (name, rest) = identifier(alloc, total, rest)?;
    let head = unboxed(head);
    Ok((HeaderPort { head, name }, rest))
}

/// The phrase [`next_port`].
enum NextPort {}

impl Element for NextPort {
    type Value = HeaderPort;

    ghost Tree = { HeaderPortTree };

    ghost tree = { view_header_port };

    ghost reading = { next_port_of };

    fn read<'a>(
        alloc: Global,
        total: usize,
        room: usize,
        tokens: &'a [Token],
    ) -> Result<(HeaderPort, &'a [Token]), ReadError> {
        next_port(alloc, total, room, tokens)
    }
}

/// Ports of which the first has a direction.
#[tactic(auto, unfolding(crate::specs::Reading::declared_ports_of))]
fn declared_ports(
    alloc: Global,
    total: usize,
    room: usize,
    tokens: &[Token],
) -> Result<(Vec<HeaderPort>, &[Token]), ReadError>
    requires { room < 1000 }
    ensures { Gives (λ x. (map view_header_port x.0.items, x.1.now)) result (declared_ports_of total room tokens.now) }
{
    let (first, rest) = first_port(alloc, total, room, tokens)?;
    others::<NextPort>(alloc, total, room, first, rest)
}

/// Declared ports or names (annex A.1.3)
#[tactic(auto, unfolding(crate::specs::Reading::ports_of))]
fn ports(
    alloc: Global,
    total: usize,
    room: usize,
    tokens: &[Token],
) -> Result<(Box<HeaderPorts>, &[Token]), ReadError>
    requires { room < 1000 }
    ensures { Gives (λ x. (view_ports x.0.value, x.1.now)) result (ports_of total room tokens.now) }
{
    if starts_direction(tokens) {
        let (all, rest) = declared_ports(alloc, total, room, tokens)?;
        return Ok((boxed(alloc, HeaderPorts::Declared(all))?, rest));
    }
    let (names, rest) = listed::<IdentifierPhrase>(alloc, total, room, tokens)?;
    Ok((boxed(alloc, HeaderPorts::Named(names))?, rest))
}

/// Whether ports begin with the first token.
fn starts_ports(tokens: &[Token]) -> bool
    ensures { result ≡ firsts.starts_ports tokens.now }
{
    match next(tokens) {
        Some((Token::Name(_) | Token::Keyword(Keyword::Input | Keyword::Output), _)) => true,
        _ => false,
    }
}

/// `( [ports] )`, without ports `None`
#[tactic(auto, unfolding(crate::specs::Reading::port_list_of))]
fn port_list(
    alloc: Global,
    total: usize,
    room: usize,
    tokens: &[Token],
) -> Result<(Option<Box<HeaderPorts>>, &[Token]), ReadError>
    requires { room < 1000 }
    ensures { Gives (λ x. (option_map (λ b. view_ports b.value) x.0, x.1.now)) result (port_list_of total room tokens.now) }
{
    let rest = after(Mark::OpenParenthesis, tokens)?;
    if !starts_ports(rest) {
        let rest = after(Mark::CloseParenthesis, rest)?;
        return Ok((None, rest));
    }
    let (ports, rest) = ports(alloc, total, room, rest)?;
    let rest = after(Mark::CloseParenthesis, rest)?;
    Ok((Some(ports), rest))
}

/// The same, if it stands here.
pub fn maybe_ports(
    alloc: Global,
    total: usize,
    room: usize,
    tokens: &[Token],
) -> Result<(Option<Option<Box<HeaderPorts>>>, &[Token]), ReadError>
    requires { room < 1000 }
    ensures { Gives (λ x. (option_map (option_map (λ b. view_ports b.value)) x.0, x.1.now)) result
        (maybe (Readers.starts_mark mark.OpenParenthesis) (port_list_of total room) tokens.now) }
{
    if !starts_mark(Mark::OpenParenthesis, tokens) {
        return Ok((None, tokens));
    }
    let (ports, rest) = port_list(alloc, total, room, tokens)?;
    Ok((Some(ports), rest))
}
