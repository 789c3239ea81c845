//! Single tokens that carry a value.

ghost use Rattle.std.specs.Prelude.{◌≡◌, Option, Some, None};
ghost use Rattle.v_syntax.specs.declared.statement.Identifier.{Identifier};
ghost use Rattle.v_syntax.specs.TokenMeanings.{name_of, text_of, task_of};
ghost use Rattle.v_expression.specs.Phrase.Stops.{Gives};
ghost use Rattle.v_expression.specs.Phrase.Readers.{token_of, identifier_of};

use crate::phrase::element::Element;
use crate::phrase::front::{next, place, syntax_error};
use crate::phrase::read_error::ReadError;
use port_io::Name;
use std::alloc::Global;
use v_syntax::{Identifier, SystemTask, Token};

/// A name that has to stand first.
pub fn name(alloc: Global, tokens: &[Token]) -> Result<(Name, &[Token]), ReadError>
    ensures { Gives (λ x. (x.0, x.1.now)) result (token_of name_of tokens.now) }
{
    match next(tokens) {
        Some((Token::Name(name), rest)) => Ok((Name::of(alloc, name.bytes())?, rest)),
        _ => Err(syntax_error(tokens)),
    }
}

/// A name with the number of its token.
#[tactic(auto, unfolding(crate::specs::Phrase::Readers::identifier_of))]
pub fn identifier(
    alloc: Global,
    total: usize,
    tokens: &[Token],
) -> Result<(Identifier, &[Token]), ReadError>
    ensures { Gives (λ x. (x.0, x.1.now)) result (identifier_of total tokens.now) }
{
    let (name, rest) = name(alloc, tokens)?;
    let at = place(total, tokens);
    Ok((Identifier { at, name }, rest))
}

/// A text that has to stand first.
pub fn text(alloc: Global, tokens: &[Token]) -> Result<(Name, &[Token]), ReadError>
    ensures { Gives (λ x. (x.0, x.1.now)) result (token_of text_of tokens.now) }
{
    match next(tokens) {
        Some((Token::Text(text), rest)) => Ok((Name::of(alloc, text.bytes())?, rest)),
        _ => Err(syntax_error(tokens)),
    }
}

/// A system task that has to stand first.
pub fn system_task(tokens: &[Token]) -> Result<(SystemTask, &[Token]), ReadError>
    ensures { Gives (λ x. (x.0, x.1.now)) result (token_of task_of tokens.now) }
{
    match next(tokens) {
        Some((Token::SystemTask(task), rest)) => Ok((*task, rest)),
        _ => Err(syntax_error(tokens)),
    }
}

/// The phrase [`identifier`].
pub enum IdentifierPhrase {}

impl Element for IdentifierPhrase {
    type Value = Identifier;

    ghost Tree = { Identifier };

    ghost tree = { λ x. x };

    ghost reading = { λ total room. identifier_of total };

    fn read<'a>(
        alloc: Global,
        total: usize,
        _room: usize,
        tokens: &'a [Token],
    ) -> Result<(Identifier, &'a [Token]), ReadError> {
        identifier(alloc, total, tokens)
    }
}
