//! The front of a list of tokens.

ghost use Rattle.std.specs.Prelude.{◌≡◌, ◌-◌, ◌∷◌, [], length, MatchOption, Some, None};
ghost use Rattle.v_syntax.specs.ExpressionSpans;
ghost use Rattle.v_expression.specs.Phrase.Readers;
ghost use Rattle.v_expression.specs.Phrase.Readers.{word_of};
ghost use Rattle.v_expression.specs.Phrase.Stops;
ghost use Rattle.v_expression.specs.Phrase.Stops.{Gives};

use crate::phrase::read_error::ReadError;
use v_syntax::{Keyword, Mark, Token, TokenNumber};

/// The first token and the tokens behind it.
pub fn next(tokens: &[Token]) -> Option<(&Token, &[Token])>
    ensures { MatchOption result (tokens.now ≡ []) (λ x. tokens.now ≡ x.0.now ∷ x.1.now) }
{
    tokens.split_first()
}

/// The tokens behind a mark that has to stand first. Any other token there, or none, is a syntax error.
#[tactic(auto, unfolding(crate::specs::Phrase::Stops::after))]
pub fn after(mark: Mark, tokens: &[Token]) -> Result<&[Token], ReadError>
    ensures { Gives (λ x. x.now) result (Stops.after mark tokens.now) }
{
    match next(tokens) {
        Some((Token::Mark(first), rest)) if *first == mark => Ok(rest),
        _ => Err(syntax_error(tokens)),
    }
}

/// The tokens behind a keyword that has to stand first. Any other token there, or none, is a syntax error.
pub fn after_word(word: Keyword, tokens: &[Token]) -> Result<&[Token], ReadError>
    ensures { Gives (λ x. (tt, x.now)) result (word_of word tokens.now) }
{
    match next(tokens) {
        Some((Token::Keyword(first), rest)) if *first == word => Ok(rest),
        _ => Err(syntax_error(tokens)),
    }
}

/// The tokens behind a mark, if it stands first.
#[tactic(auto, unfolding(crate::specs::Phrase::Stops::behind))]
pub fn behind(mark: Mark, tokens: &[Token]) -> Option<&[Token]>
    ensures { MatchOption result (Stops.behind mark tokens.now ≡ None) (λ x. Stops.behind mark tokens.now ≡ Some x.now) }
{
    match next(tokens) {
        Some((Token::Mark(first), rest)) if *first == mark => Some(rest),
        _ => None,
    }
}

/// Whether a mark stands first.
pub fn starts_mark(mark: Mark, tokens: &[Token]) -> bool
    ensures { result ≡ Readers.starts_mark mark tokens.now }
{
    match next(tokens) {
        Some((Token::Mark(first), _)) => *first == mark,
        _ => false,
    }
}

/// Whether a keyword stands first.
pub fn starts_word(word: Keyword, tokens: &[Token]) -> bool
    ensures { result ≡ Readers.starts_word word tokens.now }
{
    match next(tokens) {
        Some((Token::Keyword(first), _)) => *first == word,
        _ => false,
    }
}

/// The number of the token with which the tokens begin, in a text of `total` tokens.
pub fn place(total: usize, tokens: &[Token]) -> TokenNumber
    ensures { result ≡ ExpressionSpans.place total tokens.now }
{
    TokenNumber::new(total.saturating_sub(tokens.len()))
}

/// No tree goes through the first of the tokens.
pub fn syntax_error(tokens: &[Token]) -> ReadError
    ensures { result ≡ ReadError.Syntax (length tokens.now) }
{
    ReadError::Syntax(tokens.len())
}

/// Only trees that are too high go through the first of the tokens.
pub fn too_deep(tokens: &[Token]) -> ReadError
    ensures { result ≡ ReadError.TooDeep (length tokens.now) }
{
    ReadError::TooDeep(tokens.len())
}
