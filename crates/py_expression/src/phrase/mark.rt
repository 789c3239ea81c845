//! The tokens at the front: marks, words and names.

ghost use Rattle.std.specs.Prelude.{◌≡◌, Some, None, MatchOption};
ghost use Rattle.py_expression.specs.Phrase.Marks;
ghost use Rattle.py_expression.specs.Phrase.Gives.{Gives};

use crate::phrase::fault::ReadError;
use port_io::Name;
use py_syntax::{Bracket, Keyword, Operator, Token};

/// A reserved word, an operator or a bracket.
#[derive(Clone, Copy, Debug)]
pub enum Mark {
    Keyword(Keyword),
    Operator(Operator),
    Open(Bracket),
    Close(Bracket),
}

impl Mark {
    /// Whether the token is this one.
    fn is(self, token: &Token) -> bool
        ensures { result ≡ Marks.is_mark self token.now }
    {
        match (self, token) {
            (Mark::Keyword(wanted), Token::Keyword(found)) => *found == wanted,
            (Mark::Operator(wanted), Token::Operator(found)) => *found == wanted,
            (Mark::Open(wanted), Token::Open(found)) => *found == wanted,
            (Mark::Close(wanted), Token::Close(found)) => *found == wanted,
            _ => false,
        }
    }
}

/// The tokens after this one, or none where another stands at the front.
#[tactic(auto, unfolding(crate::specs::Phrase::Marks::after))]
pub fn after(mark: Mark, tokens: &[Token]) -> Option<&[Token]>
    ensures { MatchOption result (Marks.after mark tokens.now ≡ None) (λ x. Marks.after mark tokens.now ≡ Some x.now) }
{
    match tokens.split_first() {
        Some((first, rest)) if mark.is(first) => Some(rest),
        _ => None,
    }
}

/// The tokens after this one, which has to stand at the front.
pub fn expect(mark: Mark, tokens: &[Token]) -> Result<&[Token], ReadError>
    ensures { Gives (λ x. x.now) result (Marks.after mark tokens.now) }
{
    after(mark, tokens).ok_or(ReadError::Wrong)
}

/// The tokens after the `)` of a call, before which a comma may stand.
pub fn after_last(tokens: &[Token]) -> Option<&[Token]>
    ensures { MatchOption result (Marks.after_last tokens.now ≡ None) (λ x. Marks.after_last tokens.now ≡ Some x.now) }
{
    match after(Mark::Operator(Operator::Comma), tokens) {
        Some(rest) => after(Mark::Close(Bracket::Round), rest),
        None => after(Mark::Close(Bracket::Round), tokens),
    }
}

/// Whether a token is this name.
fn is_word(word: &[u8], token: &Token) -> bool
    ensures { result ≡ Marks.is_word word.now token.now }
{
    match token {
        Token::Name(name) => name.bytes() == word,
        _ => false,
    }
}

/// The tokens after this name, or none where something else stands at the front.
#[tactic(auto, unfolding(crate::specs::Phrase::Marks::after_word))]
pub fn after_word<'a>(word: &[u8], tokens: &'a [Token]) -> Option<&'a [Token]>
    ensures { MatchOption result (Marks.after_word word.now tokens.now ≡ None) (λ x. Marks.after_word word.now tokens.now ≡ Some x.now) }
{
    match tokens.split_first() {
        Some((first, rest)) if is_word(word, first) => Some(rest),
        _ => None,
    }
}

/// The tokens after this name, which has to stand at the front.
pub fn expect_word<'a>(word: &[u8], tokens: &'a [Token]) -> Result<&'a [Token], ReadError>
    ensures { Gives (λ x. x.now) result (Marks.after_word word.now tokens.now) }
{
    after_word(word, tokens).ok_or(ReadError::Wrong)
}

/// The name at the front, and the tokens after it.
pub fn name_at(tokens: &[Token]) -> Option<(&Name, &[Token])>
    ensures { MatchOption result (Marks.name_at tokens.now ≡ None) (λ x. Marks.name_at tokens.now ≡ Some (x.0.now, x.1.now)) }
{
    match tokens.split_first() {
        Some((Token::Name(name), rest)) => Some((name, rest)),
        _ => None,
    }
}

/// The name before a `=`, and the tokens after that.
pub fn named_at(tokens: &[Token]) -> Option<(&Name, &[Token])>
    ensures { MatchOption result (Marks.named_at tokens.now ≡ None) (λ x. Marks.named_at tokens.now ≡ Some (x.0.now, x.1.now)) }
{
    let (name, rest) = name_at(tokens)?;
    Some((name, after(Mark::Operator(Operator::Assign), rest)?))
}

/// The tokens after `name=`, or all tokens where that doesn't stand at the front.
pub fn after_name<'a>(wanted: &[u8], tokens: &'a [Token]) -> &'a [Token]
    ensures { result.now ≡ Marks.after_name wanted.now tokens.now }
{
    match named_at(tokens) {
        Some((name, rest)) if name.bytes() == wanted => rest,
        _ => tokens,
    }
}

/// Wrong unless nothing follows.
pub fn end_of_line(tokens: &[Token]) -> Result<(), ReadError>
    ensures { Gives (λ _. tt) result (Marks.end_of tokens.now) }
{
    if tokens.is_empty() {
        Ok(())
    } else {
        Err(ReadError::Wrong)
    }
}
