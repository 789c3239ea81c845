//! The tokens that decide how a call goes on.

ghost use Rattle.std.specs.Prelude.{◌≡◌, Some, None, MatchOption};
ghost use Rattle.py_expression.specs.Phrase.Gives.{Gives};
ghost use Rattle.py_statement.specs.Call.Words;
ghost use Rattle.py_statement.specs.Call.Chosen;

use port_io::Name;
use py_expression::phrase::{Mark, ReadError, after, after_last, end_of_line, name_at};
use py_syntax::{Bracket, Operator, Token};

/// The tokens after a text.
pub fn after_text(tokens: &[Token]) -> Option<&[Token]>
    ensures { MatchOption result (Words.after_text tokens.now ≡ None) (λ x. Words.after_text tokens.now ≡ Some x.now) }
{
    match tokens.split_first() {
        Some((Token::Text(_), rest)) => Some(rest),
        _ => None,
    }
}

/// The name before a `(`, and the tokens after that.
pub fn call_at(tokens: &[Token]) -> Option<(&Name, &[Token])>
    ensures { MatchOption result (Words.call_at tokens.now ≡ None) (λ x. Words.call_at tokens.now ≡ Some (x.0.now, x.1.now)) }
{
    let (name, rest) = name_at(tokens)?;
    Some((name, after(Mark::Open(Bracket::Round), rest)?))
}

/// The tokens after `name(`.
pub fn after_call<'a>(wanted: &[u8], tokens: &'a [Token]) -> Option<&'a [Token]>
    ensures { MatchOption result (Words.after_call wanted.now tokens.now ≡ None) (λ x. Words.after_call wanted.now tokens.now ≡ Some x.now) }
{
    match call_at(tokens) {
        Some((name, rest)) if name.bytes() == wanted => Some(rest),
        _ => None,
    }
}

/// The tokens after `owner.name(`.
pub fn after_member<'a>(owner: &[u8], wanted: &[u8], tokens: &'a [Token]) -> Option<&'a [Token]>
    ensures { MatchOption result (Words.after_member owner.now wanted.now tokens.now ≡ None)
        (λ x. Words.after_member owner.now wanted.now tokens.now ≡ Some x.now) }
{
    let (name, rest) = name_at(tokens)?;
    let rest = after(Mark::Operator(Operator::Dot), rest)?;
    if name.bytes() == owner {
        after_call(wanted, rest)
    } else {
        None
    }
}

/// Whether a started call may end before these tokens: at the end of the line, before a comma, or before `)`.
pub fn is_end(tokens: &[Token]) -> bool
    ensures { result ≡ Words.is_end tokens.now }
{
    matches!(
        tokens.first(),
        None | Some(Token::Operator(Operator::Comma) | Token::Close(Bracket::Round))
    )
}

/// Wrong unless `)` alone follows, before which a comma may stand.
pub fn close_of_line(tokens: &[Token]) -> Result<(), ReadError>
    ensures { Gives (λ _. tt) result (Chosen.close_of tokens.now) }
{
    match after_last(tokens) {
        Some(rest) => end_of_line(rest),
        None => Err(ReadError::Wrong),
    }
}
