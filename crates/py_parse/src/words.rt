//! The reserved words with which headers begin.

ghost use Rattle.std.specs.Prelude.{◌≡◌};
ghost use Rattle.py_syntax.specs.Outline;
ghost use Rattle.py_parse.specs.Blocks.{is_try};

use py_syntax::{Keyword, Token};

/// The reserved word with which a line begins.
pub fn word_of(tokens: &[Token]) -> Option<Keyword>
    ensures { result ≡ Outline.word_of tokens.now }
{
    match tokens.split_first() {
        Some((Token::Keyword(word), _)) => Some(*word),
        _ => None,
    }
}

/// Whether a line that begins so is a header.
pub fn is_header(word: Option<Keyword>) -> bool
    ensures { result ≡ Outline.is_header word }
{
    matches!(
        word,
        Some(
            Keyword::If
                | Keyword::Elif
                | Keyword::Else
                | Keyword::While
                | Keyword::For
                | Keyword::Try
                | Keyword::Except
                | Keyword::Async
        )
    )
}

/// Whether an `elif` or an `else` may follow the block of a line that begins so.
fn is_branch(word: Option<Keyword>) -> bool
    ensures { result ≡ Outline.is_branch word }
{
    matches!(word, Some(Keyword::If | Keyword::Elif))
}

/// Whether an `except` may follow it.
fn is_guarded(word: Option<Keyword>) -> bool
    ensures { result ≡ Outline.is_guarded word }
{
    matches!(word, Some(Keyword::Try | Keyword::Except))
}

/// Whether a line that begins with the second may follow one of its block that begins with the first.
pub fn may_follow(before: Option<Keyword>, word: Option<Keyword>) -> bool
    ensures { result ≡ Outline.may_follow before word }
{
    match word {
        Some(Keyword::Elif | Keyword::Else) => is_branch(before),
        Some(Keyword::Except) => is_guarded(before),
        _ => true,
    }
}

/// Whether a line that begins so is an `except`.
pub fn is_except(word: Option<Keyword>) -> bool
    ensures { result ≡ Outline.is_except word }
{
    matches!(word, Some(Keyword::Except))
}

/// Whether a line that begins so is a `try`.
pub fn is_try(word: Option<Keyword>) -> bool
    ensures { result ≡ is_try word }
{
    matches!(word, Some(Keyword::Try))
}
