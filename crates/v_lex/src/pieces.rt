//! What stands at a place of a text.

ghost use Rattle.std.specs.Prelude.{◌≡◌, ◌≤◌, ◌<◌, ◌+◌, ◌^◌, ◌∷◌, ℕ, List, length, drop, IfOk};
ghost use Rattle.v_lex.specs.Pieces.{word_token, word_at, task_at, mark_piece, text_len, closed_text_or_byte, skipped_from};
ghost use Rattle.v_lex.specs.Pieces.{token_from, piece_at};
ghost use Rattle.v_lex.specs.DirectiveScan.{is_conditional};
ghost use Rattle.v_lex.specs.Comments.{gap};

use crate::bytes::{ByteClass, is_digit, is_name_start, is_separator};
use crate::directive::{Content, DirectiveWord, LexRule, Piece};
use crate::directives::directive_at;
use crate::gaps::comment_at;
use crate::marks::mark_at;
use crate::numbers::number_at;
use crate::runs::run;
use crate::texts::{text_at, text_len};
use crate::words::{directive_of, keyword_of, reserved_of, task_of};
use port_io::{Name, NoMemory};
use std::alloc::Global;
use v_syntax::Token;

/// The token of a word: a keyword, another reserved word, or a name.
#[tactic(auto, unfolding(crate::specs::Pieces::word_token))]
fn word_token(alloc: Global, word: &[u8]) -> Result<Token, NoMemory>
    ensures { IfOk result (λ t. t ≡ word_token word.now) }
{
    if let Some(keyword) = keyword_of(word) {
        return Ok(Token::Keyword(keyword));
    }
    match reserved_of(word) {
        Some(reserved) => Ok(Token::Reserved(reserved)),
        None => Ok(Token::Name(Name::of(alloc, word)?)),
    }
}

/// The name or the reserved word at the front of the text (IEEE 1364-2005, clause 3.7).
#[tactic(auto, unfolding(crate::specs::Pieces::word_at))]
fn word_at(alloc: Global, text: &[u8]) -> Result<Piece, NoMemory>
    requires some { 1 ≤ length text.now }
    requires most { length text.now < 2 ^ 60 }
    ensures is { IfOk result (λ p. p ≡ word_at text.now) }
    ensures some { IfOk result (λ p. 1 ≤ p.size) }
    ensures within { IfOk result (λ p. p.size ≤ length text.now) }
{
    let (_, rest) = text.split_at(1);
    let size = 1 + run(ByteClass::Name, rest);
    let (word, _) = text.split_at(size);
    Ok(Piece {
        size,
        content: Content::Token(word_token(alloc, word)?),
    })
}

/// The system task at the front of the text (IEEE 1364-2005, clause 3.7.3).
#[tactic(auto, unfolding(crate::specs::Pieces::task_at))]
fn task_at(text: &[u8]) -> Piece
    requires some { 1 ≤ length text.now }
    requires most { length text.now < 2 ^ 60 }
    ensures is { result ≡ task_at text.now }
    ensures some { 1 ≤ result.size }
    ensures within { result.size ≤ length text.now }
{
    let (_, rest) = text.split_at(1);
    let size = 1 + run(ByteClass::Name, rest);
    let (name, _) = text.split_at(size);
    match task_of(name) {
        Some(task) => Piece {
            size,
            content: Content::Token(Token::SystemTask(task)),
        },
        None => Piece {
            size,
            content: Content::Broken(LexRule::BadByte),
        },
    }
}

/// The operator or mark at the front of the text.
#[tactic(auto, unfolding(crate::specs::Pieces::mark_piece))]
fn mark_piece(text: &[u8]) -> Piece
    requires { 1 ≤ length text.now }
    ensures is { result ≡ mark_piece text.now }
    ensures some { 1 ≤ result.size }
    ensures within { result.size ≤ length text.now }
{
    match mark_at(text) {
        Some(mark) => Piece {
            size: mark.spelling().len(),
            content: Content::Token(Token::Mark(mark)),
        },
        None => Piece {
            size: 1,
            content: Content::Broken(LexRule::BadByte),
        },
    }
}

fn gap(size: usize) -> Piece
    ensures { result ≡ gap size }
{
    Piece {
        size,
        content: Content::Gap,
    }
}

/// Whether the directive belongs to a conditional.
fn is_conditional(word: Option<DirectiveWord>) -> bool
    ensures { result ≡ is_conditional word }
{
    matches!(
        word,
        Some(
            DirectiveWord::IfDef
                | DirectiveWord::IfNDef
                | DirectiveWord::ElsIf
                | DirectiveWord::Else
                | DirectiveWord::EndIf
        )
    )
}

/// What stands at a place of a part that isn't taken, from its first byte on.
fn skipped_from(alloc: Global, first: u8, after: &[u8]) -> Result<Piece, NoMemory>
    requires { length after.now < 2 ^ 60 }
    ensures is { IfOk result (λ p. p ≡ skipped_from first after.now) }
    ensures some { IfOk result (λ p. 1 ≤ p.size) }
    ensures within { IfOk result (λ p. p.size ≤ 1 + length after.now) }
{
    if first == b'"' {
        return match text_len(after) {
            Some(n) => Ok(gap(2 + n)),
            None => Ok(gap(1)),
        };
    }
    if first == b'`' {
        let (word, _) = after.split_at(run(ByteClass::Name, after));
        if is_conditional(directive_of(word)) {
            return directive_at(alloc, after);
        }
    }
    Ok(gap(1))
}

/// The token or directive at the front of the text, or the byte that begins none.
fn token_from(alloc: Global, first: u8, after: &[u8], text: &[u8]) -> Result<Piece, NoMemory>
    requires whole { text.now ≡ first ∷ after.now }
    requires most { length text.now < 2 ^ 60 }
    ensures is { IfOk result (λ p. p ≡ token_from first after.now text.now) }
    ensures some { IfOk result (λ p. 1 ≤ p.size) }
    ensures within { IfOk result (λ p. p.size ≤ length text.now) }
{
    if first == b'"' {
        return text_at(alloc, after);
    }
    if first == b'`' {
        return directive_at(alloc, after);
    }
    if is_digit(first) || first == b'\'' {
        return Ok(number_at(text));
    }
    if is_name_start(first) {
        return word_at(alloc, text);
    }
    if first == b'$' {
        return Ok(task_at(text));
    }
    Ok(mark_piece(text))
}

/// What stands at the front of a text, in a part that is taken or not.
#[tactic(auto, unfolding(crate::specs::Pieces::piece_at))]
pub fn piece_at(alloc: Global, is_taken: bool, text: &[u8]) -> Result<Piece, NoMemory>
    requires some { 1 ≤ length text.now }
    requires most { length text.now < 2 ^ 60 }
    ensures is { IfOk result (λ p. p ≡ piece_at is_taken text.now) }
    ensures some { IfOk result (λ p. 1 ≤ p.size) }
    ensures within { IfOk result (λ p. p.size ≤ length text.now) }
{
    let (first, after) = text.split_first().unwrap();
    if is_separator(*first) {
        return Ok(gap(1));
    }
    if let Some(comment) = comment_at(text) {
        return Ok(comment);
    }
    if is_taken {
        token_from(alloc, *first, after, text)
    } else {
        skipped_from(alloc, *first, after)
    }
}
