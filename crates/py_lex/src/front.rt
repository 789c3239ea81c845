//! Which piece stands at the front of a text, and how long it is.

ghost use Rattle.std.specs.Prelude.{◌≡◌, ◌≤◌, ◌<◌, ◌==◌, not, true, length, slice_index, slice_get, IfOk, IfSome};
ghost use Rattle.std.specs.Option.{option_map};
ghost use Rattle.port_io.specs.Limits.{most_bytes};
ghost use Rattle.py_syntax.specs.Bytes;
ghost use Rattle.py_syntax.specs.Pieces;
ghost use Rattle.py_syntax.specs.Places.{line_ends};
ghost use Rattle.py_lex.specs.Fits.{FitsIn};

use crate::bytes::{are_printable, byte_at, is_brace, is_digit, is_letter, is_printable, is_quote};
use crate::marks::{bracket_of, operator_at};
use crate::numbers::{base_of, number_of};
use crate::texts::{docstring_end, is_line_empty, literal_len, said, text_end};
use crate::words::{line_feeds, line_len, number_len, word_len};
use port_io::{Name, NoMemory};
use py_syntax::{Context, Keyword, Mode, Piece, Token};
use std::alloc::Global;

#[tactic(auto, unfolding(py_syntax::specs::Pieces::word_piece))]
fn word_piece(alloc: Global, text: &[u8]) -> Result<(Piece, usize), NoMemory>
    requires { Bytes.is_letter (slice_index text.now 0) ≡ true }
    ensures value { IfOk result (λ x. (x.0, x.1) ≡ Pieces.word_piece text.now) }
    ensures fits { IfOk result (λ x. FitsIn text.now x.0 x.1) }
{
    let length = word_len(text);
    let word = &text[..length];
    let token = match Keyword::of(word) {
        Some(keyword) => Token::Keyword(keyword),
        None => Token::Name(Name::of(alloc, word)?),
    };
    Ok((Piece::Token(token, true), length))
}

#[tactic(auto, unfolding(py_syntax::specs::Pieces::number_piece))]
fn number_piece(text: &[u8]) -> (Piece, usize)
    requires { Bytes.is_digit (slice_index text.now 0) ≡ true }
    ensures value { (result.0, result.1) ≡ Pieces.number_piece text.now }
    ensures fits { FitsIn text.now result.0 result.1 }
{
    let length = number_len(base_of(text), text);
    let token = match number_of(&text[..length]) {
        Some(number) => Token::Number(number),
        None => Token::Invalid,
    };
    (Piece::Token(token, true), length)
}

fn other_piece(byte: u8) -> (Piece, usize)
    ensures value { (result.0, result.1) ≡ Pieces.other_piece byte }
    ensures length { result.1 ≡ 1 }
    ensures lines { line_ends result.0 ≡ 0 }
{
    if is_printable(byte) && byte != b'\\' {
        (Piece::Token(Token::Invalid, true), 1)
    } else {
        (Piece::BadByte, 1)
    }
}

#[tactic(auto, unfolding(py_syntax::specs::Pieces::mark_piece), using(crate::proofs::Bounds::spelled_within))]
fn mark_piece(text: &[u8]) -> (Piece, usize)
    requires { 0 < length text.now }
    ensures value { (result.0, result.1) ≡ Pieces.mark_piece text.now }
    ensures fits { FitsIn text.now result.0 result.1 }
{
    let byte = byte_at(text, 0);
    if let Some(token) = bracket_of(byte) {
        return (Piece::Token(token, true), 1);
    }
    match operator_at(byte, byte_at(text, 1), byte_at(text, 2)) {
        Some((operator, length)) => (Piece::Token(Token::Operator(operator), true), length),
        None => other_piece(byte),
    }
}

#[tactic(auto, unfolding(py_syntax::specs::Pieces::word_or_mark))]
fn word_or_mark(alloc: Global, text: &[u8]) -> Result<(Piece, usize), NoMemory>
    requires { 0 < length text.now }
    ensures value { IfOk result (λ x. (x.0, x.1) ≡ Pieces.word_or_mark text.now) }
    ensures fits { IfOk result (λ x. FitsIn text.now x.0 x.1) }
{
    let byte = byte_at(text, 0);
    if is_digit(byte) {
        return Ok(number_piece(text));
    }
    if is_letter(byte) {
        return word_piece(alloc, text);
    }
    Ok(mark_piece(text))
}

#[tactic(auto, unfolding(py_syntax::specs::Pieces::blank_piece))]
fn blank_piece(text: &[u8]) -> Option<(Piece, usize)>
    requires { 0 < length text.now }
    ensures value { option_map (λ x. (x.0, x.1)) result ≡ Pieces.blank_piece text.now }
    ensures fits { IfSome result (λ x. FitsIn text.now x.0 x.1) }
{
    let byte = byte_at(text, 0);
    if byte == b'\n' {
        return Some((Piece::LineEnd, 1));
    }
    if byte == b'\r' && byte_at(text, 1) == b'\n' {
        return Some((Piece::LineEnd, 2));
    }
    (byte == b' ').then_some((Piece::Space, 1))
}

#[tactic(auto, unfolding(py_syntax::specs::Pieces::text_piece))]
fn text_piece(alloc: Global, text: &[u8]) -> Result<(Piece, usize), NoMemory>
    requires { Bytes.is_quote (slice_index text.now 0) ≡ true }
    ensures value { IfOk result (λ x. (x.0, x.1) ≡ Pieces.text_piece text.now) }
    ensures fits { IfOk result (λ x. FitsIn text.now x.0 x.1) }
{
    let Some(end) = text_end(byte_at(text, 0), &text[1..]) else {
        return Ok((Piece::OpenText, line_len(text)));
    };
    let body = &text[1..end];
    let token = match said(alloc, body)? {
        Some(said) => Token::Text(said),
        None => Token::Invalid,
    };
    Ok((Piece::Token(token, are_printable(body)), end + 1))
}

#[tactic(auto, unfolding(py_syntax::specs::Pieces::docstring_of))]
fn docstring_of(text: &[u8], size: usize) -> Option<(Piece, usize)>
    requires limit { length text.now ≤ most_bytes }
    requires positive { 0 < size }
    requires within { size ≤ length text.now }
    ensures value { option_map (λ x. (x.0, x.1)) result ≡ Pieces.docstring_of text.now size }
    ensures fits { IfSome result (λ x. FitsIn text.now x.0 x.1) }
{
    if !is_line_empty(&text[size..]) {
        return None;
    }
    let line_ends = line_feeds(&text[..size]);
    Some((Piece::Docstring(line_ends as u32), size))
}

#[tactic(auto, unfolding(py_syntax::specs::Pieces::docstring_piece))]
fn docstring_piece(text: &[u8]) -> Option<(Piece, usize)>
    requires limit { length text.now ≤ most_bytes }
    requires quote { Bytes.is_quote (slice_index text.now 0) ≡ true }
    ensures value { option_map (λ x. (x.0, x.1)) result ≡ Pieces.docstring_piece text.now }
    ensures fits { IfSome result (λ x. FitsIn text.now x.0 x.1) }
{
    let quote = byte_at(text, 0);
    if quote == b'"' && byte_at(text, 1) == b'"' && byte_at(text, 2) == b'"' {
        return match docstring_end(&text[3..]) {
            Some(end) => docstring_of(text, end + 3),
            None => Some((Piece::OpenDocstring, text.len())),
        };
    }
    let end = text_end(quote, &text[1..])?;
    docstring_of(text, end + 1)
}

#[tactic(auto, unfolding(py_syntax::specs::Pieces::quoted_piece))]
fn quoted_piece(alloc: Global, is_fresh: bool, text: &[u8]) -> Result<(Piece, usize), NoMemory>
    requires limit { length text.now ≤ most_bytes }
    requires quote { Bytes.is_quote (slice_index text.now 0) ≡ true }
    ensures value { IfOk result (λ x. (x.0, x.1) ≡ Pieces.quoted_piece is_fresh text.now) }
    ensures fits { IfOk result (λ x. FitsIn text.now x.0 x.1) }
{
    if is_fresh && let Some(front) = docstring_piece(text) {
        return Ok(front);
    }
    text_piece(alloc, text)
}

#[tactic(auto, unfolding(py_syntax::specs::Pieces::code_piece))]
fn code_piece(alloc: Global, context: Context, text: &[u8]) -> Result<(Piece, usize), NoMemory>
    requires limit { length text.now ≤ most_bytes }
    requires some { 0 < length text.now }
    ensures value { IfOk result (λ x. (x.0, x.1) ≡ Pieces.code_piece context text.now) }
    ensures fits { IfOk result (λ x. FitsIn text.now x.0 x.1) }
{
    let byte = byte_at(text, 0);
    if byte == b'\t' && context.at_front {
        return Ok((Piece::Tab, 1));
    }
    if byte == b'#' {
        return Ok((Piece::Comment, line_len(text)));
    }
    if is_quote(byte) {
        return quoted_piece(alloc, context.is_fresh, text);
    }
    let next = byte_at(text, 1);
    if byte == b'f' && is_quote(next) {
        return Ok((Piece::FormatStart(next), 2));
    }
    word_or_mark(alloc, text)
}

/// A backslash in a part of an f-string, with the byte that it takes with it.
fn after_backslash(text: &[u8]) -> (Piece, usize)
    requires { 0 < length text.now }
    ensures value { (result.0, result.1) ≡ Pieces.after_backslash (slice_get text.now 1) }
    ensures fits { FitsIn text.now result.0 result.1 }
{
    match text.get(1) {
        Some(byte) if *byte != b'\n' => { (Piece::Token(Token::Invalid, is_printable(*byte)), 2) }
        _ => (Piece::Token(Token::Invalid, true), 1),
    }
}

#[tactic(auto, unfolding(py_syntax::specs::Pieces::expression_piece))]
fn expression_piece(alloc: Global, quote: u8, text: &[u8]) -> Result<(Piece, usize), NoMemory>
    requires { 0 < length text.now }
    ensures value { IfOk result (λ x. (x.0, x.1) ≡ Pieces.expression_piece quote text.now) }
    ensures fits { IfOk result (λ x. FitsIn text.now x.0 x.1) }
{
    let byte = byte_at(text, 0);
    if byte == b'}' {
        return Ok((Piece::FormatClose, 1));
    }
    if byte == quote {
        return Ok((Piece::FormatCut, 1));
    }
    if byte == b'\\' {
        return Ok(after_backslash(text));
    }
    word_or_mark(alloc, text)
}

fn brace_piece(alloc: Global, brace: u8, next: u8) -> Result<(Piece, usize), NoMemory>
    ensures value { IfOk result (λ x. (x.0, x.1) ≡ Pieces.brace_piece brace next) }
    ensures lines { IfOk result (λ x. line_ends x.0 ≡ 0) }
    ensures positive { IfOk result (λ x. 0 < x.1) }
    ensures short { IfOk result (λ x. x.1 ≤ 2) }
    ensures second { IfOk result (λ x. 1 < x.1 → brace ≡ next) }
{
    if brace == next {
        let literal = Name::of(alloc, &[brace])?;
        return Ok((Piece::Token(Token::FormatText(literal), true), 2));
    }
    if brace == b'{' {
        return Ok((Piece::FormatOpen, 1));
    }
    Ok((Piece::Token(Token::Invalid, true), 1))
}

fn literal_piece(alloc: Global, literal: &[u8]) -> Result<(Piece, usize), NoMemory>
    ensures value { IfOk result (λ x. (x.0, x.1) ≡ Pieces.literal_piece literal.now) }
    ensures lines { IfOk result (λ x. line_ends x.0 ≡ 0) }
    ensures length { IfOk result (λ x. x.1 ≡ length literal.now) }
{
    let token = match said(alloc, literal)? {
        Some(said) => Token::FormatText(said),
        None => Token::Invalid,
    };
    let printable = are_printable(literal);
    Ok((Piece::Token(token, printable), literal.len()))
}

#[tactic(auto, unfolding(py_syntax::specs::Pieces::format_piece))]
fn format_piece(alloc: Global, quote: u8, text: &[u8]) -> Result<(Piece, usize), NoMemory>
    requires { 0 < length text.now }
    ensures value { IfOk result (λ x. (x.0, x.1) ≡ Pieces.format_piece quote text.now) }
    ensures fits { IfOk result (λ x. FitsIn text.now x.0 x.1) }
{
    let byte = byte_at(text, 0);
    if byte == b'\n' {
        return Ok((Piece::LineEnd, 1));
    }
    if byte == quote {
        return Ok((Piece::FormatEnd, 1));
    }
    if is_brace(byte) {
        return brace_piece(alloc, byte, byte_at(text, 1));
    }
    let length = literal_len(quote, text);
    literal_piece(alloc, &text[..length])
}

/// The piece that stands at the front of a text, and its length.
#[tactic(auto, unfolding(py_syntax::specs::Pieces::piece_at))]
pub fn piece_at(alloc: Global, context: Context, text: &[u8]) -> Result<(Piece, usize), NoMemory>
    requires limit { length text.now ≤ most_bytes }
    requires some { 0 < length text.now }
    ensures value { IfOk result (λ x. (x.0, x.1) ≡ Pieces.piece_at context text.now) }
    ensures fits { IfOk result (λ x. FitsIn text.now x.0 x.1) }
{
    if let Mode::Format(quote) = context.mode {
        return format_piece(alloc, quote, text);
    }
    if let Some(front) = blank_piece(text) {
        return Ok(front);
    }
    match context.mode {
        Mode::Expression(quote) => expression_piece(alloc, quote, text),
        _ => code_piece(alloc, context, text),
    }
}
