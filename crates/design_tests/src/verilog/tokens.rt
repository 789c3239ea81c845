//! Tokens with their places, and what directives set.

use std::alloc::{AllocError, Global};
use std::fmt::Write;
use table_rows::{Row, push_bytes};
use v_lex::{Tokens, lex};
use v_syntax::Token;

/// Bytes between two marks.
fn push_framed(out: &mut String, open: char, bytes: &[u8], close: char) -> Result<(), AllocError> {
    out.push(open)?;
    push_bytes(out, bytes)?;
    out.push(close)
}

/// A keyword in `[]`, another reserved word in `<>`, a text in quotes, a number as its size and its digits.
fn push_token(out: &mut String, token: &Token) -> Result<(), AllocError> {
    match token {
        Token::Name(name) => push_bytes(out, name.bytes()),
        Token::Keyword(keyword) => push_framed(out, '[', keyword.spelling(), ']'),
        Token::Reserved(word) => push_framed(out, '<', word.spelling(), '>'),
        Token::SystemTask(task) => push_bytes(out, task.spelling()),
        Token::Text(text) => push_framed(out, '"', text.bytes(), '"'),
        Token::Mark(mark) => push_bytes(out, mark.spelling()),
        Token::Number(bits) => {
            let width = bits.width();
            write!(out, "#{width}'")?;
            let digits = bits.text();
            push_bytes(out, &digits[..usize::from(width)])
        }
    }
}

/// All tokens with their places, what is told of the text's end, and the unit of time at each `module`.
fn all_text(alloc: Global, tokens: &Tokens) -> Result<String, AllocError> {
    let mut out = String::new(alloc);
    for i in 0..tokens.len() {
        push_token(&mut out, tokens.token(i))?;
        let place = tokens.place(i);
        write!(out, "@{place} ")?;
    }
    let end = tokens.place(tokens.len());
    let unit = tokens.unit();
    let step = tokens.step();
    write!(out, "end@{end} unit={unit} step={step}")?;
    for unit in tokens.units() {
        write!(out, " module={unit}")?;
    }
    Ok(out)
}

/// The tokens of a row's text, or the fault.
pub fn tokens_text(alloc: Global, row: &Row<'_>) -> Result<String, AllocError> {
    let text = row.text(alloc, 2)?;
    if text.len() > 1_048_576 {
        return format!(in alloc; "too long");
    }
    match lex(alloc, &text) {
        Ok(tokens) => all_text(alloc, &tokens),
        Err(fault) => format!(in alloc; "{fault:?}"),
    }
}
