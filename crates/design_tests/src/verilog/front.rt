//! Expressions, targets and statements at the front of some tokens, within heights other than the limit.

use std::alloc::{AllocError, Global};
use table_rows::Row;
use v_expression::{expression, target};
use v_lex::lex;
use v_statement::statement;
use v_syntax::{StatementPlace, Token};

/// How many tokens are left behind a statement, or its refusal.
fn statement_text(
    alloc: Global,
    place: StatementPlace,
    room: usize,
    tokens: &[Token],
) -> Result<String, AllocError> {
    match statement(alloc, tokens.len(), room.min(63), place, tokens) {
        Ok((_, rest)) => {
            let left = rest.len();
            format!(in alloc; "{left} left")
        }
        Err(refusal) => format!(in alloc; "{refusal:?}"),
    }
}

/// The same of an expression.
fn expression_text(alloc: Global, room: usize, tokens: &[Token]) -> Result<String, AllocError> {
    match expression(alloc, tokens.len(), room.min(63), tokens) {
        Ok((_, rest)) => {
            let left = rest.len();
            format!(in alloc; "{left} left")
        }
        Err(refusal) => format!(in alloc; "{refusal:?}"),
    }
}

/// The same of a target.
fn target_text(alloc: Global, room: usize, tokens: &[Token]) -> Result<String, AllocError> {
    match target(alloc, tokens.len(), room.min(63), tokens) {
        Ok((_, rest)) => {
            let left = rest.len();
            format!(in alloc; "{left} left")
        }
        Err(refusal) => format!(in alloc; "{refusal:?}"),
    }
}

/// What stands at the front of a row's text, where the row gives how many levels may stand below the whole.
pub fn front_text(alloc: Global, row: &Row<'_>) -> Result<String, AllocError> {
    let room = row.number(2) as usize;
    let text = row.part(3);
    if text.len() > 1_048_576 {
        return format!(in alloc; "too long");
    }
    let Ok(tokens) = lex(alloc, text) else {
        return format!(in alloc; "not of tokens");
    };
    let tokens = tokens.as_slice();
    match row.part(0) {
        b"expression" => expression_text(alloc, room, tokens),
        b"target" => target_text(alloc, room, tokens),
        b"always" => statement_text(alloc, StatementPlace::InAlways, room, tokens),
        b"initial" => statement_text(alloc, StatementPlace::InInitial, room, tokens),
        b"whole" => statement_text(alloc, StatementPlace::WholeInitial, room, tokens),
        _ => format!(in alloc; "nothing is asked"),
    }
}
