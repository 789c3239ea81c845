//! Verilog texts, their tokens and their trees.
//!
//! A row is parted by tabs: what is asked, the rule that the row shows, and a text or its parts (`table_rows` tells the escapes in
//! them). Asked is `tokens` (by `v_lex::lex`), `tree` (by `v_parse::parse`), `height` (the same, of a text that is put together
//! of repeated units), or `expression`, `target`, `always`, `initial`, `whole` (by `v_expression` and `v_statement`, at the
//! front of a text, within a height).

mod expression;
mod front;
mod height;
mod item;
mod module;
mod piece;
mod statement;
mod tokens;
mod tree;

use front::front_text;
use height::height_text;
use std::alloc::{AllocError, Global};
use table_rows::{Row, push_bytes};
use tokens::tokens_text;
use tree::tree_text;

/// The answer for a row: its rule, and what is read.
pub fn answer(alloc: Global, line: &[u8]) -> Result<String, AllocError> {
    let row = Row::of(line);
    let mut out = String::new(alloc);
    push_bytes(&mut out, row.part(1))?;
    out.push_str(": ")?;
    let shown = match row.part(0) {
        b"tokens" => tokens_text(alloc, &row)?,
        b"tree" => tree_text(alloc, &row)?,
        b"height" => height_text(alloc, &row)?,
        _ => front_text(alloc, &row)?,
    };
    out.push_str(&shown)?;
    Ok(out)
}
