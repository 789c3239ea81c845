//! A whole text's tree.

use crate::verilog::expression::{open_expression, open_target};
use crate::verilog::item::open_item;
use crate::verilog::module::open_module;
use crate::verilog::piece::{Piece, Pieces};
use crate::verilog::statement::{open_case_item, open_statement};
use four_value::Bits;
use std::alloc::{AllocError, Global};
use table_rows::{Row, push_bytes};
use v_lex::lex;
use v_parse::parse;
use v_syntax::Source;

/// A number's digits, the highest first.
fn push_bits(out: &mut String, bits: &Bits) -> Result<(), AllocError> {
    let digits = bits.text();
    push_bytes(out, &digits[..usize::from(bits.width())])
}

/// Prints a text, or tells a node's pieces.
fn open<'a>(out: &mut String, pieces: &mut Pieces<'a>, piece: Piece<'a>) -> Result<(), AllocError> {
    match piece {
        Piece::Mark(text) => out.push_str(text),
        Piece::Name(name) => push_bytes(out, name),
        Piece::Bits(bits) => push_bits(out, bits),
        Piece::Expression(expression) => open_expression(pieces, expression),
        Piece::Target(target) => open_target(pieces, target),
        Piece::Statement(statement) => open_statement(pieces, statement),
        Piece::CaseItem(item) => open_case_item(pieces, item),
        Piece::Item(item) => open_item(pieces, item),
        Piece::Module(module) => open_module(pieces, module),
    }
}

/// Puts pieces in front of those that are still to be printed, which stand last first.
fn prepend<'a>(waiting: &mut Vec<Piece<'a>>, pieces: &Pieces<'a>) -> Result<(), AllocError> {
    for piece in pieces.list.iter().rev() {
        waiting.push(*piece)?;
    }
    Ok(())
}

/// The tree of a whole text.
fn source_text(alloc: Global, source: &Source) -> Result<String, AllocError> {
    let mut out = String::new(alloc);
    let mut waiting = Vec::new(alloc);
    waiting.push(Piece::Mark(")"))?;
    for module in source.modules.iter().rev() {
        waiting.push(Piece::Module(module))?;
        waiting.push(Piece::Mark(" "))?;
    }
    waiting.push(Piece::Mark("(source"))?;
    for _ in 0..u64::MAX {
        let Some(piece) = waiting.pop() else {
            break;
        };
        let mut pieces = Pieces::new(alloc);
        open(&mut out, &mut pieces, piece)?;
        prepend(&mut waiting, &pieces)?;
    }
    Ok(out)
}

/// The tree of a row's text, or the fault.
pub fn tree_text(alloc: Global, row: &Row<'_>) -> Result<String, AllocError> {
    let text = row.text(alloc, 2)?;
    if text.len() > 1_048_576 {
        return format!(in alloc; "too long");
    }
    match lex(alloc, &text) {
        Ok(tokens) => match parse(alloc, &tokens) {
            Ok(source) => source_text(alloc, &source),
            Err(fault) => format!(in alloc; "{fault:?}"),
        },
        Err(fault) => format!(in alloc; "{fault:?}"),
    }
}
