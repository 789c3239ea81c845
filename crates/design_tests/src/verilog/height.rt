//! Texts that are put together of repeated units.

use std::alloc::{AllocError, Global};
use table_rows::Row;
use v_lex::lex;
use v_parse::parse;

/// A unit, so many times, as long as the text stays within the limit of bytes.
fn push_times(text: &mut Vec<u8>, unit: &[u8], times: usize) -> Result<(), AllocError> {
    for _ in 0..times.min(1_048_576) {
        text.extend_from_slice(unit)?;
    }
    Ok(())
}

/// A front, a unit so many times, a middle, another unit as many times, and a back.
fn text_of(alloc: Global, row: &Row<'_>) -> Result<Vec<u8>, AllocError> {
    let times = row.number(2) as usize;
    let mut text = row.text(alloc, 3)?;
    push_times(&mut text, &row.text(alloc, 4)?, times)?;
    text.extend_from_slice(&row.text(alloc, 5)?)?;
    push_times(&mut text, &row.text(alloc, 6)?, times)?;
    text.extend_from_slice(&row.text(alloc, 7)?)?;
    Ok(text)
}

/// How many modules the text has, or the fault.
pub fn height_text(alloc: Global, row: &Row<'_>) -> Result<String, AllocError> {
    let text = text_of(alloc, row)?;
    if text.len() > 1_048_576 {
        return format!(in alloc; "too long");
    }
    match lex(alloc, &text) {
        Ok(tokens) => match parse(alloc, &tokens) {
            Ok(source) => {
                let count = source.modules.len();
                format!(in alloc; "{count} modules")
            }
            Err(fault) => format!(in alloc; "{fault:?}"),
        },
        Err(fault) => format!(in alloc; "{fault:?}"),
    }
}
