//! What is answered for a row.
ghost use Rattle.std.specs.Prelude.{◌≡◌, ◌++◌, codes, IfOk, option_copied, string_bytes};
ghost use Rattle.std.specs.Fmt.{decimal};
ghost use Rattle.table_rows.specs.Rows.{part_at};
ghost use Rattle.table_rows.specs.Shown.{latin};
ghost use Rattle.design_tests.specs.Elaboration.Rows.{Answers, ShowsFlat, ShowsRow, is_rule, named, refusal_text};
ghost use Rattle.v_design.specs.Words.{elaboration_word};

use crate::elaboration::designs::{Refusal, design_of};
use crate::elaboration::values::design_text;
use gpi::{Flat, Gpi};
use port_io::NoMemory;
use std::alloc::Global;
use table_rows::{Row, push_bytes};
use v_design::DesignRule;
use v_flat::scope::ElabRule;

/// A rule, and the byte at which it is broken. Only want of memory is an error, here and below.
fn broken_text(alloc: Global, rule: ElabRule, byte: u32) -> Result<Vec<u8>, NoMemory>
    ensures { IfOk result (λ text. text.items ≡ codes " " ++ (elaboration_word rule ++ (codes " " ++ decimal byte))) }
{
    let mut text = b" ".to_vec(alloc)?;
    text.extend_from_slice(DesignRule::Elaboration(rule).name())?;
    text.push(b' ')?;
    let digits = byte.to_string(alloc)?;
    text.extend_from_slice(digits.as_bytes())?;
    Ok(text)
}

/// Why a text has no design.
fn refusal_text(alloc: Global, refusal: Refusal) -> Result<Vec<u8>, NoMemory>
    ensures { IfOk result (λ text. text.items ≡ refusal_text refusal) }
{
    match refusal {
        Refusal::TooLong => Ok(b" too long".to_vec(alloc)?),
        Refusal::NoTokens => Ok(b" no tokens".to_vec(alloc)?),
        Refusal::NoModules => Ok(b" no modules".to_vec(alloc)?),
        Refusal::Breaks(rule, byte) => broken_text(alloc, rule, byte),
    }
}

/// The name of the top, as characters of Latin-1.
fn top_of(alloc: Global, row: &Row<'_>) -> Result<String, NoMemory>
    ensures { IfOk result (λ name. string_bytes name ≡ latin (part_at 2 row.now)) }
{
    let mut name = String::new(alloc);
    push_bytes(&mut name, row.part(2))?;
    Ok(name)
}

/// The top of this name, none for `-`.
fn named(name: &str) -> Option<&str>
    ensures { option_copied result ≡ named name.now }
{
    if name == "-" { None } else { Some(name) }
}

/// What is shown of the design of a row.
fn flat_text<K: Gpi>(
    alloc: Global,
    kernel: &mut K,
    row: &Row<'_>,
    flat: &Flat,
) -> Result<Vec<u8>, NoMemory>
    ensures { IfOk result (λ text. ShowsFlat (is_rule row.now) flat.now (part_at 4 row.now) text.items) }
{
    if row.part(0) == b"rule".as_slice() {
        Ok(b" accepted".to_vec(alloc)?)
    } else {
        design_text(alloc, kernel, flat, row.part(4))
    }
}

/// What a row comes to.
fn row_text<K: Gpi>(alloc: Global, kernel: &mut K, row: &Row<'_>) -> Result<Vec<u8>, NoMemory>
    ensures { IfOk result (λ text. ShowsRow row.now text.items) }
{
    let text = row.text(alloc, 3)?;
    let name = top_of(alloc, row)?;
    match design_of(alloc, &text, named(&name))? {
        Ok(flat) => flat_text(alloc, kernel, row, &flat),
        Err(refusal) => refusal_text(alloc, refusal),
    }
}

/// The name of a row, and behind `:` what it comes to on this simulator, whatever that held.
pub fn answer<K: Gpi>(alloc: Global, kernel: &mut K, line: &[u8]) -> Result<Vec<u8>, NoMemory>
    ensures { IfOk result (λ text. Answers line.now text.items) }
{
    let row = Row::of(line);
    let mut text = row.part(1).to_vec(alloc)?;
    text.push(b':')?;
    let shown = row_text(alloc, kernel, &row)?;
    text.extend_from_slice(&shown)?;
    Ok(text)
}
