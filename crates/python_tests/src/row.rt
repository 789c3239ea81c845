//! The text of a row that is put together of repeated parts.
ghost use Rattle.std.specs.Prelude.{◌≡◌, IfOk};
ghost use Rattle.python_tests.specs.Row.{repeated, repeated_at, times_in};

use std::alloc::{AllocError, Global};
use table_rows::Row;

/// The most times that a part of a text is repeated.
const MOST_TIMES: u64 = 1048576;

/// How many times a row says, at most 1,048,576.
fn times_in(row: &Row<'_>) -> usize
    ensures { result ≡ times_in row.now }
{
    row.number(2).min(MOST_TIMES) as usize
}

/// Part `i` of a row, so many times behind itself. Only want of memory is an error, here and below.
fn repeated_at(alloc: Global, i: usize, row: &Row<'_>) -> Result<Vec<u8>, AllocError>
    ensures { IfOk result (λ text. text.items ≡ repeated_at i row.now) }
{
    row.text(alloc, i)?.repeat(alloc, times_in(row))
}

/// The text of a front, a part so many times, a middle, another part as many times, and a back.
pub fn repeated(alloc: Global, row: &Row<'_>) -> Result<Vec<u8>, AllocError>
    ensures { IfOk result (λ text. text.items ≡ repeated row.now) }
{
    let mut text = row.text(alloc, 3)?;
    text.extend_from_slice(&repeated_at(alloc, 4, row)?)?;
    text.extend_from_slice(&row.text(alloc, 5)?)?;
    text.extend_from_slice(&repeated_at(alloc, 6, row)?)?;
    text.extend_from_slice(&row.text(alloc, 7)?)?;
    Ok(text)
}
