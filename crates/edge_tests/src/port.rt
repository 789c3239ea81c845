//! Rows of the runner's edge.
//!
//! A row is parted by tabs: what is asked, the rule that the row shows, and what is given (`table_rows` tells the escapes in it).
//! Asked is one of:
//!
//! - `store`, `sink`: reads of a store in memory (names and limits), and puts into a sink in memory; `current`, `folder`: a read
//!   of the current folder, and of one whose reader gives so many bytes at a time and fails at that read; `writer`: a put into
//!   a writer with so much room that may be interrupted;
//! - `name`, `sequence`, `place`: the small types.

mod files;
mod lines;

use files::{current_text, folder_text, store_text};
use lines::{name_text, place_text, sequence_text, sink_text, writer_text};
use port_io::NoMemory;
use std::alloc::Global;
use std::rt::Files;
use table_rows::{Row, push_bytes};

/// What a row comes to; where another word is asked, the line and the column of a place.
fn shown<R: Files>(rt: &R, alloc: Global, row: &Row<'_>) -> Result<String, NoMemory> {
    match row.part(0) {
        b"store" => store_text(alloc, row),
        b"sink" => sink_text(alloc, row),
        b"current" => current_text(rt, alloc, row),
        b"folder" => folder_text(alloc, row),
        b"writer" => writer_text(alloc, row),
        b"name" => name_text(alloc, row),
        b"sequence" => sequence_text(alloc, row),
        _ => place_text(alloc, row),
    }
}

/// The answer for a row: its rule, and what it comes to.
pub fn answer<R: Files>(rt: &R, alloc: Global, line: &[u8]) -> Result<String, NoMemory> {
    let row = Row::of(line);
    let mut out = String::new(alloc);
    push_bytes(&mut out, row.part(1))?;
    out.push_str(": ")?;
    let shown = shown(rt, alloc, &row)?;
    out.push_str(&shown)?;
    Ok(out)
}
