//! What is answered for a row.

ghost use Rattle.std.specs.Prelude.{◌≡◌, IfOk, OnErr, OnOk};
ghost use Rattle.edge_tests.specs.Kernel.Calls.{IsBook, call_of};
ghost use Rattle.edge_tests.specs.Kernel.Designs.{IsOpening};
ghost use Rattle.edge_tests.specs.Kernel.Shown.{IsUntaken, LeavesCall, LeavesDesign, LeavesRow, RowGives, ShowsCall, ShowsDesign, ShowsRow};
ghost use Rattle.edge_tests.specs.declared.kernel.designs.Design.TheVariants as design;

use crate::kernel::booked::{Book, asked, take_design};
use crate::kernel::calls::{Call, call_of};
use crate::kernel::designs::Design;
use crate::kernel::shown::{answer_text, standing_behind};
use gpi::Gpi;
use port_io::NoMemory;
use std::alloc::Global;
use table_rows::Row;

/// What is shown of a design that the simulator takes. Only want of memory is an error, here and below.
fn design_text<K: Gpi>(
    alloc: Global,
    design: Design,
    kernel: &mut K,
    book: &mut Book,
) -> Result<Vec<u8>, NoMemory>
    requires book { IsBook book.old (K.content kernel.old) }
    ensures loaded { OnOk result (K.is_loaded kernel.new) }
    ensures book { IsBook book.new (K.content kernel.new) }
    ensures shows { IfOk result (λ shown. ShowsDesign design shown.items (K.content kernel.new)) }
    ensures leaves { OnErr result (LeavesDesign design (K.content kernel.old) (K.content kernel.new)) }
{
    let flat = design.flat(alloc)?;
    take_design(alloc, &flat, kernel, book)?;
    let shown = standing_behind(alloc, b"loaded", kernel)?;
    Ok(shown)
}

/// What is shown of a call that is made where it is allowed.
fn call_text<K: Gpi>(
    alloc: Global,
    call: Call,
    kernel: &mut K,
    book: &mut Book,
) -> Result<Vec<u8>, NoMemory>
    requires loaded { K.is_loaded kernel.old }
    requires book { IsBook book.old (K.content kernel.old) }
    ensures loaded { K.is_loaded kernel.new }
    ensures book { IsBook book.new (K.content kernel.new) }
    ensures shows { IfOk result (λ shown. ShowsCall (K.content kernel.old) (Some call) shown.items (K.content kernel.new)) }
    ensures leaves { OnErr result (LeavesCall (K.content kernel.old) (Some call) (K.content kernel.new)) }
{
    let answer = asked(kernel, book, call)?;
    let answered = answer_text(alloc, answer)?;
    let shown = standing_behind(alloc, &answered, kernel)?;
    Ok(shown)
}

/// What is shown of a row that names no design.
fn asked_text<K: Gpi>(
    alloc: Global,
    row: &Row<'_>,
    kernel: &mut K,
    book: &mut Book,
) -> Result<Vec<u8>, NoMemory>
    requires loaded { K.is_loaded kernel.old }
    requires book { IsBook book.old (K.content kernel.old) }
    ensures loaded { K.is_loaded kernel.new }
    ensures book { IsBook book.new (K.content kernel.new) }
    ensures shows { IfOk result (λ shown. ShowsCall (K.content kernel.old) (call_of row.now) shown.items (K.content kernel.new)) }
    ensures leaves { OnErr result (LeavesCall (K.content kernel.old) (call_of row.now) (K.content kernel.new)) }
{
    match call_of(row) {
        Some(call) => call_text(alloc, call, kernel, book),
        None => Ok(standing_behind(alloc, b"no call", kernel)?),
    }
}

/// What is shown of a row.
fn row_text<K: Gpi>(
    alloc: Global,
    row: &Row<'_>,
    kernel: &mut K,
    book: &mut Book,
) -> Result<Vec<u8>, NoMemory>
    requires loaded { K.is_loaded kernel.old }
    requires book { IsBook book.old (K.content kernel.old) }
    ensures loaded { OnOk result (K.is_loaded kernel.new) }
    ensures book { IsBook book.new (K.content kernel.new) }
    ensures shows { IfOk result (λ shown. ShowsRow (K.content kernel.old) row.now shown.items (K.content kernel.new)) }
    ensures leaves { OnErr result (LeavesRow (K.content kernel.old) row.now (K.content kernel.new)) }
{
    match Design::named(row.part(0)) {
        Some(design) => design_text(alloc, design, kernel, book),
        None => asked_text(alloc, row, kernel, book),
    }
}

/// The rule of a row, and behind `: ` what is shown of it.
pub fn answer<K: Gpi>(
    alloc: Global,
    line: &[u8],
    kernel: &mut K,
    book: &mut Book,
) -> Result<Vec<u8>, NoMemory>
    requires loaded { K.is_loaded kernel.old }
    requires book { IsBook book.old (K.content kernel.old) }
    ensures loaded { OnOk result (K.is_loaded kernel.new) }
    ensures book { IsBook book.new (K.content kernel.new) }
    ensures gives { IfOk result (λ text. RowGives (K.content kernel.old) line.now text.items (K.content kernel.new)) }
    ensures leaves { OnErr result (LeavesRow (K.content kernel.old) line.now (K.content kernel.new)) }
{
    let row = Row::of(line);
    let mut text = row.part(1).to_vec(alloc)?;
    text.extend_from_slice(b": ")?;
    let shown = row_text(alloc, &row, kernel, book)?;
    text.extend_from_slice(&shown)?;
    Ok(text)
}

/// The simulator in the opening state of the oscillator, and its book.
pub fn begun<K: Gpi>(alloc: Global, kernel: &mut K) -> Result<Book, NoMemory>
    ensures loaded { OnOk result (K.is_loaded kernel.new) }
    ensures book { IfOk result (λ book. IsBook book (K.content kernel.new)) }
    ensures opens { OnOk result (IsOpening design.Oscillator (K.content kernel.new)) }
    ensures untaken { OnErr result (IsUntaken (K.content kernel.old) (K.content kernel.new)) }
{
    let flat = Design::Oscillator.flat(alloc)?;
    let mut book = Book::new(alloc);
    take_design(alloc, &flat, kernel, &mut book)?;
    Ok(book)
}
