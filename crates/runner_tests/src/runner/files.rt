//! The two files of a row.
ghost use Rattle.std.specs.Prelude.{◌≡◌, IfOk, OnErr, OnOk};
ghost use Rattle.table_rows.specs.Rows.{written};
ghost use Rattle.runner_tests.specs.Runner.Files.{long_store, of_length, store_at, with_file};

use port_io::{MemStore, NoMemory};
use std::alloc::{AllocError, Global};
use table_rows::{Row, text_of};

/// Adds the file of that name whose text a part is, unless that is `-`. After an Err the store is as it was. Only want of memory is an
/// error, here and below.
fn add_file(alloc: Global, store: &mut MemStore, name: &str, part: &[u8]) -> Result<(), NoMemory>
    ensures ok { OnOk result (store.new ≡ with_file name.now part.now store.old) }
    ensures err { OnErr result (store.new ≡ store.old) }
{
    if part == b"-".as_slice() {
        return Ok(());
    }
    store.add(name, &text_of(alloc, part)?)
}

/// A store with the design and the tests of a row, each where there is one, of which that read fails which the row names.
pub fn store_of(alloc: Global, row: &Row<'_>) -> Result<MemStore, NoMemory>
    ensures { IfOk result (λ store. store ≡ store_at row.now) }
{
    let mut store = MemStore::new(alloc);
    add_file(alloc, &mut store, "d.v", row.part(3))?;
    add_file(alloc, &mut store, "t.py", row.part(4))?;
    store.fail_at(row.number(5))?;
    Ok(store)
}

/// So many bytes of a part's text, which is cut, or filled up with spaces.
fn of_length(alloc: Global, length: u64, part: &[u8]) -> Result<Vec<u8>, AllocError>
    ensures { IfOk result (λ text. text.items ≡ of_length length (written part.now)) }
{
    let mut text = text_of(alloc, part)?;
    text.resize(length as usize, b' ')?;
    Ok(text)
}

/// A store with the design and the tests of a row, each of as many bytes as the row says.
pub fn long_store(alloc: Global, row: &Row<'_>) -> Result<MemStore, NoMemory>
    ensures { IfOk result (λ store. store ≡ long_store row.now) }
{
    let mut store = MemStore::new(alloc);
    store.add("d.v", &of_length(alloc, row.number(2), row.part(3))?)?;
    store.add("t.py", &of_length(alloc, row.number(5), row.part(4))?)?;
    Ok(store)
}
