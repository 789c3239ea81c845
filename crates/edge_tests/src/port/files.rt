//! Reads of stores: in memory, of the current folder, and of a folder that is read piece by piece.
ghost use Rattle.std.specs.Prelude.{◌≡◌, ◌≢◌, ◌<◌, ◌≤◌, ◌++◌, length, option_map, string_bytes, fold, codes, IfOk, IfSome, OnOk, Some};
ghost use Rattle.std.specs.List.{list_all};
ghost use Rattle.table_rows.specs.Rows.{decimal as number, part_at};
ghost use Rattle.table_rows.specs.Shown.{latin};
ghost use Rattle.edge_tests.specs.Port.Calls.{told};
ghost use Rattle.edge_tests.specs.Port.Files.{
  Reads,
  ShowsCurrent,
  ShowsFolder,
  after_read,
  bytes_text,
  counted_text,
  is_x,
  read_at,
  read_text,
  store_text,
  two_files,
  which_text,
};

use port_io::{DirStore, Folder, MemStore, NoMemory, Store, StoreFault};
use std::alloc::Global;
use std::io::{self, ErrorKind, Read};
use std::rt::Files;
use table_rows::{Row, push_bytes, quoted};

/// A read as code over any store makes it: the bytes, none where it failed. Only want of memory is an error, here and below.
fn read<S: Store>(
    alloc: Global,
    store: &mut S,
    name: &str,
    most: usize,
) -> Result<Option<Vec<u8>>, NoMemory>
    ensures reads { IfOk result (λ bytes. Reads S.gives S.misses store.old name.now most (option_map (λ b. b.items) bytes) store.new) }
    ensures bound { IfOk result (λ bytes. IfSome bytes (λ b. length b.items ≤ most)) }
{
    match store.read_file(alloc, name, most) {
        Ok(bytes) => Ok(Some(bytes)),
        Err(StoreFault::Failed) => Ok(None),
        Err(StoreFault::OutOfMemory) => Err(NoMemory),
    }
}

/// The bytes of a read, or that it failed.
fn bytes_text(alloc: Global, bytes: Option<Vec<u8>>) -> Result<String, NoMemory>
    ensures { IfOk result (λ text. string_bytes text ≡ bytes_text (option_map (λ b. b.items) bytes)) }
{
    match bytes {
        Some(bytes) => Ok(quoted(alloc, &bytes)?),
        None => Ok(String::from_str(alloc, "Failed")?),
    }
}

/// The name that is part `i` of a row.
fn name_of(alloc: Global, row: &Row<'_>, i: usize) -> Result<String, NoMemory>
    ensures { IfOk result (λ name. string_bytes name ≡ latin (part_at i row.now)) }
{
    let mut name = String::new(alloc);
    push_bytes(&mut name, row.part(i))?;
    Ok(name)
}

/// A store of two files, of which one was added twice, whose second and seventh read fail.
fn two_files(alloc: Global) -> Result<MemStore, NoMemory>
    ensures { IfOk result (λ store. store ≡ two_files) }
{
    let mut store = MemStore::new(alloc);
    store.add("d.v", b"module")?;
    store.add("t.py", b"old")?;
    store.add("t.py", b"import")?;
    store.fail_at(2)?;
    store.fail_at(7)?;
    Ok(store)
}

/// What a read of so many bytes of a file gives.
fn one_read(
    alloc: Global,
    store: &mut MemStore,
    name: &str,
    most: usize,
) -> Result<String, NoMemory>
    ensures text { IfOk result (λ text. string_bytes text ++ codes " " ≡ read_text store.old (record { name = name.now; most = most })) }
    ensures store { OnOk result (store.new ≡ after_read store.old (record { name = name.now; most = most })) }
{
    let bytes = read(alloc, store, name, most)?;
    bytes_text(alloc, bytes)
}

/// Makes the read of a pair of parts of a row, so many pairs behind the rule, unless its name is empty, and adds what it gives.
fn push_read(
    alloc: Global,
    row: &Row<'_>,
    n: usize,
    store: &mut MemStore,
    out: &mut String,
) -> Result<(), NoMemory>
    requires { n < 99 }
    ensures store { OnOk result (store.new ≡ fold after_read store.old (read_at row.now n)) }
    ensures out { OnOk result (string_bytes out.new ≡ string_bytes out.old ++ told read_text after_read store.old (read_at row.now n)) }
{
    if row.part(2 * n + 2).is_empty() {
        return Ok(());
    }
    let name = name_of(alloc, row, 2 * n + 2)?;
    let shown = one_read(alloc, store, &name, row.number(2 * n + 3) as usize)?;
    out.push_str(&shown)?;
    out.push(' ')?;
    Ok(())
}

/// The reads of a row, one after the other, of one store, each by what it gives: the bytes, or `Failed`.
pub fn store_text(alloc: Global, row: &Row<'_>) -> Result<String, NoMemory>
    ensures { IfOk result (λ text. string_bytes text ≡ store_text row.now) }
{
    let mut store = two_files(alloc)?;
    let mut out = String::new(alloc);
    for n in 0..99usize {
        push_read(alloc, row, n, &mut store, &mut out)?;
    }
    Ok(out)
}

/// Whether each byte is an `x`.
fn are_x(bytes: &[u8]) -> bool
    ensures { result ≡ list_all is_x bytes.now }
{
    bytes.iter().all(|byte| *byte == b'x')
}

/// The same in words.
fn which_text(bytes: &[u8]) -> &'static str
    ensures { result.now ≡ which_text bytes.now }
{
    if are_x(bytes) { "x" } else { "other bytes" }
}

/// How many bytes there are, and whether each is an `x`.
fn count_text(alloc: Global, bytes: Option<Vec<u8>>) -> Result<String, NoMemory>
    ensures { IfOk result (λ text. string_bytes text ≡ counted_text (option_map (λ b. b.items) bytes)) }
{
    match bytes {
        Some(bytes) => {
            let count = bytes.len();
            let which = which_text(&bytes);
            Ok(format!(in alloc; "{count} {which}")?)
        }
        None => Ok(String::from_str(alloc, "Failed")?),
    }
}

/// How many bytes a read of the current folder gives, no more than are asked for, and whether each is an `x`; or `Failed`. No contract
/// can say what stands in the folder.
pub fn current_text<R: Files>(rt: &R, alloc: Global, row: &Row<'_>) -> Result<String, NoMemory>
    ensures { IfOk result (λ text. ShowsCurrent (number (part_at 3 row.now)) (string_bytes text)) }
{
    let name = name_of(alloc, row, 2)?;
    let mut store = DirStore::new(rt);
    let bytes = read(alloc, &mut store, &name, row.number(3) as usize)?;
    count_text(alloc, bytes)
}

/// Gives a text so many bytes at a time, one at least, and fails at the read of that number, from 1.
#[derive(Drop)]
struct Piecewise {
    text: &'static [u8],
    step: usize,
    failing: usize,
    reads: usize,
}

impl Read for Piecewise {
    ghost remaining = { λ reader. Some reader.text.now };

    fn read(&mut self, buffer: &mut [u8]) -> io::Result<usize> {
        self.reads = self.reads.saturating_add(1);
        if self.reads == self.failing {
            return Err(io::Error::from(ErrorKind::Interrupted));
        }
        let count = self.step.max(1).min(buffer.len()).min(self.text.len());
        let (front, rest) = self.text.split_at(count);
        buffer[..count].copy_from_slice(front);
        self.text = rest;
        Ok(count)
    }
}

/// A folder with one file, `t.py`, whose text is read so.
#[derive(Drop)]
struct OneFile {
    text: &'static [u8],
    step: usize,
    failing: usize,
}

impl Folder for OneFile {
    type File = Piecewise;

    ghost opens = { λ folder name file. (name ≡ codes "t.py") × (file.text.now ≡ folder.text.now) };

    ghost lacks = { λ _ name. name ≢ codes "t.py" };

    fn open_named(&self, name: &str) -> Option<Piecewise> {
        if name != "t.py" {
            return None;
        }
        Some(Piecewise {
            text: self.text,
            step: self.step,
            failing: self.failing,
            reads: 0,
        })
    }
}

/// A read of a folder whose one file, `t.py`, has the text `import`: its first bytes, or `Failed`.
pub fn folder_text(alloc: Global, row: &Row<'_>) -> Result<String, NoMemory>
    ensures { IfOk result (λ text. ShowsFolder (latin (part_at 2 row.now)) (number (part_at 5 row.now)) (string_bytes text)) }
{
    let name = name_of(alloc, row, 2)?;
    let mut store = DirStore::over(OneFile {
        text: b"import",
        step: row.number(3) as usize,
        failing: row.number(4) as usize,
    });
    let bytes = read(alloc, &mut store, &name, row.number(5) as usize)?;
    bytes_text(alloc, bytes)
}
