//! Lines that are put, and the small types of the runner's edge.
ghost use Rattle.std.specs.Prelude.{◌≡◌, ◌<◌, ◌++◌, codes, fold, map, string_bytes, IfOk, OnOk};
ghost use Rattle.std.specs.List.{flat_map, slice_split};
ghost use Rattle.table_rows.specs.Rows.{decimal as number, is_byte};
ghost use Rattle.edge_tests.specs.Port.Calls.{told};
ghost use Rattle.edge_tests.specs.Port.Lines.{
  PutsAs,
  ShowsPut,
  after_put,
  line_at,
  name_text,
  number_text,
  numbers_text,
  place_text,
  position_text,
  put_word,
  sink_text,
  sequence_text,
  third_fails,
  word_of,
};

use port_io::{MemSink, Name, NoMemory, Sequence, Sink, SinkFault, WriteSink, line_of};
use std::alloc::{AllocError, Global};
use std::io::{self, ErrorKind, Write};
use table_rows::{Row, number_of, quoted};

/// A put as code over any sink makes it, and whether it was taken. Only want of memory is an error, here and below.
fn put<O: Sink>(alloc: Global, sink: &mut O, line: &[u8]) -> Result<bool, NoMemory>
    ensures { IfOk result (λ taken. PutsAs O.takes O.breaks sink.old line.now taken sink.new) }
{
    match sink.put(alloc, line) {
        Ok(()) => Ok(true),
        Err(SinkFault::Failed) => Ok(false),
        Err(SinkFault::OutOfMemory) => Err(NoMemory),
    }
}

/// Whether a put was taken, in words.
fn word_of(taken: bool) -> &'static str
    ensures { result.now ≡ word_of taken }
{
    if taken { "taken " } else { "Failed " }
}

/// What a put into a sink in memory tells.
fn one_put(alloc: Global, sink: &mut MemSink, line: &[u8]) -> Result<&'static str, NoMemory>
    ensures word { IfOk result (λ word. word.now ≡ put_word sink.old line.now) }
    ensures sink { OnOk result (sink.new ≡ after_put sink.old line.now) }
{
    let taken = put(alloc, sink, line)?;
    Ok(word_of(taken))
}

/// Puts the text of the part so many parts behind the rule, unless it is empty, and adds what is told.
fn push_put(
    alloc: Global,
    row: &Row<'_>,
    n: usize,
    sink: &mut MemSink,
    out: &mut String,
) -> Result<(), NoMemory>
    requires { n < 98 }
    ensures sink { OnOk result (sink.new ≡ fold after_put sink.old (line_at row.now n)) }
    ensures out { OnOk result (string_bytes out.new ≡ string_bytes out.old ++ told put_word after_put sink.old (line_at row.now n)) }
{
    if row.part(n + 2).is_empty() {
        return Ok(());
    }
    let line = row.text(alloc, n + 2)?;
    out.push_str(one_put(alloc, sink, &line)?)?;
    Ok(())
}

/// A sink in memory whose third put fails.
fn third_fails(alloc: Global) -> Result<MemSink, NoMemory>
    ensures { IfOk result (λ sink. sink ≡ third_fails) }
{
    let mut sink = MemSink::new(alloc);
    sink.fail_at(3)?;
    Ok(sink)
}

/// The puts of a row, one after the other, into one sink whose third put fails, and the bytes that it took.
pub fn sink_text(alloc: Global, row: &Row<'_>) -> Result<String, NoMemory>
    ensures { IfOk result (λ text. string_bytes text ≡ sink_text row.now) }
{
    let mut sink = third_fails(alloc)?;
    let mut out = String::new(alloc);
    for n in 0..98usize {
        push_put(alloc, row, n, &mut sink, &mut out)?;
    }
    let bytes = quoted(alloc, sink.bytes())?;
    out.push_str(&bytes)?;
    Ok(out)
}

/// Takes one byte of each write while it has room, and then nothing, or is interrupted.
#[derive(Drop)]
struct Narrow<'a> {
    taken: &'a mut Vec<u8>,
    room: u64,
    interrupted: bool,
}

impl<'a> Write for Narrow<'a> {
    fn write(&mut self, bytes: &[u8]) -> io::Result<usize> {
        if self.room > 0 {
            self.room -= 1;
            if let Some(byte) = bytes.first() {
                self.taken.push(*byte)?;
                return Ok(1);
            }
        }
        if self.interrupted {
            return Err(io::Error::from(ErrorKind::Interrupted));
        }
        Ok(0)
    }

    fn flush(&mut self) -> io::Result<()> {
        Ok(())
    }
}

/// A put into a narrow writer: whether it was taken, and the bytes that were. Which those are only the rows show, since no clause of
/// `WriteSink` ties the writer that it holds to the bytes behind it.
pub fn writer_text(alloc: Global, row: &Row<'_>) -> Result<String, NoMemory>
    ensures { IfOk result (λ text. ShowsPut (string_bytes text)) }
{
    let line = row.text(alloc, 2)?;
    let mut taken = Vec::new(alloc);
    let mut sink = WriteSink::new(Narrow {
        taken: &mut taken,
        room: row.number(3),
        interrupted: row.part(4) == b"yes".as_slice(),
    });
    let word = word_of(put(alloc, &mut sink, &line)?);
    let bytes = quoted(alloc, &taken)?;
    Ok(format!(in alloc; "{word}{bytes}")?)
}

/// The bytes of a name.
pub fn name_text(alloc: Global, row: &Row<'_>) -> Result<String, NoMemory>
    ensures { IfOk result (λ text. string_bytes text ≡ name_text row.now) }
{
    let bytes = row.part(2);
    let name = if bytes.is_empty() {
        Name::empty()
    } else {
        Name::of(alloc, bytes)?
    };
    Ok(quoted(alloc, name.bytes())?)
}

/// What stands between the spaces of a text. Only want of memory is an error.
pub fn words(alloc: Global, text: &[u8]) -> Result<Vec<&[u8]>, AllocError>
    ensures { IfOk result (λ words. map (λ word. word.now) words.items ≡ slice_split (is_byte 32) text.now) }
{
    text.split(|byte| *byte == b' ').collect(alloc)
}

/// The numbers that words say.
fn numbers(alloc: Global, words: &[&[u8]]) -> Result<Sequence<u64>, NoMemory>
    ensures { IfOk result (λ numbers. numbers ≡ map (λ word. number word.now) words.now) }
{
    let mut numbers = Sequence::new(alloc);
    for word in words {
        numbers.push(number_of(word))?;
    }
    Ok(numbers)
}

/// A number behind a space.
fn number_text(alloc: Global, number: u64) -> Result<String, NoMemory>
    ensures { IfOk result (λ text. string_bytes text ≡ number_text number) }
{
    Ok(format!(in alloc; " {number}")?)
}

/// How many numbers there are, and which.
fn numbers_text(alloc: Global, numbers: &Sequence<u64>) -> Result<String, NoMemory>
    ensures { IfOk result (λ text. string_bytes text ≡ numbers_text numbers.now) }
{
    let count = numbers.len();
    let mut out = format!(in alloc; "{count}:")?;
    for at in 0..numbers.len() {
        out.push_str(&number_text(alloc, *numbers.get(at))?)?;
    }
    Ok(out)
}

/// How many numbers stand between the spaces of a row's text, and which.
pub fn sequence_text(alloc: Global, row: &Row<'_>) -> Result<String, NoMemory>
    ensures { IfOk result (λ text. string_bytes text ≡ sequence_text row.now) }
{
    let words = words(alloc, row.part(2))?;
    let numbers = numbers(alloc, &words)?;
    numbers_text(alloc, &numbers)
}

/// The greatest place that is asked for.
const LAST_PLACE: usize = 1_048_576;

/// The line and the column of a place in a text; `outside` behind the text or the last place.
fn position_text(alloc: Global, text: &[u8], place: usize) -> Result<String, NoMemory>
    ensures { IfOk result (λ shown. string_bytes shown ≡ position_text text.now place) }
{
    if place > text.len() || place > LAST_PLACE {
        return Ok(String::from_str(alloc, "outside")?);
    }
    let pos = line_of(text, place);
    Ok(format!(in alloc; "line {}, column {}", pos.line, pos.column)?)
}

/// The line and the column of a place in a row's text; `outside` behind the text or the last place.
pub fn place_text(alloc: Global, row: &Row<'_>) -> Result<String, NoMemory>
    ensures { IfOk result (λ text. string_bytes text ≡ place_text row.now) }
{
    let text = row.text(alloc, 3)?;
    position_text(alloc, &text, row.number(2) as usize)
}
