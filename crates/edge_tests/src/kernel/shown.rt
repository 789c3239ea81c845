//! How answers are shown. Only want of memory is an error.

ghost use Rattle.std.specs.Prelude.{◌≡◌, ◌++◌, IfOk};
ghost use Rattle.std.specs.Fmt.{decimal};
ghost use Rattle.four_value.specs.Vector.{digit_letters};
ghost use Rattle.edge_tests.specs.Kernel.Shown as meaning;

use crate::kernel::calls::{Answer, Reading};
use four_value::Bits;
use gpi::{Advance, Counts, Fired, Gpi, Key, Moved, Region, Told};
use std::alloc::{AllocError, Global};

/// A word, and a number behind it.
fn number_text(alloc: Global, word: &[u8], number: u64) -> Result<Vec<u8>, AllocError>
    ensures { IfOk result (λ text. text.items ≡ word.now ++ decimal number) }
{
    let mut text = word.to_vec(alloc)?;
    let digits = number.to_string(alloc)?;
    text.extend_from_slice(digits.as_bytes())?;
    Ok(text)
}

/// The digits of a value, the highest first.
fn letters(alloc: Global, bits: Bits) -> Result<Vec<u8>, AllocError>
    ensures { IfOk result (λ text. text.items ≡ digit_letters bits) }
{
    let text = bits.text();
    let width = bits.width() as usize;
    text[..width].to_vec(alloc)
}

/// A key, behind a space.
fn key_text(alloc: Global, key: Key) -> Result<Vec<u8>, AllocError>
    ensures { IfOk result (λ text. text.items ≡ meaning.key_text key) }
{
    match key {
        Key::At(time) => number_text(alloc, b" at ", time),
        Key::Rise(sig) => number_text(alloc, b" rise ", u64::from(sig.0)),
        Key::Fall(sig) => number_text(alloc, b" fall ", u64::from(sig.0)),
        Key::Change(sig) => number_text(alloc, b" change ", u64::from(sig.0)),
        Key::ReadWrite => b" read_write".to_vec(alloc),
        Key::ReadOnly => b" read_only".to_vec(alloc),
        Key::NextStep => b" next_step".to_vec(alloc),
    }
}

/// A key, if there is one.
fn if_key(alloc: Global, key: Option<Key>) -> Result<Vec<u8>, AllocError>
    ensures { IfOk result (λ text. text.items ≡ meaning.if_key key) }
{
    match key {
        Some(key) => key_text(alloc, key),
        None => Ok(Vec::new(alloc)),
    }
}

/// The keys that fired, in order.
fn fired_text(alloc: Global, fired: Fired) -> Result<Vec<u8>, AllocError>
    ensures { IfOk result (λ text. text.items ≡ meaning.fired_text fired) }
{
    let mut text = if_key(alloc, fired.first)?;
    let second = if_key(alloc, fired.second)?;
    text.extend_from_slice(&second)?;
    Ok(text)
}

/// The signal that changed, and its value, if one did.
fn change_text(alloc: Global, change: Option<Told>) -> Result<Vec<u8>, AllocError>
    ensures { IfOk result (λ text. text.items ≡ meaning.change_text change) }
{
    let Some(told) = change else {
        return Ok(Vec::new(alloc));
    };
    let mut text = number_text(alloc, b" ", u64::from(told.sig.0))?;
    text.push(b'=')?;
    let value = letters(alloc, told.bits)?;
    text.extend_from_slice(&value)?;
    Ok(text)
}

/// A word, and the keys that fired behind it.
fn fired_behind(alloc: Global, word: &[u8], fired: Fired) -> Result<Vec<u8>, AllocError>
    ensures { IfOk result (λ text. text.items ≡ word.now ++ meaning.fired_text fired) }
{
    let mut text = word.to_vec(alloc)?;
    let keys = fired_text(alloc, fired)?;
    text.extend_from_slice(&keys)?;
    Ok(text)
}

/// An event: the change that it tells, and the keys that it fired.
fn event_text(alloc: Global, moved: Moved) -> Result<Vec<u8>, AllocError>
    ensures { IfOk result (λ text. text.items ≡ meaning.event_text moved) }
{
    let mut text = b"event".to_vec(alloc)?;
    let change = change_text(alloc, moved.change)?;
    text.extend_from_slice(&change)?;
    fired_behind(alloc, &text, moved.fired)
}

/// What a signal shows, and whether it is forced.
fn value_text(alloc: Global, reading: Reading) -> Result<Vec<u8>, AllocError>
    ensures { IfOk result (λ text. text.items ≡ meaning.value_text reading) }
{
    let mut text = if reading.forced {
        b"forced ".to_vec(alloc)?
    } else {
        b"free ".to_vec(alloc)?
    };
    let value = letters(alloc, reading.bits)?;
    text.extend_from_slice(&value)?;
    Ok(text)
}

/// What a call is answered.
pub fn answer_text(alloc: Global, answer: Answer) -> Result<Vec<u8>, AllocError>
    ensures { IfOk result (λ text. text.items ≡ meaning.answer_text answer) }
{
    match answer {
        Answer::Refused => b"refused".to_vec(alloc),
        Answer::Done => b"done".to_vec(alloc),
        Answer::Fired(fired) => fired_behind(alloc, b"fired", fired),
        Answer::Value(reading) => value_text(alloc, reading),
        Answer::Advanced(Advance::Idle) => b"idle".to_vec(alloc),
        Answer::Advanced(Advance::Moved(moved)) => event_text(alloc, moved),
    }
}

/// The name of a region.
fn region_name(region: Region) -> &'static [u8]
    ensures { result.now ≡ meaning.region_name region }
{
    match region {
        Region::Begin => b"Begin",
        Region::Active => b"Active",
        Region::Settle => b"Settle",
        Region::End => b"End",
    }
}

/// The time in steps, and the region.
fn place_text<K: Gpi>(alloc: Global, kernel: &K) -> Result<Vec<u8>, AllocError>
    ensures { IfOk result (λ text. text.items ≡ meaning.place_text (K.content kernel.now).state) }
{
    let mut text = number_text(alloc, b", ", kernel.now())?;
    text.push(b' ')?;
    text.extend_from_slice(region_name(kernel.region()))?;
    Ok(text)
}

/// How many keys were registered, removed and fired.
fn counts_text(alloc: Global, counts: Counts) -> Result<Vec<u8>, AllocError>
    ensures { IfOk result (λ text. text.items ≡ meaning.counts_text counts) }
{
    let mut text = number_text(alloc, b", ", counts.primed)?;
    let removed = number_text(alloc, b" ", counts.removed)?;
    text.extend_from_slice(&removed)?;
    let fired = number_text(alloc, b" ", counts.fired)?;
    text.extend_from_slice(&fired)?;
    Ok(text)
}

/// A text, and behind it where a simulator stands, and how many keys were registered, removed and fired.
pub fn standing_behind<K: Gpi>(
    alloc: Global,
    front: &[u8],
    kernel: &K,
) -> Result<Vec<u8>, AllocError>
    ensures { IfOk result (λ text. text.items ≡ front.now ++ meaning.standing_text (K.content kernel.now)) }
{
    let mut text = front.to_vec(alloc)?;
    let place = place_text(alloc, kernel)?;
    text.extend_from_slice(&place)?;
    let counts = counts_text(alloc, kernel.counts())?;
    text.extend_from_slice(&counts)?;
    Ok(text)
}
