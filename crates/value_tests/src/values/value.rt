//! Values of rows.
//!
//! `None`, `True` and `False` are themselves, and a decimal number is itself. `'` stands before a text, `"` before the length of a
//! text of letters a, `#` before a vector's digits with the highest first. Others are a word and numbers with `,` between:
//! `hierarchy`, `signal`, `task`, `event`, `lock`, `queue`, `memory` (first signal, least index, count), `clock` (signal, half), `caught`
//! (kind, text); all else is a trigger (`src/triggers.rt`), or None.

use crate::values::row::{short_of, whole_of};
use crate::values::triggers::trigger_of;
use four_value::{Bits, Digit};
use gpi::SigId;
use port_io::{Name, NoMemory};
use py_syntax::FaultKind;
use py_value::{EventNo, Fault, LockNo, QueueNo, TaskNo, Value};
use std::alloc::Global;
use table_rows::cut;

/// The digit of a letter.
fn digit_of(byte: u8) -> Digit {
    match byte {
        b'0' => Digit::Zero,
        b'1' => Digit::One,
        b'x' => Digit::X,
        _ => Digit::Z,
    }
}

/// The vector of at most 128 digits, the highest first.
fn vector_of(digits: &[u8]) -> Value {
    let width = digits.len().clamp(1, 128) as u8;
    let mut bits = Bits::all(width, Digit::Zero);
    for byte in digits {
        let one = Bits::all(1, digit_of(*byte));
        if bits.width() == width && width > 1 {
            bits = bits.slice(0, width - 1).concat(one);
        } else {
            bits = one;
        }
    }
    Value::Vector(bits)
}

/// A text of so many letters a.
fn long_text(alloc: Global, count: i128) -> Result<Value, NoMemory> {
    let mut bytes = Vec::new(alloc);
    for _ in 0..count.clamp(0, 70000) {
        bytes.push(b'a')?;
    }
    Ok(Value::Text(Name::of(alloc, &bytes)?))
}

/// A memory: its first signal, the least index, and how many words it has.
fn memory_of(numbers: &[u8]) -> Value {
    let (first, rest) = cut(numbers, b',');
    let (low, count) = cut(rest, b',');
    Value::Words {
        first: SigId(short_of(first) as u32),
        low: short_of(low) as u32,
        count: short_of(count) as u32,
    }
}

/// A clock: its signal, and half its period.
fn clock_of(numbers: &[u8]) -> Value {
    let (sig, half) = cut(numbers, b',');
    Value::Clock {
        sig: SigId(short_of(sig) as u32),
        half: short_of(half) as u64,
    }
}

/// A caught fault: its kind and its text.
fn caught_of(alloc: Global, parts: &[u8]) -> Result<Value, NoMemory> {
    let (kind, text) = cut(parts, b',');
    let text = Name::of(alloc, text)?;
    Ok(match FaultKind::of(kind) {
        Some(kind) => Value::Caught(Fault { kind, text }),
        None => Value::Absent,
    })
}

/// A value that is a word and its numbers.
fn named(alloc: Global, part: &[u8]) -> Result<Value, NoMemory> {
    let (word, rest) = cut(part, b' ');
    let number = short_of(rest) as u32;
    Ok(match word {
        b"hierarchy" => Value::Place(number),
        b"signal" => Value::Signal(SigId(number)),
        b"task" => Value::Task(TaskNo(number)),
        b"event" => Value::Event(EventNo(number)),
        b"lock" => Value::Lock(LockNo(number)),
        b"queue" => Value::Queue(QueueNo(number)),
        b"memory" => memory_of(rest),
        b"clock" => clock_of(rest),
        b"caught" => return caught_of(alloc, rest),
        _ => match trigger_of(alloc, word, rest)? {
            Some(trig) => Value::Trigger(trig),
            None => Value::Absent,
        },
    })
}

/// The value that a part of a row says.
pub fn value_of(alloc: Global, part: &[u8]) -> Result<Value, NoMemory> {
    match part {
        b"None" => Ok(Value::Absent),
        b"True" => Ok(Value::Truth(true)),
        b"False" => Ok(Value::Truth(false)),
        [b'\'', text @ ..] => Ok(Value::Text(Name::of(alloc, text)?)),
        [b'"', count @ ..] => long_text(alloc, whole_of(count)),
        [b'#', digits @ ..] => Ok(vector_of(digits)),
        [b'-' | b'0'..=b'9', ..] => Ok(Value::Whole(whole_of(part))),
        _ => named(alloc, part),
    }
}
