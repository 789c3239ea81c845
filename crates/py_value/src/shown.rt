//! The texts of values.
ghost use Rattle.std.specs.Prelude.{◌≡◌, IfOk};
ghost use Rattle.std.specs.Fmt.{signed_decimal};
ghost use Rattle.four_value.specs.Vector.{digit_letters};
ghost use Rattle.py_value.specs.Shown.{shown, numbered, IsOf};

use crate::{Paths, Value};
use four_value::Bits;
use port_io::{Name, NoMemory};
use std::alloc::Global;

/// A whole number in decimal digits, with a `-` in front where it is negative.
fn number_text(alloc: Global, n: i128) -> Result<Name, NoMemory>
    ensures { IfOk result (λ name. name ≡ signed_decimal n) }
{
    let text = n.to_string(alloc)?;
    Name::of(alloc, text.as_bytes())
}

/// The digits of a vector as `0`, `1`, `x` and `z`, the highest first, as cocotb 1.8's `BinaryValue.binstr` has them. Only want of memory
/// is an error.
pub fn digits_name(alloc: Global, bits: Bits) -> Result<Name, NoMemory>
    ensures { IfOk result (λ name. name ≡ digit_letters bits) }
{
    let text = bits.text();
    let count = bits.width() as usize;
    Name::of(alloc, &text[..count])
}

/// A kind of thing and its number, and `>`.
fn numbered_text(alloc: Global, kind: &[u8], n: u32) -> Result<Name, NoMemory>
    ensures { IfOk result (λ name. name ≡ numbered kind.now n) }
{
    let number = n.to_string(alloc)?;
    let mut text = Vec::new(alloc);
    text.extend_from_slice(kind)?;
    text.extend_from_slice(number.as_bytes())?;
    text.push(b'>')?;
    Name::of(alloc, &text)
}

/// The text as which a value is shown, by `str` (the library reference, "Built-in Functions") and in an f-string: `None`, `True`,
/// `False`, a decimal number, the text itself, a vector's digits with the highest first, a signal's or hierarchy's path, a caught fault's
/// text, `<task 0>`, `<event 0>` and `<lock 0>` with its number, `<clock>`, `<trigger>`, `<memory>`. Only want of memory is an error.
pub fn show<P: Paths>(alloc: Global, v: &Value, paths: &P) -> Result<Name, NoMemory>
    requires { IsOf (P.places paths.now) v.now }
    ensures { IfOk result (λ name. name ≡ shown (P.places paths.now) v.now) }
{
    match v {
        Value::Absent => Name::of(alloc, b"None"),
        Value::Truth(true) => Name::of(alloc, b"True"),
        Value::Truth(false) => Name::of(alloc, b"False"),
        Value::Whole(n) => number_text(alloc, *n),
        Value::Text(text) => Name::of(alloc, text.bytes()),
        Value::Vector(bits) => digits_name(alloc, *bits),
        Value::Place(node) => Name::of(alloc, paths.node_path(*node)),
        Value::Words { .. } => Name::of(alloc, b"<memory>"),
        Value::Signal(sig) => Name::of(alloc, paths.path(*sig)),
        Value::Trigger(_) => Name::of(alloc, b"<trigger>"),
        Value::Task(task) => numbered_text(alloc, b"<task ", task.0),
        Value::Event(event) => numbered_text(alloc, b"<event ", event.0),
        Value::Lock(lock) => numbered_text(alloc, b"<lock ", lock.0),
        Value::Queue(queue) => numbered_text(alloc, b"<queue ", queue.0),
        Value::Clock { .. } => Name::of(alloc, b"<clock>"),
        Value::Caught(fault) => Name::of(alloc, fault.text.bytes()),
    }
}
