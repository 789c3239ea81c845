//! Which values are the same.
ghost use Rattle.std.specs.Prelude.{◌≡◌};
ghost use Rattle.four_value.specs.Vector.{same_digits};
ghost use Rattle.py_value.specs.Operator.Identity.{same_value, same_trigger, same_kind, same_id};

use crate::{Fault, Form, Trig, TrigId, Value};
use four_value::Bits;
use py_syntax::FaultKind;

/// Whether two vectors have the same digits, x and z included.
fn same_digits(a: Bits, b: Bits) -> bool
    ensures { result ≡ same_digits a b }
{
    a.is_same(b)
}

/// Whether both are one kind of fault.
fn same_kind(a: FaultKind, b: FaultKind) -> bool
    ensures { result ≡ same_kind a b }
{
    a.name() == b.name()
}

/// Whether two faults are of one kind and say the same.
fn same_fault(a: &Fault, b: &Fault) -> bool
    ensures { result ≡ same_value (Value.Caught a.now) (Value.Caught b.now) }
{
    same_kind(a.kind, b.kind) && a.text.bytes() == b.text.bytes()
}

/// Whether one evaluation made both triggers.
fn same_id(a: TrigId, b: TrigId) -> bool
    ensures { result ≡ same_id a b }
{
    a.task.0 == b.task.0 && a.number == b.number
}

/// Whether two triggers are the same: edges, phases and joins where kind and object are, others where one evaluation made them.
fn same_trigger(a: &Trig, b: &Trig) -> bool
    ensures { result ≡ same_trigger a.now b.now }
{
    match (&a.form, &b.form) {
        (Form::Rise(s), Form::Rise(t)) => s.0 == t.0,
        (Form::Fall(s), Form::Fall(t)) => s.0 == t.0,
        (Form::Change(s), Form::Change(t)) => s.0 == t.0,
        (Form::ReadWrite, Form::ReadWrite) => true,
        (Form::ReadOnly, Form::ReadOnly) => true,
        (Form::NextStep, Form::NextStep) => true,
        (Form::Join(s), Form::Join(t)) => s.0 == t.0,
        _ => same_id(a.id, b.id),
    }
}

/// `is` (the language reference, 6.10.3): whether two values are the same. Tasks, events, locks, queues, signals, hierarchies and
/// memories are where they are one object; triggers as cocotb tells them apart; other values where kind and value are equal. It takes no memory.
pub fn is_same(a: &Value, b: &Value) -> bool
    ensures { result ≡ same_value a.now b.now }
{
    match (a, b) {
        (Value::Absent, Value::Absent) => true,
        (Value::Truth(a), Value::Truth(b)) => a == b,
        (Value::Whole(a), Value::Whole(b)) => a == b,
        (Value::Text(a), Value::Text(b)) => a.bytes() == b.bytes(),
        (Value::Vector(a), Value::Vector(b)) => same_digits(*a, *b),
        (Value::Place(a), Value::Place(b)) => a == b,
        (
            Value::Words { first, low, count },
            Value::Words {
                first: other_first,
                low: other_low,
                count: other_count,
            },
        ) => first.0 == other_first.0 && low == other_low && count == other_count,
        (Value::Signal(a), Value::Signal(b)) => a.0 == b.0,
        (Value::Trigger(a), Value::Trigger(b)) => same_trigger(a, b),
        (Value::Task(a), Value::Task(b)) => a.0 == b.0,
        (Value::Event(a), Value::Event(b)) => a.0 == b.0,
        (Value::Lock(a), Value::Lock(b)) => a.0 == b.0,
        (Value::Queue(a), Value::Queue(b)) => a.0 == b.0,
        (
            Value::Clock { sig, half },
            Value::Clock {
                sig: other_sig,
                half: other_half,
            },
        ) => sig.0 == other_sig.0 && half == other_half,
        (Value::Caught(a), Value::Caught(b)) => same_fault(a, b),
        _ => false,
    }
}
