//! Copies of values.
ghost use Rattle.std.specs.Prelude.{◌≡◌, IfOk, OnErr, IsTrue};
ghost use Rattle.py_value.specs.Memory.{copy_takes_memory, holds_triggers};
ghost use Rattle.py_value.specs.Trigger.{form_of};
ghost use Rattle.py_value.specs.TriggerView.{view_form};

use crate::{Fault, Form, Trig, Trigs, Value};
use port_io::{Name, NoMemory};
use std::alloc::Global;

/// An equal value; of a trigger one of the same number, however deep it is. Only want of memory is an error, and only of a text, of a caught
/// fault, whose text it is, and of a trigger that holds others.
pub fn copy(alloc: Global, v: &Value) -> Result<Value, NoMemory>
    ensures is { IfOk result (λ copied. copied ≡ v.now) }
    ensures want { OnErr result (IsTrue (copy_takes_memory v.now)) }
{
    match v {
        Value::Absent => Ok(Value::Absent),
        Value::Truth(b) => Ok(Value::Truth(*b)),
        Value::Whole(n) => Ok(Value::Whole(*n)),
        Value::Text(text) => copy_text(alloc, text),
        Value::Vector(bits) => Ok(Value::Vector(*bits)),
        Value::Place(node) => Ok(Value::Place(*node)),
        Value::Words { first, low, count } => Ok(Value::Words {
            first: *first,
            low: *low,
            count: *count,
        }),
        Value::Signal(sig) => Ok(Value::Signal(*sig)),
        Value::Trigger(trig) => copy_trigger(alloc, trig),
        Value::Task(task) => Ok(Value::Task(*task)),
        Value::Event(event) => Ok(Value::Event(*event)),
        Value::Lock(lock) => Ok(Value::Lock(*lock)),
        Value::Queue(queue) => Ok(Value::Queue(*queue)),
        Value::Clock { sig, half } => Ok(Value::Clock {
            sig: *sig,
            half: *half,
        }),
        Value::Caught(fault) => copy_caught(alloc, fault),
    }
}

/// A copy of a text.
fn copy_text(alloc: Global, text: &Name) -> Result<Value, NoMemory>
    ensures { IfOk result (λ copied. copied ≡ Value.Text text.now) }
{
    Ok(Value::Text(Name::of(alloc, text.bytes())?))
}

/// A copy of a caught fault.
fn copy_caught(alloc: Global, fault: &Fault) -> Result<Value, NoMemory>
    ensures { IfOk result (λ copied. copied ≡ Value.Caught fault.now) }
{
    Ok(Value::Caught(Fault {
        kind: fault.kind,
        text: Name::of(alloc, fault.text.bytes())?,
    }))
}

/// A copy of a trigger, as a value.
fn copy_trigger(alloc: Global, trig: &Trig) -> Result<Value, NoMemory>
    ensures is { IfOk result (λ copied. copied ≡ Value.Trigger trig.now) }
    ensures want { OnErr result (IsTrue (holds_triggers (form_of trig.now))) }
{
    Ok(Value::Trigger(trig.copy(alloc)?))
}

impl Trig {
    /// An equal trigger, of the same number. It goes as deep as triggers stand inside one another. Only want of memory is an error, and only
    /// of a trigger that holds others.
    #[cycle(copying)]
    pub fn copy(&self, alloc: Global) -> Result<Trig, NoMemory>
        ensures is { IfOk result (λ copied. copied ≡ self.now) }
        ensures want { OnErr result (IsTrue (holds_triggers (form_of self.now))) }
    {
        Ok(Trig {
            id: self.id,
            form: copy_form(alloc, &self.form)?,
        })
    }
}

/// A copy of what a trigger waits for.
#[cycle(copying)]
fn copy_form(alloc: Global, form: &Form) -> Result<Form, NoMemory>
    ensures is { IfOk result (λ copied. view_form copied ≡ view_form form.now) }
    ensures want { OnErr result (IsTrue (holds_triggers (view_form form.now))) }
{
    match form {
        Form::Time(steps) => Ok(Form::Time(*steps)),
        Form::Rise(sig) => Ok(Form::Rise(*sig)),
        Form::Fall(sig) => Ok(Form::Fall(*sig)),
        Form::Change(sig) => Ok(Form::Change(*sig)),
        Form::ReadWrite => Ok(Form::ReadWrite),
        Form::ReadOnly => Ok(Form::ReadOnly),
        Form::NextStep => Ok(Form::NextStep),
        Form::Cycles { sig, count, rising } => Ok(Form::Cycles {
            sig: *sig,
            count: *count,
            rising: *rising,
        }),
        Form::Event(event) => Ok(Form::Event(*event)),
        Form::Lock(lock) => Ok(Form::Lock(*lock)),
        Form::Join(task) => Ok(Form::Join(*task)),
        Form::First(parts) => Ok(Form::First(copy_all(alloc, parts)?)),
        Form::Combine(parts) => Ok(Form::Combine(copy_all(alloc, parts)?)),
        Form::Limit { inner, steps } => Ok(Form::Limit {
            inner: copy_all(alloc, inner)?,
            steps: *steps,
        }),
    }
}

/// Copies of triggers, in the same order.
#[cycle(copying)]
fn copy_all(alloc: Global, trigs: &Trigs) -> Result<Trigs, NoMemory>
    ensures { IfOk result (λ copied. copied.list.items ≡ trigs.now.list.items) }
{
    let mut copied = Trigs::new(alloc);
    for trig in &trigs.list {
        copied.push(trig.copy(alloc)?)?;
    }
    Ok(copied)
}
