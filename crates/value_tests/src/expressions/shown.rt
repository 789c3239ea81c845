//! Values as they are printed.
//!
//! `'` stands before a text and `#` before a vector's digits; of a text over 200 bytes it is the length alone. A clock has its signal and
//! half its period behind it. A trigger is what it waits for, with numbers of signals, steps and others, and `@` and its own number behind
//! it; of `First` and `Combine` it is how many they hold, and of a limit its steps.

ghost use Rattle.std.specs.Prelude.{◌≡◌, ◌++◌, codes, IfOk};
ghost use Rattle.py_evaluate.specs.Attribute.Knows.{Knows};
ghost use Rattle.py_value.specs.Shown.{shown};
ghost use Rattle.py_value.specs.TriggerView.{view_form};
ghost use Rattle.value_tests.specs.Expressions.Printed as meaning;
ghost use Rattle.value_tests.specs.Expressions.Scene.{places, seen};

use crate::expressions::scene::Scene;
use port_io::NoMemory;
use py_evaluate::attribute::shown_text;
use py_value::{Form, Trig, Value};
use std::alloc::Global;

/// How many bytes of a text are printed at most.
const PRINTED_LIMIT: usize = 200;

/// A text behind another. Only want of memory is an error.
fn joined(mut front: Vec<u8>, back: &[u8]) -> Result<Vec<u8>, NoMemory>
    ensures { IfOk result (λ text. text.items ≡ front.items ++ back.now) }
{
    front.extend_from_slice(back)?;
    Ok(front)
}

/// A word and a number. Only want of memory is an error.
fn numbered(alloc: Global, word: &[u8], number: u64) -> Result<Vec<u8>, NoMemory>
    ensures { IfOk result (λ text. text.items ≡ meaning.numbered word.now number) }
{
    let mut text = word.to_vec(alloc)?;
    text.push(b' ')?;
    text.extend_from_slice(number.to_string(alloc)?.as_bytes())?;
    Ok(text)
}

/// The edges of one kind, as a word.
fn edges(rising: bool) -> &'static [u8]
    ensures { result.now ≡ meaning.edges rising }
{
    if rising { b"rises" } else { b"falls" }
}

/// What a trigger waits for. Only want of memory is an error.
#[tactic(auto, using(crate::proofs::ExpressionsLemmas::RowLaws::count_row))]
fn form_text(alloc: Global, form: &Form) -> Result<Vec<u8>, NoMemory>
    ensures { IfOk result (λ text. text.items ≡ meaning.form_text (view_form form.now)) }
{
    match form {
        Form::Time(steps) => numbered(alloc, b"time", *steps),
        Form::Rise(sig) => numbered(alloc, b"rise", sig.0 as u64),
        Form::Fall(sig) => numbered(alloc, b"fall", sig.0 as u64),
        Form::Change(sig) => numbered(alloc, b"change", sig.0 as u64),
        Form::ReadWrite => Ok(b"readwrite".to_vec(alloc)?),
        Form::ReadOnly => Ok(b"readonly".to_vec(alloc)?),
        Form::NextStep => Ok(b"nextstep".to_vec(alloc)?),
        Form::Cycles { sig, count, rising } => {
            let times = numbered(alloc, b" times", *count)?;
            joined(numbered(alloc, edges(*rising), sig.0 as u64)?, &times)
        }
        Form::Event(event) => numbered(alloc, b"event", event.0 as u64),
        Form::Lock(lock) => numbered(alloc, b"lock", lock.0 as u64),
        Form::Join(task) => numbered(alloc, b"join", task.0 as u64),
        Form::First(parts) => numbered(alloc, b"first of", parts.len() as u64),
        Form::Combine(parts) => numbered(alloc, b"all of", parts.len() as u64),
        Form::Limit { steps, .. } => numbered(alloc, b"limit", *steps),
    }
}

/// A trigger. Only want of memory is an error.
fn trigger_text(alloc: Global, trig: &Trig) -> Result<Vec<u8>, NoMemory>
    ensures { IfOk result (λ text. text.items ≡ meaning.trigger_text trig.now) }
{
    let number = numbered(alloc, b" @", trig.id.number)?;
    joined(form_text(alloc, &trig.form)?, &number)
}

/// A clock: its signal, and half its period in steps. Only want of memory is an error.
fn clock_text(alloc: Global, sig: u32, half: u64) -> Result<Vec<u8>, NoMemory>
    ensures { IfOk result (λ text. text.items ≡ meaning.numbered (codes "clock") sig ++ meaning.numbered (codes " half") half) }
{
    let half = numbered(alloc, b" half", half)?;
    joined(numbered(alloc, b"clock", sig as u64)?, &half)
}

/// A text, or how long it is. Only want of memory is an error.
fn cropped(alloc: Global, text: &[u8]) -> Result<Vec<u8>, NoMemory>
    ensures { IfOk result (λ shorter. shorter.items ≡ meaning.cropped text.now) }
{
    if text.len() <= PRINTED_LIMIT {
        return Ok(text.to_vec(alloc)?);
    }
    let length = text.len().to_string(alloc)?;
    joined(length.as_bytes().to_vec(alloc)?, b" bytes")
}

/// What Python shows of a value, or how long that is, behind a mark. Only want of memory is an error.
fn marked(alloc: Global, mark: &[u8], v: &Value) -> Result<Vec<u8>, NoMemory>
    requires { Knows seen v.now }
    ensures { IfOk result (λ text. text.items ≡ mark.now ++ meaning.cropped (shown places v.now)) }
{
    let text = shown_text(alloc, &Scene, v)?;
    joined(mark.to_vec(alloc)?, &cropped(alloc, text.bytes())?)
}

/// A value as it is printed. Only want of memory is an error.
pub fn value_text(alloc: Global, v: &Value) -> Result<Vec<u8>, NoMemory>
    requires { Knows seen v.now }
    ensures { IfOk result (λ text. text.items ≡ meaning.printed v.now) }
{
    match v {
        Value::Trigger(trig) => trigger_text(alloc, trig),
        Value::Clock { sig, half } => clock_text(alloc, sig.0, *half),
        Value::Text(_) => marked(alloc, b"'", v),
        Value::Vector(_) => marked(alloc, b"#", v),
        _ => marked(alloc, b"", v),
    }
}
