//! Triggers of rows.

use crate::values::row::short_of;
use gpi::SigId;
use port_io::NoMemory;
use py_value::{EventNo, Form, LockNo, TaskNo, Trig, TrigId, Trigs};
use std::alloc::Global;
use table_rows::cut;

/// A trigger of task 0.
fn made(number: u16, form: Form) -> Trig {
    Trig {
        id: TrigId {
            task: TaskNo(0),
            number: number as u64,
        },
        form,
    }
}

/// `First` of so many timers.
fn wide(alloc: Global, count: u16) -> Result<Form, NoMemory> {
    let mut parts = Trigs::new(alloc);
    for steps in 0..count {
        parts.push(made(steps, Form::Time(steps as u64)))?;
    }
    Ok(Form::First(parts))
}

/// Limits inside one another, so many, around a timer.
fn deep(alloc: Global, count: u16) -> Result<Form, NoMemory> {
    let mut form = Form::Time(1);
    for steps in 0..count {
        let mut inner = Trigs::new(alloc);
        inner.push(made(steps, form))?;
        form = Form::Limit {
            inner,
            steps: steps as u64,
        };
    }
    Ok(form)
}

/// What a trigger of this word and number waits for.
fn form_of(alloc: Global, word: &[u8], number: u16) -> Result<Option<Form>, NoMemory> {
    Ok(Some(match word {
        b"rise" => Form::Rise(SigId(number as u32)),
        b"fall" => Form::Fall(SigId(number as u32)),
        b"change" => Form::Change(SigId(number as u32)),
        b"readwrite" => Form::ReadWrite,
        b"readonly" => Form::ReadOnly,
        b"nextstep" => Form::NextStep,
        b"join" => Form::Join(TaskNo(number as u32)),
        b"timer" => Form::Time(number as u64),
        b"wait" => Form::Event(EventNo(number as u32)),
        b"acquire" => Form::Lock(LockNo(number as u32)),
        b"wide" => wide(alloc, number)?,
        b"deep" => deep(alloc, number)?,
        _ => return Ok(None),
    }))
}

/// The trigger `WORD NUMBER@ID` that task 0 made as that one.
pub fn trigger_of(alloc: Global, word: &[u8], rest: &[u8]) -> Result<Option<Trig>, NoMemory> {
    let (number, id) = cut(rest, b'@');
    match form_of(alloc, word, short_of(number))? {
        Some(form) => Ok(Some(made(short_of(id), form))),
        None => Ok(None),
    }
}
