//! What designs are read as.
ghost use Rattle.std.specs.Prelude.{◌≡◌, IfOk, string_bytes};
ghost use Rattle.std.specs.List.{flat_map};
ghost use Rattle.gpi.specs.Soundness.{IsSoundFlat};
ghost use Rattle.table_rows.specs.Rows.{part_at, written};
ghost use Rattle.table_rows.specs.Shown.{latin};
ghost use Rattle.v_design.specs.Words.{refusal_word};
ghost use Rattle.runner_tests.specs.Runner.Designs.{IsRead, ShowsDesign, flat_word, signal_word};

use crate::runner::words::{digit_name, latin_text};
use gpi::{Flat, Signal};
use port_io::{NoMemory, Sequence};
use std::alloc::{AllocError, Global};
use table_rows::Row;
use v_design::{DesignFault, DesignRefusal, read_design};

/// The design that a text is, with no top named, or why it is none. Only want of memory is an error, here and below.
pub fn design_of(alloc: Global, text: &[u8]) -> Result<Result<Flat, DesignRefusal>, NoMemory>
    ensures is { IfOk result (λ found. IsRead text.now found) }
    ensures sound { IfOk result (λ found. IfOk found IsSoundFlat) }
{
    match read_design(alloc, text, None) {
        Ok(flat) => Ok(Ok(flat)),
        Err(DesignFault::Refused(why)) => Ok(Err(why)),
        Err(DesignFault::OutOfMemory) => Err(NoMemory),
    }
}

/// A signal: its path, its width and each of its digits before the first event.
fn signal_shown(alloc: Global, signal: &Signal) -> Result<String, AllocError>
    ensures { IfOk result (λ text. string_bytes text ≡ signal_word signal.now) }
{
    let path = latin_text(alloc, signal.path.bytes())?;
    let start = digit_name(signal.start);
    format!(in alloc; "{path} width={} start={start}, ", signal.width)
}

/// The signals, one after the other.
fn signals_shown(alloc: Global, signals: &Sequence<Signal>) -> Result<String, AllocError>
    ensures { IfOk result (λ text. string_bytes text ≡ flat_map signal_word signals.now) }
{
    let mut text = String::new(alloc);
    for at in 0..signals.len() {
        text.push_str(&signal_shown(alloc, signals.get(at))?)?;
    }
    Ok(text)
}

/// The signals of a design, and the length of a step.
fn flat_shown(alloc: Global, flat: &Flat) -> Result<String, AllocError>
    ensures { IfOk result (λ text. string_bytes text ≡ flat_word flat.now) }
{
    let signals = signals_shown(alloc, &flat.signals)?;
    format!(in alloc; "{signals}step_fs={}", flat.step_fs)
}

/// Why a text is no design.
fn refusal_shown(alloc: Global, why: DesignRefusal) -> Result<String, NoMemory>
    ensures { IfOk result (λ text. string_bytes text ≡ latin (refusal_word why)) }
{
    let reason = why.text(alloc)?;
    Ok(latin_text(alloc, &reason)?)
}

/// What a row's design is read as: its signals and the length of its step, or why it is refused.
pub fn design_text(alloc: Global, row: &Row<'_>) -> Result<String, NoMemory>
    ensures { IfOk result (λ text. ShowsDesign (written (part_at 2 row.now)) (string_bytes text)) }
{
    let text = row.text(alloc, 2)?;
    match design_of(alloc, &text)? {
        Ok(flat) => Ok(flat_shown(alloc, &flat)?),
        Err(why) => refusal_shown(alloc, why),
    }
}
