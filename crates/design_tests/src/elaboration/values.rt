//! The signals of a design, and their values under a stimulus.
ghost use Rattle.std.specs.Prelude.{◌≡◌, length, map, IfOk, OnOk};
ghost use Rattle.std.specs.List.{flat_map, slice_split};
ghost use Rattle.gpi.specs.Soundness.{IsSoundFlat};
ghost use Rattle.table_rows.specs.Rows.{is_byte};
ghost use Rattle.design_tests.specs.Elaboration.Runs.{
  Chain,
  Deposits,
  Settles,
  ShowsDesign,
  ShowsRun,
  Steps,
  path_text,
  shown_by,
  standing_text,
  steps_of,
  value_text,
  words_of,
};

use crate::elaboration::digits::{letters, vector};
use gpi::{Advance, Flat, Gpi, Region, SigId, Signal};
use port_io::{NoMemory, Sequence};
use std::alloc::{AllocError, Global};
use table_rows::{cut, number_of};

/// The number of events at which a design is given up: one that comes to rest takes fewer.
const MOST_EVENTS: u32 = 10_000;

/// The path of each signal, behind a space. Only want of memory is an error, here and below.
fn paths_text(alloc: Global, signals: &Sequence<Signal>) -> Result<Vec<u8>, NoMemory>
    ensures { IfOk result (λ text. text.items ≡ flat_map path_text signals.now) }
{
    let mut text = Vec::new(alloc);
    for number in 0..signals.len() {
        text.push(b' ')?;
        text.extend_from_slice(signals.get(number).path.bytes())?;
    }
    Ok(text)
}

/// Runs until nothing is left, or as many events came.
fn settle<K: Gpi>(kernel: &mut K) -> Result<(), NoMemory>
    requires { K.is_loaded kernel.old }
    ensures loaded { K.is_loaded kernel.new }
    ensures signals { length (K.content kernel.new).state.signals ≡ length (K.content kernel.old).state.signals }
    ensures settles { OnOk result (Settles (K.content kernel.old) (K.content kernel.new)) }
{
    for _ in 0..MOST_EVENTS {
        match kernel.advance()? {
            Advance::Idle => return Ok(()),
            Advance::Moved(_) => {}
        }
    }
    Ok(())
}

/// Makes the deposit of a word, at one of so many signals, where it fits.
fn deposit<K: Gpi>(kernel: &mut K, signals: u32, word: &[u8])
    requires loaded { K.is_loaded kernel.old }
    requires signals { length (K.content kernel.old).state.signals ≡ signals }
    ensures loaded { K.is_loaded kernel.new }
    ensures signals { length (K.content kernel.new).state.signals ≡ signals }
    ensures deposits { Deposits (K.content kernel.old) word.now (K.content kernel.new) }
{
    let (number, digits) = cut(word, b'=');
    let number = number_of(number);
    if digits.is_empty() || number >= u64::from(signals) || kernel.region() == Region::End {
        return;
    }
    let sig = SigId(number as u32);
    let bits = vector(digits);
    if bits.width() == kernel.read(sig).width() {
        kernel.deposit(sig, bits);
    }
}

/// What stands between such bytes of a text.
fn pieces(alloc: Global, text: &[u8], mark: u8) -> Result<Vec<&[u8]>, AllocError>
    ensures { IfOk result (λ pieces. map (λ piece. piece.now) pieces.items ≡ slice_split (is_byte mark) text.now) }
{
    text.split(|byte| *byte == mark).collect(alloc)
}

/// Makes the deposits of a step, one after the other.
fn deposits<K: Gpi>(
    alloc: Global,
    kernel: &mut K,
    signals: u32,
    step: &[u8],
) -> Result<(), NoMemory>
    requires loaded { K.is_loaded kernel.old }
    requires signals { length (K.content kernel.old).state.signals ≡ signals }
    ensures loaded { K.is_loaded kernel.new }
    ensures signals { length (K.content kernel.new).state.signals ≡ signals }
    ensures deposits { OnOk result (Chain Deposits (K.content kernel.old) (words_of step.now) (K.content kernel.new)) }
{
    let words = pieces(alloc, step, b' ')?;
    for word in &words {
        deposit(kernel, signals, word);
    }
    Ok(())
}

/// The values of so many signals, each behind a space.
fn values_text<K: Gpi>(alloc: Global, kernel: &K, signals: u32) -> Result<Vec<u8>, NoMemory>
    requires loaded { K.is_loaded kernel.now }
    requires signals { length (K.content kernel.now).state.signals ≡ signals }
    ensures { IfOk result (λ text. text.items ≡ flat_map value_text (K.content kernel.now).state.signals) }
{
    let mut text = Vec::new(alloc);
    for number in 0..signals {
        let digits = letters(alloc, kernel.read(SigId(number)))?;
        text.push(b' ')?;
        text.extend_from_slice(&digits)?;
    }
    Ok(text)
}

/// The values of so many signals, or that something is left.
fn standing_text<K: Gpi>(alloc: Global, kernel: &K, signals: u32) -> Result<Vec<u8>, NoMemory>
    requires loaded { K.is_loaded kernel.now }
    requires signals { length (K.content kernel.now).state.signals ≡ signals }
    ensures { IfOk result (λ text. text.items ≡ standing_text (K.content kernel.now)) }
{
    if kernel.idle() {
        values_text(alloc, kernel, signals)
    } else {
        Ok(b" no rest".to_vec(alloc)?)
    }
}

/// Makes the deposits of a step, runs until nothing is left, and adds the values that the signals have then.
fn push_step<K: Gpi>(
    alloc: Global,
    kernel: &mut K,
    signals: u32,
    step: &[u8],
    text: &mut Vec<u8>,
) -> Result<(), NoMemory>
    requires loaded { K.is_loaded kernel.old }
    requires signals { length (K.content kernel.old).state.signals ≡ signals }
    ensures loaded { K.is_loaded kernel.new }
    ensures signals { length (K.content kernel.new).state.signals ≡ signals }
    ensures steps { OnOk result (Steps (shown_by text.old.items (K.content kernel.old)) step.now (shown_by text.new.items (K.content kernel.new))) }
{
    deposits(alloc, kernel, signals, step)?;
    settle(kernel)?;
    let values = standing_text(alloc, kernel, signals)?;
    text.push(b';')?;
    text.extend_from_slice(&values)?;
    Ok(())
}

/// The steps of a stimulus, one after the other, by a simulator that holds a design of so many signals; their texts stand behind this one.
fn steps_text<K: Gpi>(
    alloc: Global,
    kernel: &mut K,
    signals: u32,
    stimulus: &[u8],
    paths: Vec<u8>,
) -> Result<Vec<u8>, NoMemory>
    requires loaded { K.is_loaded kernel.old }
    requires signals { length (K.content kernel.old).state.signals ≡ signals }
    ensures { IfOk result
        (λ text. Chain Steps (shown_by paths.items (K.content kernel.old)) (steps_of stimulus.now) (shown_by text.items (K.content kernel.new))) }
{
    let mut text = paths;
    let steps = pieces(alloc, stimulus, b'|')?;
    for step in &steps {
        push_step(alloc, kernel, signals, step, &mut text)?;
    }
    Ok(text)
}

/// The paths of a design's signals, and behind them their values after each step of a stimulus, as a simulator tells them.
fn run_text<K: Gpi>(
    alloc: Global,
    kernel: &mut K,
    flat: &Flat,
    stimulus: &[u8],
) -> Result<Vec<u8>, NoMemory>
    requires { IsSoundFlat flat.now }
    ensures { IfOk result (λ text. ShowsRun flat.now stimulus.now text.items) }
{
    kernel.load(alloc, flat)?;
    settle(kernel)?;
    let paths = paths_text(alloc, &flat.signals)?;
    steps_text(alloc, kernel, flat.signals.len() as u32, stimulus, paths)
}

/// The same, or that the design isn't sound.
pub fn design_text<K: Gpi>(
    alloc: Global,
    kernel: &mut K,
    flat: &Flat,
    stimulus: &[u8],
) -> Result<Vec<u8>, NoMemory>
    ensures { IfOk result (λ text. ShowsDesign flat.now stimulus.now text.items) }
{
    if flat.is_sound() {
        run_text(alloc, kernel, flat, stimulus)
    } else {
        Ok(b" not sound".to_vec(alloc)?)
    }
}
