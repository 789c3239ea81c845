//! The signals that a text tells of, by their paths.
ghost use Rattle.std.specs.Prelude.{◌≡◌, OnOk, IfOk, find, slice_get};
ghost use Rattle.vcd_text.specs.Hierarchy.{traced_signals};
ghost use Rattle.vcd_text.specs.Paths.{ArePlaces, NotesSignal, has_path, is_wide};

use crate::memories::traced_signals;
use gpi::{Flat, Signal};
use name_table::Names;
use port_io::{NoMemory, Sequence};
use std::alloc::Global;

/// A design with its signals that are no words of memories, and the places of these by their paths: what a VCD text tells of.
#[derive(Drop)]
pub struct TracedSignals<'a> {
    pub(crate) flat: &'a Flat,
    pub(crate) numbers: Vec<usize>,
    pub(crate) places: Names,
    ghost listed: { numbers.items ≡ traced_signals flat.now },
    ghost found: { ArePlaces flat.now.signals numbers.items places },
}

/// Notes a signal by its path.
fn note_signal(
    alloc: Global,
    places: &mut Names,
    signals: &Sequence<Signal>,
    signal: usize,
) -> Result<(), NoMemory>
    ensures { OnOk result (NotesSignal signals.now signal places.old places.new) }
{
    if signal >= signals.len() {
        return Ok(());
    }
    places.note(alloc, signals.get(signal).path.bytes(), signal)
}

/// The places of these signals, by their paths. Only want of memory is an error.
fn places_of(alloc: Global, signals: &Sequence<Signal>, traced: &[usize]) -> Result<Names, NoMemory>
    ensures { IfOk result (λ places. ArePlaces signals.now traced.now places) }
{
    let mut places = Names::new(alloc);
    for at in 0..traced.len() {
        note_signal(alloc, &mut places, signals, traced[at])?;
    }
    Ok(places)
}

impl<'a> TracedSignals<'a> {
    /// The signals of that design. Only want of memory is an error.
    pub fn new(alloc: Global, flat: &'a Flat) -> Result<TracedSignals<'a>, NoMemory>
        ensures { IfOk result (λ traced. traced.flat.now ≡ flat.now) }
    {
        let numbers = traced_signals(alloc, flat)?;
        let places = places_of(alloc, &flat.signals, &numbers)?;
        Ok(TracedSignals {
            flat,
            numbers,
            places,
        })
    }

    /// Whether there is a signal of that number which has so many digits.
    pub(crate) fn has_width(&self, signal: usize, width: usize) -> bool
        ensures { result ≡ is_wide (slice_get self.now.flat.now.signals signal) width }
    {
        signal < self.flat.signals.len() && self.flat.signals.get(signal).width as usize == width
    }

    /// The first of them that has that path.
    pub(crate) fn find(&self, path: &[u8]) -> Option<usize>
        ensures { result ≡ find (has_path self.now.flat.now.signals path.now) (traced_signals self.now.flat.now) }
    {
        self.places.find(path)
    }
}
