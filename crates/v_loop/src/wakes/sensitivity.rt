//! The wakes of a process that waits for all that it reads.

ghost use Rattle.std.specs.Prelude.{◌≡◌, ◌++◌, ◌+◌, ◌-◌, map, max, min, IfOk, IsPermutation, OnOk};
ghost use Rattle.std.specs.List.{range_with_len};
ghost use Rattle.std.specs.List.Sorted.{IsNonDecreasingBy};
ghost use Rattle.v_flat.specs.Design.{any_change};
ghost use Rattle.v_loop.specs.Reads.Reads.{spans_of};
ghost use Rattle.v_loop.specs.Wakes.Wakes.{WaitForAll, first_of, read_below};

use crate::reads::Span;
use gpi::{SigId, Wake, WakeEdge};
use port_io::{NoMemory, Sequence};
use std::alloc::Global;

/// The spans by their first signals. Only want of memory is an error.
fn by_first(alloc: Global, spans: &[Span]) -> Result<Vec<Span>, NoMemory>
    ensures permutation { IfOk result (λ sorted. IsPermutation spans.now sorted.items) }
    ensures sorted { IfOk result (λ sorted. IsNonDecreasingBy first_of sorted.items) }
{
    let mut sorted = spans.to_vec(alloc)?;
    sorted.sort_unstable_by_key(|span| span.first);
    Ok(sorted)
}

/// The number of the first signal of a span from `next` on, at most that of all signals.
fn start(span: &Span, next: u32, signals: u32) -> u32
    ensures { result ≡ min (max span.now.first next) signals }
{
    span.first.max(next).min(signals)
}

/// The number behind the last signal of a span, at most that of all signals.
fn end(span: &Span, signals: u32) -> u32
    ensures { result ≡ min (span.now.first + span.now.count) signals }
{
    span.first.saturating_add(span.count).min(signals)
}

/// Adds any change of each signal with a number from `from` on and below `to`, by rising number. Only want of memory is an error.
fn add_changes(wakes: &mut Sequence<Wake>, from: u32, to: u32) -> Result<(), NoMemory>
    ensures { OnOk result (wakes.new ≡ wakes.old ++ map any_change (range_with_len from (to - from))) }
{
    for number in from..to {
        wakes.push(Wake {
            sig: SigId(number),
            edge: WakeEdge::Any,
        })?;
    }
    Ok(())
}

/// Any change of each signal that is read, by rising number, of so many signals in all. The spans stand by their first signals, so that
/// each is gone over once, from the number behind those that stand already. Only want of memory is an error.
fn changes(alloc: Global, spans: &[Span], signals: u32) -> Result<Sequence<Wake>, NoMemory>
    requires { IsNonDecreasingBy first_of spans.now }
    ensures { IfOk result (λ wakes. wakes ≡ map any_change (read_below (spans_of spans.now) signals)) }
{
    let mut wakes = Sequence::new(alloc);
    let mut next = 0;
    for span in spans {
        let from = start(span, next, signals);
        let to = end(span, signals).max(from);
        add_changes(&mut wakes, from, to)?;
        next = to;
    }
    Ok(wakes)
}

/// What a process waits for that reads these signals, in a design of so many signals: any change of each that is read, by rising number,
/// each once (IEEE 1364-2005, clauses 6.1.2 and 9.7.5). Numbers that no signal has count for nothing. Only want of memory is an error.
pub fn wakes(alloc: Global, spans: &[Span], signals: u32) -> Result<Sequence<Wake>, NoMemory>
    ensures { IfOk result (WaitForAll (spans_of spans.now) signals) }
{
    let sorted = by_first(alloc, spans)?;
    changes(alloc, &sorted, signals)
}
