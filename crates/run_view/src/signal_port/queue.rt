//! A queue of writes, of which the last one of a signal counts.
//!
//! A write that a later one of its signal replaces is stale. It stays in the queue until it comes to the front, or until the queue is made
//! compact: so a write is staged and taken out with no other being moved.
ghost use Rattle.std.specs.Prelude.{◌≡◌, ◌++◌, ◌∷◌, [], MatchOption, OnOk, OnErr};
ghost use Rattle.run_view.specs.SignalPort.Queue.{IsTally, newest, turned};

use crate::signal_port::staged::Staged;
use crate::signal_port::tally::{add_one, count_of, take_one};
use gpi::{SigId, Write};
use indexmap::IndexMap;
use port_io::NoMemory;
use std::collections::VecDeque;

/// Takes the first write out that isn't stale, with those before it.
pub fn take_newest(queue: &mut VecDeque<Staged>, tally: &mut IndexMap<u32, usize>) -> Option<Staged>
    requires { IsTally tally.old queue.old.items }
    ensures first { MatchOption result ((newest queue.old.items ≡ []) × (newest queue.new.items ≡ []))
        (λ write. newest queue.old.items ≡ write ∷ newest queue.new.items) }
    ensures tally { IsTally tally.new queue.new.items }
{
    'stale: while let Some(write) = queue.pop_front() {
        if take_one(tally, write.sig) == 0 {
            return Some(write);
        }
    }
    None
}

/// Puts a write behind the others. After `NoMemory` the queue is as before.
pub fn push(
    queue: &mut VecDeque<Staged>,
    tally: &mut IndexMap<u32, usize>,
    sig: SigId,
    act: Write,
) -> Result<(), NoMemory>
    requires { IsTally tally.old queue.old.items }
    ensures ok { OnOk result (queue.new.items ≡ queue.old.items ++ record { sig = sig; act = act } ∷ []) }
    ensures err { OnErr result (queue.new.items ≡ queue.old.items) }
    ensures tally { IsTally tally.new queue.new.items }
{
    queue.push_back(Staged { sig, act })?;
    match add_one(tally, sig) {
        Ok(()) => Ok(()),
        Err(fault) => {
            queue.pop_back();
            Err(fault)
        }
    }
}

/// Makes room in a full queue: the stale writes go, and where more than half of it is left it grows.
#[tactic(auto, using(crate::proofs::SignalPortLemmas::QueueLaws::newest_again))]
pub fn make_room(
    queue: &mut VecDeque<Staged>,
    tally: &mut IndexMap<u32, usize>,
) -> Result<(), NoMemory>
    requires { IsTally tally.old queue.old.items }
    ensures queue { newest queue.new.items ≡ newest queue.old.items }
    ensures tally { IsTally tally.new queue.new.items }
{
    compact(queue, tally);
    let count = queue.len();
    if count > queue.capacity() / 2 {
        queue.reserve(count)?;
    }
    Ok(())
}

/// Lets the stale writes go: all writes are taken from the front, and those that aren't stale put back behind the others.
fn compact(queue: &mut VecDeque<Staged>, tally: &mut IndexMap<u32, usize>)
    requires { IsTally tally.old queue.old.items }
    ensures queue { queue.new.items ≡ newest queue.old.items }
    ensures tally { IsTally tally.new queue.new.items }
{
    let mut left = queue.len();
    'left: while left > 0 {
        left -= 1;
        turn_one(queue, tally);
    }
}

/// The first write goes behind the others, or is let go where it is stale.
fn turn_one(queue: &mut VecDeque<Staged>, tally: &mut IndexMap<u32, usize>)
    requires { IsTally tally.old queue.old.items }
    ensures queue { queue.new.items ≡ turned queue.old.items }
    ensures tally { IsTally tally.new queue.new.items }
{
    let Some(Staged { sig, act }) = queue.pop_front() else {
        return;
    };
    if count_of(tally, sig) > 1 {
        take_one(tally, sig);
    } else {
        queue.push_back_reserved(Staged { sig, act });
    }
}
