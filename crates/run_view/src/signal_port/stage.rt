//! The list of staged writes.
ghost use Rattle.std.specs.Prelude.{◌≡◌, ◌==◌, ◌∷◌, [], length, OnOk, OnErr, MatchOption};
ghost use Rattle.run_view.specs.SignalPort.Staging.{restaged};

use crate::signal_port::queue::{make_room, push, take_newest};
use crate::signal_port::staged::Staged;
use gpi::{SigId, Write};
use indexmap::IndexMap;
use port_io::NoMemory;
use std::alloc::Global;
use std::collections::VecDeque;
use std::marker::Model;

/// The staged writes (cocotb 1.8, "Triggers", `ReadWrite`), seen as a list, the oldest first. Only [`stage`](WriteStage::stage) takes
/// memory. How much that is depends on how many signals are staged, and not on how often they are.
#[derive(Drop)]
pub struct WriteStage {
    queue: VecDeque<Staged>,
    // how many writes the queue has of each signal that was ever staged
    tally: IndexMap<u32, usize>,
}

impl Model for WriteStage {
    ghost use Rattle.std.specs.Prelude.{List};
    ghost use Rattle.run_view.specs.SignalPort.Queue.{IsTally, newest};
    ghost use Rattle.run_view.specs.declared.signal_port.staged.Staged.{Staged};

    ghost Value = { List Staged };

    ghost view = { λ s. newest s.queue.items };

    ghost invariant = { λ s. IsTally s.tally s.queue.items };
}

impl WriteStage {
    /// No write is staged. It takes no memory.
    pub fn new(alloc: Global) -> WriteStage
        ensures { result ≡ [] }
    {
        WriteStage {
            queue: VecDeque::new(alloc),
            tally: IndexMap::new(alloc),
        }
    }

    /// Stages a write as the last one, and takes an older one of the signal out. After `NoMemory` the same writes are staged.
    #[tactic(auto, using(crate::proofs::SignalPortLemmas::QueueLaws::newest_restaged))]
    pub fn stage(&mut self, sig: SigId, act: Write) -> Result<(), NoMemory>
        ensures ok { OnOk result (self.new ≡ restaged sig act self.old) }
        ensures err { OnErr result (self.new ≡ self.old) }
    {
        if self.queue.len() == self.queue.capacity() {
            make_room(&mut self.queue, &mut self.tally)?;
        }
        push(&mut self.queue, &mut self.tally, sig, act)
    }

    /// Whether no write is staged.
    pub fn is_empty(&self) -> bool
        ensures { result ≡ (length self.now == 0) }
    {
        self.queue.is_empty()
    }

    /// Takes the oldest write out, or answers `None` where none is staged. It takes no memory.
    pub fn take_first(&mut self) -> Option<(SigId, Write)>
        ensures { MatchOption result ((self.old ≡ []) × (self.new ≡ []))
            (λ write. self.old ≡ record { sig = write.0; act = write.1 } ∷ self.new) }
    {
        let Staged { sig, act } = take_newest(&mut self.queue, &mut self.tally)?;
        Some((sig, act))
    }

    /// Takes all writes out. It takes no memory.
    pub fn clear(&mut self)
        ensures { self.new ≡ [] }
    {
        self.queue.clear();
        self.tally.clear();
    }
}
