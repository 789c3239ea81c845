//! A sink in memory, whose calls fail where they are told to.
ghost use Rattle.std.specs.Prelude.{◌≡◌, ℕ, ◌∷◌, [], ◌++◌, ◌≤◌, Some, List, Option, OnOk, OnErr, IsErrOf};
ghost use Rattle.port_io.specs.Ports.{next_count, IsRaised, AppendsPart};
ghost use Rattle.port_io.specs.Steps.{SinkTakes, SinkBreaks, takes_told_of, breaks_told_of, takes_count_of, breaks_count_of};

use crate::calls::Calls;
use crate::{NoMemory, Sink, SinkFault};
use std::alloc::Global;
use std::marker::Model;

/// Lines in memory, which it tells. Its calls of `put` are numbered from 1; it fails at the numbers
/// that it is given, and a put that fails takes nothing.
#[derive(Drop)]
pub struct MemSink {
    bytes: Vec<u8>,
    calls: Calls,
}

impl Model for MemSink {
    ghost use Rattle.port_io.specs.Memory.{Lines};

    ghost Value = { Lines };

    ghost use Rattle.port_io.specs.MemoryView.{sink_view};

    ghost view = { sink_view };
}

impl MemSink {
    /// A sink without a byte, of which no call fails. It takes no memory.
    pub fn new(alloc: Global) -> Self
        ensures { result ≡ record { bytes = []; calls = 0; failing = []; faults = 0 } }
    {
        MemSink {
            bytes: Vec::new(alloc),
            calls: Calls::new(alloc),
        }
    }

    /// Lets the put of that number, from 1, fail. Only want of memory is an error, and it leaves
    /// the sink as it was.
    pub fn fail_at(&mut self, call: u64) -> Result<(), NoMemory>
        ensures ok { OnOk result (self.new ≡ record self.old { failing = self.old.failing ++ call ∷ [] }) }
        ensures err { OnErr result (self.new ≡ self.old) }
    {
        self.calls.fail_at(call)
    }

    /// All the bytes that were put.
    pub fn bytes(&self) -> &[u8]
        ensures { result.now ≡ self.now.bytes }
    {
        &self.bytes
    }
}

impl Sink for MemSink {
    ghost told = { λ sink. Some sink.bytes };

    ghost faults = { λ sink. sink.faults };

    ghost takes = { SinkTakes };

    ghost breaks = { SinkBreaks };

    ghost takes_told = { takes_told_of };

    ghost breaks_told = { breaks_told_of };

    ghost takes_count = { takes_count_of };

    ghost breaks_count = { breaks_count_of };

    /// Every call raises the number of calls by one. One that wants memory takes nothing.
    fn put(&mut self, _alloc: Global, bytes: &[u8]) -> Result<(), SinkFault>
        ensures taken { OnOk result (SinkTakes self.old bytes.now self.new) }
        ensures broken { IsErrOf result SinkFault.Failed → SinkBreaks self.old bytes.now self.new }
        ensures part { OnErr result (AppendsPart (Some self.old.bytes) (Some self.new.bytes) bytes.now) }
        ensures count { self.old.faults ≤ self.new.faults }
        ensures cause { IsErrOf result SinkFault.Failed → IsRaised self.old.faults self.new.faults }
        ensures no_memory { IsErrOf result SinkFault.OutOfMemory
            → self.new ≡ record self.old { calls = next_count self.old.calls } }
    {
        if self.calls.begin() {
            self.calls.fail();
            return Err(SinkFault::Failed);
        }
        self.bytes.extend_from_slice(bytes)?;
        Ok(())
    }
}
