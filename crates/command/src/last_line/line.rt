//! The sink, and what it keeps.
ghost use Rattle.std.specs.Prelude.{◌≡◌, ◌≤◌, [], None, OnOk, OnErr, IsErrOf, refl};
ghost use Rattle.port_io.specs.Ports.{AppendsPart, IsRaised};
ghost use Rattle.port_io.specs.CountLaws.{same_count};
ghost use Rattle.command.specs.LastLine.Keeping.{KeepsPiece, NeverBreaks};

use port_io::{Sink, SinkFault};
use std::alloc::Global;
use std::marker::Model;

/// The piece that was put last, which contracts see as its bytes, and no other. It tells nothing of the pieces before, and no put of it
/// fails but for want of memory.
#[derive(Drop)]
pub struct LastLine {
    kept: Vec<u8>,
}

impl Model for LastLine {
    ghost use Rattle.std.specs.Prelude.{List, ℕ};

    ghost Value = { List ℕ };

    ghost view = { λ sink. sink.kept.items };
}

impl LastLine {
    /// A sink to which nothing was put, and which keeps no byte. It takes no memory.
    pub fn new(alloc: Global) -> Self
        ensures { result ≡ [] }
    {
        LastLine {
            kept: Vec::new(alloc),
        }
    }

    /// The bytes of the piece that was put last, and none before the first.
    pub fn bytes(&self) -> &[u8]
        ensures { result.now ≡ self.now }
    {
        &self.kept
    }
}

impl Sink for LastLine {
    ghost told = { λ _. None };

    ghost faults = { λ _. 0 };

    ghost takes = { KeepsPiece };

    ghost breaks = { NeverBreaks };

    ghost takes_told = { λ before piece after taken. tt };

    ghost breaks_told = { λ before piece after broken. absurd broken };

    ghost takes_count = { λ before piece after taken. same_count 0 0 refl };

    ghost breaks_count = { λ before piece after broken. absurd broken };

    /// Keeps these bytes in place of those that were kept before. Want of memory is the only fault, and then none are kept.
    fn put(&mut self, _alloc: Global, bytes: &[u8]) -> Result<(), SinkFault>
        ensures taken { OnOk result (KeepsPiece self.old bytes.now self.new) }
        ensures broken { IsErrOf result SinkFault.Failed → NeverBreaks self.old bytes.now self.new }
        ensures part { OnErr result (AppendsPart None None bytes.now) }
        ensures count { 0 ≤ 0 }
        ensures cause { IsErrOf result SinkFault.Failed → IsRaised 0 0 }
        ensures no_memory { OnErr result (self.new ≡ []) }
    {
        self.kept.clear();
        self.kept.extend_from_slice(bytes)?;
        Ok(())
    }
}
