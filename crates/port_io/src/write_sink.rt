//! A sink over any writer.
ghost use Rattle.std.specs.Prelude.{◌≡◌, List, ℕ, OnOk, OnErr, IfErr};
ghost use Rattle.port_io.specs.CountLaws.{same_count, raised_count};
ghost use Rattle.port_io.specs.Written.{TakesWhole, BreaksWhole, WriterTakes, WriterBreaks};
ghost use Rattle.port_io.specs.WrittenLaws.{whole_told, broken_told};

use crate::{Outlet, Sink, SinkFault};
use std::alloc::Global;
use std::marker::Model;

/// Puts its bytes into a writer, and tells what the writer tells.
#[derive(Drop)]
pub struct WriteSink<W: Outlet> {
    writer: W,
    faults: u64,
}

impl<W: Outlet> Model for WriteSink<W> {
    ghost use Rattle.port_io.specs.Written.{Written};

    ghost Value = { Written W };

    ghost view = { λ sink. record { writer = sink.writer; faults = sink.faults } };
}

impl<W: Outlet> WriteSink<W> {
    /// A sink over the writer that never failed. It takes no memory.
    pub fn new(writer: W) -> Self
        ensures { result ≡ record { writer = writer; faults = 0 } }
    {
        WriteSink { writer, faults: 0 }
    }
}

impl<W: Outlet> Sink for WriteSink<W> {
    ghost told = { λ sink. W.told sink.writer };

    ghost faults = { λ sink. sink.faults };

    ghost takes = { WriterTakes W.takes W.fails };

    ghost breaks = { WriterBreaks W.takes W.fails };

    ghost takes_told = { λ before piece after taken. whole_told W.takes W.told W.takes_told before.writer piece after.writer taken.whole };

    ghost breaks_told = { λ before piece after broken.
        broken_told W.takes W.told W.takes_told W.fails W.fails_told before.writer piece after.writer broken.broken };

    ghost takes_count = { λ before piece after taken. same_count before.faults after.faults taken.counted };

    ghost breaks_count = { λ before piece after broken. raised_count before.faults after.faults broken.counted };

    /// A write that takes nothing of what is left, and a write that is interrupted, are failures.
    fn put(&mut self, _alloc: Global, bytes: &[u8]) -> Result<(), SinkFault> {
        let written = write_whole(&mut self.writer, bytes);
        if written.is_err() {
            self.faults = self.faults.saturating_add(1);
        }
        written
    }
}

/// Writes all the bytes, by as many writes as it takes, or says that one of them failed or took
/// nothing. No write is tried again.
fn write_whole<W: Outlet>(writer: &mut W, bytes: &[u8]) -> Result<(), SinkFault>
    ensures whole { OnOk result (TakesWhole W.takes writer.old bytes.now writer.new) }
    ensures broken { OnErr result (BreaksWhole W.takes W.fails writer.old bytes.now writer.new) }
    ensures fault { IfErr result (λ fault. fault ≡ SinkFault.Failed) }
{
    let mut rest = bytes;
    while !rest.is_empty() {
        let Some(count) = writer.write_once(rest) else {
            return Err(SinkFault::Failed);
        };
        if count == 0 {
            return Err(SinkFault::Failed);
        }
        rest = &rest[count..];
    }
    Ok(())
}
