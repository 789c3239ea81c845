//! Who tells the changes of signals.
ghost use Rattle.std.specs.Prelude.{List};
ghost use Rattle.port_io.specs.Means.{sink_means};
ghost use Rattle.test_meaning.specs.Body.BodyTrees.{Function};
ghost use Rattle.rig_model.specs.Run.Rig.{told_lines};

use crate::puts::put_change;
use gpi::{Flat, Told};
use port_io::{Sink, SinkFault};
use run_state::lines::path_of;
use std::alloc::Global;

/// Tells the changes of a design's signals: with `trace` there is a line for each.
#[derive(Clone, Copy)]
pub struct Teller<'a> {
    pub flat: &'a Flat,
    pub trace: bool,
}

impl<'a> Teller<'a> {
    ghost use Rattle.scheduler.specs.Puts.{PutsOn};
    ghost use Rattle.scheduler.specs.Setups.{setup_of};

    /// Puts the line of a told change, where changes are written and no put has failed.
    pub(crate) fn tell<O: Sink>(
        &self,
        alloc: Global,
        time: u64,
        change: Option<Told>,
        out: &mut O,
        fault: Option<SinkFault>,
    ) -> Option<SinkFault>
        ensures { (functions : List Function)
            → PutsOn (sink_means O.Sink) fault out.old (told_lines (setup_of functions self.now) time change) result out.new }
    {
        if fault.is_some() || !self.trace {
            return fault;
        }
        match change {
            Some(told) => put_change(alloc, out, time, path_of(self.flat, told.sig), told.bits),
            None => None,
        }
    }
}
