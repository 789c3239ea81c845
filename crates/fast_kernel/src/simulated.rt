//! The parts of a simulation, as the cases of an event and the calls want them.
ghost use Rattle.fast_kernel.specs.Kernel.{content_of, IsLoaded};

use crate::queued::{next_report, take_due, take_later};
use crate::simulation::Simulation;
use crate::wake::wake;
use four_value::Bits;
use gpi::{Fired, Key, Moved, Region, Report, SigId, Told, Update};
use kernel_base::{Simulated, are_same, unseen};
use port_io::NoMemory;

impl Simulated for Simulation {
    ghost use Rattle.fast_kernel.specs.Kernel.{content_of, IsLoaded};

    ghost held = { content_of };

    ghost is_held = { IsLoaded };

    fn enter(&mut self, region: Region) {
        self.region = region;
    }

    fn shown_at(&self, sig: SigId) -> Bits {
        self.shown[sig.0 as usize]
    }

    #[tactic(auto, using(kernel_base::proofs::Hiding::hidden_places))]
    fn hidden_at(&self, sig: SigId) -> Option<Bits> {
        self.hidden[sig.0 as usize]
    }

    #[tactic(auto, using(kernel_base::proofs::Hiding::hidden_places))]
    fn hide(&mut self, sig: SigId, bits: Bits) {
        self.hidden[sig.0 as usize] = Some(bits);
    }

    fn unhide(&mut self, sig: SigId) {
        self.hidden[sig.0 as usize] = None;
    }

    fn is_net(&self, sig: SigId) -> bool {
        self.nets[sig.0 as usize]
    }

    fn show(&mut self, sig: SigId, bits: Bits) -> Moved {
        let before = self.shown[sig.0 as usize];
        if are_same(before, bits) {
            return unseen();
        }
        self.shown[sig.0 as usize] = bits;
        let reports = [Report {
            sig,
            before,
            after: bits,
        }];
        wake(&mut self.waiters, &reports, None, &mut self.queue);
        let fired = self.book.change(&reports[0]);
        Moved {
            change: Some(Told { sig, bits }),
            fired,
        }
    }

    fn fire(&mut self, report: &Report) -> Fired {
        self.book.change(report)
    }

    fn next_report(&mut self) -> Option<Report> {
        next_report(&self.reports, &mut self.told)
    }

    fn next_due(&mut self) -> Option<Update> {
        take_due(&mut self.queue)
    }

    fn next_later(&mut self) -> Option<Update> {
        take_later(&mut self.queue)
    }

    fn run_first(&mut self) -> Result<bool, NoMemory> {
        let Some(process) = self.queue.first() else {
            return Ok(false);
        };
        match self.run_body(process) {
            Ok(()) => {
                self.queue.next();
                self.end_activation(process);
                Ok(true)
            }
            Err(e) => Err(e),
        }
    }

    fn settle(&mut self) -> Option<Moved> {
        if self.region == Region::End || !self.book.take(Key::ReadWrite) {
            return None;
        }
        self.region = Region::Settle;
        Some(Moved {
            change: None,
            fired: Fired {
                first: Some(Key::ReadWrite),
                second: None,
            },
        })
    }

    fn end(&mut self) -> Option<Moved> {
        if self.region == Region::End || !self.book.take(Key::ReadOnly) {
            return None;
        }
        self.region = Region::End;
        Some(Moved {
            change: None,
            fired: Fired {
                first: Some(Key::ReadOnly),
                second: None,
            },
        })
    }

    fn move_time(&mut self) -> Option<Moved> {
        let time = self.next_time()?;
        let there = self.queue.take_time(time);
        let fired = self.book.begin_step(time, there);
        self.queue.arrive(time);
        self.time = time;
        self.region = Region::Begin;
        Some(Moved {
            change: None,
            fired,
        })
    }
}
