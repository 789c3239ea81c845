//! The fast simulator.
ghost use Rattle.std.specs.Prelude.{◌≡◌};
ghost use Rattle.gpi.specs.Content.{no_design};
ghost use Rattle.fast_kernel.specs.Whole.{kernel_content};

use crate::opening::opened;
use crate::simulation::Simulation;
use four_value::Bits;
use gpi::{Advance, Counts, Fired, Flat, Gpi, Key, Region, SigId};
use kernel_base::Simulated;
use port_io::NoMemory;
use std::alloc::Global;

/// A simulator of one design; none before the first `load`. An event takes as long as it touches signals and wakes processes.
#[derive(Drop)]
pub struct FastKernel {
    simulation: Option<Simulation>,
}

impl FastKernel {
    /// A simulator without a design. It takes no memory.
    pub fn new() -> FastKernel
        ensures { kernel_content result ≡ no_design }
    {
        FastKernel { simulation: None }
    }
}

impl Gpi for FastKernel {
    ghost use Rattle.fast_kernel.specs.Whole.{kernel_content, HoldsDesign};

    ghost content = { kernel_content };

    ghost is_loaded = { HoldsDesign };

    fn load(&mut self, alloc: Global, flat: &Flat) -> Result<(), NoMemory> {
        self.simulation = None;
        self.simulation = Some(opened(alloc, flat)?);
        Ok(())
    }

    fn now(&self) -> u64 {
        match &self.simulation {
            Some(simulation) => simulation.time,
            None => 0,
        }
    }

    fn region(&self) -> Region {
        match &self.simulation {
            Some(simulation) => simulation.region,
            None => Region::Begin,
        }
    }

    fn counts(&self) -> Counts {
        match &self.simulation {
            Some(simulation) => simulation.book.counts(),
            None => Counts {
                primed: 0,
                removed: 0,
                fired: 0,
            },
        }
    }

    fn read(&self, sig: SigId) -> Bits {
        self.simulation.as_ref().unwrap().shown[sig.0 as usize]
    }

    fn deposit(&mut self, sig: SigId, bits: Bits) -> Fired {
        self.simulation.as_mut().unwrap().put(sig, bits).fired
    }

    fn force(&mut self, sig: SigId, bits: Bits) -> Fired {
        self.simulation.as_mut().unwrap().put_force(sig, bits).fired
    }

    fn release(&mut self, sig: SigId) -> Fired {
        self.simulation.as_mut().unwrap().end_force(sig).fired
    }

    #[tactic(auto, using(kernel_base::proofs::Hiding::hidden_places))]
    fn is_forced(&self, sig: SigId) -> bool {
        self.simulation.as_ref().unwrap().hidden_at(sig).is_some()
    }

    fn register(&mut self, key: Key) -> Result<(), NoMemory> {
        self.simulation.as_mut().unwrap().register(key)
    }

    fn remove(&mut self, key: Key) {
        self.simulation.as_mut().unwrap().remove(key);
    }

    fn idle(&self) -> bool {
        self.simulation.as_ref().unwrap().idle()
    }

    fn advance(&mut self) -> Result<Advance, NoMemory> {
        self.simulation.as_mut().unwrap().one_event()
    }
}
