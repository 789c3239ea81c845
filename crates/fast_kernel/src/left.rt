//! What is still to be done.
ghost use Rattle.std.specs.Prelude.{◌≡◌, ◌++◌, not};
ghost use Rattle.gpi.specs.Keys.{least};
ghost use Rattle.gpi.specs.State.{delayed_times};
ghost use Rattle.kernel_base.specs.Lists.{is_empty};
ghost use Rattle.fast_kernel.specs.Kernel.{content_of, pending};

use crate::simulation::Simulation;
use kernel_base::sooner;

impl Simulation {
    /// The next time at which something is to happen: a registered one, or that of a delayed update.
    pub fn next_time(&self) -> Option<u64>
        ensures { let c = content_of self.now in result ≡ least (delayed_times c.state.delayed ++ c.keys.times) }
    {
        sooner(self.queue.least_delayed(), self.queue.least_time())
    }

    /// Whether a change is still to be told.
    #[tactic(auto, using(event_queue::proofs::Ordered::any_left))]
    pub fn has_report(&self) -> bool
        ensures { result ≡ not (is_empty (pending self.now)) }
    {
        self.told < self.reports.len()
    }

    /// Whether a process is active.
    pub fn has_active(&self) -> bool
        ensures { result ≡ not (is_empty (content_of self.now).state.active) }
    {
        self.queue.first().is_some()
    }
}
