//! The calls of a store or a sink in memory, some of which fail.
ghost use Rattle.std.specs.Prelude.{◌≡◌, ◌≤◌, [], ◌∷◌, ◌++◌, OnOk, OnErr};
ghost use Rattle.port_io.specs.Ports.{next_count};
ghost use Rattle.port_io.specs.Memory.{fails_at};

use crate::NoMemory;
use std::alloc::Global;

/// How many calls there were, the numbers of those that fail, and how many did.
#[derive(Drop)]
pub(crate) struct Calls {
    made: u64,
    failing: Vec<u64>,
    faults: u64,
}

impl Calls {
    /// No call yet, of which none is to fail.
    pub(crate) fn new(alloc: Global) -> Self
        ensures made { result.made ≡ 0 }
        ensures failing { result.failing.items ≡ [] }
        ensures faults { result.faults ≡ 0 }
    {
        Calls {
            made: 0,
            failing: Vec::new(alloc),
            faults: 0,
        }
    }

    /// Lets the call of that number fail.
    pub(crate) fn fail_at(&mut self, call: u64) -> Result<(), NoMemory>
        ensures made { self.new.made ≡ self.old.made }
        ensures added { OnOk result (self.new.failing.items ≡ self.old.failing.items ++ call ∷ []) }
        ensures kept { OnErr result (self.new.failing.items ≡ self.old.failing.items) }
        ensures faults { self.new.faults ≡ self.old.faults }
    {
        self.failing.push(call)?;
        Ok(())
    }

    /// Counts a call, and says whether it is one that fails.
    pub(crate) fn begin(&mut self) -> bool
        ensures made { self.new.made ≡ next_count self.old.made }
        ensures fails { result ≡ fails_at self.old.failing.items self.old.made }
        ensures failing { self.new.failing.items ≡ self.old.failing.items }
        ensures faults { self.new.faults ≡ self.old.faults }
    {
        self.made = self.made.saturating_add(1);
        let call = self.made;
        self.failing.iter().any(|failing| *failing == call)
    }

    /// Counts a fault.
    pub(crate) fn fail(&mut self)
        ensures made { self.new.made ≡ self.old.made }
        ensures failing { self.new.failing.items ≡ self.old.failing.items }
        ensures faults { self.new.faults ≡ next_count self.old.faults }
        ensures grown { self.old.faults ≤ self.new.faults }
    {
        self.faults = self.faults.saturating_add(1);
    }
}
