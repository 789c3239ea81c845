//! The registered times.
ghost use Rattle.std.specs.Prelude.{◌≡◌, [], false, OnOk, OnErr};
ghost use Rattle.gpi.specs.Keys.{holds, least};
ghost use Rattle.kernel_base.specs.TimeSets.{times_of, sooner, IsWithTime, IsWithoutTime};

use port_io::NoMemory;
use std::alloc::Global;
use std::collections::BTreeSet;

/// A set of times, in steps, as std's ordered set. Contracts see them as `times_of`.
#[derive(Drop)]
pub struct Times {
    set: BTreeSet<u64>,
}

impl Times {
    /// No times. It takes no memory.
    pub fn new(alloc: Global) -> Times
        ensures { times_of result ≡ [] }
    {
        Times {
            set: BTreeSet::new(alloc),
        }
    }

    /// A time is there from now on. Its one error is the want of memory, and then nothing has changed; none is taken for a time that is there.
    pub fn add(&mut self, time: u64) -> Result<(), NoMemory>
        ensures is { OnOk result (IsWithTime time (times_of self.old) (times_of self.new)) }
        ensures kept { OnErr result (times_of self.new ≡ times_of self.old) }
        ensures new { OnErr result (holds time (times_of self.old) ≡ false) }
    {
        self.set.insert(time)?;
        Ok(())
    }

    /// Takes a time out, and tells whether it was there. It takes no memory.
    pub fn take(&mut self, time: u64) -> bool
        ensures there { result ≡ holds time (times_of self.old) }
        ensures is { IsWithoutTime time (times_of self.old) (times_of self.new) }
        ensures kept { result ≡ false → times_of self.new ≡ times_of self.old }
    {
        self.set.remove(&time)
    }

    /// The least time. It takes no memory.
    pub fn least(&self) -> Option<u64>
        ensures { result ≡ least (times_of self.now) }
    {
        match self.set.first() {
            Some(time) => Some(*time),
            None => None,
        }
    }
}

/// The lesser of two times, where there are any.
pub fn sooner(first: Option<u64>, second: Option<u64>) -> Option<u64>
    ensures { result ≡ sooner first second }
{
    match (first, second) {
        (None, other) => other,
        (Some(time), Some(other)) if other < time => Some(other),
        (Some(time), _) => Some(time),
    }
}
