//! What a simulator is asked, and what it tells.
use four_value::Bits;

/// A signal, by its number in the design.
#[derive(Clone, Copy, Debug, PartialEq, Eq)]
pub struct SigId(pub u32);

/// Where a simulation stands within a time step (IEEE 1364-2005, clause 11.3).
#[derive(Clone, Copy, Debug, PartialEq, Eq)]
pub enum Region {
    /// The time has just moved on, or nothing has happened yet.
    Begin,
    /// The last event was one of the design.
    Active,
    /// The design is settled, and those who waited to write were told so.
    Settle,
    /// The time step is over for all who write.
    End,
}

/// The latest time, in steps, for which a key may be registered.
pub const LATEST_TIME: u64 = 9_223_372_036_854_775_808;

/// The latest time, in steps, at which a delayed update may arrive: a later one is given up.
pub const LATEST_UPDATE: u64 = 4_611_686_018_427_387_904;

/// What can be waited for.
#[derive(Clone, Copy, Debug, PartialEq, Eq)]
pub enum Key {
    /// This time, in steps.
    At(u64),
    /// A change of a one bit signal to 1.
    Rise(SigId),
    /// A change of a one bit signal to 0.
    Fall(SigId),
    /// A change of a signal.
    Change(SigId),
    /// The design is settled, and may be written.
    ReadWrite,
    /// The design is settled, and is only read for the rest of this time step.
    ReadOnly,
    /// The next time step.
    NextStep,
}

/// The keys that one event fired, in order: at most two.
#[derive(Clone, Copy, Debug)]
pub struct Fired {
    pub first: Option<Key>,
    pub second: Option<Key>,
}

/// A change that an event tells: the signal, and its value from now on.
#[derive(Clone, Copy, Debug)]
pub struct Told {
    pub sig: SigId,
    pub bits: Bits,
}

/// A change of a signal: its value before and after.
#[derive(Clone, Copy, Debug)]
pub struct Report {
    pub sig: SigId,
    pub before: Bits,
    pub after: Bits,
}

/// An update of a signal (IEEE 1364-2005, clause 11.2): these digits from the place `low` on, so many steps after the
/// assignment (clause 9.2.2), 0 for one without a delay.
#[derive(Clone, Copy, Debug)]
pub struct Update {
    pub sig: SigId,
    pub low: u8,
    pub bits: Bits,
    pub delay: u64,
}

/// An update that waits for its time, in steps.
#[derive(Clone, Copy, Debug)]
pub struct Delayed {
    pub time: u64,
    pub update: Update,
}

/// What a test writes to a signal.
#[derive(Clone, Copy, Debug)]
pub enum Write {
    /// A value that the next change of the design replaces.
    Plain(Bits),
    /// A value that the signal shows until it is released (IEEE 1364-2005, clause 9.3.2).
    Force(Bits),
    /// The value that it shows at that moment, which it goes on to show until it is released.
    Freeze,
    /// The end of a force (clause 9.3.2).
    Release,
}

/// What an event did: the change that it tells, and the keys that it fired.
#[derive(Clone, Copy, Debug)]
pub struct Moved {
    pub change: Option<Told>,
    pub fired: Fired,
}

/// The answer to a call for one event.
#[derive(Clone, Copy, Debug)]
pub enum Advance {
    /// There was an event.
    Moved(Moved),
    /// Nothing is pending that a wait could bring about, and nothing has changed.
    Idle,
}

/// How many keys were registered, removed and fired. A count that has reached 2^64 - 1 stays there.
#[derive(Clone, Copy, Debug, PartialEq, Eq)]
pub struct Counts {
    pub primed: u64,
    pub removed: u64,
    pub fired: u64,
}
