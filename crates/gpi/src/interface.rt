//! The interface of a simulator.
use crate::design::Flat;
use crate::types::{Advance, Counts, Fired, Key, Region, SigId};
use four_value::Bits;
use port_io::NoMemory;
use std::alloc::Global;

/// A simulator of one design (IEEE 1364-2005, clause 11), event by event.
///
/// Contracts see what it holds as a `Content`: the processes, which signals are nets, the state, the registered keys, by membership alone, and the
/// counts. Before the first `load`, and after one that found no memory, it holds no design, and only `load`, `now`, `region`
/// and `counts` are called.
pub trait Gpi {
    ghost use Rattle.std.specs.Prelude.{◌≡◌, ◌<◌, ℕ, List, length, IfOk, OnOk, OnErr, false, IsTrue};
    ghost use Rattle.gpi.specs.Terms.{widths_of};
    ghost use Rattle.gpi.specs.Soundness.{IsSoundFlat};
    ghost use Rattle.gpi.specs.Keys.{has, fired_of, is_time};
    ghost use Rattle.gpi.specs.State.{is_end};
    ghost use Rattle.gpi.specs.Events.{event, idle, put, force, release, is_forced, value_at};
    ghost use Rattle.gpi.specs.Content.{Content, opening, no_design, Does, Answers, IsAsked, Registers, Removes, IsRunning, IsToldOf};
    ghost use Rattle.gpi.specs.declared.types.Key.{Key};

    /// The processes, which signals are nets, the state, the registered keys and the counts.
    ghost content: { Self → Content };

    /// It holds a design.
    ghost is_loaded: { Self → Type 0 };

    /// Takes a design: whatever the simulator held, it is then in the opening state of that design, with no key registered
    /// and the counts 0. Where there is no memory it holds no design.
    fn load(&mut self, alloc: Global, flat: &Flat) -> Result<(), NoMemory>
        requires { IsSoundFlat flat.now }
        ensures opening { OnOk result (content self.new ≡ opening flat.now) }
        ensures loaded { OnOk result (is_loaded self.new) }
        ensures none { OnErr result (content self.new ≡ no_design) };

    /// The time, in steps.
    fn now(&self) -> u64
        ensures { result ≡ (content self.now).state.time };

    /// Where in the time step the simulation stands.
    fn region(&self) -> Region
        ensures { result ≡ (content self.now).state.region };

    /// How many keys were registered, removed and fired since the last `load`.
    fn counts(&self) -> Counts
        ensures { result ≡ (content self.now).counts };

    /// The value that a signal shows. It takes no memory.
    fn read(&self, sig: SigId) -> Bits
        requires loaded { is_loaded self.now }
        requires sig { sig.0 < length (content self.now).state.signals }
        ensures { result ≡ value_at (content self.now).state sig };

    /// Writes a signal at once: where its value changes, processes are woken and the keys of the change fire. Of a forced signal
    /// the hidden value alone is written. It takes no memory.
    fn deposit(&mut self, sig: SigId, bits: Bits) -> Fired
        requires loaded { is_loaded self.old }
        requires open { is_end (content self.old).state.region ≡ false }
        requires sig { sig.0 < length (content self.old).state.signals }
        requires width { length bits ≡ length (value_at (content self.old).state sig) }
        ensures loaded { is_loaded self.new }
        ensures is { let e = put (content self.old).procs (content self.old).state (content self.old).keys sig bits in
            (result ≡ fired_of e.fired) × Does (content self.old) e (content self.new) }
        ensures widths { widths_of (content self.new).state.signals ≡ widths_of (content self.old).state.signals };

    /// Forces a signal (IEEE 1364-2005, clause 9.3.2): it shows these digits from now on, whatever the design or a deposit
    /// writes, until it is released; what they write is kept hidden, and at first it is what the signal showed. Where the
    /// shown value changes, processes are woken and the keys of the change fire. It takes no memory.
    fn force(&mut self, sig: SigId, bits: Bits) -> Fired
        requires loaded { is_loaded self.old }
        requires open { is_end (content self.old).state.region ≡ false }
        requires sig { sig.0 < length (content self.old).state.signals }
        requires width { length bits ≡ length (value_at (content self.old).state sig) }
        ensures loaded { is_loaded self.new }
        ensures is { let e = force (content self.old).procs (content self.old).state (content self.old).keys sig bits in
            (result ≡ fired_of e.fired) × Does (content self.old) e (content self.new) }
        ensures widths { widths_of (content self.new).state.signals ≡ widths_of (content self.old).state.signals };

    /// Ends a force (clause 9.3.2): a net shows the hidden value, and where that is a change processes are woken and the keys of
    /// the change fire; a register goes on with what it shows. Of a signal that isn't forced nothing changes. It takes no memory.
    fn release(&mut self, sig: SigId) -> Fired
        requires loaded { is_loaded self.old }
        requires open { is_end (content self.old).state.region ≡ false }
        requires sig { sig.0 < length (content self.old).state.signals }
        ensures loaded { is_loaded self.new }
        ensures is { let c = content self.old in let e = release c.procs c.nets c.state c.keys sig in
            (result ≡ fired_of e.fired) × Does c e (content self.new) }
        ensures widths { widths_of (content self.new).state.signals ≡ widths_of (content self.old).state.signals };

    /// Whether a signal is forced. It takes no memory.
    fn is_forced(&self, sig: SigId) -> bool
        requires loaded { is_loaded self.now }
        requires sig { sig.0 < length (content self.now).state.signals }
        ensures { result ≡ is_forced (content self.now).state sig };

    /// Registers a key. Only for a time can memory be wanting, and then nothing has changed.
    fn register(&mut self, key: Key) -> Result<(), NoMemory>
        requires loaded { is_loaded self.old }
        requires asked { IsAsked (length (content self.old).state.signals) (content self.old).state key }
        requires new { has key (content self.old).keys ≡ false }
        ensures loaded { is_loaded self.new }
        ensures is { OnOk result (Registers (content self.old) key (content self.new)) }
        ensures kept { OnErr result (content self.new ≡ content self.old) }
        ensures cause { OnErr result (IsTrue (is_time key)) };

    /// Removes a registered key. It takes no memory.
    fn remove(&mut self, key: Key)
        requires loaded { is_loaded self.old }
        requires there { IsTrue (has key (content self.old).keys) }
        ensures loaded { is_loaded self.new }
        ensures is { Removes (content self.old) key (content self.new) };

    /// Whether `advance` would answer `Idle`. It takes no memory.
    fn idle(&self) -> bool
        requires { is_loaded self.now }
        ensures { result ≡ idle (content self.now).procs (content self.now).state (content self.now).keys };

    /// One event. Only where a process is to run can memory be wanting, and then nothing has changed.
    fn advance(&mut self) -> Result<Advance, NoMemory>
        requires { is_loaded self.old }
        ensures loaded { is_loaded self.new }
        ensures is { let c = content self.old in
            IfOk result (λ answer. Answers c (event c.procs c.state c.keys) answer (content self.new)) }
        ensures told { IfOk result (IsToldOf (length (content self.old).state.signals)) }
        ensures kept { OnErr result (content self.new ≡ content self.old) }
        ensures cause { OnErr result (IsRunning (content self.old).state) }
        ensures widths { widths_of (content self.new).state.signals ≡ widths_of (content self.old).state.signals };
}
