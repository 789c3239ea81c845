//! What a task sees.
use four_value::Bits;
use gpi::{Region, SigId, Spot};
use port_io::Name;
use py_value::{EventNo, LockNo, Paths, QueueNo, TaskNo};

/// What a task sees of the simulation and of the runner. No call takes memory.
pub trait Look: Paths {
    ghost use Rattle.std.specs.Prelude.{◌≡◌, ◌<◌, ◌≤◌, length, false, slice_index_or, IfSome};
    ghost use Rattle.py_evaluate.specs.Attribute.Look.{View, read, width, child, spot_value, queue};
    ghost use Rattle.py_evaluate.specs.Attribute.Knows.{Knows, KnowsDesign, KnowsEvents};

    /// What it sees.
    ghost view: { Self → View };

    /// The simulated time, in steps.
    fn now(&self) -> u64
        ensures { result ≡ (view self.now).time };

    /// Where in the time step the simulation stands.
    fn region(&self) -> Region
        ensures { result ≡ (view self.now).region };

    /// How many femtoseconds a step has.
    fn step_fs(&self) -> u64
        ensures is { result ≡ (view self.now).step_fs }
        ensures some { 1 ≤ result };

    /// The value of a signal of the design.
    fn read(&self, sig: SigId) -> Bits
        requires { sig.0 < length (view self.now).signals }
        ensures { result ≡ read (view self.now) sig };

    /// How many digits a signal of the design has.
    fn width(&self, sig: SigId) -> u8
        requires { sig.0 < length (view self.now).signals }
        ensures { result ≡ width (view self.now) sig };

    /// What a name means that is declared in a node of the design; None exactly where the node has no such name.
    fn child(&self, node: u32, name: &Name) -> Option<Spot>
        requires { node < length (view self.now).nodes }
        ensures is { result ≡ child (view self.now) node name.now }
        ensures known { IfSome result (λ s. Knows (view self.now) (spot_value s)) };

    /// Whether an event of the test is set.
    fn is_set(&self, event: EventNo) -> bool
        requires { event.0 < length (view self.now).events }
        ensures { result ≡ slice_index_or (view self.now).events event.0 false };

    /// Whether a lock of the test is held.
    fn is_locked(&self, lock: LockNo) -> bool
        requires { lock.0 < length (view self.now).locks }
        ensures { result ≡ slice_index_or (view self.now).locks lock.0 false };

    /// Whether a task of the test has ended.
    fn is_done(&self, task: TaskNo) -> bool
        requires { task.0 < length (view self.now).ended }
        ensures { result ≡ slice_index_or (view self.now).ended task.0 false };

    /// How many items a queue of the test holds.
    fn queue_len(&self, q: QueueNo) -> u32
        requires { q.0 < length (view self.now).queues }
        ensures { result ≡ (queue (view self.now) q).held };

    /// Whether a queue of the test is full.
    fn queue_full(&self, q: QueueNo) -> bool
        requires { q.0 < length (view self.now).queues }
        ensures { result ≡ (queue (view self.now) q).is_full };

    /// The event that is set exactly while a queue of the test has an item. It was made in the test.
    fn queue_items(&self, q: QueueNo) -> EventNo
        requires { q.0 < length (view self.now).queues }
        ensures is { result ≡ (queue (view self.now) q).items_event }
        ensures made { result.0 < length (view self.now).events };

    /// The event that is set exactly while a queue of the test isn't full. It was made in the test.
    fn queue_space(&self, q: QueueNo) -> EventNo
        requires { q.0 < length (view self.now).queues }
        ensures is { result ≡ (queue (view self.now) q).space_event }
        ensures made { result.0 < length (view self.now).events };

    /// That each name that is declared in the design means something that is known. It does nothing, and only carries a proof.
    fn names_are_known(&self)
        ensures { KnowsDesign (view self.now) };

    /// That both events of each queue were made. It does nothing, and only carries a proof.
    fn queues_are_known(&self)
        ensures { KnowsEvents (view self.now) };

    /// The paths that it tells are those that it sees.
    ghost told: { (x : Self) → Self.places x ≡ (view x).places };
}
