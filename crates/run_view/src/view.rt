//! What a task sees of a running simulation.
ghost use Rattle.std.specs.Prelude.{◌≡◌};
ghost use Rattle.run_view.specs.View.{view_of, IsOf, HaveEvents};

use crate::design_names::DesignNames;
use await_tree::ended_tasks::EndedTasks;
use await_tree::sync_objects::Objects;
use four_value::Bits;
use gpi::{Flat, Gpi, Region, SigId, Spot};
use port_io::Name;
use py_evaluate::attribute::Look;
use py_value::{EventNo, LockNo, Paths, QueueNo, TaskNo};
use std::marker::Model;
use task_queue::Queues;

/// What a task sees of a simulator that runs a design, of the events, locks and queues of the test, and of how its tasks have ended,
/// which contracts see as the `View` that `view_of` of `specs/View.antt` gives of these.
pub struct RunView<'a, K: Gpi> {
    kernel: &'a K,
    flat: &'a Flat,
    names: &'a DesignNames<'a>,
    objects: &'a Objects,
    queues: &'a Queues,
    ended: &'a EndedTasks,
}

impl<'a, K: Gpi> Model for RunView<'a, K> {
    ghost use Rattle.py_evaluate.specs.Attribute.Look.{View};
    ghost use Rattle.run_view.specs.View.{view_of, IsOf, HaveEvents};

    ghost Value = { View };

    ghost view = { λ v. view_of v.flat.now (K.content v.kernel.now).state v.objects.now v.queues.now v.ended.now };

    ghost invariant = { λ v. K.is_loaded v.kernel.now × IsOf v.flat.now v.names.now (K.content v.kernel.now).state
        × HaveEvents v.objects.now v.queues.now };
}

impl<'a, K: Gpi> Drop for RunView<'a, K> {
    fn drop(self) {
        let RunView {
            kernel: _,
            flat: _,
            names: _,
            objects: _,
            queues: _,
            ended: _,
        } = self;
    }
}

impl<'a, K: Gpi> RunView<'a, K> {
    /// The view of a simulator that holds a design, with this design's names. The design must be sound, and the simulator must have a value
    /// for each of its signals; both events of each queue were made. It takes no memory.
    pub fn new(
        kernel: &'a K,
        flat: &'a Flat,
        names: &'a DesignNames<'a>,
        objects: &'a Objects,
        queues: &'a Queues,
        ended: &'a EndedTasks,
    ) -> RunView<'a, K>
        requires loaded { K.is_loaded kernel.now }
        requires design { IsOf flat.now names.now (K.content kernel.now).state }
        requires events { HaveEvents objects.now queues.now }
        ensures { result ≡ view_of flat.now (K.content kernel.now).state objects.now queues.now ended.now }
    {
        RunView {
            kernel,
            flat,
            names,
            objects,
            queues,
            ended,
        }
    }
}

impl<'a, K: Gpi> Paths for RunView<'a, K> {
    ghost places = { λ v. v.places };

    fn path(&self, sig: SigId) -> &[u8] {
        self.flat.path(sig)
    }

    fn node_path(&self, node: u32) -> &[u8] {
        self.flat.node_path(node)
    }
}

impl<'a, K: Gpi> Look for RunView<'a, K> {
    ghost use Rattle.std.specs.Prelude.{refl};

    ghost view = { λ v. v };

    fn now(&self) -> u64 {
        self.kernel.now()
    }

    fn region(&self) -> Region {
        self.kernel.region()
    }

    fn step_fs(&self) -> u64 {
        self.flat.step_fs
    }

    fn read(&self, sig: SigId) -> Bits {
        self.kernel.read(sig)
    }

    fn width(&self, sig: SigId) -> u8 {
        self.kernel.read(sig).width()
    }

    fn child(&self, node: u32, name: &Name) -> Option<Spot> {
        self.names.child(node, name)
    }

    fn is_set(&self, event: EventNo) -> bool {
        self.objects.is_set(event)
    }

    fn is_locked(&self, lock: LockNo) -> bool {
        self.objects.is_locked(lock)
    }

    fn is_done(&self, task: TaskNo) -> bool {
        self.ended.is_done(task)
    }

    fn queue_len(&self, q: QueueNo) -> u32 {
        self.queues.len(q)
    }

    fn queue_full(&self, q: QueueNo) -> bool {
        self.queues.is_full(q)
    }

    fn queue_items(&self, q: QueueNo) -> EventNo {
        self.queues.items_event(q)
    }

    fn queue_space(&self, q: QueueNo) -> EventNo {
        self.queues.space_event(q)
    }

    fn names_are_known(&self) {
        let _ = &self.flat;
    }

    fn queues_are_known(&self) {
        let _ = &self.queues;
    }

    ghost told = { λ v. refl };
}
