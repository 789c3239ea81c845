//! Triggers.
ghost use Rattle.std.specs.Prelude.{◌≡◌, ◌<◌, ◌++◌, ◌∷◌, [], length, slice_get, Some, OnOk, OnErr};

use gpi::SigId;
use port_io::NoMemory;
use std::alloc::Global;
use std::marker::Model;

/// A task (cocotb 1.8, "Coroutines and Tasks"), by its number from 0 in the test, in the order in which tasks are started.
/// Task 0 is the test's own.
#[derive(Clone, Copy, Debug, PartialEq, Eq)]
pub struct TaskNo(pub u32);

/// An event (cocotb 1.8, "Triggers", `Event`), by its number from 0 in the test, in the order in which events are made.
#[derive(Clone, Copy, Debug, PartialEq, Eq)]
pub struct EventNo(pub u32);

/// A lock (cocotb 1.8, "Triggers", `Lock`), by its number from 0 in the test, in the order in which locks are made.
#[derive(Clone, Copy, Debug, PartialEq, Eq)]
pub struct LockNo(pub u32);

/// A queue (cocotb 1.8, `cocotb.queue.Queue`), by its number from 0 in the test, in the order in which queues are made.
#[derive(Clone, Copy, Debug, PartialEq, Eq)]
pub struct QueueNo(pub u32);

/// Which trigger it is: the task that made it, and its number in that task.
#[derive(Clone, Copy, Debug, PartialEq, Eq)]
pub struct TrigId {
    /// The task that made it.
    pub task: TaskNo,
    /// How many triggers that task had made before it.
    pub number: u64,
}

/// A trigger (cocotb 1.8, "Triggers"), which contracts see as a `Trig` of `specs/Trigger.antt`, without where its parts lie in
/// memory. `IsSound` there says which can be waited for.
#[cycle(trigger)]
#[derive(Drop)]
pub struct Trig {
    /// Which one it is.
    pub id: TrigId,
    /// What it waits for.
    pub form: Form,
}

/// What a trigger waits for.
#[cycle(trigger)]
#[derive(Drop)]
pub enum Form {
    /// So many steps of simulated time, from the await on: `Timer`.
    Time(u64),
    /// A change of a signal of one bit to 1: `RisingEdge`.
    Rise(SigId),
    /// A change of a signal of one bit to 0: `FallingEdge`.
    Fall(SigId),
    /// A change of a signal: `Edge`.
    Change(SigId),
    /// The phase in which the design is settled and may be written: `ReadWrite`.
    ReadWrite,
    /// The phase in which the design is settled and is only read: `ReadOnly`.
    ReadOnly,
    /// The next time step: `NextTimeStep`.
    NextStep,
    /// So many edges of one kind of a signal of one bit: `ClockCycles`.
    Cycles {
        sig: SigId,
        count: u64,
        rising: bool,
    },
    /// An event is set: `Event.wait`.
    Event(EventNo),
    /// A lock is free, which it then takes: `Lock.acquire`.
    Lock(LockNo),
    /// A task has ended: `Join`.
    Join(TaskNo),
    /// One of these: `First`.
    First(Trigs),
    /// All of these: `Combine`.
    Combine(Trigs),
    /// One trigger, and the steps after which it is given up: `with_timeout`.
    Limit {
        inner: Trigs,
        steps: u64,
    },
}

/// Triggers in order, which contracts see as the list `list.items`. Only `push` takes memory.
#[cycle(trigger)]
#[derive(Drop)]
pub struct Trigs {
    pub(crate) list: Vec<Trig>,
}

impl Model for Trig {
    ghost use Rattle.py_value.specs.Trigger as trigger;
    ghost use Rattle.py_value.specs.TriggerCode as code;

    ghost Value = { trigger.Trig };

    ghost coded = { code.trig_code };

    ghost use Rattle.py_value.specs.TriggerView.{view_form};

    ghost view = { λ t. trigger.Made t.id (view_form t.form) };

    ghost size = { code.size };

    ghost use Rattle.py_value.specs.TriggerFalls.{form_falls};

    ghost size_decreases = { λ t h. form_falls t.form };
}

impl Trigs {
    /// No trigger. It takes no memory.
    pub fn new(alloc: Global) -> Trigs
        ensures { result.list.items ≡ [] }
    {
        Trigs {
            list: Vec::new(alloc),
        }
    }

    /// Adds a trigger at the end. Only want of memory is an error, and then the triggers are as before.
    pub fn push(&mut self, trig: Trig) -> Result<(), NoMemory>
        ensures ok { OnOk result (self.new.list.items ≡ self.old.list.items ++ trig ∷ []) }
        ensures err { OnErr result (self.new.list.items ≡ self.old.list.items) }
    {
        self.list.push(trig)?;
        Ok(())
    }

    /// How many triggers there are. It takes no memory.
    pub fn len(&self) -> usize
        ensures { result ≡ length self.now.list.items }
    {
        self.list.len()
    }

    /// The trigger at that place, counted from 0. It takes no memory.
    pub fn get(&self, at: usize) -> &Trig
        requires { at < length self.now.list.items }
        ensures { slice_get self.now.list.items at ≡ Some result.now }
    {
        &self.list[at]
    }
}
