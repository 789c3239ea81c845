//! One queue.
ghost use Rattle.std.specs.Prelude.{◌≡◌, ◌∷◌, [], drop, length, IfOk, OnErr, MatchOption};
ghost use Rattle.task_queue.specs.Queues as meaning;
ghost use Rattle.task_queue.specs.Puts.{put_answer, items_after};

use port_io::NoMemory;
use py_value::{EventNo, Value};
use std::alloc::Global;
use std::collections::VecDeque;
use std::marker::Model;

/// What became of an item that was put into a queue at once (cocotb 1.8, `Queue.put_nowait`).
#[derive(Clone, Copy, Debug, PartialEq, Eq)]
pub enum PutAnswer {
    /// It stands behind the others.
    Stored,
    /// As many items stand in the queue as its bound tells, and it wasn't put.
    Full,
    /// The queue has no bound and holds 65,536 items, and it wasn't put.
    AtLimit,
}

/// How many items a queue without a bound may hold.
const ITEM_LIMIT: usize = 65_536;

/// A queue, which contracts see as a `TaskQueue` of `specs/Queues.antt`. Only `put` takes memory.
#[derive(Drop)]
pub struct Kept {
    // how many items it may hold, or 0 where it has no bound
    bound: u32,
    // the oldest first
    items: VecDeque<Value>,
    items_event: EventNo,
    space_event: EventNo,
}

impl Model for Kept {
    ghost use Rattle.py_value.specs.TriggerCode.{trig_code};
    ghost use Rattle.std.specs.Coded.{codes};
    ghost use Rattle.task_queue.specs.Queues.{TaskQueue};

    ghost Value = { TaskQueue };

    ghost coded = { Prim.hlevel (codes, trig_code) };

    ghost use Rattle.task_queue.specs.Puts.{IsWithin};
    ghost use Rattle.std.specs.Prelude.{length};

    ghost view = { λ q. record { bound = q.bound; items = q.items.items; items_event = q.items_event; space_event = q.space_event } };

    ghost invariant = { λ q. IsWithin q.bound (length q.items.items) };
}

impl Kept {
    /// An empty queue, with its bound, which is 0 where it has none, and its events. It takes no memory.
    pub fn new(alloc: Global, bound: u32, items_event: EventNo, space_event: EventNo) -> Kept
        ensures { result ≡ meaning.fresh bound items_event space_event }
    {
        Kept {
            bound,
            items: VecDeque::new(alloc),
            items_event,
            space_event,
        }
    }

    /// How many items it holds.
    #[tactic(auto, using(crate::proofs::Capacities::within_fits))]
    pub fn len(&self) -> u32
        ensures { result ≡ length self.now.items }
    {
        self.items.len() as u32
    }

    /// Whether its bound is reached.
    pub fn is_full(&self) -> bool
        ensures { result ≡ meaning.is_full self.now }
    {
        self.bound != 0 && self.items.len() >= self.bound as usize
    }

    /// Whether it has no bound, and holds as many items as it may.
    fn is_at_limit(&self) -> bool
        ensures { result ≡ meaning.is_at_limit self.now }
    {
        self.bound == 0 && self.items.len() >= ITEM_LIMIT
    }

    /// The event that is set while it has an item.
    pub fn items_event(&self) -> EventNo
        ensures { result ≡ self.now.items_event }
    {
        self.items_event
    }

    /// The event that is set while it isn't full.
    pub fn space_event(&self) -> EventNo
        ensures { result ≡ self.now.space_event }
    {
        self.space_event
    }

    /// Puts an item behind the others, where there is room. Only want of memory is an error, and after it the queue is as before.
    pub fn put(&mut self, item: Value) -> Result<PutAnswer, NoMemory>
        ensures answer { IfOk result (λ answer. answer ≡ put_answer self.old) }
        ensures ok { IfOk result (λ answer. self.new ≡ meaning.holding (items_after answer item self.old.items) self.old) }
        ensures err { OnErr result (self.new ≡ self.old) }
    {
        if self.is_full() {
            return Ok(PutAnswer::Full);
        }
        if self.is_at_limit() {
            return Ok(PutAnswer::AtLimit);
        }
        self.items.push_back(item)?;
        Ok(PutAnswer::Stored)
    }

    /// Takes the oldest item out, or answers `None` where it holds none.
    pub fn get(&mut self) -> Option<Value>
        ensures answer { MatchOption result (self.old.items ≡ []) (λ item. self.old.items ≡ item ∷ drop 1 self.old.items) }
        ensures others { self.new ≡ meaning.holding (drop 1 self.old.items) self.old }
    {
        self.items.pop_front()
    }
}
