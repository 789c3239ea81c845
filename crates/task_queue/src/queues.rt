//! The queues of a test, by number.
ghost use Rattle.std.specs.Prelude.{◌≡◌, ◌<◌, ◌∷◌, ◌++◌, [], length, IfOk, OnOk, OnErr, MatchOption};
ghost use Rattle.task_queue.specs.Queues as meaning;
ghost use Rattle.task_queue.specs.Puts.{put_answer, after_put, Gives};

use crate::kept::{Kept, PutAnswer};
use port_io::NoMemory;
use py_value::{EventNo, QueueNo, Value};
use std::alloc::Global;
use std::marker::Model;

/// The queues that were made in a test, which contracts see as the list of them (`TaskQueue` of `specs/Queues.antt`), by number. Only `add`
/// and `put_now` take memory. A queue keeps the room for as many items as it once held; [`clear`](Queues::clear) lets it go.
#[derive(Drop)]
pub struct Queues {
    queues: Vec<Kept>,
    alloc: Global,
}

impl Model for Queues {
    ghost use Rattle.std.specs.Prelude.{◌≤◌, List, length};
    ghost use Rattle.py_value.specs.TriggerCode.{trig_code};
    ghost use Rattle.std.specs.Coded.{codes};
    ghost use Rattle.task_queue.specs.Queues.{TaskQueue, queue_limit};

    ghost Value = { List TaskQueue };

    ghost coded = { Prim.hlevel (codes, trig_code) };

    ghost view = { λ q. q.queues.items };

    ghost invariant = { λ q. length q.queues.items ≤ queue_limit };
}

impl Queues {
    /// No queue. It takes no memory.
    pub fn new(alloc: Global) -> Queues
        ensures { result ≡ [] }
    {
        Queues {
            queues: Vec::new(alloc),
            alloc,
        }
    }

    /// Makes a queue, which is empty, with its bound and its two events, and answers its number; the bound 0 means that it has none. There must
    /// be fewer than 32,768 queues. Only want of memory is an error, and after it nothing has changed.
    pub fn add(
        &mut self,
        bound: u32,
        items_event: EventNo,
        space_event: EventNo,
    ) -> Result<QueueNo, NoMemory>
        requires { length self.old < meaning.queue_limit }
        ensures number { IfOk result (λ queue. queue.0 ≡ length self.old) }
        ensures ok { OnOk result (self.new ≡ self.old ++ meaning.fresh bound items_event space_event ∷ []) }
        ensures err { OnErr result (self.new ≡ self.old) }
    {
        let number = self.queues.len() as u32;
        let queue = Kept::new(self.alloc, bound, items_event, space_event);
        self.queues.push(queue)?;
        Ok(QueueNo(number))
    }

    /// Puts an item into a queue that was made, where there is room (cocotb 1.8, `Queue.put_nowait`), and tells what became of it. Only want
    /// of memory is an error; after it, and unless the item is stored, nothing has changed.
    pub fn put_now(&mut self, q: QueueNo, item: Value) -> Result<PutAnswer, NoMemory>
        requires { q.0 < length self.old }
        ensures answer { IfOk result (λ answer. answer ≡ put_answer (meaning.queue_at q self.old)) }
        ensures ok { IfOk result (λ answer. self.new ≡ after_put answer q item self.old) }
        ensures err { OnErr result (self.new ≡ self.old) }
    {
        let queue = &mut self.queues[q.0 as usize];
        queue.put(item)
    }

    /// Takes the oldest item out of a queue that was made (cocotb 1.8, `Queue.get_nowait`), or answers `None` where it holds none. It takes no
    /// memory.
    pub fn get_now(&mut self, q: QueueNo) -> Option<Value>
        requires { q.0 < length self.old }
        ensures { MatchOption result (((meaning.queue_at q self.old).items ≡ []) × (self.new ≡ self.old))
            (λ item. Gives q item self.old self.new) }
    {
        let queue = &mut self.queues[q.0 as usize];
        queue.get()
    }

    /// How many items a queue that was made holds (cocotb 1.8, `Queue.qsize`).
    pub fn len(&self, q: QueueNo) -> u32
        requires { q.0 < length self.now }
        ensures { result ≡ length (meaning.queue_at q self.now).items }
    {
        self.queues[q.0 as usize].len()
    }

    /// Whether the bound of a queue that was made is reached (cocotb 1.8, `Queue.full`). One without a bound is never full.
    pub fn is_full(&self, q: QueueNo) -> bool
        requires { q.0 < length self.now }
        ensures { result ≡ meaning.is_full (meaning.queue_at q self.now) }
    {
        self.queues[q.0 as usize].is_full()
    }

    /// The event that tells of items of a queue that was made.
    pub fn items_event(&self, q: QueueNo) -> EventNo
        requires { q.0 < length self.now }
        ensures { result ≡ (meaning.queue_at q self.now).items_event }
    {
        self.queues[q.0 as usize].items_event()
    }

    /// The event that tells of room in a queue that was made.
    pub fn space_event(&self, q: QueueNo) -> EventNo
        requires { q.0 < length self.now }
        ensures { result ≡ (meaning.queue_at q self.now).space_event }
    {
        self.queues[q.0 as usize].space_event()
    }

    /// Drops all queues with their items, as the end of a test does. It takes no memory.
    pub fn clear(&mut self)
        ensures { self.new ≡ [] }
    {
        self.queues.clear();
    }
}
