//! What holds of the items of each queue.
ghost use Rattle.std.specs.Prelude.{◌≡◌, ◌∷◌, ◌++◌, ◌<◌, ℕ, false, List, [], length, Some};
ghost use Rattle.py_syntax.specs.declared.fault_kind.FaultKind.{FaultKind};
ghost use Rattle.py_value.specs.declared.trigger.QueueNo.{QueueNo};
ghost use Rattle.py_value.specs.declared.value.Value.{Value};
ghost use Rattle.py_value.specs.declared.value.Value.TheVariants as value;
ghost use Rattle.task_queue.specs.Queues.{queue_at};
ghost use Rattle.test_meaning.specs.Body.BodyTrees.{Case};
ghost use Rattle.rig_model.specs.declared.task.task.Turned.TheVariants as turned;
ghost use Rattle.rig_model.specs.Run.Rig.{Rig, Setup};
ghost use Rattle.rig_model.specs.Run.Run.{Run};
ghost use Rattle.rig_model.specs.Run.Step.{rig_step};
ghost use Rattle.run_laws.specs.Items.Account.{
  Account,
  IsBalanced,
  IsPutAnswer,
  account,
  accounted,
  goes_on_with_fault,
  goes_on_with_value,
  is_for,
  items_after,
  wish,
};
ghost use Rattle.run_laws.specs.Places.Reached.{IsReached, IsSoundSetup};
ghost use Rattle.run_laws.specs.Remainder.Alike.{turn_of};

/// At every moment of a run, and for every queue of the test that runs, the items that were put into the queue, in order, are those that were given of
/// it, in order, followed by those that it holds: none is lost, none comes twice, and none overtakes another, whoever is killed and whatever times out.
pub fn items_are_neither_lost_nor_doubled()
    ensures { (setup : Setup) (seed : ℕ) (cases : List Case) (budget count : ℕ) (queue : QueueNo)
        → IsBalanced (account setup queue budget count seed cases) (items_after setup queue budget count seed cases) }
{}

/// A step in a test that is no put into a queue and no get from it, as a kill, a wait that times out, a deadline or an event of the simulator, changes
/// neither the items that it holds nor what it was given and has given.
pub fn other_steps_leave_items()
    ensures items { (setup : Setup) (c : Rig) (queue : QueueNo) → is_for queue (wish setup c) ≡ false
        → (queue_at queue (rig_step setup c).rig.queues).items ≡ (queue_at queue c.queues).items }
    ensures account { (setup : Setup) (c : Rig) (queue : QueueNo) (a : Account) → is_for queue (wish setup c) ≡ false
        → accounted setup queue c a ≡ a }
{}

/// The item that a get takes out of a queue is the one that its task is given, at the same step: no item waits in between for a task that may be killed.
pub fn taken_items_are_given()
    ensures { (setup : Setup) (c : Rig) (queue : QueueNo) (item : Value) (items : List Value)
        → wish setup c ≡ Some (turned.GetNow queue) → (queue_at queue c.queues).items ≡ item ∷ items
        → (rig_step setup c).rig.running ≡ goes_on_with_value item (turn_of c.running c.ready c) }
{}

/// A put whose task goes on with None has stored its item behind the others, and one that raises a fault in its task has left them as they were. Each
/// put is answered by None or by a fault, `QueueFull` or `RuntimeError` (cocotb 1.8, `cocotb.queue.Queue`), so none drops its item in silence.
///
/// The queue is one that was made. In the runs of a sound setup it always is.
pub fn put_items_are_stored()
    ensures stored { (setup : Setup) (c : Rig) (queue : QueueNo) (item : Value)
        → wish setup c ≡ Some (turned.PutNow queue item) → queue.0 < length c.queues
        → (rig_step setup c).rig.running ≡ goes_on_with_value value.Absent (turn_of c.running c.ready c)
        → (queue_at queue (rig_step setup c).rig.queues).items ≡ (queue_at queue c.queues).items ++ item ∷ [] }
    ensures refused { (setup : Setup) (c : Rig) (queue : QueueNo) (item : Value) (kind : FaultKind)
        → wish setup c ≡ Some (turned.PutNow queue item)
        → (rig_step setup c).rig.running ≡ goes_on_with_fault kind (turn_of c.running c.ready c)
        → (queue_at queue (rig_step setup c).rig.queues).items ≡ (queue_at queue c.queues).items }
    ensures answered { (setup : Setup) (c : Rig) (queue : QueueNo) (item : Value) → wish setup c ≡ Some (turned.PutNow queue item)
        → IsPutAnswer (turn_of c.running c.ready c) (rig_step setup c).rig.running }
    ensures made { (setup : Setup) (seed : ℕ) (cases : List Case) (run : Run) (queue : QueueNo) (item : Value)
        → IsSoundSetup setup → IsReached setup seed cases run → wish setup run.rig ≡ Some (turned.PutNow queue item)
        → queue.0 < length run.rig.queues }
{}
