//! Queues, and their bounds.
ghost use Rattle.std.specs.Prelude.{◌≡◌, ◌<◌, IfOk, length};
ghost use Rattle.py_evaluate.specs.Attribute.Knows.{Knows};
ghost use Rattle.rig_model.specs.Task.Awaits as awaits;
ghost use Rattle.rig_model.specs.Task.Values as meaning;

use py_evaluate::attribute::Look;
use py_syntax::FaultKind;
use py_value::{QueueNo, Value};

/// The greatest bound of a queue: `item_limit` of `task_queue`.
const BOUND_LIMIT: i128 = 65536;

/// The queue that a value is (cocotb 1.8, `cocotb.queue.Queue`), which was made in the test. What is none is an AttributeError. It takes no memory.
pub fn queue_of<V: Look>(view: &V, v: &Value) -> Result<QueueNo, FaultKind>
    requires { Knows (V.view view.now) v.now }
    ensures is { result ≡ awaits.queue_of v.now }
    ensures known { IfOk result (λ q. q.0 < length (V.view view.now).queues) }
{
    match v {
        Value::Queue(queue) => Ok(*queue),
        _ => Err(FaultKind::AttributeError),
    }
}

/// The bound that a number says: none below 1, which is 0, and over 65,536 a ValueError.
#[tactic(auto, using(crate::proofs::StatementValuesLemmas::Spans::bounds))]
fn bound_of(n: i128) -> Result<u32, FaultKind>
    ensures { result ≡ meaning.bound_of n }
{
    if n < 0 {
        Ok(0)
    } else if n <= BOUND_LIMIT {
        Ok(n as u32)
    } else {
        Err(FaultKind::ValueError)
    }
}

/// The bound of a queue, `maxsize` (cocotb 1.8, `cocotb.queue.Queue`): a whole number or a truth value, 0 and below meaning none. A value of another
/// kind is a TypeError, and one over 65,536 a ValueError. It takes no memory.
pub fn queue_bound(v: &Value) -> Result<u32, FaultKind>
    ensures { result ≡ meaning.queue_bound v.now }
{
    match v {
        Value::Whole(n) => bound_of(*n),
        Value::Truth(true) => Ok(1),
        Value::Truth(false) => Ok(0),
        _ => Err(FaultKind::TypeError),
    }
}
