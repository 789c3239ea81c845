//! What methods that act ask for, and what lines are logged for.
ghost use Rattle.std.specs.Prelude.{◌≡◌};
ghost use Rattle.py_value.specs.Answer.{answer_map};
ghost use Rattle.rig_model.specs.Task.Statements as meaning;

use py_syntax::{Action, FaultKind};
use py_value::Value;
use rig_model::task::Turned;

/// What `set()` and `clear()` of an event, `release()` of a lock and `kill()` of a task ask for (cocotb 1.8, "Triggers", "Coroutines and
/// Tasks"). A value of another kind is an AttributeError. It takes no memory.
pub fn act_of(action: Action, v: &Value) -> Result<Turned, FaultKind>
    ensures { result ≡ meaning.act_of action v.now }
{
    match (action, v) {
        (Action::Set, Value::Event(event)) => Ok(Turned::SetEvent(*event)),
        (Action::Clear, Value::Event(event)) => Ok(Turned::ClearEvent(*event)),
        (Action::Release, Value::Lock(lock)) => Ok(Turned::Release(*lock)),
        (Action::Kill, Value::Task(task)) => Ok(Turned::Kill(*task)),
        _ => Err(FaultKind::AttributeError),
    }
}

/// Whether lines are logged for a value (cocotb 1.8, "Logging"): for a hierarchy, and else an AttributeError. It takes no memory.
pub fn logged_for(v: &Value) -> Result<(), FaultKind>
    ensures { answer_map (λ _. v.now) result ≡ meaning.logged_for v.now }
{
    match v {
        Value::Place(_) => Ok(()),
        _ => Err(FaultKind::AttributeError),
    }
}
