//! Calls of methods.
ghost use Rattle.std.specs.Prelude.{◌≡◌, ◌==◌, ◌≤◌, IfOk, pos};
ghost use Rattle.py_value.specs.Answer.{answer_map};
ghost use Rattle.py_value.specs.TriggerView.{view_form};
ghost use Rattle.py_value.specs.declared.value.Value.TheVariants as value;
ghost use Rattle.py_evaluate.specs.Attribute.Knows.{Knows};
ghost use Rattle.py_evaluate.specs.Attribute.Outcome.{lift};
ghost use Rattle.py_evaluate.specs.Function.Functions as meaning;

use crate::attribute::Look;
use crate::function::making::new_value;
use py_syntax::{FaultKind, Method};
use py_value::{Form, TaskNo, Value};

/// What the trigger of a method waits for. Another method, or a value of another kind, is an AttributeError.
fn method_form(v: &Value, method: Method) -> Result<Form, FaultKind>
    ensures { answer_map view_form result ≡ meaning.method_form v.now method }
{
    match (v, method) {
        (Value::Event(event), Method::Wait) => Ok(Form::Event(*event)),
        (Value::Lock(lock), Method::Acquire) => Ok(Form::Lock(*lock)),
        (Value::Task(task), Method::Join) => Ok(Form::Join(*task)),
        _ => Err(FaultKind::AttributeError),
    }
}

/// `event.is_set()`. What is no event is an AttributeError.
fn set_state<V: Look>(view: &V, v: &Value) -> Result<Value, FaultKind>
    requires { Knows (V.view view.now) v.now }
    ensures { result ≡ meaning.set_state (V.view view.now) v.now }
{
    match v {
        Value::Event(event) => Ok(Value::Truth(view.is_set(*event))),
        _ => Err(FaultKind::AttributeError),
    }
}

/// `task.done()`. What is no task is an AttributeError.
fn done_state<V: Look>(view: &V, v: &Value) -> Result<Value, FaultKind>
    requires { Knows (V.view view.now) v.now }
    ensures { result ≡ meaning.done_state (V.view view.now) v.now }
{
    match v {
        Value::Task(task) => Ok(Value::Truth(view.is_done(*task))),
        _ => Err(FaultKind::AttributeError),
    }
}

/// `queue.qsize()`. What is no queue is an AttributeError.
fn item_count<V: Look>(view: &V, v: &Value) -> Result<Value, FaultKind>
    requires { Knows (V.view view.now) v.now }
    ensures { result ≡ meaning.queue_state (V.view view.now) v.now (λ q. value.Whole (pos q.held)) }
{
    match v {
        Value::Queue(queue) => Ok(Value::Whole(view.queue_len(*queue) as i128)),
        _ => Err(FaultKind::AttributeError),
    }
}

/// `queue.empty()`. What is no queue is an AttributeError.
fn empty_state<V: Look>(view: &V, v: &Value) -> Result<Value, FaultKind>
    requires { Knows (V.view view.now) v.now }
    ensures { result ≡ meaning.queue_state (V.view view.now) v.now (λ q. value.Truth (q.held == 0)) }
{
    match v {
        Value::Queue(queue) => Ok(Value::Truth(view.queue_len(*queue) == 0)),
        _ => Err(FaultKind::AttributeError),
    }
}

/// `queue.full()`. What is no queue is an AttributeError.
fn full_state<V: Look>(view: &V, v: &Value) -> Result<Value, FaultKind>
    requires { Knows (V.view view.now) v.now }
    ensures { result ≡ meaning.queue_state (V.view view.now) v.now (λ q. value.Truth q.is_full) }
{
    match v {
        Value::Queue(queue) => Ok(Value::Truth(view.queue_full(*queue))),
        _ => Err(FaultKind::AttributeError),
    }
}

/// A method of a value.
fn method_call<V: Look>(
    view: &V,
    task: TaskNo,
    v: &Value,
    method: Method,
    next: &mut u64,
) -> Result<Value, FaultKind>
    requires { Knows (V.view view.now) v.now }
    ensures is { lift result next.new ≡ meaning.method_value task (V.view view.now) v.now method next.old }
    ensures rises { next.old ≤ next.new }
{
    match method {
        Method::IsSet => set_state(view, v),
        Method::Done => done_state(view, v),
        Method::QSize => item_count(view, v),
        Method::Empty => empty_state(view, v),
        Method::Full => full_state(view, v),
        Method::Wait => new_value(task, method_form(v, method), next),
        Method::Acquire => new_value(task, method_form(v, method), next),
        Method::Join => new_value(task, method_form(v, method), next),
    }
}

/// `v.method()` (cocotb 1.8, "Triggers", "Coroutines and Tasks" and `cocotb.queue.Queue`), by a task whose next trigger has this number: `wait`
/// and `is_set` of an event, `acquire` of a lock, `join` and `done` of a task, `qsize`, `empty` and `full` of a queue. A new trigger takes the
/// next number. Another method, or a value of another kind, is an AttributeError; a trigger of a task that has made 2^63, the most that it may,
/// is a RuntimeError. It takes no memory.
pub fn method_value<V: Look>(
    view: &V,
    task: TaskNo,
    v: &Value,
    method: Method,
    next: &mut u64,
) -> Result<Value, FaultKind>
    requires { Knows (V.view view.now) v.now }
    ensures is { lift result next.new ≡ meaning.method_value task (V.view view.now) v.now method next.old }
    ensures known { IfOk result (Knows (V.view view.now)) }
    ensures rises { next.old ≤ next.new }
{
    method_call(view, task, v, method, next)
}
