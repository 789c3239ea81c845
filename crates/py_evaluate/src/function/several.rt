//! Triggers that hold others.
ghost use Rattle.std.specs.Prelude.{◌≡◌, ◌≤◌, IsTrue};
ghost use Rattle.std.specs.List.{list_all};
ghost use Rattle.py_value.specs.Trigger as trigger;
ghost use Rattle.py_evaluate.specs.Attribute.Gives.{IfWant};
ghost use Rattle.py_evaluate.specs.Attribute.Outcome.{Ends, EndsAs};
ghost use Rattle.py_evaluate.specs.Function.Making as meaning;

use crate::attribute::OperationFault;
use crate::function::making::{new_tree, new_trigger, trigger_value};
use py_syntax::FaultKind;
use py_value::{Form, TaskNo, Trig, Trigs, Value};
use std::alloc::Global;

/// Whether a value is a trigger or a task.
pub fn is_waitable(v: &Value) -> bool
    ensures { result ≡ meaning.is_waitable v.now }
{
    match v {
        Value::Trigger(_) => true,
        Value::Task(_) => true,
        _ => false,
    }
}

/// Whether all values are triggers or tasks.
fn are_waitable(values: &[Value]) -> bool
    ensures { result ≡ list_all meaning.is_waitable values.now }
{
    values.iter().all(|v| is_waitable(v))
}

/// The trigger that a value is; a task is its join, a new trigger. Another value is a TypeError.
pub fn as_trigger(
    alloc: Global,
    task: TaskNo,
    v: &Value,
    next: &mut u64,
) -> Result<Trig, OperationFault>
    ensures ends { Ends result next.new (meaning.as_trigger task v.now next.old) }
    ensures rises { next.old ≤ next.new }
    ensures want { IfWant result (next.new ≤ (meaning.as_trigger task v.now next.old).next) }
{
    match v {
        Value::Trigger(trig) => Ok(trig.copy(alloc)?),
        Value::Task(joined) => Ok(new_trigger(task, Form::Join(*joined), next)?),
        _ => Err(OperationFault::Raised(FaultKind::TypeError)),
    }
}

/// The triggers that values are, from left to right.
fn as_triggers(
    alloc: Global,
    task: TaskNo,
    values: &[Value],
    next: &mut u64,
) -> Result<Trigs, OperationFault>
    ensures ends { EndsAs result (λ trigs. trigger.row trigs.list.items) next.new (meaning.as_triggers task values.now next.old) }
    ensures rises { next.old ≤ next.new }
    ensures want { IfWant result (next.new ≤ (meaning.as_triggers task values.now next.old).next) }
{
    let mut trigs = Trigs::new(alloc);
    for v in values {
        trigs.push(as_trigger(alloc, task, v, next)?)?;
    }
    Ok(trigs)
}

/// The triggers that values are, whose kinds are looked at first.
fn parts(
    alloc: Global,
    task: TaskNo,
    values: &[Value],
    next: &mut u64,
) -> Result<Trigs, OperationFault>
    ensures ends { EndsAs result (λ trigs. trigger.row trigs.list.items) next.new (meaning.parts task values.now next.old) }
    ensures rises { next.old ≤ next.new }
    ensures want { IfWant result (IsTrue (list_all meaning.is_waitable values.now) × (next.new ≤ (meaning.parts task values.now next.old).next)) }
{
    if are_waitable(values) {
        as_triggers(alloc, task, values, next)
    } else {
        Err(OperationFault::Raised(FaultKind::TypeError))
    }
}

/// `First(trigger, ..)`: what is neither a trigger nor a task is a TypeError, and a trigger that is too large a ValueError.
pub(crate) fn first(
    alloc: Global,
    task: TaskNo,
    values: &[Value],
    next: &mut u64,
) -> Result<Value, OperationFault>
    ensures ends { Ends result next.new (meaning.several task trigger.First values.now next.old) }
    ensures rises { next.old ≤ next.new }
    ensures want { IfWant result
        (IsTrue (list_all meaning.is_waitable values.now) × (next.new ≤ (meaning.several task trigger.First values.now next.old).next)) }
{
    let parts = parts(alloc, task, values, next)?;
    Ok(trigger_value(new_tree(task, Form::First(parts), next))?)
}

/// `Combine(trigger, ..)`: the faults are those of `First`.
pub(crate) fn combine(
    alloc: Global,
    task: TaskNo,
    values: &[Value],
    next: &mut u64,
) -> Result<Value, OperationFault>
    ensures ends { Ends result next.new (meaning.several task trigger.Combine values.now next.old) }
    ensures rises { next.old ≤ next.new }
    ensures want { IfWant result
        (IsTrue (list_all meaning.is_waitable values.now) × (next.new ≤ (meaning.several task trigger.Combine values.now next.old).next)) }
{
    let parts = parts(alloc, task, values, next)?;
    Ok(trigger_value(new_tree(task, Form::Combine(parts), next))?)
}
