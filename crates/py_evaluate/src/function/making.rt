//! Triggers that an evaluation makes.
ghost use Rattle.std.specs.Prelude.{◌≡◌, ◌≤◌};
ghost use Rattle.py_value.specs.Answer.{answer_map};
ghost use Rattle.py_value.specs.TriggerView.{view_form};
ghost use Rattle.py_evaluate.specs.Attribute.Outcome.{lift};
ghost use Rattle.py_evaluate.specs.Function.Making as meaning;

use py_syntax::FaultKind;
use py_value::{Form, TaskNo, Trig, TrigId, Value};

/// How many triggers a task may make: `trigger_limit` in `specs/Making.antt`.
const TRIGGER_LIMIT: u64 = 1 << 63;

/// A new trigger, which takes the next number. One beyond the limit is a RuntimeError, and the number stays.
pub fn new_trigger(task: TaskNo, form: Form, next: &mut u64) -> Result<Trig, FaultKind>
    ensures is { lift result next.new ≡ meaning.new_trigger task (view_form form) next.old }
    ensures rises { next.old ≤ next.new }
{
    let number = *next;
    if number < TRIGGER_LIMIT {
        *next = number + 1;
        Ok(Trig {
            id: TrigId { task, number },
            form,
        })
    } else {
        Err(FaultKind::RuntimeError)
    }
}

/// A new trigger that holds others. One that is too large is a ValueError, and the number stays.
pub fn new_tree(task: TaskNo, form: Form, next: &mut u64) -> Result<Trig, FaultKind>
    ensures is { lift result next.new ≡ meaning.new_tree task (view_form form) next.old }
    ensures rises { next.old ≤ next.new }
{
    if form.is_small() {
        new_trigger(task, form, next)
    } else {
        Err(FaultKind::ValueError)
    }
}

/// A trigger as a value.
pub(crate) fn trigger_value(trig: Result<Trig, FaultKind>) -> Result<Value, FaultKind>
    ensures { result ≡ answer_map (λ t. Value.Trigger t) trig }
{
    Ok(Value::Trigger(trig?))
}

/// A new trigger of this form, or why there is no such form.
pub(crate) fn new_value(
    task: TaskNo,
    form: Result<Form, FaultKind>,
    next: &mut u64,
) -> Result<Value, FaultKind>
    ensures is { lift result next.new ≡ meaning.new_value task (answer_map view_form form) next.old }
    ensures rises { next.old ≤ next.new }
{
    trigger_value(new_trigger(task, form?, next))
}
