//! Arguments of calls.
ghost use Rattle.std.specs.Prelude.{◌≡◌, ◌≤◌, IfOk, MatchResult, option_copied, slice_get, Ok, Err};
ghost use Rattle.py_evaluate.specs.Attribute.Look.{View};
ghost use Rattle.py_evaluate.specs.Attribute.Knows.{Knows, KnowsAll};
ghost use Rattle.py_evaluate.specs.Function.Functions as meaning;

use crate::attribute::Look;
use py_syntax::FaultKind;
use py_value::time::unit_of;
use py_value::{Value, truth};

/// The argument at a place. One that isn't there is a TypeError.
pub(crate) fn argument(values: &[Value], at: usize) -> Result<&Value, FaultKind>
    ensures is { MatchResult result (λ v. meaning.argument values.now at ≡ Ok v.now) (λ kind. meaning.argument values.now at ≡ Err kind) }
    ensures known { (view : View) → KnowsAll view values.now → IfOk result (λ v. Knows view v.now) }
{
    if at < values.len() {
        Ok(&values[at])
    } else {
        Err(FaultKind::TypeError)
    }
}

/// The femtoseconds of the unit that a value names, or why it is refused. A unit that is left out is the step.
pub fn unit_or_step<V: Look>(view: &V, unit: Option<&Value>) -> Result<u64, FaultKind>
    ensures is { result ≡ meaning.unit_or_step (V.view view.now).step_fs (option_copied unit.entry) }
    ensures some { IfOk result (λ fs. 1 ≤ fs) }
{
    match unit {
        Some(unit) => unit_of(view.step_fs(), unit),
        None => Ok(view.step_fs()),
    }
}

/// The femtoseconds of the unit that the argument at a place names, or why it is refused. A unit that is left out is the step.
pub(crate) fn unit_argument<V: Look>(
    view: &V,
    values: &[Value],
    at: usize,
) -> Result<u64, FaultKind>
    ensures is { result ≡ meaning.unit_argument (V.view view.now) values.now at }
    ensures some { IfOk result (λ fs. 1 ≤ fs) }
{
    if at < values.len() {
        unit_or_step(view, Some(&values[at]))
    } else {
        unit_or_step(view, None)
    }
}

/// The truth of the argument at a place, true where it is left out.
pub(crate) fn truth_argument(values: &[Value], at: usize) -> bool
    ensures { result ≡ meaning.truth_or_true (slice_get values.now at) }
{
    if at < values.len() {
        truth(&values[at])
    } else {
        true
    }
}
