//! Words of memories, and signals.
ghost use Rattle.std.specs.Prelude.{◌≡◌, ◌+◌, ◌≤◌};
ghost use Rattle.py_value.specs.Integer.Integer.{number};
ghost use Rattle.py_value.specs.Limits.{signal_numbers};
ghost use Rattle.py_evaluate.specs.Attribute.Attribute as meaning;
ghost use Rattle.py_evaluate.specs.Attribute.Gives.{HasNumbers};

use gpi::SigId;
use py_syntax::FaultKind;
use py_value::Value;
use py_value::integer::Integer;
use py_value::operator::one_number;

/// The word of an index, of a memory whose words have the indices from `low` on. One that isn't there is an IndexError.
fn word_at(first: SigId, low: u32, count: u32, index: Integer) -> Result<Value, FaultKind>
    requires { first.0 + count ≤ signal_numbers }
    ensures { result ≡ meaning.word_at first low count (number index) }
{
    match index.to_natural() {
        Some(n) if low as u128 <= n && n < low as u128 + count as u128 => {
            let place = (n - low as u128) as u32;
            Ok(Value::Signal(SigId(first.0 + place)))
        }
        _ => Err(FaultKind::IndexError),
    }
}

/// `v[index]` (cocotb 1.8, `NonHierarchyIndexableObject`): the word of a memory. TypeError where the value is no memory or the index has
/// no number, ValueError for an index with an x or z digit, IndexError for a word that isn't there. The words of a memory have numbers of
/// signals. It takes no memory.
pub fn indexed(v: &Value, index: &Value) -> Result<Value, FaultKind>
    requires { HasNumbers v.now }
    ensures { result ≡ meaning.indexed v.now index.now }
{
    match v {
        Value::Words { first, low, count } => word_at(*first, *low, *count, one_number(index)?),
        _ => Err(FaultKind::TypeError),
    }
}

/// The signal that a value is, which `len` and the edges need. A value of another kind is a TypeError. It takes no memory.
pub fn signal_of(v: &Value) -> Result<SigId, FaultKind>
    ensures { result ≡ meaning.signal_of v.now }
{
    match v {
        Value::Signal(sig) => Ok(*sig),
        _ => Err(FaultKind::TypeError),
    }
}
