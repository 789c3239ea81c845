//! Attributes of values, and widths of signals.
ghost use Rattle.std.specs.Prelude.{◌≡◌, ◌<◌, length, IfOk};
ghost use Rattle.py_evaluate.specs.Attribute.Gives.{Gives, IfWant, MakesText};
ghost use Rattle.py_evaluate.specs.Attribute.Look as meaning;
ghost use Rattle.py_evaluate.specs.Attribute.Knows.{Knows, KnowsNode, KnowsSignal};

use crate::attribute::{Look, OperationFault, path_attribute, signal_of, vector_attribute};
use gpi::{SigId, Spot};
use port_io::Name;
use py_syntax::FaultKind;
use py_value::{LockNo, Value};
use std::alloc::Global;

/// What a name of a module means, as a value.
fn spot_value(spot: Spot) -> Value
    ensures { result ≡ meaning.spot_value spot }
{
    match spot {
        Spot::Inner(node) => Value::Place(node),
        Spot::Sig(sig) => Value::Signal(sig),
        Spot::Words { first, low, count } => Value::Words { first, low, count },
    }
}

/// A name below a hierarchy, or `_path` or `_name` where no such name is declared.
fn place_attribute<V: Look>(
    alloc: Global,
    view: &V,
    node: u32,
    name: &Name,
) -> Result<Value, OperationFault>
    requires { KnowsNode (V.view view.now) node }
    ensures gives { Gives (meaning.attribute (V.view view.now) (Value.Place node) name.now) result }
    ensures want { IfWant result (MakesText (meaning.attribute (V.view view.now) (Value.Place node) name.now)) }
    ensures known { IfOk result (Knows (V.view view.now)) }
{
    match view.child(node, name) {
        Some(spot) => Ok(spot_value(spot)),
        None => path_attribute(alloc, view.node_path(node), name.bytes()),
    }
}

/// `value`, `_path` or `_name` of a signal.
fn signal_attribute<V: Look>(
    alloc: Global,
    view: &V,
    sig: SigId,
    name: &Name,
) -> Result<Value, OperationFault>
    requires { KnowsSignal (V.view view.now) sig.0 }
    ensures gives { Gives (meaning.signal_attribute (V.view view.now) sig name.now) result }
    ensures want { IfWant result (MakesText (meaning.signal_attribute (V.view view.now) sig name.now)) }
    ensures known { IfOk result (Knows (V.view view.now)) }
{
    if name.bytes() == b"value".as_slice() {
        Ok(Value::Vector(view.read(sig)))
    } else {
        path_attribute(alloc, view.path(sig), name.bytes())
    }
}

/// `locked` of a lock.
fn lock_attribute<V: Look>(view: &V, lock: LockNo, name: &Name) -> Result<Value, FaultKind>
    requires { lock.0 < length (V.view view.now).locks }
    ensures { result ≡ meaning.attribute (V.view view.now) (Value.Lock lock) name.now }
{
    if name.bytes() == b"locked".as_slice() {
        Ok(Value::Truth(view.is_locked(lock)))
    } else {
        Err(FaultKind::AttributeError)
    }
}

/// `v.name` (the language reference, 6.3.1): of a hierarchy what is declared in it by that name, else `_path` or `_name`; of a signal
/// `value`, `_path` and `_name`; of a vector `integer`, `signed_integer`, `binstr` and `is_resolvable`; of a lock `locked`. Another name,
/// or a value of another kind, is an AttributeError. A text of over 65,536 bytes is an OverflowError; `integer` and `signed_integer` are
/// a ValueError where a digit is x or z, the first an OverflowError over 2^127 - 1. Want of memory is the other error, where a text is made
/// for the answer, and nowhere else.
pub fn attribute<V: Look>(
    alloc: Global,
    view: &V,
    v: &Value,
    name: &Name,
) -> Result<Value, OperationFault>
    requires { Knows (V.view view.now) v.now }
    ensures gives { Gives (meaning.attribute (V.view view.now) v.now name.now) result }
    ensures want { IfWant result (MakesText (meaning.attribute (V.view view.now) v.now name.now)) }
    ensures known { IfOk result (Knows (V.view view.now)) }
{
    match v {
        Value::Place(node) => place_attribute(alloc, view, *node, name),
        Value::Signal(sig) => signal_attribute(alloc, view, *sig, name),
        Value::Vector(bits) => vector_attribute(alloc, *bits, name.bytes()),
        Value::Lock(lock) => Ok(lock_attribute(view, *lock, name)?),
        _ => Err(OperationFault::Raised(FaultKind::AttributeError)),
    }
}

/// The signal of one digit that a value is, which clocks and edges of one kind need. A value of another kind and a wider signal are
/// TypeErrors. It takes no memory.
pub fn one_bit<V: Look>(view: &V, v: &Value) -> Result<SigId, FaultKind>
    requires { Knows (V.view view.now) v.now }
    ensures is { result ≡ meaning.one_bit (V.view view.now) v.now }
    ensures known { IfOk result (λ s. KnowsSignal (V.view view.now) s.0) }
{
    let sig = signal_of(v)?;
    if view.width(sig) == 1 {
        Ok(sig)
    } else {
        Err(FaultKind::TypeError)
    }
}

/// `len(v)` (cocotb 1.8, `SimHandleBase`): the width of a signal, in digits. A value of another kind, a text and a vector among them, is a
/// TypeError. It takes no memory.
pub fn len<V: Look>(view: &V, v: &Value) -> Result<Value, FaultKind>
    requires { Knows (V.view view.now) v.now }
    ensures is { result ≡ meaning.len (V.view view.now) v.now }
    ensures known { IfOk result (Knows (V.view view.now)) }
{
    let signal = signal_of(v)?;
    Ok(Value::Whole(view.width(signal) as i128))
}
