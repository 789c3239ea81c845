//! The answer for a row.
//!
//! An operation is an operator by its spelling (`neg` and `pos` are `-` and `+` with one operand), or one of the calls of `called`.
//! What is printed is the kind of the fault, or the value as it is shown, behind `'` where it is a text and `#` where it is a vector.
ghost use Rattle.std.specs.Prelude.{IsTrue};
ghost use Rattle.py_value.specs.Places.{places_of};
ghost use Rattle.py_value.specs.Shown.{IsOf};
ghost use Rattle.py_evaluate.specs.Attribute.Gives.{HasNumbers};

use crate::values::operators::{binary_of, unary_of};
use crate::values::value::value_of;
use gpi::{Flat, SigId};
use port_io::NoMemory;
use py_evaluate::attribute::{
    OperationFault, indexed, path_attribute, signal_of, str_value, text_value, vector_attribute,
};
use py_syntax::FaultKind;
use py_value::operator::{binary, int, unary};
use py_value::{Paths, Value, copy, show, truth};
use std::alloc::Global;
use table_rows::cut;

/// Whether the signal or hierarchy that a value is, is one of the design.
#[tactic(auto, using(crate::proofs::ValuesLemmas::Lengths::lengths))]
fn is_of(flat: &Flat, v: &Value) -> bool
    ensures { IsTrue result → IsOf (places_of flat.now) v.now }
{
    match v {
        Value::Place(node) => (*node as usize) < flat.nodes.len(),
        Value::Signal(sig) => (sig.0 as usize) < flat.signals.len(),
        _ => true,
    }
}

/// Whether the words of a memory have numbers of signals.
fn has_numbers(v: &Value) -> bool
    ensures { IsTrue result → HasNumbers v.now }
{
    match v {
        Value::Words { first, count, .. } => first.0 < 65536 && *count < 65536,
        _ => true,
    }
}

/// The mark of a kind of value.
fn mark(v: &Value) -> &'static [u8] {
    match v {
        Value::Text(_) => b"'",
        Value::Vector(_) => b"#",
        _ => b"",
    }
}

/// A value as it is printed. Of a text over 200 bytes it is the length alone.
fn shown(alloc: Global, flat: &Flat, v: &Value) -> Result<Vec<u8>, NoMemory> {
    let mut out = mark(v).to_vec(alloc)?;
    if !is_of(flat, v) {
        out.extend_from_slice(b"a number that the design hasn't")?;
        return Ok(out);
    }
    let text = show(alloc, v, flat)?;
    let bytes = text.bytes();
    if bytes.len() > 200 {
        out.extend_from_slice(bytes.len().to_string(alloc)?.as_bytes())?;
        out.extend_from_slice(b" bytes")?;
    } else {
        out.extend_from_slice(bytes)?;
    }
    Ok(out)
}

/// A signal as a value.
fn as_value(sig: Result<SigId, FaultKind>) -> Result<Value, FaultKind> {
    Ok(Value::Signal(sig?))
}

/// An attribute of a signal, a hierarchy or a vector. Others have none here.
fn attribute(alloc: Global, flat: &Flat, v: &Value, name: &[u8]) -> Result<Value, OperationFault> {
    match v {
        Value::Vector(bits) => vector_attribute(alloc, *bits, name),
        Value::Signal(sig) if is_of(flat, v) => path_attribute(alloc, flat.path(*sig), name),
        Value::Place(node) if is_of(flat, v) => path_attribute(alloc, flat.node_path(*node), name),
        Value::Text(path) => path_attribute(alloc, path.bytes(), name),
        _ => Err(OperationFault::Raised(FaultKind::AttributeError)),
    }
}

/// What a call gives: `copy`, `str`, `text` (of a text's bytes), `bool`, `int`, `len` (the signal whose width it is), `index`, or an
/// attribute by its name. A text has the attributes of the signal whose path it is.
fn called(
    alloc: Global,
    flat: &Flat,
    word: &[u8],
    a: &Value,
    b: &Value,
) -> Result<Value, OperationFault> {
    match (word, a) {
        (b"copy", _) => Ok(copy(alloc, a)?),
        (b"str", _) if is_of(flat, a) => str_value(alloc, a, flat),
        (b"text", Value::Text(text)) => text_value(alloc, text.bytes()),
        (b"bool", _) => Ok(Value::Truth(truth(a))),
        (b"int", _) => Ok(int(a)?),
        (b"len", _) => Ok(as_value(signal_of(a))?),
        (b"index", _) if has_numbers(a) => Ok(indexed(a, b)?),
        (name, _) => attribute(alloc, flat, a, name),
    }
}

/// What the operation of this word gives.
fn operated(
    alloc: Global,
    flat: &Flat,
    word: &[u8],
    a: Value,
    b: Value,
) -> Result<Value, OperationFault> {
    if let Some(op) = binary_of(word) {
        binary(op, a, b).map_err(|fault| OperationFault::Raised(fault.kind))
    } else if let Some(op) = unary_of(word) {
        unary(op, a).map_err(|fault| OperationFault::Raised(fault.kind))
    } else {
        called(alloc, flat, word, &a, &b)
    }
}

/// The rule of a row, and the answer for it.
pub fn answer(alloc: Global, flat: &Flat, line: &[u8]) -> Result<Vec<u8>, NoMemory> {
    let (rule, rest) = cut(line, b'\t');
    let (word, rest) = cut(rest, b'\t');
    let (a, b) = cut(rest, b'\t');
    let a = value_of(alloc, a)?;
    let b = value_of(alloc, b)?;
    let mut out = rule.to_vec(alloc)?;
    out.extend_from_slice(b": ")?;
    match operated(alloc, flat, word, a, b) {
        Ok(v) => out.extend_from_slice(&shown(alloc, flat, &v)?)?,
        Err(OperationFault::Raised(kind)) => out.extend_from_slice(kind.name())?,
        Err(OperationFault::OutOfMemory) => return Err(NoMemory),
    }
    Ok(out)
}
