//! Values that are written to signals.
ghost use Rattle.std.specs.Prelude.{◌≡◌, IfOk, length};
ghost use Rattle.py_value.specs.Answer.{answer_map};
ghost use Rattle.py_evaluate.specs.Attribute.Knows.{Knows, KnowsSignal};
ghost use Rattle.py_evaluate.specs.Attribute.Look.{width};
ghost use Rattle.run_view.specs.SignalPort.Written.{written_bits};
ghost use Rattle.rig_model.specs.Task.Known.{HasDigits, KnowsWrite};
ghost use Rattle.rig_model.specs.Task.Values as meaning;
ghost use Rattle.task_step.specs.StatementValues.Kept.{source_in, write_in};

use four_value::Bits;
use gpi::{SigId, Write};
use py_evaluate::attribute::Look;
use py_syntax::FaultKind;
use py_value::Value;
use run_view::signal_port::to_bits;

/// What is to be written: a value, or an action, whose operand is a value (cocotb 1.8, "Writing values", `cocotb.handle`).
#[derive(Drop)]
pub enum Source {
    /// `= value`
    Value(Value),
    /// `Force(value)`
    Force(Value),
    /// `Freeze()`
    Freeze,
    /// `Release()`
    Release,
}

/// A signal, and what is written to it.
#[derive(Clone, Copy)]
pub struct SignalWrite {
    pub sig: SigId,
    pub act: Write,
}

/// The digits of a value at a signal's width. The faults are those of `to_bits`.
fn bits_at<V: Look>(view: &V, sig: SigId, v: &Value) -> Result<Bits, FaultKind>
    requires { KnowsSignal (V.view view.now) sig.0 }
    ensures is { result ≡ written_bits (width (V.view view.now) sig) v.now }
    ensures digits { IfOk result (λ bits. length bits ≡ width (V.view view.now) sig) }
{
    to_bits(v, view.read(sig).width())
}

/// What is written to a signal: a value as the digits that it is at the signal's width. The faults are those of `to_bits`.
fn act_at<V: Look>(view: &V, sig: SigId, source: &Source) -> Result<Write, FaultKind>
    requires { KnowsSignal (V.view view.now) sig.0 }
    ensures is { result ≡ meaning.act_of (V.view view.now) sig (source_in source.now) }
    ensures digits { IfOk result (HasDigits (width (V.view view.now) sig)) }
{
    match source {
        Source::Value(v) => Ok(Write::Plain(bits_at(view, sig, v)?)),
        Source::Force(v) => Ok(Write::Force(bits_at(view, sig, v)?)),
        Source::Freeze => Ok(Write::Freeze),
        Source::Release => Ok(Write::Release),
    }
}

/// What a signal gets where that is written to it (cocotb 1.8, "Writing values", `cocotb.handle`). A target that is no signal is an
/// AttributeError; then the faults are those of `to_bits`: TypeError, ValueError, OverflowError. It takes no memory.
pub fn write_of<V: Look>(
    view: &V,
    target: &Value,
    source: &Source,
) -> Result<SignalWrite, FaultKind>
    requires { Knows (V.view view.now) target.now }
    ensures is { answer_map write_in result ≡ meaning.write_of (V.view view.now) target.now (source_in source.now) }
    ensures known { IfOk result (λ w. KnowsWrite (V.view view.now) w.sig w.act) }
{
    match target {
        Value::Signal(sig) => {
            let act = act_at(view, *sig, source)?;
            Ok(SignalWrite { sig: *sig, act })
        }
        _ => Err(FaultKind::AttributeError),
    }
}
