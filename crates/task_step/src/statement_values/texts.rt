//! Texts of log statements.
ghost use Rattle.std.specs.Prelude.{◌≡◌, IfOk, map};
ghost use Rattle.py_value.specs.Shown.{shown};
ghost use Rattle.py_evaluate.specs.Attribute.Knows.{Knows, KnowsAll};
ghost use Rattle.rig_model.specs.Task.Statements as meaning;

use crate::statement_values::filling::filled;
use port_io::{Name, NoMemory};
use py_evaluate::attribute::{Look, shown_text};
use py_value::Value;
use std::alloc::Global;

/// The texts as which values are shown, in order.
fn shown_texts<V: Look>(alloc: Global, view: &V, values: &[Value]) -> Result<Vec<Name>, NoMemory>
    requires { KnowsAll (V.view view.now) values.now }
    ensures { IfOk result (λ texts. texts.items ≡ map (shown (V.view view.now).places) values.now) }
{
    let mut texts = Vec::new(alloc);
    for v in values {
        texts.push(shown_text(alloc, view, v)?)?;
    }
    Ok(texts)
}

/// What a log statement writes (cocotb 1.8, "Logging"; the library reference, "Logging"): one value as it is shown, of any length, or a text
/// with the values in the places of its `%s`. Only want of memory is an error.
pub fn log_text<V: Look>(
    alloc: Global,
    view: &V,
    v: &Value,
    values: &[Value],
) -> Result<Name, NoMemory>
    requires first { Knows (V.view view.now) v.now }
    requires others { KnowsAll (V.view view.now) values.now }
    ensures { IfOk result (λ name. name ≡ meaning.log_text (V.view view.now).places v.now values.now) }
{
    let text = shown_text(alloc, view, v)?;
    if values.is_empty() {
        return Ok(text);
    }
    let texts = shown_texts(alloc, view, values)?;
    filled(alloc, text.bytes(), &texts)
}
