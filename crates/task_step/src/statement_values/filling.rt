//! Texts with others in the places of their `%s`.
ghost use Rattle.std.specs.Prelude.{◌≡◌, IfOk, OnOk, false};
ghost use Rattle.rig_model.specs.Task.Statements as meaning;
ghost use Rattle.task_step.specs.StatementValues.Filling.{Takes};

use port_io::{Name, NoMemory};
use std::alloc::Global;

/// A text that is being filled.
#[derive(Drop)]
struct Filling<'a> {
    /// What stands there so far.
    bytes: Vec<u8>,
    /// The texts that are left.
    texts: &'a [Name],
    /// Whether a `%` was passed, whose next byte is left out.
    passed: bool,
}

impl Filling<'_> {
    /// Takes the next byte.
    fn take(&mut self, byte: u8) -> Result<(), NoMemory>
        ensures { OnOk result (Takes self.old byte self.new) }
    {
        if self.passed {
            self.passed = false;
            return Ok(());
        }
        match self.texts {
            [first, rest @ ..] if byte == b'%' => {
                self.bytes.extend_from_slice(first.bytes())?;
                self.texts = rest;
                self.passed = true;
            }
            _ => self.bytes.push(byte)?,
        }
        Ok(())
    }
}

/// A text with others in the places of its `%s`, in order: a `%` and the byte behind it give way to the next text, as long as there is one.
pub(crate) fn filled(alloc: Global, text: &[u8], texts: &[Name]) -> Result<Name, NoMemory>
    ensures { IfOk result (λ name. name ≡ meaning.filled false text.now texts.now) }
{
    let mut filling = Filling {
        bytes: Vec::new(alloc),
        texts,
        passed: false,
    };
    for byte in text {
        filling.take(*byte)?;
    }
    Name::of(alloc, &filling.bytes)
}
