//! Why a text is no tests file.

ghost use Rattle.std.specs.Prelude.{◌≡◌, IfOk};
ghost use Rattle.test_file.specs.Text.Words.{broken_word, refusal_word};

use crate::text::TestsRule;
use port_io::NoMemory;
use std::alloc::Global;

/// Why a text is no tests file.
#[derive(Clone, Copy, Debug, PartialEq, Eq)]
pub enum TestsRefusal {
    /// It has more than 1,048,576 bytes.
    TooLong,
    /// It breaks this rule first, on this line, which counts from 1.
    Broken(TestsRule, u32),
}

/// Why there is no tests file.
#[derive(Clone, Copy, Debug, PartialEq, Eq)]
pub enum TestsFault {
    /// The text is none.
    Refused(TestsRefusal),
    /// Memory ran out, which says nothing of the text.
    OutOfMemory,
}

/// `<rule> at line <line>`. Only want of memory is an error.
fn broken_text(alloc: Global, rule: TestsRule, line: u32) -> Result<Vec<u8>, NoMemory>
    ensures { IfOk result (λ text. text.items ≡ broken_word rule line) }
{
    let name = rule.name();
    Ok(format!(in alloc; "{name} at line {line}")?.into_bytes())
}

impl TestsRefusal {
    /// `TooLong`, or `<rule> at line <line>`. Only want of memory is an error.
    pub fn text(self, alloc: Global) -> Result<Vec<u8>, NoMemory>
        ensures { IfOk result (λ text. text.items ≡ refusal_word self) }
    {
        match self {
            TestsRefusal::TooLong => Ok(b"TooLong".to_vec(alloc)?),
            TestsRefusal::Broken(rule, line) => broken_text(alloc, rule, line),
        }
    }
}
