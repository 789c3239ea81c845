//! Why a text is no design.

ghost use Rattle.std.specs.Prelude.{◌≡◌, ◌++◌, IfOk, OnOk};
ghost use Rattle.std.specs.Fmt.{decimal};
ghost use Rattle.v_design.specs.Words.{broken_word, refusal_word};

use crate::DesignRule;
use port_io::{NoMemory, Pos};
use std::alloc::{AllocError, Global};

/// Why a text is no design.
#[derive(Clone, Copy, Debug, PartialEq, Eq)]
pub enum DesignRefusal {
    /// It has more than 1,048,576 bytes.
    TooLong,
    /// It breaks this rule first, at this line and column, which count from 1, the column in bytes.
    Broken(DesignRule, Pos),
}

/// Why there is no design.
#[derive(Clone, Copy, Debug, PartialEq, Eq)]
pub enum DesignFault {
    /// The text is none.
    Refused(DesignRefusal),
    /// Memory ran out, which says nothing of the text.
    OutOfMemory,
}

/// Adds a number as its decimal digits.
fn add_number(alloc: Global, line: &mut Vec<u8>, number: u32) -> Result<(), AllocError>
    ensures { OnOk result (line.new.items ≡ line.old.items ++ decimal number) }
{
    let text = number.to_string(alloc)?;
    line.extend_from_slice(text.as_bytes())
}

/// `<rule> at <line>:<column>`. Only want of memory is an error.
fn broken_text(alloc: Global, rule: DesignRule, pos: Pos) -> Result<Vec<u8>, NoMemory>
    ensures { IfOk result (λ text. text.items ≡ broken_word rule pos) }
{
    let mut text = rule.name().to_vec(alloc)?;
    text.extend_from_slice(b" at ")?;
    add_number(alloc, &mut text, pos.line)?;
    text.push(b':')?;
    add_number(alloc, &mut text, pos.column)?;
    Ok(text)
}

impl DesignRefusal {
    /// `TooLong`, or `<rule> at <line>:<column>`. Only want of memory is an error.
    pub fn text(self, alloc: Global) -> Result<Vec<u8>, NoMemory>
        ensures { IfOk result (λ text. text.items ≡ refusal_word self) }
    {
        match self {
            DesignRefusal::TooLong => Ok(b"TooLong".to_vec(alloc)?),
            DesignRefusal::Broken(rule, pos) => broken_text(alloc, rule, pos),
        }
    }
}
