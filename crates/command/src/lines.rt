//! The lines of refusals.
ghost use Rattle.std.specs.Prelude.{◌≡◌, IfOk};
ghost use Rattle.test_file.specs.Text.Words as tests_words;
ghost use Rattle.v_design.specs.Words as design_words;
ghost use Rattle.command.specs.Reading.{read_line, reading_of, refused, refused_line, usage_line};

use crate::decision::Decision;
use crate::regression::Status;
use port_io::NoMemory;
use std::alloc::Global;
use test_file::text::TestsRefusal;
use v_design::DesignRefusal;

/// The line that says how the command is called. Only want of memory is an error.
pub(crate) fn usage_text(alloc: Global) -> Result<Vec<u8>, NoMemory>
    ensures { IfOk result (λ line. line.items ≡ usage_line) }
{
    let mut line = Vec::new(alloc);
    line.extend_from_slice(
        b"usage: cocorun [--top NAME] [--budget N] [--seed N] [--trace | --vcd] DESIGN TESTS\n",
    )?;
    Ok(line)
}

/// The line that says that a file could not be read. Only want of memory is an error.
fn read_text(alloc: Global, name: &str) -> Result<Vec<u8>, NoMemory>
    ensures { IfOk result (λ line. line.items ≡ read_line name.now) }
{
    let mut line = Vec::new(alloc);
    line.extend_from_slice(b"error: cannot read ")?;
    line.extend_from_slice(name.as_bytes())?;
    line.push(b'\n')?;
    Ok(line)
}

/// The line that says why a text is refused. Only want of memory is an error.
fn refused_text(alloc: Global, name: &str, reason: &[u8]) -> Result<Vec<u8>, NoMemory>
    ensures { IfOk result (λ line. line.items ≡ refused_line name.now reason.now) }
{
    let mut line = Vec::new(alloc);
    line.extend_from_slice(b"error: ")?;
    line.extend_from_slice(name.as_bytes())?;
    line.extend_from_slice(b": ")?;
    line.extend_from_slice(reason)?;
    line.push(b'\n')?;
    Ok(line)
}

/// The refusal for a file that could not be read. Only want of memory is an error.
pub(crate) fn unread(alloc: Global, name: &str) -> Result<Decision, NoMemory>
    ensures { IfOk result (λ decision. reading_of decision ≡ refused Status.ReadFault (read_line name.now)) }
{
    Ok(Decision::Refused(Status::ReadFault, read_text(alloc, name)?))
}

/// The refusal of the text of a design. Only want of memory is an error.
pub(crate) fn design_refused(
    alloc: Global,
    design: &str,
    refusal: DesignRefusal,
) -> Result<Decision, NoMemory>
    ensures { IfOk result
        (λ decision. reading_of decision ≡ refused Status.DesignRefused (refused_line design.now (design_words.refusal_word refusal))) }
{
    let reason = refusal.text(alloc)?;
    let line = refused_text(alloc, design, &reason)?;
    Ok(Decision::Refused(Status::DesignRefused, line))
}

/// The refusal of the text of tests. Only want of memory is an error.
pub(crate) fn tests_refused(
    alloc: Global,
    tests: &str,
    refusal: TestsRefusal,
) -> Result<Decision, NoMemory>
    ensures { IfOk result
        (λ decision. reading_of decision ≡ refused Status.TestsRefused (refused_line tests.now (tests_words.refusal_word refusal))) }
{
    let reason = refusal.text(alloc)?;
    let line = refused_text(alloc, tests, &reason)?;
    Ok(Decision::Refused(Status::TestsRefused, line))
}
