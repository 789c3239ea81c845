//! Reading a tests file.

ghost use Rattle.std.specs.Prelude.{◌≡◌, ◌≤◌, true, List, ℕ, length, Err, IfOk, IfErr};
ghost use Rattle.port_io.specs.Limits.{most_bytes};
ghost use Rattle.py_syntax.specs.BlockTrees.{view_module};
ghost use Rattle.py_syntax.specs.Line.{Line};
ghost use Rattle.py_lex.specs.Answer.{IsAnswered};
ghost use Rattle.py_parse.specs.Found.{IsBroken};
ghost use Rattle.test_meaning.specs.Body.Sound.{is_sound};
ghost use Rattle.test_meaning.specs.Body.Views.{view_file};
ghost use Rattle.test_file.specs.declared.text.fault.TestsFault.TheVariants as fault;
ghost use Rattle.test_file.specs.declared.text.fault.TestsRefusal.TheVariants as refusal;
ghost use Rattle.test_file.specs.Text.Faults.{IsFault};
ghost use Rattle.test_file.specs.Text.Tests.{HasLines, IsModuleOf, IsTests};

use crate::text::{TestsFault, TestsRefusal, TestsRule};
use crate::{FileFault, check};
use port_io::MOST_BYTES;
use py_lex::{LineFault, logical_lines};
use py_parse::{PyFault, parse};
use py_syntax::{Lines, Module};
use std::alloc::Global;
use test_meaning::body::TestFile;

/// The fault of a text that breaks this rule first, on this line.
fn broken(rule: TestsRule, line: u32) -> TestsFault
    ensures { result ≡ fault.Refused (refusal.Broken rule line) }
{
    TestsFault::Refused(TestsRefusal::Broken(rule, line))
}

/// The fault of a text without logical lines.
fn line_fault(fault: LineFault) -> TestsFault
    ensures { (text : List ℕ) → length text ≤ most_bytes → IsAnswered text (Err fault) → IsFault result text }
{
    match fault {
        LineFault::Tab(line) => broken(TestsRule::Tab, line),
        LineFault::Dedent(line) => broken(TestsRule::Dedent, line),
        LineFault::UnclosedText(line) => broken(TestsRule::UnclosedText, line),
        LineFault::BadByte(line) => broken(TestsRule::BadByte, line),
        LineFault::OutOfMemory => TestsFault::OutOfMemory,
    }
}

/// The fault of a text whose logical lines no module spells.
fn form_fault(fault: PyFault) -> TestsFault
    ensures { (text : List ℕ) (lines : List Line) → length text ≤ most_bytes → HasLines text lines → IsBroken lines fault → IsFault result text }
{
    match fault {
        PyFault::BadLine(line) => broken(TestsRule::BadLine, line),
        PyFault::NoBlock(line) => broken(TestsRule::NoBlock, line),
        PyFault::TooDeep(line) => broken(TestsRule::TooDeep, line),
        PyFault::OutOfMemory => TestsFault::OutOfMemory,
    }
}

/// The module that logical lines spell.
fn spelled(alloc: Global, lines: &Lines) -> Result<Module, TestsFault>
    ensures is { (text : List ℕ) → HasLines text lines.now → IfOk result (λ tree. IsModuleOf text (view_module tree)) }
    ensures refused { (text : List ℕ) → length text ≤ most_bytes → HasLines text lines.now → IfErr result (λ fault. IsFault fault text) }
{
    match parse(alloc, lines) {
        Ok(tree) => Ok(tree),
        Err(fault) => Err(form_fault(fault)),
    }
}

/// The module that a text spells.
fn module_of(alloc: Global, text: &[u8]) -> Result<Module, TestsFault>
    requires { length text.now ≤ most_bytes }
    ensures is { IfOk result (λ tree. IsModuleOf text.now (view_module tree)) }
    ensures refused { IfErr result (λ fault. IsFault fault text.now) }
{
    match logical_lines(alloc, text) {
        Ok(lines) => spelled(alloc, &lines),
        Err(fault) => Err(line_fault(fault)),
    }
}

/// The tests file of a module.
fn file_of(alloc: Global, tree: Module) -> Result<TestFile, TestsFault>
    ensures found { (text : List ℕ) → length text ≤ most_bytes → IsModuleOf text (view_module tree)
        → IfOk result (λ file. IsTests text (view_file file)) }
    ensures sound { (text : List ℕ) → IsModuleOf text (view_module tree) → IfOk result (λ file. is_sound (view_file file) ≡ true) }
    ensures refused { (text : List ℕ) → length text ≤ most_bytes → IsModuleOf text (view_module tree) → IfErr result (λ fault. IsFault fault text) }
{
    match check(alloc, tree) {
        Ok(file) => Ok(file),
        Err(FileFault::Rule(rule, line)) => Err(broken(TestsRule::File(rule), line)),
        Err(FileFault::OutOfMemory) => Err(TestsFault::OutOfMemory),
    }
}

/// The functions and the tests that a text stands for (cocotb 1.8); or the rule that it breaks first, with the line: first the rules of
/// lines, over the whole text, then those of forms, blocks and heights, then those of a file. A text of more than 1,048,576 bytes is too
/// long, whatever it holds. `OutOfMemory` says nothing of the text.
pub fn read_tests(alloc: Global, text: &[u8]) -> Result<TestFile, TestsFault>
    // The text is a tests file, and this is what it stands for.
    ensures found { IfOk result (λ file. IsTests text.now (view_file file)) }
    // Its tests can be run.
    ensures sound { IfOk result (λ file. is_sound (view_file file) ≡ true) }
    // Otherwise it is refused so.
    ensures refused { IfErr result (λ fault. IsFault fault text.now) }
{
    if text.len() > MOST_BYTES {
        return Err(TestsFault::Refused(TestsRefusal::TooLong));
    }
    match module_of(alloc, text) {
        Ok(tree) => file_of(alloc, tree),
        Err(fault) => Err(fault),
    }
}
