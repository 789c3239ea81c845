//! What tests are read as.
ghost use Rattle.std.specs.Prelude.{◌≡◌, IfOk, string_bytes, true};
ghost use Rattle.test_meaning.specs.Body.Sound.{is_sound};
ghost use Rattle.test_meaning.specs.Body.Views.{view_file};
ghost use Rattle.table_rows.specs.Rows.{part_at, written};
ghost use Rattle.table_rows.specs.Shown.{latin};
ghost use Rattle.test_file.specs.Text.Words.{refusal_word};
ghost use Rattle.runner_tests.specs.Runner.Tests.{AreRead, ShowsTests, file_word, numbers_word};

use crate::runner::words::latin_text;
use port_io::NoMemory;
use std::alloc::{AllocError, Global};
use table_rows::Row;
use test_file::text::{TestsFault, TestsRefusal, read_tests};
use test_meaning::body::TestFile;

/// How many functions there are, and how many tests. Only want of memory is an error, here and below.
fn numbers_shown(alloc: Global, functions: usize, tests: usize) -> Result<String, AllocError>
    ensures { IfOk result (λ text. string_bytes text ≡ numbers_word functions tests) }
{
    format!(in alloc; "{functions} functions, {tests} tests")
}

/// How many functions a file has, `Clock.start`, `Queue.put` and `Queue.get` among them, and how many tests.
fn file_shown(alloc: Global, file: &TestFile) -> Result<String, NoMemory>
    ensures { IfOk result (λ text. string_bytes text ≡ file_word file.now) }
{
    let shown = numbers_shown(alloc, file.functions.len(), file.cases.len())?;
    Ok(shown)
}

/// Why a text is no tests file.
fn refusal_shown(alloc: Global, why: TestsRefusal) -> Result<String, NoMemory>
    ensures { IfOk result (λ text. string_bytes text ≡ latin (refusal_word why)) }
{
    let reason = why.text(alloc)?;
    Ok(latin_text(alloc, &reason)?)
}

/// The tests file that a text is, or why it is none.
pub fn tests_of(alloc: Global, text: &[u8]) -> Result<Result<TestFile, TestsRefusal>, NoMemory>
    ensures are { IfOk result (λ found. AreRead text.now found) }
    ensures sound { IfOk result (λ found. IfOk found (λ file. is_sound (view_file file) ≡ true)) }
{
    match read_tests(alloc, text) {
        Ok(file) => Ok(Ok(file)),
        Err(TestsFault::Refused(why)) => Ok(Err(why)),
        Err(TestsFault::OutOfMemory) => Err(NoMemory),
    }
}

/// What a text is read as: the numbers of its functions and tests, or why it is refused.
fn text_shown(alloc: Global, text: &[u8]) -> Result<String, NoMemory>
    ensures { IfOk result (λ shown. ShowsTests text.now (string_bytes shown)) }
{
    match tests_of(alloc, text)? {
        Ok(file) => file_shown(alloc, &file),
        Err(why) => refusal_shown(alloc, why),
    }
}

/// The same of a row's tests.
pub fn tests_text(alloc: Global, row: &Row<'_>) -> Result<String, NoMemory>
    ensures { IfOk result (λ text. ShowsTests (written (part_at 2 row.now)) (string_bytes text)) }
{
    let text = row.text(alloc, 2)?;
    text_shown(alloc, &text)
}
