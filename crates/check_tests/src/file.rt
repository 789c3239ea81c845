//! Accepted tests files as text.

ghost use Rattle.std.specs.Prelude.{◌≡◌, map, option_map, IfOk};
ghost use Rattle.std.specs.Fmt.{signed_decimal};
ghost use Rattle.test_meaning.specs.Body.Views.{view_case, view_file, view_function, view_limit};
ghost use Rattle.check_tests.specs.Files.{
  cases_text,
  constant_text,
  fail_mark,
  file_text,
  front_text,
  functions_text,
  kind_text,
  last_text,
  options_text,
  skip_mark,
  time_text,
  truth_text,
};

use crate::pieces::{Shown, all_texts, joined, texts};
use port_io::{Name, Sequence};
use py_syntax::{Const, FaultKind};
use std::alloc::{AllocError, Global};
use test_meaning::body::{Function, TestCase, TestFile};

/// How many tests are shown from the front.
const MOST_SHOWN: usize = 12;

impl Shown for Name {
    ghost use Rattle.check_tests.specs.Files.{spaced};

    ghost text = { spaced };

    fn shown(&self, alloc: Global) -> Result<Vec<u8>, AllocError> {
        joined(alloc, &[b" ", self.bytes()])
    }
}

/// A truth value.
fn truth_text(truth: bool) -> &'static [u8]
    ensures { result.now ≡ truth_text truth }
{
    if truth { b"True" } else { b"False" }
}

/// A whole number in decimal digits.
fn number_text(alloc: Global, number: i128) -> Result<Vec<u8>, AllocError>
    ensures { IfOk result (λ text. text.items ≡ signed_decimal number) }
{
    let digits = format!(in alloc; "{number}")?;
    Ok(digits.into_bytes())
}

/// A constant. A text stands between quotes.
fn constant_text(alloc: Global, constant: &Const) -> Result<Vec<u8>, AllocError>
    ensures { IfOk result (λ text. text.items ≡ constant_text constant.now) }
{
    match constant {
        Const::Absent => b"None".to_vec(alloc),
        Const::Truth(truth) => truth_text(*truth).to_vec(alloc),
        Const::Whole(number) => number_text(alloc, *number),
        Const::Text(text) => joined(alloc, &[b"'", text.bytes(), b"'"]),
        Const::Named(name) => name.bytes().to_vec(alloc),
    }
}

impl Shown for Const {
    ghost use Rattle.check_tests.specs.Files.{spaced_constant};

    ghost text = { spaced_constant };

    fn shown(&self, alloc: Global) -> Result<Vec<u8>, AllocError> {
        let constant = constant_text(alloc, self)?;
        joined(alloc, &[b" ", &constant])
    }
}

impl Shown for Function {
    ghost use Rattle.test_meaning.specs.Body.Views.{view_function};
    ghost use Rattle.check_tests.specs.Files.{function_text};

    ghost text = { λ f. function_text (view_function f) };

    fn shown(&self, alloc: Global) -> Result<Vec<u8>, AllocError> {
        let parameters = all_texts(alloc, &self.parameters)?;
        let others = all_texts(alloc, &self.others)?;
        joined(alloc, &[b"def", &parameters, b" /", &others, b"; "])
    }
}

/// A limit of simulated time.
fn time_text(alloc: Global, time: &Option<(Const, Const)>) -> Result<Vec<u8>, AllocError>
    ensures { IfOk result (λ text. text.items ≡ time_text (option_map view_limit time.now)) }
{
    match time {
        Some((number, unit)) => {
            let number = constant_text(alloc, number)?;
            let unit = constant_text(alloc, unit)?;
            joined(
                alloc,
                &[b" timeout_time=", &number, b" timeout_unit=", &unit],
            )
        }
        None => Ok(Vec::new(alloc)),
    }
}

/// What marks a test that is expected to fail.
fn fail_mark(expect_fail: bool) -> &'static [u8]
    ensures { result.now ≡ fail_mark expect_fail }
{
    if expect_fail { b" expect_fail" } else { b"" }
}

/// What marks a test that is skipped.
fn skip_mark(skip: bool) -> &'static [u8]
    ensures { result.now ≡ skip_mark skip }
{
    if skip { b" skip" } else { b"" }
}

/// The kind of fault that is expected.
fn kind_text(alloc: Global, kind: Option<FaultKind>) -> Result<Vec<u8>, AllocError>
    ensures { IfOk result (λ text. text.items ≡ kind_text kind) }
{
    match kind {
        Some(kind) => joined(alloc, &[b" expect_error=", kind.name()]),
        None => Ok(Vec::new(alloc)),
    }
}

/// The options of a test.
fn options_text(alloc: Global, case: &TestCase) -> Result<Vec<u8>, AllocError>
    ensures { IfOk result (λ text. text.items ≡ options_text (view_case case.now)) }
{
    let time = time_text(alloc, &case.time)?;
    let fails = fail_mark(case.expect_fail);
    let kind = kind_text(alloc, case.expect_error)?;
    let skip = skip_mark(case.skip);
    joined(alloc, &[&time, fails, &kind, skip])
}

impl Shown for TestCase {
    ghost use Rattle.test_meaning.specs.Body.Views.{view_case};
    ghost use Rattle.check_tests.specs.Files.{case_text};

    ghost text = { λ c. case_text (view_case c) };

    fn shown(&self, alloc: Global) -> Result<Vec<u8>, AllocError> {
        let function = format!(in alloc; "{}", self.func)?.into_bytes();
        let arguments = all_texts(alloc, &self.args)?;
        let options = options_text(alloc, self)?;
        joined(
            alloc,
            &[
                b"; ",
                self.name.bytes(),
                b"=",
                &function,
                &arguments,
                &options,
            ],
        )
    }
}

/// The last test, where there are more than those in front.
fn last_text(alloc: Global, cases: &Sequence<TestCase>) -> Result<Vec<u8>, AllocError>
    ensures { IfOk result (λ text. text.items ≡ last_text (map view_case cases.now)) }
{
    if cases.len() <= MOST_SHOWN {
        return Ok(Vec::new(alloc));
    }
    let last = cases.get(cases.len() - 1).shown(alloc)?;
    joined(alloc, &[b" ..", &last])
}

/// The tests in front.
fn front_text(alloc: Global, cases: &Sequence<TestCase>) -> Result<Vec<u8>, AllocError>
    ensures { IfOk result (λ text. text.items ≡ front_text (map view_case cases.now)) }
{
    texts(alloc, MOST_SHOWN, cases)
}

/// How many tests there are, those in front, and the last where there are more.
fn cases_text(alloc: Global, cases: &Sequence<TestCase>) -> Result<Vec<u8>, AllocError>
    ensures { IfOk result (λ text. text.items ≡ cases_text (map view_case cases.now)) }
{
    let count = format!(in alloc; "{}", cases.len())?.into_bytes();
    let front = front_text(alloc, cases)?;
    let last = last_text(alloc, cases)?;
    joined(alloc, &[&count, b" tests", &front, &last])
}

/// The functions, by number.
fn functions_text(alloc: Global, functions: &Sequence<Function>) -> Result<Vec<u8>, AllocError>
    ensures { IfOk result (λ text. text.items ≡ functions_text (map view_function functions.now)) }
{
    all_texts(alloc, functions)
}

/// A file: its functions by number, and its tests.
pub fn file_text(alloc: Global, file: &TestFile) -> Result<Vec<u8>, AllocError>
    ensures { IfOk result (λ text. text.items ≡ file_text (view_file file.now)) }
{
    let functions = functions_text(alloc, &file.functions)?;
    let cases = cases_text(alloc, &file.cases)?;
    joined(alloc, &[&functions, &cases])
}
