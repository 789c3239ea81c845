//! Why tests fail, by how they ended and by their options (cocotb 1.8, `cocotb.test`).
ghost use Rattle.std.specs.Prelude.{◌≡◌, ◌++◌, IfOk};
ghost use Rattle.test_meaning.specs.Body.Views.{view_case};
ghost use Rattle.rig_model.specs.Run.Line as lines;
ghost use Rattle.rig_model.specs.Run.Rig as rig;
ghost use Rattle.rig_model.specs.Run.Verdict as meaning;

use gpi::{Flat, SigId};
use port_io::{Name, NoMemory};
use py_syntax::FaultKind;
use py_value::{Fault, Paths};
use rig_model::run::{Outcome, Verdict};
use std::alloc::Global;
use task_step::statement_values::{catches_kind, same_kind};
use test_meaning::body::TestCase;

/// One text and another right behind it.
fn joined(alloc: Global, first: &[u8], second: &[u8]) -> Result<Name, NoMemory>
    ensures { IfOk result (λ text. text ≡ first.now ++ second.now) }
{
    let mut text = first.to_vec(alloc)?;
    text.extend_from_slice(second)?;
    Name::of(alloc, &text)
}

/// The path of a signal of the design, which begins with the name of the top module (IEEE 1364-2005, 12.5), and nothing where the design has no
/// such signal. It takes no memory.
pub fn path_of(flat: &Flat, sig: SigId) -> &[u8]
    ensures { result.now ≡ rig.path_of flat.now sig }
{
    if (sig.0 as usize) < flat.signals.len() {
        flat.path(sig)
    } else {
        b""
    }
}

/// The kind of a fault, and what it says after a colon, where it says anything.
fn fault_text(alloc: Global, fault: &Fault) -> Result<Name, NoMemory>
    ensures { IfOk result (λ text. text ≡ lines.fault_text fault.now) }
{
    match fault.text.bytes() {
        [] => Name::of(alloc, fault.kind.name()),
        text => {
            let front = joined(alloc, fault.kind.name(), b": ")?;
            joined(alloc, front.bytes(), text)
        }
    }
}

/// Why a test with these options fails whose own task returned, or None where it passes.
fn normal_reason(
    alloc: Global,
    expect_fail: bool,
    expect_error: Option<FaultKind>,
) -> Result<Option<Name>, NoMemory>
    ensures { IfOk result (λ reason. reason ≡ meaning.normal_reason expect_fail expect_error) }
{
    if expect_fail {
        return Ok(Some(Name::of(alloc, b"passed, but a failure was expected")?));
    }
    match expect_error {
        None => Ok(None),
        Some(kind) => {
            let front = joined(alloc, b"passed, but ", kind.name())?;
            Ok(Some(joined(alloc, front.bytes(), b" was expected")?))
        }
    }
}

/// Whether a fault of this kind is the one that `expect_error` names, if it names any.
fn is_expected_error(expected: Option<FaultKind>, kind: FaultKind) -> bool
    ensures { result ≡ meaning.is_expected_error expected kind }
{
    match expected {
        Some(expected) => catches_kind(expected, kind),
        None => false,
    }
}

/// Whether a fault of this kind is the failure that `expect_fail` asks for.
fn is_expected_failure(expected: bool, kind: FaultKind) -> bool
    ensures { result ≡ meaning.is_expected_failure expected kind }
{
    expected && same_kind(kind, FaultKind::AssertionError)
}

/// Whether a test was to raise a fault of this kind.
fn is_expected(case: &TestCase, kind: FaultKind) -> bool
    ensures { result ≡ meaning.is_expected (view_case case.now) kind }
{
    is_expected_failure(case.expect_fail, kind) || is_expected_error(case.expect_error, kind)
}

/// Why a test fails that ended with this fault, or None where it was to raise it.
fn raised_reason(alloc: Global, case: &TestCase, fault: &Fault) -> Result<Option<Name>, NoMemory>
    ensures { IfOk result (λ reason. reason ≡ meaning.raised_reason (view_case case.now) fault.now) }
{
    if is_expected(case, fault.kind) {
        return Ok(None);
    }
    Ok(Some(fault_text(alloc, fault)?))
}

/// Why a test fails that ended so, or None where it passes: by `expect_fail` and `expect_error` where its own task returned or it ended with a
/// fault, which is told by its kind and by what it says; by the path of the signal where one was written in the read-only phase; or `Stalled`.
pub fn reason_of(
    alloc: Global,
    flat: &Flat,
    case: &TestCase,
    outcome: &Outcome,
) -> Result<Option<Name>, NoMemory>
    ensures { IfOk result (λ reason. reason ≡ meaning.reason_of flat.now (view_case case.now) outcome.now) }
{
    match outcome {
        Outcome::Normal => normal_reason(alloc, case.expect_fail, case.expect_error),
        Outcome::Raised(fault) => raised_reason(alloc, case, fault),
        Outcome::ReadOnlyWrite(sig) => {
            let reason = joined(alloc, b"ReadOnlyWrite: ", path_of(flat, *sig))?;
            Ok(Some(reason))
        }
        Outcome::Stalled => Ok(Some(Name::of(alloc, b"Stalled")?)),
    }
}

/// What the report says of a test that fails for this reason, or passes where there is none. It takes no memory.
pub fn verdict_of(reason: &Option<Name>) -> Verdict
    ensures { result ≡ meaning.verdict_of reason.now }
{
    match reason {
        None => Verdict::Pass,
        Some(_) => Verdict::Fail,
    }
}
