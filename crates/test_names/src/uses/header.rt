//! Headers of blocks.

ghost use Rattle.std.specs.Prelude.{◌≡◌, ◌||◌, map};
ghost use Rattle.py_syntax.specs.StatementTrees.{view_caught, view_header, view_span};
ghost use Rattle.test_meaning.specs.Rules.Uses.{Takes, caught_uses, header_uses, is_loop, kind_use, span_uses};
ghost use Rattle.test_names.specs.Uses.Answer.{answer};

use crate::uses::call::of_both;
use crate::uses::statement::of_kind;
use crate::uses::{Scope, first_of, of_tree};
use py_syntax::{Caught, Const, FaultKind, Header, Span};
use test_meaning::rules::FileRule;

/// The rule that constants break.
pub(crate) fn of_constants<S: Scope>(scope: &S, constants: &[Const]) -> Option<FileRule>
    ensures { result ≡ answer (S.file scope.now) (S.around scope.now) (map Takes constants.now) }
{
    let mut found = None;
    for constant in constants {
        found = first_of(found, scope.takes(constant));
    }
    found
}

/// The rule that kinds of faults break.
fn of_kinds<S: Scope>(scope: &S, kinds: &[FaultKind]) -> Option<FileRule>
    ensures { result ≡ answer (S.file scope.now) (S.around scope.now) (map kind_use kinds.now) }
{
    let mut found = None;
    for kind in kinds {
        found = first_of(found, of_kind(scope, *kind));
    }
    found
}

/// The rule that what an `except` catches breaks.
fn of_caught<S: Scope>(scope: &S, caught: &Caught) -> Option<FileRule>
    ensures { result ≡ answer (S.file scope.now) (S.around scope.now) (caught_uses (view_caught caught.now)) }
{
    match caught {
        Caught::All => None,
        Caught::Kind(kind) => of_kind(scope, *kind),
        Caught::Kinds(kinds) => of_kinds(scope, kinds),
        Caught::As(kind, _) => of_kind(scope, *kind),
    }
}

/// The rule that what a `for` goes over breaks.
fn of_span<S: Scope>(scope: &S, span: &Span) -> Option<FileRule>
    ensures { result ≡ answer (S.file scope.now) (S.around scope.now) (span_uses (view_span span.now)) }
{
    match span {
        Span::Stop(stop) => of_tree(scope, stop),
        Span::StartStop(start, stop) => of_both(scope, start, stop),
        Span::StartStopStep(start, stop, step) => {
            first_of(of_both(scope, start, stop), of_tree(scope, step))
        }
        Span::Constants(constants) => of_constants(scope, constants),
    }
}

/// The rule that the uses of a header break.
pub fn of_header<S: Scope>(scope: &S, header: &Header) -> Option<FileRule>
    ensures { result ≡ answer (S.file scope.now) (S.around scope.now) (header_uses (view_header header.now)) }
{
    match header {
        Header::If(condition) => of_tree(scope, condition),
        Header::Elif(condition) => of_tree(scope, condition),
        Header::Else => None,
        Header::While(condition) => of_tree(scope, condition),
        Header::For(_, span) => of_span(scope, span),
        Header::Try => None,
        Header::Except(caught) => of_caught(scope, caught),
        Header::With(lock) => of_tree(scope, lock),
    }
}

/// Whether a header is that of a loop.
fn is_loop(header: &Header) -> bool
    ensures { result ≡ is_loop (view_header header.now) }
{
    matches!(header, Header::While(_) | Header::For(_, _))
}

/// Whether the lines behind a header stand in a loop, where the header stands in one or doesn't.
pub(crate) fn is_looped(looped: bool, header: &Header) -> bool
    ensures { result ≡ (looped || is_loop (view_header header.now)) }
{
    looped || is_loop(header)
}
