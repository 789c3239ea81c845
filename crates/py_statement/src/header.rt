//! The headers of blocks.

ghost use Rattle.py_expression.specs.Shown.{height_limit};
ghost use Rattle.std.specs.Prelude.{◌≡◌, List, [], ◌∷◌, ◌++◌, map, codes, Some, None, IfOk};
ghost use Rattle.py_syntax.specs.ExpressionTrees.{view};
ghost use Rattle.py_syntax.specs.StatementTrees.{view_caught, view_span, view_header};
ghost use Rattle.py_expression.specs.Phrase.Gives.{Gives};
ghost use Rattle.py_expression.specs.Boxes.{inside};
ghost use Rattle.py_statement.specs.Call.Chosen.{made};
ghost use Rattle.py_statement.specs.Call.Views.{tall};
ghost use Rattle.py_statement.specs.Reading;
ghost use Rattle.py_statement.specs.Words.{colon_of};

use crate::call::{after_call, value, value_list};
use crate::tree::{kind, range};
use crate::words::{colon_of_line, kind_at};
use port_io::{Name, NoMemory, boxed};
use py_expression::phrase::{Mark, ReadError, after, constants, name_at};
use py_syntax::{Bracket, Caught, Expression, FaultKind, Header, Keyword, Span, Token};
use std::alloc::Global;

/// A header of this height, on the heap.
pub fn headed(
    alloc: Global,
    header: Header,
    height: usize,
) -> Result<(Box<Header>, usize), ReadError>
    ensures { Gives (tall (inside view_header)) result (Some (view_header header, height)) }
{
    Ok((boxed(alloc, header)?, height))
}

/// An expression and `:` at the end of the line.
#[tactic(auto, unfolding(crate::specs::Reading::test_of))]
pub fn test(alloc: Global, tokens: &[Token]) -> Result<(Box<Expression>, usize), ReadError>
    ensures { Gives (tall (inside view)) result (Reading.test_of height_limit tokens.now) }
{
    let (found, rest) = value(alloc, tokens)?;
    colon_of_line(rest)?;
    Ok(found)
}

/// What a `for` goes over, of this height, where `:` alone follows.
fn before_colon(
    span: Box<Span>,
    height: usize,
    rest: &[Token],
) -> Result<(Box<Span>, usize), ReadError>
    ensures { Gives (tall (inside view_span)) result (made (λ _. (view_span span.value, height)) (colon_of rest.now)) }
{
    match colon_of_line(rest) {
        Ok(()) => Ok((span, height)),
        Err(error) => Err(error),
    }
}

/// `range(..):`, behind the `(`.
#[tactic(auto, unfolding(crate::specs::Reading::range_span_of))]
fn range_span(alloc: Global, tokens: &[Token]) -> Result<(Box<Span>, usize), ReadError>
    ensures { Gives (tall (inside view_span)) result (Reading.range_span_of height_limit tokens.now) }
{
    let ((list, height), rest) = value_list(alloc, tokens)?;
    match range(list) {
        Some(span) => before_colon(boxed(alloc, span)?, height, rest),
        None => Err(ReadError::Wrong),
    }
}

/// `[constant, ..]:`, behind the `[`.
#[tactic(auto, unfolding(crate::specs::Reading::constants_span_of))]
fn constants_span(alloc: Global, tokens: &[Token]) -> Result<(Box<Span>, usize), ReadError>
    ensures { Gives (tall (inside view_span)) result (Reading.constants_span_of tokens.now) }
{
    let (list, rest) = constants(alloc, tokens)?;
    before_colon(boxed(alloc, Span::Constants(list))?, 0, rest)
}

/// Behind `for name in`.
#[tactic(auto, unfolding(crate::specs::Reading::span_of))]
fn span(alloc: Global, tokens: &[Token]) -> Result<(Box<Span>, usize), ReadError>
    ensures { Gives (tall (inside view_span)) result (Reading.span_of height_limit tokens.now) }
{
    if let Some(rest) = after_call(b"range", tokens) {
        return range_span(alloc, rest);
    }
    match after(Mark::Open(Bracket::Square), tokens) {
        Some(rest) => constants_span(alloc, rest),
        None => Err(ReadError::Wrong),
    }
}

/// Behind `for`.
#[tactic(auto, unfolding(crate::specs::Reading::for_of))]
pub fn for_header(alloc: Global, tokens: &[Token]) -> Result<(Box<Header>, usize), ReadError>
    ensures { Gives (tall (inside view_header)) result (Reading.for_of height_limit tokens.now) }
{
    let Some((name, rest)) = name_at(tokens) else {
        return Err(ReadError::Wrong);
    };
    let Some(rest) = after(Mark::Keyword(Keyword::In), rest) else {
        return Err(ReadError::Wrong);
    };
    let name = Name::of(alloc, name.bytes())?;
    let (span, height) = span(alloc, rest)?;
    let header = Header::For(name, Box::into_inner(span));
    headed(alloc, header, height)
}

/// These kinds and one more.
fn with_kind(mut all: Vec<FaultKind>, kind: FaultKind) -> Result<Vec<FaultKind>, NoMemory>
    ensures { IfOk result (λ x. x.items ≡ all.items ++ (kind ∷ [])) }
{
    all.push(kind)?;
    Ok(all)
}

/// The kinds of faults that these trees name.
#[tactic(auto, unfolding(crate::specs::Reading::kinds_behind))]
fn kinds(alloc: Global, list: &[Expression]) -> Result<Vec<FaultKind>, ReadError>
    ensures { Gives (λ x. x.items) result (Reading.kinds_behind [] (map view list.now)) }
{
    let mut all = Vec::new(alloc);
    for tree in list {
        match kind(tree) {
            Some(kind) => all = with_kind(all, kind)?,
            None => return Err(ReadError::Wrong),
        }
    }
    Ok(all)
}

/// `(kind, ..):`, behind the `(`.
#[tactic(auto, unfolding(crate::specs::Reading::caught_kinds_of))]
fn caught_kinds(alloc: Global, tokens: &[Token]) -> Result<Box<Caught>, ReadError>
    ensures { Gives (inside view_caught) result (Reading.caught_kinds_of height_limit tokens.now) }
{
    let ((list, _), rest) = value_list(alloc, tokens)?;
    let kinds = kinds(alloc, &list)?;
    if kinds.is_empty() {
        return Err(ReadError::Wrong);
    }
    colon_of_line(rest)?;
    Ok(boxed(alloc, Caught::Kinds(kinds))?)
}

/// `name:`, behind `kind as`.
#[tactic(auto, unfolding(crate::specs::Reading::as_name_of))]
fn as_name(alloc: Global, kind: FaultKind, tokens: &[Token]) -> Result<Box<Caught>, ReadError>
    ensures { Gives (inside view_caught) result (Reading.as_name_of kind tokens.now) }
{
    let Some((name, rest)) = name_at(tokens) else {
        return Err(ReadError::Wrong);
    };
    colon_of_line(rest)?;
    let name = Name::of(alloc, name.bytes())?;
    Ok(boxed(alloc, Caught::As(kind, name))?)
}

/// Behind `except` and one kind.
#[tactic(auto, unfolding(crate::specs::Reading::caught_kind_of))]
fn caught_kind(alloc: Global, kind: FaultKind, tokens: &[Token]) -> Result<Box<Caught>, ReadError>
    ensures { Gives (inside view_caught) result (Reading.caught_kind_of (kind, tokens.now)) }
{
    match after(Mark::Keyword(Keyword::As), tokens) {
        Some(rest) => as_name(alloc, kind, rest),
        None => {
            colon_of_line(tokens)?;
            Ok(boxed(alloc, Caught::Kind(kind))?)
        }
    }
}

/// What an `except` catches, behind the word.
#[tactic(auto, unfolding(crate::specs::Reading::caught_of))]
fn caught(alloc: Global, tokens: &[Token]) -> Result<Box<Caught>, ReadError>
    ensures { Gives (inside view_caught) result (Reading.caught_of height_limit tokens.now) }
{
    if let Some(rest) = after(Mark::Open(Bracket::Round), tokens) {
        return caught_kinds(alloc, rest);
    }
    match kind_at(tokens) {
        Some((kind, rest)) => caught_kind(alloc, kind, rest),
        None => {
            colon_of_line(tokens)?;
            Ok(boxed(alloc, Caught::All)?)
        }
    }
}

/// Behind `except`.
#[tactic(auto, unfolding(crate::specs::Reading::except_of))]
pub fn except_header(alloc: Global, tokens: &[Token]) -> Result<(Box<Header>, usize), ReadError>
    ensures { Gives (tall (inside view_header)) result (Reading.except_of height_limit tokens.now) }
{
    let caught = caught(alloc, tokens)?;
    let header = Header::Except(Box::into_inner(caught));
    headed(alloc, header, 0)
}

/// Behind `else`.
#[tactic(auto, unfolding(crate::specs::Reading::header_only))]
pub fn else_header(alloc: Global, tokens: &[Token]) -> Result<(Box<Header>, usize), ReadError>
    ensures { Gives (tall (inside view_header)) result (Reading.header_only (view_header Header.Else) tokens.now) }
{
    colon_of_line(tokens)?;
    headed(alloc, Header::Else, 0)
}

/// Behind `try`.
#[tactic(auto, unfolding(crate::specs::Reading::header_only))]
pub fn try_header(alloc: Global, tokens: &[Token]) -> Result<(Box<Header>, usize), ReadError>
    ensures { Gives (tall (inside view_header)) result (Reading.header_only (view_header Header.Try) tokens.now) }
{
    colon_of_line(tokens)?;
    headed(alloc, Header::Try, 0)
}

/// Behind `async`.
#[tactic(auto, unfolding(crate::specs::Reading::with_of))]
pub fn with_header(alloc: Global, tokens: &[Token]) -> Result<(Box<Header>, usize), ReadError>
    ensures { Gives (tall (inside view_header)) result (Reading.with_of height_limit tokens.now) }
{
    match after(Mark::Keyword(Keyword::With), tokens) {
        Some(rest) => {
            let (lock, height) = test(alloc, rest)?;
            let header = Header::With(Box::into_inner(lock));
            headed(alloc, header, height)
        }
        None => Err(ReadError::Wrong),
    }
}
