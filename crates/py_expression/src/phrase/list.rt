//! Lists: elements with a mark between.

ghost use Rattle.std.specs.Prelude.{◌≡◌, List, [], ◌∷◌, ◌++◌, Option, Some, None, MatchOption, IfOk};
ghost use Rattle.py_syntax.specs.declared.token.Token.{Token};
ghost use Rattle.py_expression.specs.Phrase.Marks;
ghost use Rattle.py_expression.specs.Phrase.Readers;
ghost use Rattle.py_expression.specs.Phrase.Gives.{Gives};

use crate::phrase::element::Element;
use crate::phrase::fault::ReadError;
use crate::phrase::mark::{Mark, after, after_last, expect};
use port_io::NoMemory;
use py_syntax::{Bracket, Operator, Token};
use std::alloc::Global;

/// The tokens after the end of a list, behind an element: after the closing bracket, before which the mark between elements may
/// stand; or, where none closes the list, all tokens, if no such mark is the first.
#[tactic(auto, unfolding(crate::specs::Phrase::Readers::ending))]
fn ending(between: Mark, close: Option<Mark>, tokens: &[Token]) -> Option<&[Token]>
    ensures { MatchOption result (Readers.ending between close tokens.now ≡ None) (λ x. Readers.ending between close tokens.now ≡ Some x.now) }
{
    match (close, after(between, tokens)) {
        (Some(close), Some(rest)) => after(close, rest),
        (Some(close), None) => after(close, tokens),
        (None, Some(_)) => None,
        (None, None) => Some(tokens),
    }
}

/// The tokens after a `)`, before which a comma may stand.
#[tactic(auto, unfolding(crate::specs::Phrase::Readers::ending))]
pub fn last(tokens: &[Token]) -> Result<&[Token], ReadError>
    ensures { Gives (λ x. x.now) result (Readers.ending Marks.comma (Some (Mark.Close Bracket.Round)) tokens.now) }
{
    after_last(tokens).ok_or(ReadError::Wrong)
}

/// These and one more.
fn with<T: Drop>(mut all: Vec<T>, one: T) -> Result<Vec<T>, NoMemory>
    ensures { IfOk result (λ more. more.items ≡ all.items ++ (one ∷ [])) }
{
    all.push(one)?;
    Ok(all)
}

/// The elements behind one of them, up to the end of the list. There are fewer than so many.
fn others<'a, T: Element>(
    alloc: Global,
    between: Mark,
    close: Option<Mark>,
    most: usize,
    first: T,
    tokens: &'a [Token],
) -> Result<(Vec<T>, &'a [Token]), ReadError>
    ensures { Gives (λ x. (x.0.items, x.1.now)) result (Readers.others_of T.reading between close most (first ∷ []) tokens.now) }
{
    let mut all = with(Vec::new(alloc), first)?;
    let mut rest = tokens;
    for _ in 0..most {
        if let Some(end) = ending(between, close, rest) {
            return Ok((all, end));
        }
        let (next, behind) = T::read(alloc, expect(between, rest)?)?;
        all = with(all, next)?;
        rest = behind;
    }
    Err(ReadError::Wrong)
}

/// The elements of a list, one at least, with this mark between. Where a bracket closes the list, the mark may stand behind the
/// last element too.
#[tactic(auto, unfolding(crate::specs::Phrase::Readers::elements_of))]
pub fn elements<'a, T: Element>(
    alloc: Global,
    between: Mark,
    close: Option<Mark>,
    tokens: &'a [Token],
) -> Result<(Vec<T>, &'a [Token]), ReadError>
    ensures { Gives (λ x. (x.0.items, x.1.now)) result (Readers.elements_of T.reading between close tokens.now) }
{
    let (first, rest) = T::read(alloc, tokens)?;
    others(alloc, between, close, tokens.len(), first, rest)
}

/// The elements of a list in brackets, behind its opening bracket, with commas between: any number. A comma may stand behind
/// the last one.
#[tactic(auto, unfolding(crate::specs::Phrase::Readers::listed_of))]
pub fn listed<'a, T: Element>(
    alloc: Global,
    close: Mark,
    tokens: &'a [Token],
) -> Result<(Vec<T>, &'a [Token]), ReadError>
    ensures { Gives (λ x. (x.0.items, x.1.now)) result (Readers.listed_of T.reading close tokens.now) }
{
    match after(close, tokens) {
        Some(end) => Ok((Vec::new(alloc), end)),
        None => elements(alloc, Mark::Operator(Operator::Comma), Some(close), tokens),
    }
}
