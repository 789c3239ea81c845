//! Trees and lists of trees, taken apart.

ghost use Rattle.std.specs.Prelude.{◌≡◌, false, List, map, Some, None, MatchOption};
ghost use Rattle.py_syntax.specs.ExpressionTrees.{view};
ghost use Rattle.py_syntax.specs.StatementTrees.{view_span};
ghost use Rattle.py_syntax.specs.StatementForms;
ghost use Rattle.py_statement.specs.Lists;
ghost use Rattle.py_statement.specs.Reading;

use py_syntax::{Const, Expression, FaultKind, Span};

/// Whether a tree is this name.
pub fn is_word(word: &[u8], tree: &Expression) -> bool
    ensures { result ≡ Reading.is_word word.now (view tree.now) }
{
    match tree {
        Expression::Name(name) => name.bytes() == word,
        _ => false,
    }
}

/// The kind of fault that a tree names.
#[tactic(auto, unfolding(crate::specs::Reading::kind_of))]
pub fn kind(tree: &Expression) -> Option<FaultKind>
    ensures { result ≡ Reading.kind_of (view tree.now) }
{
    match tree {
        Expression::Name(name) => FaultKind::of(name.bytes()),
        _ => None,
    }
}

/// The first element of a list, and the others.
pub fn first<T: Drop>(mut list: Vec<T>) -> Option<(T, Vec<T>)>
    ensures { MatchOption result (Reading.first_of list.items ≡ None) (λ x. Reading.first_of list.items ≡ Some (x.0, x.1.items)) }
{
    if list.is_empty() {
        return None;
    }
    let first = list.remove(0);
    Some((first, list))
}

/// One to three of a kind.
#[derive(Drop)]
pub enum Few<T> {
    One(T),
    Two(T, T),
    Three(T, T, T),
}

/// The elements of a list of one to three.
fn one_to_three<T: Drop>(mut list: Vec<T>) -> Option<Few<T>>
    ensures { MatchOption result (Lists.few_of list.items ≡ None) (λ x. Lists.few_of list.items ≡ Some x) }
{
    let last = list.pop()?;
    let Some(second) = list.pop() else {
        return Some(Few::One(last));
    };
    let Some(first) = list.pop() else {
        return Some(Few::Two(second, last));
    };
    if list.is_empty() {
        Some(Few::Three(first, second, last))
    } else {
        None
    }
}

/// The range of one to three bounds.
#[tactic(auto, using(crate::proofs::Taken::range_seen))]
pub fn range(list: Vec<Expression>) -> Option<Span>
    ensures { MatchOption result (Reading.range_of (map view list.items) ≡ None) (λ x. Reading.range_of (map view list.items) ≡ Some (view_span x)) }
{
    match one_to_three(list) {
        Some(Few::One(stop)) => Some(Span::Stop(stop)),
        Some(Few::Two(start, stop)) => Some(Span::StartStop(start, stop)),
        Some(Few::Three(start, stop, step)) => Some(Span::StartStopStep(start, stop, step)),
        None => None,
    }
}

/// How many `%s` a text holds, if it holds no other `%`.
#[tactic(auto, unfolding(crate::specs::Reading::places_behind))]
fn count_places(text: &[u8]) -> Option<usize>
    ensures { result ≡ Reading.places_behind false 0 text.now }
{
    let mut count = 0;
    let mut is_open = false;
    for byte in text {
        if is_open {
            if *byte != b's' {
                return None;
            }
            count += 1;
            is_open = false;
        } else if *byte == b'%' {
            is_open = true;
        }
    }
    if is_open { None } else { Some(count) }
}

/// Whether a text holds `%s` so many times, and no other `%`.
#[tactic(auto, using(crate::proofs::Places::places_same))]
fn text_has_places(text: &[u8], count: usize) -> bool
    ensures { result ≡ StatementForms.is_count count (StatementForms.places text.now) }
{
    match count_places(text) {
        Some(found) => found == count,
        None => false,
    }
}

/// Whether the tree is a text with so many places.
fn has_places(tree: &Expression, count: usize) -> bool
    ensures { result ≡ StatementForms.has_places (view tree.now) count }
{
    match tree {
        Expression::Constant(Const::Text(text)) => text_has_places(text.bytes(), count),
        _ => false,
    }
}

/// Whether these values may be logged: one alone, or a text with a place for each of the others.
#[tactic(auto, unfolding(py_syntax::specs::StatementForms::can_log))]
pub fn can_log(first: &Expression, others: &[Expression]) -> bool
    ensures { result ≡ StatementForms.can_log (view first.now) (map view others.now) }
{
    others.is_empty() || has_places(first, others.len())
}
