//! Lists with commas between their elements.

ghost use Rattle.std.specs.Prelude.{◌≡◌, ◌<◌, [], ◌∷◌, map};
ghost use Rattle.v_syntax.specs.declared.mark.Mark.TheVariants as mark;
ghost use Rattle.v_expression.specs.Phrase.Readers;
ghost use Rattle.v_expression.specs.Phrase.Readers.{many, sign, with_front, ◌▹◌};
ghost use Rattle.v_expression.specs.Phrase.Stops.{Gives};

use crate::phrase::element::Element;
use crate::phrase::front::{after, starts_mark};
use crate::phrase::read_error::ReadError;
use std::alloc::Global;
use v_syntax::{Mark, Token};

/// A list whose first element has been read: the elements behind it, each with a comma before it.
pub fn others<'a, T: Element>(
    alloc: Global,
    total: usize,
    room: usize,
    first: T::Value,
    tokens: &'a [Token],
) -> Result<(Vec<T::Value>, &'a [Token]), ReadError>
    requires { room < 1000 }
    ensures { Gives (λ x. (map T.tree x.0.items, x.1.now)) result
        (with_front (T.tree first ∷ []) (many (Readers.starts_mark mark.Comma) (sign mark.Comma ▹ T.reading total room) tokens.now)) }
{
    let mut all = Vec::new(alloc);
    all.push(first)?;
    let mut rest = tokens;
    for _ in 0..tokens.len() {
        if !starts_mark(Mark::Comma, rest) {
            break;
        }
        let behind = after(Mark::Comma, rest)?;
        let (another, others) = T::read(alloc, total, room, behind)?;
        all.push(another)?;
        rest = others;
    }
    Ok((all, rest))
}

/// One or more elements, with commas between.
#[tactic(auto, unfolding(crate::specs::Phrase::Readers::listed))]
pub fn listed<'a, T: Element>(
    alloc: Global,
    total: usize,
    room: usize,
    tokens: &'a [Token],
) -> Result<(Vec<T::Value>, &'a [Token]), ReadError>
    requires { room < 1000 }
    ensures { Gives (λ x. (map T.tree x.0.items, x.1.now)) result (Readers.listed (T.reading total room) tokens.now) }
{
    let (first, rest) = T::read(alloc, total, room, tokens)?;
    others::<T>(alloc, total, room, first, rest)
}
