//! The selects behind a name.

ghost use Rattle.std.specs.Prelude.{◌≡◌, ◌+◌, ◌<◌, ◌≤◌, IfOk};
ghost use Rattle.v_syntax.specs.ExpressionTrees.{view, view_select, view_selects, height, select_height, selects_height};
ghost use Rattle.v_expression.specs.Phrase.Stops.{Gives};
ghost use Rattle.v_expression.specs.Reading;
ghost use Rattle.v_expression.specs.Reading.{below, layer, selects_of, further_of, select_of, bound_of, range_of, last_of};
ghost use Rattle.v_expression.specs.Measures.{IsMeasured, IsMeasuredSelect, IsMeasuredSelects};

use crate::measured::{
    Measured, MeasuredSelect, MeasuredSelects, bit, indexed_part, of_word, one, part, whole,
};
use crate::operators::{down, expression_at};
use crate::phrase::{ReadError, after, behind, place};
use std::alloc::Global;
use v_syntax::{Mark, Select, Token, TokenNumber};

/// The selects behind a name that has so many levels below its own.
#[cycle(expressions)]
#[tactic(auto, unfolding(crate::specs::Reading::selects_of, v_syntax::specs::ExpressionTrees::selects_height))]
pub fn selects_at(
    alloc: Global,
    total: usize,
    room: usize,
    tokens: &[Token],
) -> Result<(MeasuredSelects, &[Token]), ReadError>
    requires { room < 1000 }
    ensures gives { Gives (λ x. (view_selects x.0.selects.value, x.1.now)) result (selects_of total room (below total room) tokens.now) }
    ensures height { IfOk result (λ x. IsMeasuredSelects (room + 1) x.0) }
{
    match behind(Mark::OpenBracket, tokens) {
        Some(after) => {
            let (select, rest) = select_at(alloc, total, room, tokens, after)?;
            further_at(alloc, total, room, select, rest)
        }
        None => Ok((whole(alloc)?, tokens)),
    }
}

#[cycle(expressions)]
#[tactic(auto, unfolding(crate::specs::Reading::further_of, v_syntax::specs::ExpressionTrees::selects_height, v_syntax::specs::ExpressionTrees::select_height))]
fn further_at(
    alloc: Global,
    total: usize,
    room: usize,
    first: MeasuredSelect,
    tokens: &[Token],
) -> Result<(MeasuredSelects, &[Token]), ReadError>
    requires room { room < 1000 }
    requires height { IsMeasuredSelect room first }
    ensures gives { Gives (λ x. (view_selects x.0.selects.value, x.1.now)) result
        (further_of total room (below total room) (view_select first.select.value) tokens.now) }
    ensures height { IfOk result (λ x. IsMeasuredSelects (room + 1) x.0) }
{
    let MeasuredSelect { select, height } = first;
    let select = Box::into_inner(select);
    let Some(after) = behind(Mark::OpenBracket, tokens) else {
        return Ok((one(alloc, select, height)?, tokens));
    };
    match select {
        Select::Bit { at, index } => {
            let (found, rest) = select_at(alloc, total, room, tokens, after)?;
            let expression = index;
            let word = Measured { expression, height };
            Ok((of_word(alloc, at, word, found)?, rest))
        }
        select => Ok((one(alloc, select, height)?, tokens)),
    }
}

#[cycle(expressions)]
#[tactic(auto, unfolding(crate::specs::Reading::select_of))]
fn select_at<'a>(
    alloc: Global,
    total: usize,
    room: usize,
    here: &[Token],
    behind: &'a [Token],
) -> Result<(MeasuredSelect, &'a [Token]), ReadError>
    requires { room < 1000 }
    ensures gives { Gives (λ x. (view_select x.0.select.value, x.1.now)) result (select_of total room (below total room) here.now behind.now) }
    ensures height { IfOk result (λ x. IsMeasuredSelect room x.0) }
{
    let below = down(total, room, here)?;
    let (first, rest) = expression_at(alloc, total, below, behind)?;
    bound_at(alloc, total, below, place(total, here), first, rest)
}

#[cycle(expressions)]
#[tactic(auto, unfolding(crate::specs::Reading::bound_of, v_syntax::specs::ExpressionTrees::select_height))]
fn bound_at(
    alloc: Global,
    total: usize,
    below: usize,
    at: TokenNumber,
    first: Measured,
    tokens: &[Token],
) -> Result<(MeasuredSelect, &[Token]), ReadError>
    requires room { below < 1000 }
    requires height { IsMeasured (below + 1) first }
    ensures gives { Gives (λ x. (view_select x.0.select.value, x.1.now)) result
        (bound_of at (layer total below (Reading.below total below)) (view first.expression.value) tokens.now) }
    ensures height { IfOk result (λ x. IsMeasuredSelect (below + 1) x.0) }
{
    match behind(Mark::CloseBracket, tokens) {
        Some(after) => Ok((bit(alloc, at, first)?, after)),
        None => range_at(alloc, total, below, at, first, tokens),
    }
}

#[cycle(expressions)]
#[tactic(auto, unfolding(crate::specs::Reading::range_of, v_syntax::specs::ExpressionTrees::select_height))]
fn range_at(
    alloc: Global,
    total: usize,
    below: usize,
    at: TokenNumber,
    first: Measured,
    tokens: &[Token],
) -> Result<(MeasuredSelect, &[Token]), ReadError>
    requires room { below < 1000 }
    requires height { IsMeasured (below + 1) first }
    ensures gives { Gives (λ x. (view_select x.0.select.value, x.1.now)) result
        (range_of at (layer total below (Reading.below total below)) (view first.expression.value) tokens.now) }
    ensures height { IfOk result (λ x. IsMeasuredSelect (below + 1) x.0) }
{
    match behind(Mark::Colon, tokens) {
        Some(rest) => {
            let (right, rest) = last_at(alloc, total, below, rest)?;
            Ok((part(alloc, at, first, right)?, rest))
        }
        None => {
            let rest = after(Mark::PlusColon, tokens)?;
            let (width, rest) = last_at(alloc, total, below, rest)?;
            Ok((indexed_part(alloc, at, first, width)?, rest))
        }
    }
}

/// An expression and a closing bracket.
#[cycle(expressions)]
#[tactic(auto, unfolding(crate::specs::Reading::last_of))]
fn last_at(
    alloc: Global,
    total: usize,
    below: usize,
    tokens: &[Token],
) -> Result<(Measured, &[Token]), ReadError>
    requires { below < 1000 }
    ensures gives { Gives (λ x. (view x.0.expression.value, x.1.now)) result (last_of (layer total below (Reading.below total below)) tokens.now) }
    ensures height { IfOk result (λ x. IsMeasured (below + 1) x.0) }
{
    let (last, rest) = expression_at(alloc, total, below, tokens)?;
    Ok((last, after(Mark::CloseBracket, rest)?))
}
